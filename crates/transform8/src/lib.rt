// The 8 by 8 transform, as one of the transforms that the crate `transform` takes through its steps.
// eight: the transform. tables: its multipliers, factors and classes. forward: its pass, a column at a time.
// inverse: its pass, over eight columns side by side.
#![tactic(auto)]

mod eight;
mod forward;
mod inverse;
mod tables;

pub use eight::Eight;
