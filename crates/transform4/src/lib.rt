// The 4 by 4 transform, as one of the transforms that the crate `transform` takes through its steps.
// four: the transform. tables: its multipliers, factors and classes. forward and inverse: its passes,
// over four columns side by side.
#![tactic(auto)]

mod forward;
mod four;
mod inverse;
mod tables;

pub use four::Four;
