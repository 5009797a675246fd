// The arithmetic of the transform kinds, below all of their code: what each step means (specs) and why a coded block
// comes back near what it was (proofs). Both are written once, over a record that describes a transform.
// It knows nothing of planes or memory. The only code is what the quantiser takes from the sort of a prediction.
#![tactic(auto)]

mod quantiser;

pub use quantiser::{error_sixths, rounding};
