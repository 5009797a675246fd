// What all transforms share, written once for any number of points: the steps of a block, out to levels and back.
// transform: what a transform of N by N points has to give. block: blocks of numbers as arrays of rows by value. lanes: lines
// in vectors. steps: the steps over a whole block, for any transform. quantiser, rescaling: numbers by the class of their place.
#![tactic(auto)]

mod block;
mod lanes;
mod quantiser;
mod rescaling;
mod steps;
mod transform;

pub use block::{
    LARGEST, LARGEST_COLUMN, block_fits, column, read, shortened, transposed, widened, write,
};
pub use lanes::{difference, shifted, sum};
pub use quantiser::Quantiser;
pub use rescaling::Rescaling;
pub use steps::{forward_transform, inverse_transform, quantise, reconstruct, rescale};
pub use transform::Transform;
