// The two ends of the monitor, the upper layer: a camera codes tiles of its plane, a handset follows.
// camera, handset: the public calls; their contracts pin every answer, and carry the law over all runs.
// Below them: rules (what is handed in becomes a task, or is refused), coder (a tile through a kind), window (a tile in its
// lent plane) with prediction, and samples. Kinds are used by their promise alone.
#![tactic(auto)]

mod camera;
mod coder;
mod coding;
mod end;
mod handset;
mod mode;
mod plane;
mod prediction;
mod refusal;
mod rules;
mod samples;
mod task;
mod tile;
mod window;

pub use camera::Camera;
pub use coding::{Coding, Heading};
pub use handset::Handset;
pub use plane::Size;
pub use refusal::Refusal;
