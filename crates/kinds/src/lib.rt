// Kinds of tile coding, the lowest layer: a kind turns the residual of a tile into levels and back.
// kind: the interface that every kind meets, with the facts it must show. qp: the quantiser parameter.
// exact: the kind whose levels are the residual itself. No kind knows of planes, counts or headings.
#![tactic(auto)]

mod exact;
mod kind;
mod qp;

pub use exact::Exact;
pub use kind::{Kind, Sort, WidthFault};
pub use qp::{Qp, QpFault};
