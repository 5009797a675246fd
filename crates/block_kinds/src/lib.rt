// The kinds whose tile is one block of a transform: P4 and P8.
// one_block: which transforms make a kind, by their tags. block_kind: the kind of any of them.
// They know nothing of planes, counts or headings.
#![tactic(auto)]

mod block_kind;
mod one_block;

pub use block_kind::{BlockKind, P4, P8, p4, p8};
pub use one_block::OneBlock;
