// The kind of a transform: a tile is one block.
ghost use Rattle.std.specs.Prelude.{◌≡◌};
ghost use Rattle.laws.specs.Transformed.{block_kind, p4, p8};
ghost use Rattle.laws.proofs.TileFacts.{kind_facts};

use crate::one_block::OneBlock;
use kinds::{Kind, Qp, Sort, WidthFault};
use transform::{forward_transform, quantise, read, reconstruct, write};
use transform4::Four;
use transform8::Eight;

#[derive(Clone, Copy)]
pub struct BlockKind<T, const N: usize> {
    transform: T,
}

// The kind P4, tag 1, edge 4.
pub type P4 = BlockKind<Four, 4>;

// The kind P8, tag 2, edge 8.
pub type P8 = BlockKind<Eight, 8>;

pub fn p4() -> P4
    ensures { ⟦<P4 as Kind>⟧.meaning result ≡ p4 }
{
    BlockKind { transform: Four }
}

pub fn p8() -> P8
    ensures { ⟦<P8 as Kind>⟧.meaning result ≡ p8 }
{
    BlockKind { transform: Eight }
}

impl<T: OneBlock<N>, const N: usize> Kind for BlockKind<T, N> {
    ghost meaning = { λ _. block_kind T.transform T.TAG T.limit };

    ghost facts = { λ _. kind_facts T.transform T.limit T.TAG N T.points T.near T.edges T.tag_low T.tag_high };

    fn edge(&self) -> usize {
        N
    }

    fn tag(&self) -> u8 {
        T::TAG
    }

    fn levels(
        &self,
        qp: Qp,
        sort: Sort,
        residual: &[i16],
        levels: &mut [i16],
        reconstruction: &mut [i16],
    ) -> Result<(), WidthFault> {
        let coefficients = forward_transform::<T, N>(read(residual));
        let coded = quantise::<T, N>(coefficients, qp, sort);
        let rebuilt = reconstruct::<T, N>(coded, qp).ok_or(WidthFault)?;
        write(&coded, levels);
        write(&rebuilt, reconstruction);
        Ok(())
    }

    fn reconstruct(
        &self,
        qp: Qp,
        levels: &[i16],
        reconstruction: &mut [i16],
    ) -> Result<(), WidthFault> {
        let rebuilt = reconstruct::<T, N>(read(levels), qp).ok_or(WidthFault)?;
        write(&rebuilt, reconstruction);
        Ok(())
    }

    fn distance(&self, qp: Qp, sort: Sort) -> u32 {
        T::distance(qp, sort)
    }
}
