// The exact kind, tag 5, edge 4: the level is the residual, whatever the QP and the sort.
// A level outside -255..255, which no residual has, is refused.
ghost use Rattle.std.specs.Prelude.{◌≡◌};
ghost use Rattle.kinds.specs.Exact.{exact, narrow as is_narrow, all_narrow};
ghost use Rattle.std.proofs.Common.{rules};

use crate::kind::{Kind, Sort, WidthFault};
use crate::qp::Qp;

#[derive(Clone, Copy)]
pub struct Exact;

impl Kind for Exact {
    ghost meaning = { λ _. exact };

    ghost facts = { Prim.search rules };

    fn edge(&self) -> usize {
        4
    }

    fn tag(&self) -> u8 {
        5
    }

    fn levels(
        &self,
        _qp: Qp,
        _sort: Sort,
        residual: &[i16],
        levels: &mut [i16],
        reconstruction: &mut [i16],
    ) -> Result<(), WidthFault> {
        levels.copy_from_slice(residual);
        reconstruction.copy_from_slice(residual);
        Ok(())
    }

    fn reconstruct(
        &self,
        _qp: Qp,
        levels: &[i16],
        reconstruction: &mut [i16],
    ) -> Result<(), WidthFault> {
        if !all_narrow(levels) {
            return Err(WidthFault);
        }
        reconstruction.copy_from_slice(levels);
        Ok(())
    }

    fn distance(&self, _qp: Qp, _sort: Sort) -> u32 {
        0
    }
}

// Every level is one that a residual can have. It looks at all of them: a loop with no exit is quicker. A loop of its own, as
// the transforms have theirs: a closure for the test would bring a clause as long.
fn all_narrow(levels: &[i16]) -> bool
    ensures { result ≡ all_narrow levels.now }
{
    let mut all = true;
    for level in levels {
        all &= narrow(*level);
    }
    all
}

// A test of its own, beside the one of the transforms: of 16 bits, with two ends that it knows.
fn narrow(level: i16) -> bool
    ensures { result ≡ is_narrow level }
{
    -255 <= level && level <= 255
}
