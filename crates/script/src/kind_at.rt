// What is asked of a kind itself. A kind presumes a QP up to 51, as many numbers as its tile has samples,
// and a residual in -255..255: anything else is a fault here.
ghost use Rattle.std.specs.Prelude.{◌≡◌, length, OnOk};
ghost use Rattle.kinds.specs.Meaning.{Differences, area};
ghost use Rattle.script.specs.Kinds.{meaning_of};

use crate::answer::Answer;
use crate::fault::Fault;
use crate::kind::KindName;
use crate::undone::Undone;
use kinds::{Kind, Qp, Sort};
use std::alloc::Global;

// A kind, asked at a number that is as yet no QP: it becomes one at the call, since other faults of a line come first.
#[derive(Clone, Copy)]
pub struct KindAt {
    pub kind: KindName,
    pub qp: u8,
}

impl KindAt {
    pub fn levels(self, heap: Global, sort: Sort, residual: &[i16]) -> Result<Answer, Undone> {
        let qp = Qp::try_from(self.qp)?;
        self.check_count(residual)?;
        check_differences(residual)?;
        let mut levels = vec![in heap; 0i16; residual.len()]?;
        let mut reconstruction = vec![in heap; 0i16; residual.len()]?;
        self.kind.levels(
            qp,
            sort,
            residual,
            levels.as_mut_slice(),
            reconstruction.as_mut_slice(),
        )?;
        Ok(Answer::Levels(levels))
    }

    pub fn rebuild(self, heap: Global, levels: &[i16]) -> Result<Answer, Undone> {
        let qp = Qp::try_from(self.qp)?;
        self.check_count(levels)?;
        let mut residual = vec![in heap; 0i16; levels.len()]?;
        self.kind.reconstruct(qp, levels, residual.as_mut_slice())?;
        Ok(Answer::Residual(residual))
    }

    pub fn distance(self, sort: Sort) -> Result<Answer, Undone> {
        let qp = Qp::try_from(self.qp)?;
        Ok(Answer::Distance(self.kind.distance(qp, sort)))
    }

    fn check_count(self, numbers: &[i16]) -> Result<(), Fault>
        ensures { OnOk result (length numbers.now ≡ area (meaning_of self.kind)) }
    {
        let count = self.kind.edge() * self.kind.edge();
        if numbers.len() != count {
            return Err(Fault::NotTile(count));
        }
        Ok(())
    }
}

// Not Exact's test of its levels, though it asks the same: what a residual may be is a rule of all kinds.
fn check_differences(residual: &[i16]) -> Result<(), Fault>
    ensures { OnOk result (Differences residual.now) }
{
    if !residual
        .iter()
        .all(|difference| (-255..=255).contains(difference))
    {
        return Err(Fault::NotDifference);
    }
    Ok(())
}
