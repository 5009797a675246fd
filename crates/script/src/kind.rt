// The kinds of tile coding that a script can name, each of which is a kind itself.
ghost use Rattle.script.specs.Kinds.{meaning_of};
ghost use Rattle.std.proofs.Common.{rules};

use crate::fault::Fault;
use kinds::{Exact, Kind, Qp, Sort, WidthFault};
use std::str::FromStr;

#[derive(Clone, Copy)]
pub enum KindName {
    Exact,
}

impl FromStr for KindName {
    type Err = Fault;

    fn from_str(word: &str) -> Result<KindName, Fault> {
        match word {
            "exact" => Ok(KindName::Exact),
            _ => Err(Fault::UnknownKind),
        }
    }
}

// Asks the kind that a name stands for. A macro: no closure takes kinds of several types, a `dyn Kind` cannot be handed out,
// and a closure over one that is lent would have to say for each method which kind's meaning it is asked by.
macro_rules! ask {
    ($name:expr, $kind:ident => $answer:expr) => {
        match $name {
            KindName::Exact => {
                let $kind = Exact;
                $answer
            }
        }
    };
}

impl Kind for KindName {
    ghost meaning = { meaning_of };

    ghost facts = { Prim.search rules };

    fn edge(&self) -> usize {
        ask!(self, kind => kind.edge())
    }

    fn tag(&self) -> u8 {
        ask!(self, kind => kind.tag())
    }

    fn levels(
        &self,
        qp: Qp,
        sort: Sort,
        residual: &[i16],
        levels: &mut [i16],
        reconstruction: &mut [i16],
    ) -> Result<(), WidthFault> {
        ask!(self, kind => kind.levels(qp, sort, residual, levels, reconstruction))
    }

    fn reconstruct(
        &self,
        qp: Qp,
        levels: &[i16],
        reconstruction: &mut [i16],
    ) -> Result<(), WidthFault> {
        ask!(self, kind => kind.reconstruct(qp, levels, reconstruction))
    }

    fn distance(&self, qp: Qp, sort: Sort) -> u32 {
        ask!(self, kind => kind.distance(qp, sort))
    }
}
