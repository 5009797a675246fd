// Why a line did nothing: its call was refused, or it was in error.
ghost use Rattle.std.specs.Prelude.{◌≡◌};
ghost use Rattle.ends.specs.declared.refusal.Refusal.TheVariants as no;
ghost use Rattle.script.specs.declared.fault.Fault.TheVariants.{NoMemory, QpAbove};
ghost use Rattle.script.specs.declared.undone.Undone.TheVariants.{Refused, InError};

use crate::fault::Fault;
use ends::Refusal;
use kinds::{QpFault, WidthFault};
use std::alloc::AllocError;
use std::fmt;

#[derive(Clone, Copy)]
pub enum Undone {
    Refused(Refusal),
    InError(Fault),
}

impl fmt::Display for Undone {
    ghost use Rattle.script.specs.Texts.{text_of};

    ghost output = { text_of };

    fn fmt<W: fmt::Write>(&self, f: &mut fmt::Formatter<W>) -> fmt::Result {
        match self {
            Undone::Refused(why) => write!(f, "refused {}: {why}", why.number()),
            Undone::InError(what) => write!(f, "{what}"),
        }
    }
}

impl From<Refusal> for Undone {
    ghost from_gives = { λ refusal undone. undone ≡ Refused refusal };

    fn from(refusal: Refusal) -> Undone {
        Undone::Refused(refusal)
    }
}

// A kind that is asked by itself refuses as it does within a call.
impl From<WidthFault> for Undone {
    ghost from_gives = { λ _ undone. undone ≡ Refused no.Width };

    fn from(_fault: WidthFault) -> Undone {
        Undone::Refused(Refusal::Width)
    }
}

// A number that is no QP never reaches a kind that is asked by itself.
impl From<QpFault> for Undone {
    ghost from_gives = { λ _ undone. undone ≡ InError QpAbove };

    fn from(_fault: QpFault) -> Undone {
        Undone::InError(Fault::QpAbove)
    }
}

impl From<Fault> for Undone {
    ghost from_gives = { λ fault undone. undone ≡ InError fault };

    fn from(fault: Fault) -> Undone {
        Undone::InError(fault)
    }
}

impl From<AllocError> for Undone {
    ghost from_gives = { λ _ undone. undone ≡ InError NoMemory };

    fn from(_error: AllocError) -> Undone {
        Undone::InError(Fault::NoMemory)
    }
}
