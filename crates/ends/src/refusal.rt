// Why a call was refused. The numbers are part of the product, and are tested in this order.
ghost use Rattle.std.specs.Prelude.{◌≡◌, Some};
ghost use Rattle.ends.specs.declared.refusal.Refusal.TheVariants.{Qp as qp, Mode as mode, Width as width};
ghost use Rattle.ends.specs.Refusals.{number_of};
ghost use Rattle.ends.specs.Words.{word_of};

use crate::mode::ModeFault;
use kinds::{QpFault, WidthFault};
use std::fmt;

#[derive(Clone, Copy)]
pub enum Refusal {
    // open: width or height is no multiple of 16 from 16 to 1024
    Size = 1,
    // the plane is not width x height bytes
    Plane = 2,
    // the camera's count, or the number handed to the handset, is 4294967295
    Count = 3,
    // the tag is not the kind's (follow), or not 0 (resume)
    Tag = 4,
    // the number handed to the handset is below its count
    Late = 5,
    // the number handed to follow is above the handset's count
    Early = 6,
    // the QP is above 51
    Qp = 7,
    // the mode is above 3
    Mode = 8,
    // x or y is no multiple of the edge, or the tile leaves the plane
    Place = 9,
    // the source or the levels do not number edge x edge
    Length = 10,
    // mode 1 at y = 0, or mode 2 at x = 0
    Border = 11,
    // the kind refuses: a number left its width
    Width = 12,
}

impl Refusal {
    // For firmware, which knows a refusal by its number. A call with a name and no From: `refusal.number()` says what it gives.
    pub fn number(self) -> u8
        ensures { result ≡ number_of self }
    {
        self as u8
    }
}

// The reason, in one word.
impl fmt::Display for Refusal {
    ghost output = { λ refusal. Some (word_of refusal) };

    fn fmt<W: fmt::Write>(&self, f: &mut fmt::Formatter<W>) -> fmt::Result {
        let word = match self {
            Refusal::Size => "size",
            Refusal::Plane => "plane",
            Refusal::Count => "count",
            Refusal::Tag => "tag",
            Refusal::Late => "late",
            Refusal::Early => "early",
            Refusal::Qp => "qp",
            Refusal::Mode => "mode",
            Refusal::Place => "place",
            Refusal::Length => "length",
            Refusal::Border => "border",
            Refusal::Width => "width",
        };
        f.write_str(word)
    }
}

impl From<QpFault> for Refusal {
    ghost from_gives = { λ _ refusal. refusal ≡ qp };

    fn from(_fault: QpFault) -> Self {
        Self::Qp
    }
}

impl From<ModeFault> for Refusal {
    ghost from_gives = { λ _ refusal. refusal ≡ mode };

    fn from(_fault: ModeFault) -> Self {
        Self::Mode
    }
}

impl From<WidthFault> for Refusal {
    ghost from_gives = { λ _ refusal. refusal ≡ width };

    fn from(_fault: WidthFault) -> Self {
        Self::Width
    }
}
