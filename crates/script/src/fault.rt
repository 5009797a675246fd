// What is wrong with a line, in plain words. A line with a fault changes nothing.
ghost use Rattle.std.specs.Prelude.{◌≡◌};
ghost use Rattle.script.specs.declared.fault.Fault.TheVariants.{NotText, NoMemory};

use crate::command::MOST_NUMBERS;
use std::alloc::AllocError;
use std::fmt;
use std::str::Utf8Error;

#[derive(Clone, Copy)]
pub enum Fault {
    NotText,
    UnknownCommand,
    // a word is missing or one too many: the form of the command
    Form(&'static str),
    UnknownKind,
    UnknownEnd,
    UnknownSort,
    // the word that should be a number, and the numbers that it may be
    NotNumber(&'static str, &'static str),
    TooManyNumbers,
    // the most memory that can be set
    TooMuch(usize),
    NotOpen,
    // what was asked for, by its place among what the camera gave out
    NotGiven(usize),
    NotUnit(usize),
    NotRestart(usize),
    QpAbove,
    // as many numbers as a tile of the kind has samples
    NotTile(usize),
    NotDifference,
    NoMemory,
}

impl fmt::Display for Fault {
    fn fmt<W: fmt::Write>(&self, f: &mut fmt::Formatter<W>) -> fmt::Result {
        match self {
            Fault::NotText => write!(f, "the line is not UTF-8 text"),
            Fault::UnknownCommand => write!(f, "unknown command"),
            Fault::Form(form) => write!(f, "the command is written: {form}"),
            Fault::UnknownKind => write!(f, "unknown kind"),
            Fault::UnknownEnd => write!(f, "the end is neither camera nor handset"),
            Fault::UnknownSort => write!(f, "the sort is neither intra nor inter"),
            Fault::NotNumber(name, range) => write!(f, "{name} is not a number from {range}"),
            Fault::TooManyNumbers => write!(f, "more than {MOST_NUMBERS} numbers"),
            Fault::TooMuch(most) => write!(f, "N is above {most}"),
            Fault::NotOpen => write!(f, "no ends are open"),
            Fault::NotGiven(index) => write!(f, "nothing was given out as {index}"),
            Fault::NotUnit(index) => write!(f, "{index} is a restart, not a unit"),
            Fault::NotRestart(index) => write!(f, "{index} is a unit, not a restart"),
            Fault::QpAbove => write!(f, "QP is above 51"),
            Fault::NotTile(count) => write!(f, "the kind takes {count} numbers"),
            Fault::NotDifference => write!(f, "a residual is not from -255 to 255"),
            Fault::NoMemory => write!(f, "no memory is left"),
        }
    }
}

impl From<AllocError> for Fault {
    ghost from_gives = { λ _ fault. fault ≡ NoMemory };

    fn from(_error: AllocError) -> Fault {
        Fault::NoMemory
    }
}

impl From<Utf8Error> for Fault {
    ghost from_gives = { λ _ fault. fault ≡ NotText };

    fn from(_error: Utf8Error) -> Fault {
        Fault::NotText
    }
}
