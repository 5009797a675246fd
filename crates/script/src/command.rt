// What a line of the script asks for.
ghost use Rattle.std.specs.Prelude.{◌≡◌};
ghost use Rattle.script.specs.Memory.{handed};

use crate::decimal::number;
use crate::fault::Fault;
use crate::kind::KindName;
use crate::kind_at::KindAt;
use ends::{Coding, Heading, Size};
use kinds::Sort;
use std::fmt;
use std::str::FromStr;

// The most numbers that a list may hold, and the most levels of memory that code is handed.
pub const MOST_NUMBERS: usize = 4096;

// The most bytes of memory that an end is handed: more than any plane has.
pub const MOST_MEMORY: usize = 4194304;

#[derive(Drop)]
pub enum Command {
    Open {
        size: Size,
        first: u32,
    },
    Memory(End, Amount),
    Room(Amount),
    Levels {
        kind: KindAt,
        sort: Sort,
        residual: Vec<i16>,
    },
    Rebuild {
        kind: KindAt,
        levels: Vec<i16>,
    },
    Distance {
        kind: KindAt,
        sort: Sort,
    },
    OfEnds(EndsCommand),
}

// What can be asked only of ends that are open.
#[derive(Drop)]
pub enum EndsCommand {
    Code(Source),
    Restart,
    // a unit or a restart, by its place among what the camera gave out
    Follow(usize),
    Resume(usize),
    // a unit or a restart of unknown origin
    Offer(Unit),
    Mark(Heading),
    Plane(End),
    Count(End),
    Page,
}

// A tile for the camera to code.
#[derive(Drop)]
pub struct Source {
    pub kind: KindName,
    pub coding: Coding,
    pub samples: Vec<u8>,
}

// A unit, with the kind to follow it by.
#[derive(Drop)]
pub struct Unit {
    pub kind: KindName,
    pub heading: Heading,
    pub levels: Vec<i16>,
}

#[derive(Clone, Copy)]
pub enum End {
    Camera,
    Handset,
}

impl FromStr for End {
    type Err = Fault;

    fn from_str(word: &str) -> Result<End, Fault> {
        match word {
            "camera" => Ok(End::Camera),
            "handset" => Ok(End::Handset),
            _ => Err(Fault::UnknownEnd),
        }
    }
}

impl fmt::Display for End {
    fn fmt<W: fmt::Write>(&self, f: &mut fmt::Formatter<W>) -> fmt::Result {
        match self {
            End::Camera => write!(f, "camera"),
            End::Handset => write!(f, "handset"),
        }
    }
}

// How much memory a call is handed: all that it asks for, or a number of bytes or levels.
// It is read from and printed as a word, which an Option could not be.
#[derive(Clone, Copy)]
pub enum Amount {
    All,
    Exactly(usize),
}

impl Amount {
    // The number that is handed, where the call asks for `all`.
    pub fn of(self, all: usize) -> usize
        ensures { result ≡ handed self all }
    {
        match self {
            Amount::All => all,
            Amount::Exactly(number) => number,
        }
    }

    // The same amount, if it is no number above `most`.
    pub fn up_to(self, most: usize) -> Result<Amount, Fault> {
        match self {
            Amount::Exactly(number) if number > most => Err(Fault::TooMuch(most)),
            _ => Ok(self),
        }
    }
}

impl FromStr for Amount {
    type Err = Fault;

    fn from_str(word: &str) -> Result<Amount, Fault> {
        match word {
            "all" => Ok(Amount::All),
            _ => Ok(Amount::Exactly(number(word, "N")?)),
        }
    }
}

impl fmt::Display for Amount {
    fn fmt<W: fmt::Write>(&self, f: &mut fmt::Formatter<W>) -> fmt::Result {
        match self {
            Amount::All => write!(f, "all"),
            Amount::Exactly(number) => write!(f, "{number}"),
        }
    }
}
