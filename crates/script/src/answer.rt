// What a command answers, and the text of it: one line, or several for a plane and for the page.
use crate::command::{Amount, End};
use ends::{Coding, Heading, Size};
use std::fmt;

#[derive(Drop)]
pub enum Answer {
    Opened {
        size: Size,
        first: u32,
    },
    Unit {
        index: usize,
        heading: Heading,
        levels: Vec<i16>,
    },
    Restart {
        index: usize,
        number: u32,
    },
    Taken(u32),
    Memory(End, Amount),
    Room(Amount),
    Plane {
        size: Size,
        samples: Vec<u8>,
    },
    Count(u32),
    // the count of the handset, and the tile that it took last
    Page {
        count: u32,
        last: Option<Coding>,
    },
    Levels(Vec<i16>),
    Residual(Vec<i16>),
    Distance(u32),
}

impl fmt::Display for Answer {
    fn fmt<W: fmt::Write>(&self, f: &mut fmt::Formatter<W>) -> fmt::Result {
        match self {
            Answer::Opened { size, first } => {
                write!(f, "opened {} {} count {first}", size.width, size.height)
            }
            Answer::Unit {
                index,
                heading,
                levels,
            } => show_unit(f, *index, *heading, levels.as_slice()),
            Answer::Restart { index, number } => write!(f, "restart {index}: number {number}"),
            Answer::Taken(count) => write!(f, "taken, count {count}"),
            Answer::Memory(end, amount) => write!(f, "memory {end} {amount}"),
            Answer::Room(amount) => write!(f, "room {amount}"),
            Answer::Plane { size, samples } => show_plane(f, *size, samples.as_slice()),
            Answer::Count(count) => write!(f, "count {count}"),
            Answer::Page { count, last } => show_page(f, *count, *last),
            Answer::Levels(levels) => {
                write!(f, "levels ")?;
                show_numbers(f, levels.as_slice())
            }
            Answer::Residual(residual) => {
                write!(f, "residual ")?;
                show_numbers(f, residual.as_slice())
            }
            Answer::Distance(distance) => write!(f, "distance {distance}"),
        }
    }
}

fn show_unit<W: fmt::Write>(
    f: &mut fmt::Formatter<W>,
    index: usize,
    heading: Heading,
    levels: &[i16],
) -> fmt::Result {
    let Heading {
        number,
        tag,
        coding,
    } = heading;
    let Coding { x, y, qp, mode } = coding;
    write!(
        f,
        "unit {index}: number {number} place {x} {y} tag {tag} qp {qp} mode {mode} levels "
    )?;
    show_numbers(f, levels)
}

fn show_plane<W: fmt::Write>(f: &mut fmt::Formatter<W>, size: Size, samples: &[u8]) -> fmt::Result {
    // A plane that was opened has a width, so the 1 is never used.
    let width = usize::from(size.width).max(1);
    // By number, as below, to know the first, which nothing stands before. Two loops: what separates their elements differs, and
    // how each is printed.
    for (i, row) in samples.chunks(width).enumerate() {
        if i > 0 {
            write!(f, "\n")?;
        }
        show_numbers(f, row)?;
    }
    Ok(())
}

// Numbers with blanks between them: a tile and a row of a plane have at least one.
fn show_numbers<T: fmt::Display, W: fmt::Write>(
    f: &mut fmt::Formatter<W>,
    numbers: &[T],
) -> fmt::Result {
    for (i, number) in numbers.iter().enumerate() {
        if i > 0 {
            write!(f, " ")?;
        }
        write!(f, "{number}")?;
    }
    Ok(())
}

fn show_page<W: fmt::Write>(
    f: &mut fmt::Formatter<W>,
    count: u32,
    last: Option<Coding>,
) -> fmt::Result {
    write!(f, "count {count}\nlast tile ")?;
    match last {
        Some(Coding { x, y, qp, .. }) => write!(f, "{x} {y} qp {qp}"),
        None => write!(f, "none"),
    }
}
