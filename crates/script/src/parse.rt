// Reads a line of the script: its words by their places, each command by its form.
use crate::command::{Amount, Command, EndsCommand, MOST_MEMORY, MOST_NUMBERS, Source, Unit};
use crate::decimal::{number, numbers};
use crate::fault::Fault;
use crate::kind_at::KindAt;
use ends::{Coding, Heading, Size};
use kinds::Sort;
use std::alloc::{AllocError, Global};

// The command of a line, or none where it holds only blanks and a comment.
pub fn parse_line(heap: Global, line: &[u8]) -> Result<Option<Command>, Fault> {
    let words = words(heap, std::str::from_utf8(line)?)?;
    if words.is_empty() {
        return Ok(None);
    }
    Ok(Some(command(heap, words.as_slice())?))
}

fn words(heap: Global, line: &str) -> Result<Vec<&str>, AllocError> {
    let text = line.split_once('#').map_or(line, |(text, _)| text);
    text.split([' ', '\t', '\r'])
        .filter(|word| !word.is_empty())
        .collect(heap)
}

fn command(heap: Global, words: &[&str]) -> Result<Command, Fault> {
    match words {
        ["open", width, height, first] => open(width, height, first),
        ["memory", name, bytes] => Ok(Command::Memory(
            name.parse()?,
            bytes.parse::<Amount>()?.up_to(MOST_MEMORY)?,
        )),
        ["room", levels] => Ok(Command::Room(levels.parse::<Amount>()?.up_to(MOST_NUMBERS)?)),
        ["levels", kind, qp, name, ":", residual @ ..] => Ok(Command::Levels {
            kind: kind_at(kind, qp)?,
            sort: sort(name)?,
            residual: numbers(heap, residual)?,
        }),
        ["rebuild", kind, qp, ":", levels @ ..] => Ok(Command::Rebuild {
            kind: kind_at(kind, qp)?,
            levels: numbers(heap, levels)?,
        }),
        ["distance", kind, qp, name] => Ok(Command::Distance {
            kind: kind_at(kind, qp)?,
            sort: sort(name)?,
        }),
        _ => Ok(Command::OfEnds(ends_command(heap, words)?)),
    }
}

fn ends_command(heap: Global, words: &[&str]) -> Result<EndsCommand, Fault> {
    match words {
        ["code", kind, x, y, qp, mode, ":", samples @ ..] => Ok(EndsCommand::Code(Source {
            kind: kind.parse()?,
            coding: coding(x, y, qp, mode)?,
            samples: numbers(heap, samples)?,
        })),
        ["restart"] => Ok(EndsCommand::Restart),
        ["follow", index] => Ok(EndsCommand::Follow(number(index, "I")?)),
        ["resume", index] => Ok(EndsCommand::Resume(number(index, "I")?)),
        ["offer", kind, count, x, y, tag, qp, mode, ":", levels @ ..] => Ok(EndsCommand::Offer(
            Unit {
                kind: kind.parse()?,
                heading: heading(count, tag, coding(x, y, qp, mode)?)?,
                levels: numbers(heap, levels)?,
            },
        )),
        ["mark", count, tag] => Ok(EndsCommand::Mark(mark(count, tag)?)),
        ["plane", name] => Ok(EndsCommand::Plane(name.parse()?)),
        ["count", name] => Ok(EndsCommand::Count(name.parse()?)),
        ["page"] => Ok(EndsCommand::Page),
        [name, ..] => Err(misfit(name)),
        [] => Err(Fault::UnknownCommand),
    }
}

// What is wrong with a line whose words have no form above.
fn misfit(name: &str) -> Fault {
    match name {
        "open" => Fault::Form("open W H FIRST"),
        "code" => Fault::Form("code KIND X Y QP MODE : NUMBERS"),
        "restart" => Fault::Form("restart"),
        "follow" => Fault::Form("follow I"),
        "resume" => Fault::Form("resume I"),
        "offer" => Fault::Form("offer KIND NUMBER X Y TAG QP MODE : NUMBERS"),
        "mark" => Fault::Form("mark NUMBER TAG"),
        "memory" => Fault::Form("memory camera N, or memory handset N"),
        "room" => Fault::Form("room N"),
        "plane" => Fault::Form("plane camera, or plane handset"),
        "count" => Fault::Form("count camera, or count handset"),
        "page" => Fault::Form("page"),
        "levels" => Fault::Form("levels KIND QP SORT : NUMBERS"),
        "rebuild" => Fault::Form("rebuild KIND QP : NUMBERS"),
        "distance" => Fault::Form("distance KIND QP SORT"),
        _ => Fault::UnknownCommand,
    }
}

fn open(width: &str, height: &str, first: &str) -> Result<Command, Fault> {
    let size = Size {
        width: number(width, "W")?,
        height: number(height, "H")?,
    };
    Ok(Command::Open {
        size,
        first: number(first, "FIRST")?,
    })
}

fn kind_at(kind: &str, qp: &str) -> Result<KindAt, Fault> {
    Ok(KindAt {
        kind: kind.parse()?,
        qp: number(qp, "QP")?,
    })
}

// No FromStr: the trait and the type both stand in other crates, and a type of this one would hold nothing but the sort.
fn sort(word: &str) -> Result<Sort, Fault> {
    match word {
        "intra" => Ok(Sort::Intra),
        "inter" => Ok(Sort::Inter),
        _ => Err(Fault::UnknownSort),
    }
}

fn coding(x: &str, y: &str, qp: &str, mode: &str) -> Result<Coding, Fault> {
    Ok(Coding {
        x: number(x, "X")?,
        y: number(y, "Y")?,
        qp: number(qp, "QP")?,
        mode: number(mode, "MODE")?,
    })
}

fn heading(count: &str, tag: &str, coding: Coding) -> Result<Heading, Fault> {
    Ok(Heading {
        number: number(count, "NUMBER")?,
        tag: number(tag, "TAG")?,
        coding,
    })
}

// A restart's heading, but for the tag.
fn mark(count: &str, tag: &str) -> Result<Heading, Fault> {
    let restart = Heading::restart(number(count, "NUMBER")?);
    Ok(Heading {
        tag: number(tag, "TAG")?,
        ..restart
    })
}
