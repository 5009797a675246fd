// Replays a script: reads it from standard input, one command a line, and prints the answers.
#![tactic(auto)]

use anyhow::anyhow;
use script::{Session, Undone};
use std::io::{BufRead, BufReader, BufWriter, Write};

fn main(rt: HostRuntime) -> anyhow::Result<()> {
    let mut session = Session::new(rt.alloc());
    let mut out = BufWriter::new(rt.alloc(), rt.stdout())?;
    let mut wrong = false;
    let lines = BufReader::new(rt.alloc(), rt.stdin())?.split(rt.alloc(), b'\n');
    for (i, line) in lines.enumerate() {
        match session.answer_line(line?.as_slice()) {
            Ok(Some(answer)) => writeln!(out, "{answer}")?,
            Ok(None) => {}
            Err(Undone::InError(fault)) => {
                wrong = true;
                writeln!(out, "error line {}: {fault}", i.saturating_add(1))?;
            }
            Err(refused) => writeln!(out, "{refused}")?,
        }
    }
    out.flush()?;
    if wrong {
        return Err(anyhow!("a line was in error"));
    }
    Ok(())
}
