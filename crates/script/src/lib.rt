// A script that drives both ends of the monitor: one command a line, one answer a command.
// parse reads a line into a command, session runs it, answer, undone and fault write the text of what came of it.
// A line in error, and a call that is refused, leaves the session as it was.
#![tactic(auto)]

mod answer;
mod camera_side;
mod command;
mod decimal;
mod fault;
mod handset_side;
mod kind;
mod kind_at;
mod memory;
mod opened;
mod parse;
mod session;
mod undone;

pub use answer::Answer;
pub use fault::Fault;
pub use session::Session;
pub use undone::Undone;
