#![tactic(auto)]

// Tests of the script's faulty lines: each says what is wrong with it.
// They stand in a crate of their own, since a crate with tests is proved a second time with them.
// What a script without faults prints is tested by the program.
#[cfg(test)]
mod faults;
