// The console feed's bytes: the commands that come in, and the lines that go out.
#![tactic(auto)]

pub mod command;
pub mod decode;
pub mod laws;
pub mod line;
#[cfg(test)]
mod tests;
pub mod write_line;
