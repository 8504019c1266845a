//! Lines of text between a person, or a program, and a warehouse: commands read, and answers written.
#![tactic(auto)]

mod amount;
pub mod answer;
pub mod command;
pub mod help;
pub mod laws;
pub mod line;
mod reading;
#[cfg(test)]
mod tests;
pub mod text;
mod verb;
mod words;
pub mod wrong;
