// A feed as text, one command a line, and in words.
#![tactic(auto)]

mod encode;
pub mod fault;
pub mod feed;
mod fields;
pub mod laws;
mod line;
#[cfg(test)]
mod tests;
pub mod text;
pub mod words;
