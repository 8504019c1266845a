// The flat store: its cells are the numbers of a slice of the caller's.
#![tactic(auto)]

pub mod flat_store;
pub mod making;
pub mod slice;
#[cfg(test)]
mod tests;
mod zeros;
