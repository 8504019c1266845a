// What any store means, and the stores.
#![tactic(auto)]

pub mod entry;
pub mod fault;
pub mod free;
pub mod interface;
pub mod making;
pub mod numbers;
pub mod sparse;
pub mod sparse_store;
pub mod table;
#[cfg(test)]
mod tests;
