// The hold-back layer: a store that holds a few numbers over another store.
#![tactic(auto)]

pub mod held;
pub mod layer;
pub mod making;
mod room;
mod settling;
#[cfg(test)]
mod tests;
