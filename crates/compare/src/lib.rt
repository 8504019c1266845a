// Two warehouses compared, what their agreement is, and the histories that calls make.
#![tactic(auto)]

pub mod call;
pub mod comparing;
pub mod comparison;
pub mod playing;
#[cfg(test)]
mod tests;
