// The console feed: one command after another, to its line or its refusal.
#![tactic(auto)]

pub mod fault;
mod load;
pub mod run;
pub mod stepped;
