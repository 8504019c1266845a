// The law of a feed: what its commands print is what a plain recount gives.
#![tactic(auto)]

pub mod laws;
