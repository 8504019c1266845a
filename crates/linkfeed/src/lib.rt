//! A link to the motor board as the source of a feed: what a Feeding link hands on, until it hands on none.
#![tactic(auto)]

pub mod feeding;
pub mod session;
pub mod source;
pub mod stopping;
