// A store chosen at run time, and piles of it.
#![tactic(auto)]

pub mod bottoms;
pub mod boxed;
pub mod either;
pub mod either_store;
pub mod laying;
pub mod piles;
