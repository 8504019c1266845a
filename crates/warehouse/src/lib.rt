// The warehouse: its record over any store, founding, and questions.
#![tactic(auto)]

pub mod ask;
pub mod fault;
pub mod founding;
pub mod laws;
mod mean;
pub mod numbers;
mod range;
mod read;
pub mod reading;
pub mod record;
pub mod tile;
mod tree;
pub mod trend;
pub mod warehouse;
pub mod words;
