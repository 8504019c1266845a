// The minute tree in tiles of sixteen: its laws, the cells of its coefficients, and what a load writes.
#![tactic(auto)]

pub mod cells;
pub mod coefficient;
pub mod laws;
pub mod narrow;
pub mod tile;
pub mod trend;
pub mod written;
