//! What a program over a warehouse needs, by one name. Each item is told where it stands.
#![tactic(auto)]

pub use console::ends::{Sink, Source};
pub use console::fault::RunFault;
pub use console::memory::{Bytes, Page};
pub use console::running::{resume, run};
pub use flat::slice::Flat;
pub use haar::cells::cell_count;
pub use haar::trend::Trend;
pub use haar::written::cells_written;
pub use holdback::held::HoldBack;
pub use loads::growth::grow;
pub use loads::loading::begin;
pub use loads::open::{OpenLoad, RefusedLoad};
pub use loads::point::add_point;
pub use store::fault::CellFault;
pub use store::interface::Store;
pub use store::sparse::Sparse;
pub use warehouse::fault::Refusal;
pub use warehouse::founding::survey;
pub use warehouse::reading::Reading;
pub use warehouse::record::Warehouse;
