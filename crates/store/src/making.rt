// A sparse store made.
ghost use Rattle.store.specs.SparseMeaning.{Made, sparse_means};

use crate::sparse::{SIZE, Sparse};
use crate::table::Table;
use haar::cells::cell_count;

impl Sparse {
    /// An empty store. Bands become the nearest of 1 to 5, and capacity the nearest of 1 to 1,024 or, if that is less, the cell count.
    pub fn new(bands: u8, capacity: u16) -> Sparse
        ensures { Made bands capacity (sparse_means result) }
    {
        let bands = bands.clamp(1, 5);
        let cells = cell_count(bands) as usize;
        Sparse {
            table: Table::new(),
            capacity: usize::from(capacity).clamp(1, SIZE.min(cells)),
            bands,
        }
    }
}
