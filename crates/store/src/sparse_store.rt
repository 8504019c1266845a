// The sparse store's calls.
ghost use Rattle.std.specs.Prelude.{◌≡◌};
ghost use Rattle.store.specs.Laws.{table_lawful};
ghost use Rattle.store.specs.SparseMeaning.{sparse_means, sparse_puts};

use crate::fault::{CellFault, check_cell};
use crate::interface::Store;
use crate::sparse::Sparse;

impl Store for Sparse {
    ghost means = { sparse_means };

    ghost puts = { sparse_puts };

    // nothing is ever held back
    ghost settled = { λ s t. t ≡ s };

    ghost laws = { λ s. table_lawful s.table s.bands s.capacity s.few s.celled s.counted };

    fn bands(&self) -> u8 {
        self.bands
    }

    fn read(&self, cell: u32) -> Result<i64, CellFault> {
        check_cell(self.bands, cell)?;
        Ok(self.table.get(cell).unwrap_or(0))
    }

    fn write(&mut self, cell: u32, value: i64) -> Result<(), CellFault> {
        check_cell(self.bands, cell)?;
        self.table.put(cell, value, self.capacity)
    }

    fn fits(&self, more: u32) -> bool {
        more as usize <= self.capacity - self.table.entries().len()
    }

    fn is_clean(&self) -> bool {
        true
    }

    fn settle(&mut self) {}
}
