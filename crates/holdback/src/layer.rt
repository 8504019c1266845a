// The layer's calls as a store.
ghost use Rattle.holdback.specs.Laws.{layer_lawful};
ghost use Rattle.holdback.specs.Layer.{layer_means, Goes, Rests};

use crate::held::{HoldBack, MOST};
use store::fault::{CellFault, check_cell};
use store::interface::Store;

impl<S: Store> Store for HoldBack<S> {
    ghost means = { layer_means S.Store.means };

    ghost puts = { Goes S.Store.means S.Store.puts };

    ghost settled = { Rests S.Store.means S.Store.puts S.Store.settled };

    ghost laws = { λ h. layer_lawful h.held _ (S.Store.laws h.below) };

    fn bands(&self) -> u8 {
        self.below.bands()
    }

    fn read(&self, cell: u32) -> Result<i64, CellFault> {
        let below = self.below.read(cell)?;
        Ok(self.held.get(cell).unwrap_or(below))
    }

    // A number is held if its cell is held already or an entry is free, and else goes below; zero goes to both.
    fn write(&mut self, cell: u32, value: i64) -> Result<(), CellFault> {
        check_cell(self.below.bands(), cell)?;
        if value == 0 {
            self.held.remove(cell);
            return self.below.write(cell, 0);
        }
        if self.is_barred(cell) {
            return Err(CellFault::Full(cell));
        }
        // no `or_else`, since after it the proof cannot name what its closure left below
        match self.held.put(cell, value, MOST) {
            Ok(()) => Ok(()),
            Err(_) => self.below.write(cell, value),
        }
    }

    fn fits(&self, more: u32) -> bool {
        self.has_room(more)
    }

    fn is_clean(&self) -> bool {
        self.held.entries().is_empty() && self.below.is_clean()
    }

    // Without room for what is held nothing is done, here and below.
    fn settle(&mut self) {
        if !self.has_room(0) {
            return;
        }
        self.bring_down();
    }
}
