// The size of a warehouse, its mark, what lies inside it, and how many of its cells are free.
ghost use Rattle.std.specs.Prelude.{◌≡◌, ℕ, ◌-◌, ◌^◌, ◌<◌, ◌≤◌, ◌↔◌, IsTrue};
ghost use Rattle.haar.specs.Places.{InSize, InTree};
ghost use Rattle.store.specs.Free.{free_cells, IsFree};
ghost use Rattle.store.specs.Meaning.{Lawful};
ghost use Rattle.warehouse.specs.Grading.{inside};
ghost use Rattle.warehouse.specs.View.{known};

use crate::record::Warehouse;
use haar::cells::is_inside;
use store::free::free_cells;
use store::interface::Store;

impl<S: Store> Warehouse<S> {
    // The size asked for, cut to what the store's bands can have.
    pub fn size(&self) -> u8
        ensures is { result ≡ (known S.means self.now).size }
        ensures most { result ≤ 20 }
        ensures lawful { Lawful (S.means self.now.store) }
    {
        self.asked.min(4 * self.store.bands())
    }

    /// One past the highest minute that an addition covered, cut to the end of the size.
    pub fn mark(&self) -> u32
        ensures is { result ≡ (known S.means self.now).mark }
        ensures most { result ≤ 2 ^ (known S.means self.now).size }
        ensures few { (known S.means self.now).size ≤ 20 }
    {
        self.mark.min(1 << self.size())
    }

    // Whether the interval (level, index) lies inside the size.
    pub fn has(&self, level: u8, index: u32) -> bool
        ensures is { result ≡ inside (known S.means self.now).size level index }
        ensures lies { IsTrue result ↔ InSize (known S.means self.now).size level index }
        ensures tree { IsTrue result → InTree (S.means self.now.store).bands level index }
    {
        is_inside(self.size(), level, index)
    }

    /// The figure of free cells of its store.
    pub fn free_cells(&self) -> u32
        ensures free { IsFree (S.means self.now.store) result }
        ensures is { result ≡ free_cells (S.means self.now.store) }
    {
        free_cells(&self.store)
    }
}
