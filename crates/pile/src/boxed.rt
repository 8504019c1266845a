// A store in memory of its own, so that what is moved is small.
ghost use Rattle.std.specs.Prelude.{◌≡◌};
ghost use Rattle.pile.specs.Boxed.{boxed_means, boxed_puts, boxed_settled};

use store::fault::CellFault;
use store::interface::Store;

/// A store on the heap.
#[derive(Drop)]
pub struct Boxed<S: Drop> {
    pub store: Box<S>,
}

impl<S: Store + Drop> Store for Boxed<S> {
    ghost means = { boxed_means S.Store.means };

    ghost puts = { boxed_puts S.Store.puts };

    ghost settled = { boxed_settled S.Store.settled };

    ghost laws = { λ b. S.Store.laws b.store.value };

    fn bands(&self) -> u8 {
        self.store.bands()
    }

    fn read(&self, cell: u32) -> Result<i64, CellFault> {
        self.store.read(cell)
    }

    fn write(&mut self, cell: u32, value: i64) -> Result<(), CellFault> {
        self.store.write(cell, value)
    }

    fn fits(&self, more: u32) -> bool {
        self.store.fits(more)
    }

    fn is_clean(&self) -> bool {
        self.store.is_clean()
    }

    fn settle(&mut self) {
        self.store.settle();
    }
}
