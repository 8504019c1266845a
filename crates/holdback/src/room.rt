// How much room the layer has: the room below, less the held cells that are zero below.
ghost use Rattle.std.specs.Prelude.{◌≡◌, ◌<◌, ◌≤◌, ◌≢◌, ◌↔◌, ℤ, pos, IsTrue};
ghost use Rattle.haar.specs.Tiles.{cell_count};
ghost use Rattle.store.specs.Meaning.{Fits, Bars};
ghost use Rattle.holdback.specs.Over.{zero_at};
ghost use Rattle.holdback.specs.Layer.{fresh_held, layer_means};

use crate::held::HoldBack;
use store::interface::Store;

impl<S: Store> HoldBack<S> {
    // Whether the store below has the cell, and it is zero there.
    fn is_zero_below(&self, cell: u32) -> bool
        ensures { result ≡ zero_at (S.Store.means self.now.below) cell }
    {
        matches!(self.below.read(cell), Ok(0))
    }

    // How many held numbers are for a cell that is zero below.
    fn count_fresh(&self) -> usize
        ensures few { result ≤ 64 }
        ensures is { result ≡ fresh_held S.Store.means self.now }
    {
        self.held
            .entries()
            .iter()
            .filter(|entry| self.is_zero_below(entry.cell))
            .count()
    }

    // Whether so many more cells may go from zero to nonzero.
    pub(crate) fn has_room(&self, more: u32) -> bool
        ensures { Fits (layer_means S.Store.means self.now) more result }
    {
        let fresh = u32::try_from(self.count_fresh()).unwrap();
        // room is at most the zero cells, so the sum may stop at the largest number
        self.below.fits(more.saturating_add(fresh))
    }

    // Whether a number other than zero needs room in the cell, and there is none.
    pub(crate) fn is_barred(&self, cell: u32) -> bool
        requires { cell < cell_count (S.Store.means self.now.below).bands }
        ensures { (v : ℤ) → (v ≢ pos 0) → (IsTrue result ↔ Bars (layer_means S.Store.means self.now) cell v) }
    {
        self.held.get(cell).is_none() && self.is_zero_below(cell) && !self.has_room(1)
    }
}
