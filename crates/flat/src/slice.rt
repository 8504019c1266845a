// A slice of numbers as a store, with the counts of its cells and of its zero cells beside it.
ghost use Rattle.std.specs.Prelude.{◌≡◌, ℕ, ◌+◌, ◌≤◌, length};
ghost use Rattle.haar.specs.Tiles.{cell_count};
ghost use Rattle.store.specs.Faults.{checked};
ghost use Rattle.store.specs.Meaning.{filled};
ghost use Rattle.flat.specs.Slice.{number_at};

use store::fault::CellFault;

#[derive(Drop)]
pub struct Flat<'a> {
    // the cells, and what lies past them
    pub(crate) numbers: &'a mut [i64],
    pub(crate) bands: u8,
    // how many cells there are; every access compares with it
    pub(crate) count: u32,
    // how many cells are zero
    pub(crate) zeros: u32,
    ghost few: { bands ≤ 5 },
    ghost sized: { count ≡ cell_count bands },
    ghost long: { cell_count bands ≤ length numbers.now },
    ghost counted: { zeros + filled (number_at numbers.now) (cell_count bands) ≡ cell_count bands },
}

impl Flat<'_> {
    // Refuses a cell past the count.
    pub(crate) fn check(&self, cell: u32) -> Result<(), CellFault>
        ensures { result ≡ checked self.now.bands cell }
    {
        if cell >= self.count {
            return Err(CellFault::Cell(cell));
        }
        Ok(())
    }
}
