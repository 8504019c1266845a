// The flat store's calls.
ghost use Rattle.std.specs.Prelude.{◌≡◌, ◌<◌, Ok, Err};
ghost use Rattle.haar.specs.Tiles.{cell_count};
ghost use Rattle.store.specs.Meaning.{Writes};
ghost use Rattle.flat.specs.FlatMeaning.{flat_means, FlatPuts};
ghost use Rattle.flat.specs.Laws.{slice_lawful};

use crate::slice::Flat;
use crate::zeros::zeros_after;
use store::fault::CellFault;
use store::interface::Store;

impl Store for Flat<'_> {
    ghost means = { flat_means };

    ghost puts = { FlatPuts };

    // nothing is ever held back: itself, and so the same loan
    ghost settled = { λ s t. t ≡ s };

    ghost laws = { λ s. slice_lawful s.numbers.now s.bands s.zeros s.few s.counted };

    fn bands(&self) -> u8 {
        self.bands
    }

    fn read(&self, cell: u32) -> Result<i64, CellFault> {
        self.check(cell)?;
        Ok(self.numbers[cell as usize])
    }

    // Never full: a zero cell is room for its own number.
    fn write(&mut self, cell: u32, value: i64) -> Result<(), CellFault>
        ensures writes { Writes (flat_means self.old) cell value result (flat_means self.new) }
        ensures puts { result ≡ Ok tt → FlatPuts self.old cell value self.new }
        ensures refused { (f : CellFault) → result ≡ Err f → self.new ≡ self.old }
        ensures never_full { cell < cell_count self.old.bands → result ≡ Ok tt }
    {
        self.check(cell)?;
        let zeros = zeros_after(self.zeros, self.numbers[cell as usize], value);
        // in parts, since a write through `self.numbers` would need the count right before it too
        let Flat {
            numbers,
            zeros: kept,
            ..
        } = self;
        numbers[cell as usize] = value;
        *kept = zeros;
        Ok(())
    }

    fn fits(&self, more: u32) -> bool {
        more <= self.zeros
    }

    fn is_clean(&self) -> bool {
        true
    }

    fn settle(&mut self) {}
}
