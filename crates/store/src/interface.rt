// What a store is, whatever it is made of.
ghost use Rattle.std.specs.Prelude.{◌≡◌, ℕ, ℤ, Ok, Err};
ghost use Rattle.store.specs.Meaning.{Meaning, Lawful, Reads, Writes, Fits, Settles};

use crate::fault::CellFault;

pub trait Store {
    // what the store is known by; what it tells of cells at or past the count is free
    ghost means: { Self → Meaning };

    // what a number written to a cell makes of the store, also in what it is not known by: what a layer holds, a slice past its cells
    ghost puts: { Self → ℕ → ℤ → Self → Type 0 };

    // what settling makes of the store, likewise in full
    ghost settled: { Self → Self → Type 0 };

    fn bands(&self) -> u8
        ensures is { result ≡ (means self.now).bands }
        ensures lawful { Lawful (means self.now) };

    fn read(&self, cell: u32) -> Result<i64, CellFault>
        ensures { Reads (means self.now) cell result };

    // an accepted write leaves cleanness free, and so does a load, point addition or growth, which are made of writes
    fn write(&mut self, cell: u32, value: i64) -> Result<(), CellFault>
        ensures writes { Writes (means self.old) cell value result (means self.new) }
        ensures puts { result ≡ Ok tt → puts self.old cell value self.new }
        ensures refused { (f : CellFault) → result ≡ Err f → self.new ≡ self.old };

    // whether so many more cells may go from zero to nonzero
    fn fits(&self, more: u32) -> bool
        ensures { Fits (means self.now) more result };

    fn is_clean(&self) -> bool
        ensures { result ≡ (means self.now).clean };

    // brings what is held back to its place; cells and room stay
    fn settle(&mut self)
        ensures settles { Settles (means self.old) (means self.new) }
        ensures settled { settled self.old self.new };

    ghost laws: { (s : Self) → Lawful (means s) };
}
