// What a table's calls find in it and do to it.
ghost use Rattle.std.specs.Prelude.{◌≡◌, ◌<◌, ◌≢◌, length, min, pos, Err, MatchResult};
ghost use Rattle.store.specs.Contents.{Empty, in_use, cell_at, Held, Gap, Finds, Stored, Puts};

use crate::entry::{EMPTY, Entry};
use crate::fault::CellFault;
use crate::table::Table;

impl<const N: usize> Table<N> {
    pub fn new() -> Table<N>
        ensures { Empty result }
    {
        Table {
            entries: [EMPTY; N],
            used: 0,
        }
    }

    // The entries in use, in rising cell number.
    pub fn entries(&self) -> &[Entry]
        ensures len { length result.now ≡ self.now.used }
        ensures all { result.now ≡ in_use self.now }
    {
        &self.entries[..self.used]
    }

    // The number of a cell that has one.
    pub fn get(&self, cell: u32) -> Option<i64>
        ensures { Finds self.now cell result }
    {
        let at = self.find(cell).ok()?;
        Some(self.entries[at].value)
    }

    // Another number for a cell; zero takes its entry out. A new entry is refused where `most` or all are in use.
    pub fn put(&mut self, cell: u32, value: i64, most: usize) -> Result<(), CellFault>
        ensures puts { Puts (min most N) self.old cell value result self.new }
        ensures refused { (f : CellFault) → result ≡ Err f → self.new ≡ self.old }
    {
        if value == 0 {
            self.remove(cell);
            return Ok(());
        }
        match self.find(cell) {
            Ok(at) => self.change(at, value),
            Err(_) if self.used >= most.min(N) => return Err(CellFault::Full(cell)),
            Err(at) => self.insert(at, Entry { cell, value }),
        }
        Ok(())
    }

    // Takes a cell's entry out, if it has one.
    pub fn remove(&mut self, cell: u32)
        ensures { Stored self.old cell (pos 0) self.new }
    {
        if let Ok(at) = self.find(cell) {
            self.close(at);
        }
    }

    // Takes all entries out.
    pub fn clear(&mut self)
        ensures { Empty self.new }
    {
        self.used = 0;
    }

    // Where the cell's entry is, or else where it would stand.
    fn find(&self, cell: u32) -> Result<usize, usize>
        ensures { MatchResult result (Held self.now cell) (Gap self.now cell) }
    {
        self.entries[..self.used].binary_search_by_key(&cell, |entry| entry.cell)
    }

    // A new entry at its place: those from there on go one up.
    fn insert(&mut self, at: usize, new: Entry)
        requires gap { Gap self.old new.cell at }
        requires free { self.old.used < N }
        requires nonzero { new.value ≢ pos 0 }
        ensures { Stored self.old new.cell new.value self.new }
    {
        self.entries.copy_within(at..self.used, at + 1);
        self.entries[at] = new;
        self.used += 1;
    }

    // An entry taken out: those after it go one down.
    fn close(&mut self, at: usize)
        requires { at < self.old.used }
        ensures { Stored self.old (cell_at self.old at) (pos 0) self.new }
    {
        self.entries.copy_within(at + 1..self.used, at);
        self.used -= 1;
    }

    // Another number, not zero, in an entry.
    fn change(&mut self, at: usize, value: i64)
        requires used { at < self.old.used }
        requires nonzero { value ≢ pos 0 }
        ensures { Stored self.old (cell_at self.old at) value self.new }
    {
        let entry = &mut self.entries[at];
        entry.value = value;
    }
}
