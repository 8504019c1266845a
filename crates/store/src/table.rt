// A table of the nonzero numbers of some cells, sorted by cell. Its places lie in it, empty at first: a store takes no memory.
ghost use Rattle.std.specs.Prelude.{◌≤◌};
ghost use Rattle.store.specs.Table.{Ascends, Nonzero};

mod contents;

use crate::entry::Entry;

// No ArrayVec: a rule of the project says that every entry is there when a table is made, each of them empty.
// No Model: a caller would see a list alone, and each call would have to say again that its cells rise and none holds zero.
#[derive(Drop)]
pub struct Table<const N: usize> {
    entries: [Entry; N],
    // how many entries are in use, from the first on
    used: usize,
    ghost within: { used ≤ N },
    ghost ascends: { Ascends entries used },
    ghost nonzero: { Nonzero entries used },
}
