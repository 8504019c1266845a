// A chunk's load: its touched cells are checked, then written.
ghost use Rattle.std.specs.Prelude.{◌≡◌, ℕ, ℤ};
ghost use Rattle.loads.specs.Reach.{at_reach};
ghost use Rattle.loads.specs.Loads.{Large, Checked};
ghost use Rattle.loads.specs.Passes.{Seen};
ghost use Rattle.loads.specs.Adds.{Roomy, CellsPass, Took};
ghost use Rattle.loads.specs.Skips.{seen_skip, underway_skip};
ghost use Rattle.loads.specs.Writes.{Underway, WroteAll};

use crate::cells::{added, number_in, put, starts};
use crate::share::ChunkTree;
use crate::walk::{Pass, walk};
use haar::written::cells_written;
use store::interface::Store;
use warehouse::fault::Fault;

// Checks each cell, and counts those that go from zero to nonzero.
#[derive(Drop)]
pub struct Checking<'s, S: Store> {
    store: &'s S,
    started: u32,
}

impl<S: Store> Pass for Checking<'_, S> {
    ghost passed = { λ r g x y a. (y.store ≡ x.store) × ((S.means x.store.now).bands ≡ r.bands) × at_reach r Seen g (S.means x.store.now).cells a y.started };

    ghost skip = { λ r g x y a b passed le most gap. (passed.0, passed.1, seen_skip r.bands r.size r.level r.index g _ a _ passed.2 b le most gap) };

    ghost stopped = { λ r g x c. at_reach r Large g (S.means x.store.now).cells c };

    fn take(&mut self, cell: u32, share: i64) -> Result<(), u32> {
        let number = number_in(self.store, cell);
        let new = added(number, share).ok_or(cell)?;
        self.started += starts(number, new);
        Ok(())
    }
}

// Writes each cell.
#[derive(Drop)]
pub struct Writing<'s, S: Store> {
    store: &'s mut S,
}

impl<S: Store> Pass for Writing<'_, S> {
    ghost passed = { λ r g x y a. (y.store.ghost_name ≡ x.store.ghost_name)
        × at_reach r (Underway S.means S.puts) g x.store.now y.store.now a };

    ghost skip = { λ r g x y a b h le most gap. (h.0, underway_skip r g S.means S.puts _ _ a h.1 b le most gap) };

    ghost stopped = { λ r g x c. ⊥ };

    fn take(&mut self, cell: u32, share: i64) -> Result<(), u32> {
        let number = number_in(self.store, cell);
        put(self.store, cell, number + share);
        Ok(())
    }
}

// A chunk's tree and the store that it goes to, in whose bands its reach lies.
#[derive(Drop)]
pub struct Load<'s, 'c, S: Store> {
    pub store: &'s mut S,
    pub chunk: ChunkTree<'c>,
    ghost bands: { (S.means store.now).bands ≡ chunk.reach.bands },
}

impl<S: Store> Load<'_, '_, S> {
    ghost use Rattle.loads.specs.Tree.{minutes_of, at_chunk};

    // how many touched cells go from zero to nonzero, or the lowest whose new number is too large
    fn started(&self) -> Result<u32, u32>
        ensures { at_reach self.now.chunk.reach Checked (minutes_of self.now.chunk) (S.means self.now.store.now).cells result }
    {
        let mut checking = Checking {
            store: self.store,
            started: 0,
        };
        walk(&mut checking, &self.chunk)?;
        Ok(checking.started)
    }

    // The checks of the cells, in their order.
    pub(crate) fn check(&self) -> Result<(), Fault>
        ensures { at_reach self.now.chunk.reach CellsPass (minutes_of self.now.chunk) (S.means self.now.store.now) result }
    {
        let started = self.started().map_err(Fault::Large)?;
        if !self.store.fits(started) {
            return Err(Fault::Full);
        }
        Ok(())
    }

    // What passed the checks is written: the count of cells written. A method that lends its store on to be written says that
    // the same loan comes back (`same_store`): no type can say it.
    pub(crate) fn write(&mut self) -> u32
        requires { at_reach self.old.chunk.reach Roomy (minutes_of self.old.chunk) (S.means self.old.store.now) }
        ensures same_store { self.new.store.ghost_name ≡ self.old.store.ghost_name }
        ensures wrote { at_chunk self.old.chunk (WroteAll S.means S.puts) self.old.store.now self.new.store.now }
        ensures took { at_reach self.old.chunk.reach Took (minutes_of self.old.chunk) (S.means self.old.store.now) result (S.means self.new.store.now) }
    {
        let chunk = self.chunk;
        let mut writing = Writing { store: self.store };
        // no cell is refused, since each was checked
        let _ = walk(&mut writing, &chunk);
        cells_written(u32::from(chunk.reach.level), u32::from(chunk.reach.size))
    }
}
