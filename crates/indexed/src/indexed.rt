// An indexed warehouse, and the calls that change it.
ghost use Rattle.std.specs.Prelude.{◌≡◌, [], ◌∷◌, IfErr};
ghost use Rattle.loads.specs.Growing.{GrownTo};
ghost use Rattle.loads.specs.Opening.{FinishedTo};
ghost use Rattle.loads.specs.Writes.{AddedTo};
ghost use Rattle.agreement.specs.Call.{load, add, grow, settle, settled};
ghost use Rattle.agreement.specs.Reply.{finish_reply, written_reply, growth_reply};
ghost use Rattle.agreement.specs.Share.{chunk_values};
ghost use Rattle.indexed.specs.Full.{IndexLoaded, IndexGrown};
ghost use Rattle.indexed.specs.Known.{known};
ghost use Rattle.indexed.specs.Step.{plain, Step};

use crate::index::Index;
use loads::growth::grow_beside;
use loads::open::{OpenLoad, RefusedLoad};
use loads::point::add_point_beside;
use store::interface::Store;
use warehouse::fault::Refusal;
use warehouse::record::Warehouse;

/// A warehouse with an index: a second store, which may be of another kind, whose cell k holds the largest minute of bottom tile (0, k).
#[derive(Drop)]
pub struct Indexed<S: Store, I: Store> {
    pub(crate) first: Warehouse<S>,
    pub(crate) index: Index<I>,
}

impl<S: Store, I: Store> Indexed<S, I> {
    /// The second pile's store, to be looked at.
    pub fn second(&self) -> &I
        ensures { result.now ≡ self.now.index.store }
    {
        &self.index.store
    }

    /// The first pile: for beginning a load, and for the questions of a plain warehouse (points, sums, means, trends).
    pub fn plain(&self) -> &Warehouse<S>
        ensures { result.now ≡ self.now.first }
    {
        &self.first
    }

    /// Finishes an open load: the count of cells written to the first pile, or the load with the refusal, and then neither pile has
    /// changed. The first pile's checks come first (25, 15, 21, 14, 19 or 22, 23), then the reading of old minutes (27), then the
    /// index's (19 or 22, 23). The buffer holds what it held.
    pub fn finish(&mut self, opened: OpenLoad, buffer: &mut [i64]) -> Result<u32, RefusedLoad>
        ensures restored { buffer.new ≡ buffer.old }
        ensures whole { FinishedTo S.means S.puts opened self.old.first buffer.old result self.new.first }
        ensures index { IndexLoaded S.means I.puts self.old opened.level opened.index (chunk_values opened.level buffer.old) result self.new }
        ensures handed_back { IfErr result (λ e. e.load ≡ opened) }
        ensures step { Step (known S.means I.means self.old) (plain (load opened.level opened.index opened.taken buffer.old)) (finish_reply result) (known S.means I.means self.new) }
    {
        opened.finish_beside(&mut self.first, &mut self.index, buffer)
    }

    /// Adds to one minute: a load of level 0.
    pub fn add_point(&mut self, minute: u32, value: i64) -> Result<u32, Refusal>
        ensures added { AddedTo S.means S.puts self.old.first 0 minute (value ∷ []) result self.new.first }
        ensures index { IndexLoaded S.means I.puts self.old 0 minute (value ∷ []) result self.new }
        ensures step { Step (known S.means I.means self.old) (plain (add minute value)) (written_reply result) (known S.means I.means self.new) }
    {
        add_point_beside(&mut self.first, &mut self.index, minute, value)
    }

    /// One level more: the new size, or 24, 22, 23 of the first pile, 27, or 19, 22, 23 of the index.
    pub fn grow(&mut self) -> Result<u8, Refusal>
        ensures whole { GrownTo S.means S.puts self.old.first result self.new.first }
        ensures index { IndexGrown S.means I.puts self.old result self.new }
        ensures step { Step (known S.means I.means self.old) (plain grow) (growth_reply result) (known S.means I.means self.new) }
    {
        grow_beside(&mut self.first, &mut self.index)
    }

    /// Settles both piles.
    pub fn settle(&mut self)
        ensures first { S.settled self.old.first.store self.new.first.store }
        ensures second { I.settled self.old.index.store self.new.index.store }
        ensures size { self.new.first.asked ≡ self.old.first.asked }
        ensures step { Step (known S.means I.means self.old) (plain settle) settled (known S.means I.means self.new) }
    {
        self.first.settle();
        self.index.store.settle();
    }
}
