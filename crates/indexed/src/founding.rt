// Founding an indexed warehouse, and closing it.
ghost use Rattle.std.specs.Prelude.{◌≡◌, ◌^◌, min};
ghost use Rattle.store.specs.Meaning.{Settles};
ghost use Rattle.warehouse.specs.Founding.{cut};
ghost use Rattle.indexed.specs.Doing.{Surveys};

use crate::index::Index;
use crate::indexed::Indexed;
use store::interface::Store;
use warehouse::fault::{Asked, Fault, Refusal};
use warehouse::founding;
use warehouse::record::Warehouse;

/// Whether an indexed warehouse of this size can be founded on the two stores: refused as 18 or 28 by the first one, as 18 where the
/// other has not as many bands, and then as 28 by that one.
pub fn survey<S: Store, I: Store>(first: &S, index: &I, size: u8) -> Result<(), Refusal>
    ensures { Surveys (S.means first.now) (I.means index.now) size result }
{
    founding::survey(first, size)?;
    if index.bands() != first.bands() {
        return Err(Refusal {
            fault: Fault::Size,
            asked: Asked::Size(size),
        });
    }
    founding::survey(index, size)
}

impl<S: Store, I: Store> Indexed<S, I> {
    /// On the two stores, whatever they hold; the size is cut to what the first one's bands can have, and the mark to its end.
    pub fn take_over(first: S, index: I, size: u8, mark: u32) -> Indexed<S, I>
        ensures first { result.first.store ≡ first }
        ensures index { result.index.store ≡ index }
        ensures size { result.first.asked ≡ cut (S.means first) size }
        ensures mark { result.first.mark ≡ min mark (2 ^ cut (S.means first) size) }
    {
        Indexed {
            first: Warehouse::take_over(first, size, mark),
            index: Index { store: index },
        }
    }

    /// The two stores, settled.
    pub fn close(self) -> (S, I)
        ensures first { Settles (S.means self.first.store) (S.means result.0) }
        ensures index { Settles (I.means self.index.store) (I.means result.1) }
        ensures first_store { S.settled self.first.store result.0 }
        ensures index_store { I.settled self.index.store result.1 }
    {
        let Indexed { first, mut index } = self;
        index.store.settle();
        (first.close(), index.store)
    }
}
