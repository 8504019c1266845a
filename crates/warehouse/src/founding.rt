// Surveying a store, taking it over, settling and closing.
ghost use Rattle.std.specs.Prelude.{◌≡◌, ℕ, ◌^◌, ◌<◌, ◌≤◌, min, pos, MatchOption, ◌≢◌};
ghost use Rattle.haar.specs.Tiles.{cell_count};
ghost use Rattle.store.specs.Meaning.{Settles};
ghost use Rattle.warehouse.specs.Founding.{Empty, Surveyed, Surveys, cut};

use crate::fault::{Asked, Fault, Refusal};
use crate::numbers::answered;
use crate::record::Warehouse;
use haar::cells::cell_count;
use store::interface::Store;

// The lowest of the cells below `count` that is not zero.
fn lowest_nonzero<S: Store>(store: &S, count: u32) -> Option<u32>
    requires { count ≡ cell_count (S.means store.now).bands }
    ensures { MatchOption result (Empty (S.means store.now) count) (λ c. (c < count) × ((S.means store.now).cells c ≢ pos 0) × Empty (S.means store.now) c) }
{
    (0..count).find(|cell| store.read(*cell).is_ok_and(|number| number != 0))
}

fn surveyed<S: Store>(store: &S, size: u8) -> Result<(), Fault>
    ensures { Surveyed (S.means store.now) size result }
{
    let bands = store.bands();
    if bands == 0 || size > 4 * bands {
        return Err(Fault::Size);
    }
    let count = cell_count(bands);
    if let Some(cell) = lowest_nonzero(store, count) {
        return Err(Fault::Dirty(cell));
    }
    if !store.fits(0) {
        return Err(Fault::Dirty(count));
    }
    Ok(())
}

// Whether a warehouse of this size can be founded on the store.
pub fn survey<S: Store>(store: &S, size: u8) -> Result<(), Refusal>
    ensures { Surveys (S.means store.now) size result }
{
    answered(surveyed(store, size), Asked::Size(size))
}

impl<S: Store> Warehouse<S> {
    /// A warehouse on the store, whatever it holds. The size is cut to what the bands can have, and the mark to the
    /// end of that size.
    pub fn take_over(store: S, size: u8, mark: u32) -> Warehouse<S>
        ensures store { result.store ≡ store }
        ensures size { result.asked ≡ cut (S.means store) size }
        ensures mark { result.mark ≡ min mark (2 ^ cut (S.means store) size) }
    {
        let asked = size.min(4 * store.bands());
        Warehouse {
            asked,
            mark: mark.min(1 << asked),
            store,
        }
    }

    pub fn settle(&mut self)
        ensures settles { Settles (S.means self.old.store) (S.means self.new.store) }
        ensures store { S.settled self.old.store self.new.store }
        ensures size { self.new.asked ≡ self.old.asked }
        ensures mark { self.new.mark ≡ self.old.mark }
    {
        self.store.settle();
    }

    // The store, settled.
    pub fn close(mut self) -> S
        ensures settles { Settles (S.means self.store) (S.means result) }
        ensures store { S.settled self.store result }
    {
        self.settle();
        self.store
    }
}
