// Where the bottoms of piles come from, and go back to: a store is chosen while a program runs, and given up for another.
ghost use Rattle.std.specs.Prelude.{◌≡◌, ℕ, length, IfOk};
ghost use Rattle.store.specs.SparseMeaning.{Made};
ghost use Rattle.pile.specs.Bottoms.{EmptyUpTo, bottom_means, numbers_back};

use crate::bottoms::{Bottom, flat_bottom, into_numbers, sparse_bottom};
use std::alloc::{AllocError, Global};
use std::mem::replace;
use store::interface::Store;

/// Lays bottoms, one at a time, and takes them back.
pub trait Lays {
    /// The stores that it lays.
    type Bottom: Store + Drop;

    // how many numbers it has for a flat store
    ghost has: { Self → ℕ };

    // how many it has once a bottom came back, where it had so many before
    ghost back: { Self.Bottom → ℕ → ℕ };

    /// An empty flat store of so many bands, or as many as there are numbers for.
    fn lay_flat(&mut self, bands: u8) -> Self::Bottom
        ensures { EmptyUpTo bands (has self.old) (Self.Bottom.means result) };

    /// An empty sparse store; bands and capacity outside their limits become the nearest inside.
    fn lay_sparse(&mut self, bands: u8, capacity: u16) -> Result<Self::Bottom, AllocError>
        ensures made { IfOk result (λ b. Made bands capacity (Self.Bottom.means b)) }
        ensures has { has self.new ≡ has self.old };

    /// Takes a bottom back, with the numbers that it had.
    fn take_back(&mut self, bottom: Self::Bottom)
        ensures { has self.new ≡ back bottom (has self.old) };
}

/// The numbers of one pile's flat store, which are elsewhere while such a store stands.
#[derive(Drop)]
pub struct Numbers<'a> {
    spare: &'a mut [i64],
    alloc: Global,
}

impl<'a> Numbers<'a> {
    /// A flat store has its cells among these, and a sparse one its table on the heap.
    pub fn new(alloc: Global, numbers: &'a mut [i64]) -> Numbers<'a>
        ensures { length result.spare.now ≡ length numbers.old }
    {
        Numbers {
            spare: numbers,
            alloc,
        }
    }
}

impl<'a> Lays for Numbers<'a> {
    type Bottom = Bottom<'a>;

    ghost has = { λ n. length n.spare.now };

    ghost back = { numbers_back };

    fn lay_flat(&mut self, bands: u8) -> Bottom<'a> {
        flat_bottom(replace(&mut self.spare, &mut []), bands)
    }

    fn lay_sparse(&mut self, bands: u8, capacity: u16) -> Result<Bottom<'a>, AllocError> {
        sparse_bottom(self.alloc, bands, capacity)
    }

    fn take_back(&mut self, bottom: Bottom<'a>) {
        if let Some(numbers) = into_numbers(bottom) {
            self.spare = numbers;
        }
    }
}
