// The stores that may stand at the bottom of a pile.
ghost use Rattle.std.specs.Prelude.{◌≡◌, ℕ, ◌<◌, pos, min, ◌↔◌, length, IfOk, IfSome, IsSome};
ghost use Rattle.flat.specs.FlatMeaning.{flat_means};
ghost use Rattle.flat.specs.Slice.{number_at};
ghost use Rattle.store.specs.SparseMeaning.{Made, sparse_means};
ghost use Rattle.pile.specs.Bottoms.{EmptyUpTo, IsFlat, bottom_means, numbers_in};

use crate::boxed::Boxed;
use crate::either::Either;
use flat::slice::Flat;
use haar::cells::cell_count;
use std::alloc::{AllocError, Global};
use store::sparse::Sparse;

/// A store chosen at run time: flat in a slice of the caller's, or sparse.
pub type Bottom<'a> = Either<Flat<'a>, Boxed<Sparse>>;

// So many numbers, or as many as there are, become zero.
fn clear(numbers: &mut [i64], cells: usize)
    ensures { (k : ℕ) → k < cells → number_at numbers.new k ≡ pos 0 }
{
    for cell in 0..cells.min(numbers.len()) {
        numbers[cell] = 0;
    }
}

/// A flat store of so many bands, or as many as the slice has room for, whose cells are all zero.
pub fn flat_bottom(numbers: &mut [i64], bands: u8) -> Bottom<'_>
    ensures { EmptyUpTo bands (length numbers.old) (bottom_means result) }
{
    clear(numbers, cell_count(bands) as usize);
    Either::Left(Flat::with_bands(numbers, bands))
}

/// A sparse store; bands and capacity outside their limits become the nearest inside. It is on the heap, since its table is
/// large; an Err is want of memory.
pub fn sparse_bottom<'a>(alloc: Global, bands: u8, capacity: u16) -> Result<Bottom<'a>, AllocError>
    ensures { IfOk result (λ b. Made bands capacity (bottom_means b)) }
{
    let store = Box::new(alloc, Sparse::new(bands, capacity))?;
    Ok(Either::Right(Boxed { store }))
}

/// The slice of a flat store, back in place of it.
pub fn into_numbers(bottom: Bottom<'_>) -> Option<&mut [i64]>
    ensures some { IsSome result ↔ IsFlat bottom.entry }
    ensures numbers { IfSome result (λ zs. zs.now ≡ numbers_in bottom.entry) }
{
    match bottom {
        Either::Left(flat) => Some(flat.into_numbers()),
        Either::Right(_sparse) => None,
    }
}
