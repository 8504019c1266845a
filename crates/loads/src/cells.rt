// One cell of a load: its number before, and its number after.
ghost use Rattle.std.specs.Prelude.{◌≡◌, ℕ, ◌-◌, ◌<◌, ℤ, pos, ◌+ℤ◌, ◌≤ℤ◌, MatchOption, Ok, Err};
ghost use Rattle.haar.specs.Tiles.{cell_count};
ghost use Rattle.store.specs.Meaning.{weight, Bars, Put};
ghost use Rattle.loads.specs.Loads.{Small};

use store::interface::Store;
use warehouse::record::is_small;

// the number in a cell that the store has
pub(crate) fn number_in<S: Store>(store: &S, cell: u32) -> i64
    requires { cell < cell_count (S.means store.now).bands }
    ensures { result ≡ (S.means store.now).cells cell }
{
    store.read(cell).unwrap_or(0)
}

// a number into a cell that the store has, where there is room for it
pub(crate) fn put<S: Store>(store: &mut S, cell: u32, number: i64)
    requires inside { cell < cell_count (S.means store.old).bands }
    requires free { Bars (S.means store.old) cell number → ⊥ }
    ensures put { Put (S.means store.old) cell number (S.means store.new) }
    ensures puts { S.puts store.old cell number store.new }
{
    let _ = store.write(cell, number);
}

// the sum, if a cell may hold it
pub(crate) fn added(number: i64, share: i64) -> Option<i64>
    ensures { MatchOption result (Small (number +ℤ share) → ⊥) (λ v. (v ≡ number +ℤ share) × Small (number +ℤ share)) }
{
    number.checked_add(share).filter(|sum| is_small(*sum))
}

// 1 if a cell goes from zero to nonzero
pub fn starts(number: i64, new: i64) -> u32
    ensures { result ≡ weight new - weight number }
{
    u32::from(number == 0 && new != 0)
}
