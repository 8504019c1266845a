// How many cells of a store are free.
ghost use Rattle.std.specs.Prelude.{◌≡◌, ◌+◌, ◌*◌, ◌^◌, ◌<◌, ◌≤◌};
ghost use Rattle.store.specs.Free.{free_cells, IsFree};

use crate::interface::Store;
use haar::cells::cell_count;

// How many binary digits a number has.
fn digits(number: u32) -> u32
    ensures enough { number < 2 ^ result }
    ensures few { 2 ^ result ≤ 2 * number + 1 }
{
    number.checked_ilog2().map_or(0, |top| top + 1)
}

/// The figure of free cells: the greatest number of cells that may go from zero to nonzero, or 0 where room is below zero.
/// It is at most the number of zero cells. The store is asked once for each binary digit of its cell count.
pub fn free_cells<S: Store>(store: &S) -> u32
    ensures free { IsFree (S.means store.now) result }
    ensures is { result ≡ free_cells (S.means store.now) }
{
    let mut free = 0;
    for digit in (0..digits(cell_count(store.bands()))).rev() {
        let more = free + (1 << digit);
        if store.fits(more) {
            free = more;
        }
    }
    free
}
