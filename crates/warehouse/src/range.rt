// A range of minutes, read back interval by interval.
ghost use Rattle.std.specs.Prelude.{◌≡◌, ◌+◌, ◌^◌, ◌<◌, ◌≤◌, ◌+ℤ◌, unsigned_abs};
ghost use Rattle.warehouse.specs.Ask.{range_in};
ghost use Rattle.warehouse.specs.Read.{longest};
ghost use Rattle.warehouse.specs.Tree.{tree_view};

use crate::fault::Fault;
use crate::reading::Reading;
use crate::tree::Tree;
use store::interface::Store;

// The level, at most `size`, of the longest interval that starts at `from` and ends by `to`: its length divides `from`, and
// is at most what is left.
fn longest(size: u8, from: u32, to: u32) -> u8
    requires { size ≤ 20 }
    ensures is { result ≡ longest size from to }
    ensures low { result ≤ 20 }
    ensures end { from < to → from + 2 ^ result ≤ to }
{
    let fits = to.saturating_sub(from).checked_ilog2().unwrap_or(0);
    // the least is at most the size, which has 8 bits
    u32::from(size).min(from.trailing_zeros()).min(fits) as u8
}

impl<S: Store> Tree<'_, S> {
    // The sum of the minutes from `from` to `to - 1`, each time by the longest interval that starts where the last one ended.
    pub(crate) fn range(&self, from: u32, to: u32) -> Result<Reading, Fault>
        requires order { from ≤ to }
        requires inside { to ≤ 2 ^ self.now.size }
        ensures { result ≡ range_in (tree_view self.now) from to }
    {
        let mut sum = Reading { value: 0, cells: 0 };
        let mut at = from;
        // the steps differ in length, so that no range has them
        while at < to {
            let level = longest(self.size, at, to);
            let piece = self.piece(level, at >> level)?;
            sum.value += piece.value;
            sum.cells += piece.cells;
            at += 1 << level;
        }
        Ok(sum)
    }
}
