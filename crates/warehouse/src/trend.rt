// The trend of an interval: how its two halves compare.
ghost use Rattle.std.specs.Prelude.{◌≡◌, ◌^◌, ◌≤◌, nat_lt, unsigned_abs};
ghost use Rattle.haar.specs.Places.{InSize, InTree};
ghost use Rattle.haar.specs.Trend.{amount, trend_of};
ghost use Rattle.warehouse.specs.Grading.{Trended, graded_at, trend_reading, trend_answer};
ghost use Rattle.warehouse.specs.View.{known, end_of};

use crate::fault::{Asked, Fault, Refusal};
use crate::numbers::answered;
use crate::record::Warehouse;
use haar::cells::difference_cell;
use haar::trend::Trend;
use std::cmp::Ordering;
use store::interface::Store;

// The largest size of a difference that a float halves exactly.
const EXACT: u64 = 1 << 53;

// A size as a float, halved once for each level past the first. (A float has no `From` for 64 bits.)
fn halved(size: u64, level: u8) -> f64
    requires { (size ≤ 2 ^ 53) × Trended level }
    ensures { result ≡ amount level size }
{
    (1..level).fold(size as f64, |x, _| x / 2.0)
}

fn trend_of(difference: i64, level: u8) -> Trend
    requires { (unsigned_abs difference ≤ 2 ^ 53) × Trended level }
    ensures { result ≡ trend_of level difference }
{
    let amount = halved(difference.unsigned_abs(), level);
    match difference.cmp(&0) {
        Ordering::Greater => Trend::Falling(amount),
        Ordering::Less => Trend::Rising(amount),
        Ordering::Equal => Trend::Level,
    }
}

#[tactic(auto, unfolding(crate::specs::Grading::trend_answer))]
impl<S: Store> Warehouse<S> {
    /// How the halves of the interval (level, index) compare, level 1 to 20; Unfinished where it ends past the mark.
    /// Refused as 17, Interval, 21, Domain, 19, Cell, and 29, Fine.
    pub fn trend(&self, level: u8, index: u32) -> Result<Trend, Refusal>
        ensures { result ≡ trend_answer (known S.means self.now) level index }
    {
        answered(
            self.trend_reading(level, index),
            Asked::Interval(level, index),
        )
    }

    fn trend_reading(&self, level: u8, index: u32) -> Result<Trend, Fault>
        ensures { result ≡ trend_reading (known S.means self.now) level index }
    {
        if level == 0 || level > 20 {
            return Err(Fault::Interval);
        }
        if !self.has(level, index) {
            return Err(Fault::Domain);
        }
        if self.ends_past_mark(level, index) {
            return Ok(Trend::Unfinished);
        }
        self.trend_inside(level, index)
    }

    // Whether an interval inside the size ends past the mark.
    fn ends_past_mark(&self, level: u8, index: u32) -> bool
        requires { InSize (known S.means self.now).size level index }
        ensures { result ≡ nat_lt (known S.means self.now).mark (end_of level index) }
    {
        self.mark() < (index + 1) << level
    }

    // The trend of an interval of the store's tree, from its cell.
    fn trend_inside(&self, level: u8, index: u32) -> Result<Trend, Fault>
        requires tree { InTree (S.means self.now.store).bands level index }
        requires level { Trended level }
        ensures { result ≡ graded_at (S.means self.now.store) level index }
    {
        let cell = difference_cell(self.store.bands(), level, index).unwrap();
        let difference = self.store.read(cell)?;
        if difference.unsigned_abs() > EXACT {
            return Err(Fault::Fine(cell));
        }
        Ok(trend_of(difference, level))
    }
}
