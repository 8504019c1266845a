// Questions of a warehouse. None of them changes it.
ghost use Rattle.std.specs.Prelude.{◌≡◌};
ghost use Rattle.warehouse.specs.Ask.{point_reading, sum_reading, mean_reading, point_answer, sum_answer, mean_answer};
ghost use Rattle.warehouse.specs.View.{known};

use crate::fault::{Asked, Fault, Refusal};
use crate::mean::mean_of;
use crate::numbers::answered;
use crate::reading::Reading;
use crate::record::Warehouse;
use store::interface::Store;

#[tactic(auto, unfolding(crate::specs::Ask::point_answer, crate::specs::Ask::sum_answer, crate::specs::Ask::mean_answer))]
impl<S: Store> Warehouse<S> {
    // The value of one minute.
    pub fn point(&self, minute: u32) -> Result<Reading, Refusal>
        ensures { result ≡ point_answer (known S.means self.now) minute }
    {
        answered(self.point_reading(minute), Asked::Minute(minute))
    }

    // The sum of the minutes from `from` to `to - 1`.
    pub fn sum(&self, from: u32, to: u32) -> Result<Reading, Refusal>
        ensures { result ≡ sum_answer (known S.means self.now) from to }
    {
        answered(self.sum_reading(from, to), Asked::Minutes(from, to))
    }

    // The mean of the minutes from `from` to `to - 1`, to the nearest; exactly half goes to the even neighbour.
    pub fn mean(&self, from: u32, to: u32) -> Result<Reading, Refusal>
        ensures { result ≡ mean_answer (known S.means self.now) from to }
    {
        answered(self.mean_reading(from, to), Asked::Minutes(from, to))
    }

    fn point_reading(&self, minute: u32) -> Result<Reading, Fault>
        ensures { result ≡ point_reading (known S.means self.now) minute }
    {
        let tree = self.tree();
        if minute >= 1 << tree.size {
            return Err(Fault::Domain);
        }
        tree.piece(0, minute)
    }

    fn sum_reading(&self, from: u32, to: u32) -> Result<Reading, Fault>
        ensures { result ≡ sum_reading (known S.means self.now) from to }
    {
        if from > to {
            return Err(Fault::Range);
        }
        let tree = self.tree();
        if to > 1 << tree.size {
            return Err(Fault::Domain);
        }
        tree.range(from, to)
    }

    fn mean_reading(&self, from: u32, to: u32) -> Result<Reading, Fault>
        ensures { result ≡ mean_reading (known S.means self.now) from to }
    {
        if from >= to {
            return Err(Fault::Range);
        }
        let sum = self.sum_reading(from, to)?;
        Ok(Reading {
            value: mean_of(sum.value, to - from),
            ..sum
        })
    }
}
