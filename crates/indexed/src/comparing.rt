// Two indexed warehouses compared, cell by cell of both piles.
ghost use Rattle.compare.specs.Compared.{Compared};
ghost use Rattle.indexed.specs.Agreement.{Agreement};
ghost use Rattle.indexed.specs.Known.{known};
ghost use Rattle.indexed.specs.Steps.{StepsHold};

use crate::indexed::Indexed;
use compare::comparing::compare_stores;
use compare::comparison::Comparison;
use store::interface::Store;

/// What the first piles differ in, and what the indexes do.
#[derive(Clone, Copy, PartialEq, Eq, Debug)]
pub struct Comparisons {
    pub first: Comparison,
    pub index: Comparison,
}

/// What two indexed warehouses differ in, if anything. Whatever data they began with and whatever histories brought them here, they agree
/// as the definitions say; and what the contracts of the calls allow are the steps of such histories.
#[tactic(auto, using(crate::proofs::Steps::steps))]
pub fn compare<K: Store, A: Store, F: Store, B: Store>(
    kept: &Indexed<K, A>,
    fresh: &Indexed<F, B>,
) -> Comparisons
    ensures first { Compared (K.means kept.now.first.store) (F.means fresh.now.first.store) result.first }
    ensures index { Compared (A.means kept.now.index.store) (B.means fresh.now.index.store) result.index }
    ensures agreement { Agreement (known K.means A.means kept.now) (known F.means B.means fresh.now) }
    ensures steps { StepsHold }
{
    Comparisons {
        first: compare_stores(&kept.first.store, &fresh.first.store),
        index: compare_stores(&kept.index.store, &fresh.index.store),
    }
}
