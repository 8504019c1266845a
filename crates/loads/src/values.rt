// Adding a chunk's values: the checks in their order, and the writing.
ghost use Rattle.std.specs.Prelude.{◌≡◌, ℕ, ◌-◌, ◌*◌, ◌^◌, ◌<◌, ◌≤◌, max, true, false, length, pos, MatchOption, slice_index_or};
ghost use Rattle.haar.specs.Places.{InSize};
ghost use Rattle.warehouse.specs.View.{known, end_of};
ghost use Rattle.loads.specs.Addition.{Limit, Limited};
ghost use Rattle.loads.specs.Writes.{AddedTo};
ghost use Rattle.loads.specs.Beside.{AddsBeside};

use crate::beside::Beside;
use crate::chunk::Load;
use crate::reach::Reach;
use crate::transform::Transformed;
use store::fault::CellFault;
use store::interface::Store;
use warehouse::fault::Fault;
use warehouse::record::Warehouse;

// the lowest place of a value outside its limits
fn first_outside(values: &[i64]) -> Option<u32>
    requires { length values.now ≤ 4096 }
    ensures { MatchOption result (Limited (length values.now) values.now) (λ i. (i < length values.now) × (Limit (slice_index_or values.now i (pos 0)) → ⊥) × Limited i values.now) }
{
    let place = values
        .iter()
        .position(|value| i32::try_from(*value).is_err())?;
    u32::try_from(place).ok()
}

// The mark when the minutes of the interval are covered too.
fn covered<S: Store>(warehouse: &Warehouse<S>, level: u8, index: u32) -> u32
    requires { InSize (known S.means warehouse.now).size level index }
    ensures is { result ≡ max (known S.means warehouse.now).mark (end_of level index) }
    ensures most { result ≤ 2 ^ (known S.means warehouse.now).size }
{
    warehouse.mark().max((index + 1) << level)
}

// Level and index stay apart, since there is no `Reach` yet: `finished` takes them out of its open load, and only `add_point` would make a struct.
#[tactic(auto, using(warehouse::proofs::Marks::kept))]
pub(crate) fn add_values<S: Store, B: Beside<S>>(
    warehouse: &mut Warehouse<S>,
    beside: &mut B,
    level: u8,
    index: u32,
    values: &mut [i64],
) -> Result<u32, Fault>
    requires short { level ≤ 12 }
    requires many { length values.old ≡ 2 ^ level }
    ensures restored { values.new ≡ values.old }
    ensures added { AddedTo S.means S.puts warehouse.old level index values.old result warehouse.new }
    ensures adds { AddsBeside B.adds beside.old (known S.means warehouse.old) level index values.old result beside.new (known S.means warehouse.new) }
{
    if !warehouse.has(level, index) {
        return Err(Fault::Domain);
    }
    if let Some(place) = first_outside(values) {
        return Err(Fault::Value(place));
    }
    let mark = covered(warehouse, level, index);
    let bands = warehouse.store.bands();
    if bands == 0 {
        return Err(Fault::Cell(CellFault::Cell(0)));
    }
    let reach = Reach {
        bands,
        size: warehouse.size(),
        level,
        index,
    };
    let guard = Transformed::of(values, reach);
    let load = Load {
        store: &mut warehouse.store,
        chunk: guard.tree(),
    };
    load.check()?;
    beside.add(warehouse, &guard.tree())?;
    let mut load = Load {
        store: &mut warehouse.store,
        chunk: guard.tree(),
    };
    let written = load.write();
    warehouse.mark = mark;
    Ok(written)
}
