// Adding to one minute.
ghost use Rattle.std.specs.Prelude.{[], ◌∷◌};
ghost use Rattle.warehouse.specs.View.{known};
ghost use Rattle.loads.specs.Addition.{AddsPoint};
ghost use Rattle.loads.specs.Writes.{AddedTo};
ghost use Rattle.loads.specs.Beside.{AddsPointBeside};

use crate::beside::{Alone, Beside};
use crate::values::add_values;
use store::interface::Store;
use warehouse::fault::{Asked, Refusal};
use warehouse::numbers::answered;
use warehouse::record::Warehouse;

// A load of level 0: the count of cells written, or why nothing was.
pub fn add_point<S: Store>(
    warehouse: &mut Warehouse<S>,
    minute: u32,
    value: i64,
) -> Result<u32, Refusal>
    ensures added { AddedTo S.means S.puts warehouse.old 0 minute (value ∷ []) result warehouse.new }
    ensures adds { AddsPoint (known S.means warehouse.old) minute value result (known S.means warehouse.new) }
{
    add_point_beside(warehouse, &mut Alone, minute, value)
}

// The same, where something besides has to be passed.
pub fn add_point_beside<S: Store, B: Beside<S>>(
    warehouse: &mut Warehouse<S>,
    beside: &mut B,
    minute: u32,
    value: i64,
) -> Result<u32, Refusal>
    ensures added { AddedTo S.means S.puts warehouse.old 0 minute (value ∷ []) result warehouse.new }
    ensures adds { AddsPointBeside B.adds beside.old (known S.means warehouse.old) minute value result beside.new (known S.means warehouse.new) }
{
    answered(
        add_values(warehouse, beside, 0, minute, &mut [value]),
        Asked::Minute(minute),
    )
}
