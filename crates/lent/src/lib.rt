// A caller's slice, lent to a warehouse: its cells are those of the warehouse, and what lies past them stays.
#![tactic(auto)]

ghost use Rattle.flat.specs.FlatMeaning.{flat_means};
ghost use Rattle.lent.specs.Lent.{Kept, Played, Plays};

use flat::slice::Flat;
use loads::growth::grow;
use loads::open::{OpenLoad, RefusedLoad};
use std::mem::replace;
use warehouse::fault::Refusal;
use warehouse::record::Warehouse;

type Answers = (Result<u32, RefusedLoad>, Result<u8, Refusal>);

// The store leaves its place for the warehouse and comes back from it. Where a slice's store is moved into a warehouse
// for good, the check follows its loan no further, whatever the contracts say.
fn play_on(store: &mut Flat<'_>, size: u8, load: OpenLoad, buffer: &mut [i64]) -> Answers
    ensures kept { Kept store.old store.new }
    ensures played { Played (flat_means store.old) size load buffer.old result.0 result.1 (flat_means store.new) }
{
    let mut warehouse = Warehouse::take_over(replace(store, Flat::new(&mut [])), size, 0);
    let loaded = load.finish(&mut warehouse, buffer);
    let grown = grow(&mut warehouse);
    warehouse.settle();
    *store = warehouse.close();
    (loaded, grown)
}

// A load that is finished, a growth, a settling and a closing, on a slice.
pub fn play(numbers: &mut [i64], size: u8, load: OpenLoad, buffer: &mut [i64]) -> Answers
    ensures { Plays numbers.old size load buffer.old result.0 result.1 numbers.new }
{
    let mut store = Flat::new(numbers);
    play_on(&mut store, size, load, buffer)
}
