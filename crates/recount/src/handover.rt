// Two warehouses that change hands: their stores are audited and taken over again, and go on with one more load.
use audit::audit::audit;
use compare::comparing::compare;
use compare::comparison::Comparison;
use loads::loading::begin;
use loads::open::RefusedLoad;
use loads::point::add_point;
use store::interface::Store;
use warehouse::fault::Refusal;
use warehouse::record::Warehouse;

const LEVEL: u8 = 2;

const INDEX: u32 = 1;

// The load of minutes 4 to 7, which each size from 3 on has.
const VALUES: [i64; 4] = [60, -1, 0, 31];

#[derive(Clone, Copy)]
pub(crate) struct HandOver {
    // whether there was room for the load, which went into the second as points
    pub(crate) loaded: bool,
    pub(crate) found: Comparison,
}

// Closes the warehouse, and takes its store over again if an audit accepts it for the size.
fn taken_over<S: Store + Drop>(warehouse: Warehouse<S>) -> Option<Warehouse<S>> {
    let size = warehouse.size();
    let store = warehouse.close();
    if audit(&store, size) != Ok(true) {
        return None;
    }
    Some(Warehouse::take_over(store, size, 0))
}

fn given_up(back: RefusedLoad) -> Refusal {
    let RefusedLoad { load, refusal } = back;
    let _ = load.give_up();
    refusal
}

fn add_load<S: Store>(warehouse: &mut Warehouse<S>, buffer: &mut [i64]) -> Result<u32, Refusal> {
    let mut load = begin(warehouse, LEVEL, INDEX)?;
    for value in VALUES {
        load = load.value(buffer, value).map_err(given_up)?;
    }
    load.finish(warehouse, buffer).map_err(given_up)
}

// The same values as points: whether all are accepted.
fn add_points<S: Store>(warehouse: &mut Warehouse<S>) -> bool {
    let first = INDEX << LEVEL;
    (first..).zip(VALUES).all(|(minute, value)| add_point(warehouse, minute, value).is_ok())
}

// What comparing them finds then, if audits accept both.
pub(crate) fn hand_over<K: Store + Drop, F: Store + Drop>(
    kept: Warehouse<K>,
    fresh: Warehouse<F>,
    buffer: &mut [i64],
) -> Option<HandOver> {
    let mut kept = taken_over(kept)?;
    let mut fresh = taken_over(fresh)?;
    let loaded = add_load(&mut kept, buffer).is_ok() && add_points(&mut fresh);
    Some(HandOver {
        loaded,
        found: compare(&kept, &fresh),
    })
}
