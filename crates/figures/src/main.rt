// Loads of several levels and sizes on a flat store, each cell compared with a plain recount of the minutes; and questions
// on damaged cells.
#![tactic(auto)]

mod damaged;
mod plain;

use flat::slice::Flat;
use loads::loading::begin;
use loads::open::{OpenLoad, RefusedLoad};
use plain::recount;
use store::interface::Store;
use warehouse::fault::Refusal;
use warehouse::record::Warehouse;

const CELLS: usize = 1_118_480;

const MINUTES: usize = 1 << 20;

const CHUNK: usize = 4096;

// A level, an index and a size.
#[derive(Clone, Copy)]
struct Case {
    level: u8,
    index: u32,
    size: u8,
}

const CASES: [Case; 9] = [
    Case {
        level: 0,
        index: 0,
        size: 0,
    },
    Case {
        level: 0,
        index: 11,
        size: 4,
    },
    Case {
        level: 1,
        index: 8,
        size: 5,
    },
    Case {
        level: 4,
        index: 2,
        size: 6,
    },
    Case {
        level: 6,
        index: 1,
        size: 8,
    },
    Case {
        level: 12,
        index: 0,
        size: 12,
    },
    Case {
        level: 12,
        index: 201,
        size: 20,
    },
    Case {
        level: 6,
        index: 9001,
        size: 20,
    },
    Case {
        level: 0,
        index: 777_777,
        size: 20,
    },
];

// A number from -2^30 to 2^30 - 1 that looks like chance.
// By hand: made of a place alone, where a generator of `rand_xoshiro` would have to be carried on.
fn chance(seed: u64) -> i64 {
    let mixed = seed
        .wrapping_mul(6_364_136_223_846_793_005)
        .wrapping_add(1_442_695_040_888_963_407);
    (mixed >> 33).cast_signed() - 1_073_741_824
}

// Gives the load its values, from the lowest minute on: a value is made of its place. A refused value ends it.
fn filled(
    mut load: OpenLoad,
    buffer: &mut [i64],
    minutes: &mut [i64],
    case: Case,
) -> Result<OpenLoad, Refusal> {
    let many = 1u32 << case.level.min(12);
    let first = case.index.saturating_mul(many);
    // over the numbers of places: each gives the minute and the value, and indexes nothing
    for place in 0..many {
        let value = chance(u64::from(case.index) * 4099 + u64::from(place));
        if let Some(minute) = minutes.get_mut(first.saturating_add(place) as usize) {
            *minute = value;
        }
        load = load.value(buffer, value).map_err(given_up)?;
    }
    Ok(load)
}

// The refusal of a load that is given up for it.
fn given_up(back: RefusedLoad) -> Refusal {
    let RefusedLoad { load, refusal } = back;
    let _ = load.give_up();
    refusal
}

// The cells that the load wrote.
fn loaded<S: Store + Drop>(
    store: S,
    buffer: &mut [i64],
    minutes: &mut [i64],
    case: Case,
) -> Result<u32, Refusal> {
    let mut warehouse = Warehouse::take_over(store, case.size, 0);
    let load = begin(&warehouse, case.level, case.index)?;
    filled(load, buffer, minutes, case)?
        .finish(&mut warehouse, buffer)
        .map_err(given_up)
}

// How many of the numbers differ.
fn differences(first: &[i64], second: &[i64]) -> usize {
    first.iter().zip(second).filter(|(a, b)| *a != *b).count()
}

fn try_case(rt: &HostRuntime, case: Case) -> anyhow::Result<()> {
    let mut cells = vec![in rt.alloc(); 0i64; CELLS]?;
    let mut expected = vec![in rt.alloc(); 0i64; CELLS]?;
    let mut minutes = vec![in rt.alloc(); 0i64; MINUTES]?;
    let mut buffer = vec![in rt.alloc(); 0i64; CHUNK]?;
    let written = loaded(Flat::new(&mut cells), &mut buffer, &mut minutes, case)?;
    recount(&mut minutes, case.size, &mut expected);
    println!(rt;
        "level {} at size {}: {written} cells written, {} cells differ from the recount",
        case.level,
        case.size,
        differences(&cells, &expected)
    )?;
    Ok(())
}

fn run(rt: &HostRuntime) -> anyhow::Result<()> {
    for case in CASES {
        try_case(rt, case)?;
    }
    damaged::ask(rt, 3, -1)?;
    damaged::ask(rt, 3, 0)?;
    damaged::ask(rt, 72_057_594_037_927_936, 0)?;
    damaged::ask(rt, 72_057_594_037_927_938, 0)?;
    damaged::ask(rt, 3, -72_057_594_037_927_937)
}

fn main(rt: HostRuntime) -> anyhow::Result<()> {
    run(&rt)
}
