// The benchmark: loads, additions and questions on a flat store of a floor's size and on gymfeed's pile. It prints a checksum
// of all answers to each part, and with the argument `time` also its nanoseconds. bench/reference.c does the same work in C.
#![tactic(auto)]

mod draw;
mod indexing;
mod work;

use draw::Draw;
use flat::slice::Flat;
use holdback::held::HoldBack;
use indexed::indexed::Indexed;
use indexing::{best_points, busiest, indexed_loads};
use std::env;
use std::time::Instant;
use store::interface::Store;
use store::sparse::Sparse;
use warehouse::record::Warehouse;
use work::{additions, floor_years, loads, points, sums};

// The cells of five bands, and the values of the largest load.
const CELLS: usize = 1_118_480;

const CHUNK: usize = 4096;

// Does one part of the work, and prints its line. `timed` is no enum: it says only whether the line has one field more.
fn part<F: FnOnce(&mut Draw)>(
    rt: &HostRuntime,
    timed: bool,
    name: &str,
    work: F,
) -> anyhow::Result<()>
    requires { F.IsAlwaysCallable work }
{
    let mut draw = Draw::new();
    let start = Instant::now(rt)?;
    work(&mut draw);
    let took = start.elapsed(rt)?;
    if timed {
        println!(rt; "{name} {} {}", draw.check(), took.as_nanos())?;
    } else {
        println!(rt; "{name} {}", draw.check())?;
    }
    Ok(())
}

fn on_flat<S: Store + Drop>(
    rt: &HostRuntime,
    timed: bool,
    store: S,
    buffer: &mut [i64],
) -> anyhow::Result<()> {
    let mut flat = Warehouse::take_over(store, 20, 0);
    part(
        rt,
        timed,
        "flat-loads-6",
        |draw| loads(&mut flat, buffer, draw, 6, 1 << 14, 20_000),
    )?;
    part(
        rt,
        timed,
        "flat-loads-12",
        |draw| loads(&mut flat, buffer, draw, 12, 1 << 8, 500),
    )?;
    part(
        rt,
        timed,
        "flat-additions",
        |draw| additions(&mut flat, draw, 200_000),
    )?;
    part(
        rt,
        timed,
        "flat-points",
        |draw| points(&flat, draw, 200_000),
    )?;
    part(rt, timed, "flat-sums", |draw| sums(&flat, draw, 50_000))?;
    part(
        rt,
        timed,
        "flat-floor",
        |draw| floor_years(&mut flat, buffer, draw),
    )
}

fn on_pile(rt: &HostRuntime, timed: bool, buffer: &mut [i64]) -> anyhow::Result<()> {
    let mut pile = Warehouse::take_over(HoldBack::new(Sparse::new(3, 1024)), 12, 0);
    part(
        rt,
        timed,
        "pile-loads-6",
        |draw| loads(&mut pile, buffer, draw, 6, 8, 5_000),
    )?;
    part(rt, timed, "pile-sums", |draw| sums(&pile, draw, 20_000))
}

// The same loads as on the flat store, and the busiest minutes of ranges by the index and by points.
fn on_indexed<S: Store + Drop, I: Store + Drop>(
    rt: &HostRuntime,
    timed: bool,
    first: S,
    index: I,
    buffer: &mut [i64],
) -> anyhow::Result<()> {
    let mut indexed = Indexed::take_over(first, index, 20, 0);
    part(
        rt,
        timed,
        "indexed-loads-6",
        |draw| indexed_loads(&mut indexed, buffer, draw, 6, 1 << 14, 20_000),
    )?;
    part(
        rt,
        timed,
        "indexed-loads-12",
        |draw| indexed_loads(&mut indexed, buffer, draw, 12, 1 << 8, 500),
    )?;
    part(rt, timed, "busiest", |draw| busiest(&indexed, draw, 20))?;
    part(
        rt,
        timed,
        "best-of-points",
        |draw| best_points(indexed.plain(), draw, 20),
    )
}

fn run(rt: &HostRuntime) -> anyhow::Result<()> {
    let timed = env::args(rt)?.nth(1).is_some();
    let mut cells = vec![in rt.alloc(); 0i64; CELLS]?;
    let mut buffer = vec![in rt.alloc(); 0i64; CHUNK]?;
    on_flat(rt, timed, Flat::new(&mut cells), &mut buffer)?;
    on_pile(rt, timed, &mut buffer)?;
    let mut first = vec![in rt.alloc(); 0i64; CELLS]?;
    let mut index = vec![in rt.alloc(); 0i64; CELLS]?;
    on_indexed(
        rt,
        timed,
        Flat::new(&mut first),
        Flat::new(&mut index),
        &mut buffer,
    )
}

fn main(rt: HostRuntime) -> anyhow::Result<()> {
    run(&rt)
}
