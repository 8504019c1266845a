//! 64 minutes of a machine, loaded and asked: it ran 60 seconds of the first, and less and less.
#![tactic(auto)]

use raldvopt::{Flat, RefusedLoad, Trend, Warehouse, begin, survey};

// Why a load was refused. A refused load stays open until it is given up.
fn refused(back: RefusedLoad) -> anyhow::Error {
    let RefusedLoad { load, refusal } = back;
    let _ = load.give_up();
    refusal.into()
}

fn tour(rt: &HostRuntime) -> anyhow::Result<()> {
    let mut cells = vec![in rt.alloc(); 0i64; 1_118_480]?;
    let store = Flat::new(&mut cells);
    survey(&store, 20)?;
    let mut warehouse = Warehouse::take_over(store, 20, 0);
    let mut hour = [0i64; 64];
    let mut load = begin(&warehouse, 6, 0)?;
    for minute in 0..64 {
        load = match load.value(&mut hour, 60 - minute / 2) {
            Ok(load) => load,
            Err(back) => return Err(refused(back)),
        };
    }
    let written = load.finish(&mut warehouse, &mut hour).map_err(refused)?;
    println!(rt; "64 minutes were added, in {written} cells")?;
    println!(rt; "their sum is {} seconds", warehouse.sum(0, 64)?.value)?;
    println!(rt; "their mean is {}", warehouse.mean(0, 64)?.value)?;
    match warehouse.trend(6, 0)? {
        Trend::Falling(by) => println!(rt; "the second half has {by} a minute less")?,
        Trend::Rising(by) => println!(rt; "the second half has {by} a minute more")?,
        Trend::Level => println!(rt; "the halves are alike")?,
        Trend::Unfinished => println!(rt; "it has not passed yet")?,
    }
    Ok(())
}

fn main(rt: HostRuntime) -> anyhow::Result<()> {
    tour(&rt)
}
