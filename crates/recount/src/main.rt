// A feed recounted from plain minutes: what gymfeed prints of it is compared with what they say, line by line, and its
// warehouse with a flat one that had the accepted additions as points. Then the same for a thousand random feeds.
#![tactic(auto)]

mod busiest;
mod coefficients;
mod counts;
mod coverage;
mod draft;
mod expected;
mod feeds;
mod handover;
mod lines;
mod load;
mod model;
mod plain;
mod recounting;
mod refusals;
#[cfg(test)]
mod tests;
mod twice;

use busiest::Busiest;
use coverage::{Coverage, cover};
use handover::HandOver;
use lines::Difference;
use recounting::{Recounted, recount};
use std::io::Read;

const FEEDS: u32 = 1000;

fn report_difference(rt: &HostRuntime, first: &Difference) -> anyhow::Result<()> {
    println!(rt;
        "the first is that of offset {}: \"{}\" expected, \"{}\" printed",
        first.offset, first.expected, first.printed
    )?;
    Ok(())
}

fn report_hand_over(rt: &HostRuntime, handed_over: Option<HandOver>) -> anyhow::Result<()> {
    let Some(HandOver { loaded, found }) = handed_over else {
        println!(rt; "an audit of their stores said no")?;
        return Ok(());
    };
    println!(rt; "audits accept both stores, which are taken over again")?;
    if !loaded {
        println!(rt; "one more load was refused")?;
    }
    println!(rt; "after one more load {found}")?;
    Ok(())
}

fn report_busiest(rt: &HostRuntime, busiest: &Busiest) -> anyhow::Result<()> {
    println!(rt;
        "an indexed warehouse was asked for the busiest minute of {} ranges, {} differ; beside another, whose points were loads, last first:",
        busiest.asked, busiest.differ
    )?;
    if busiest.refused > 0 {
        println!(rt; "{} calls were refused there", busiest.refused)?;
    }
    println!(rt;
        "first piles: {}; indexes: {}",
        busiest.found.first, busiest.found.index
    )?;
    Ok(())
}

fn report(rt: &HostRuntime, recounted: &Recounted) -> anyhow::Result<()> {
    let texts = &recounted.texts;
    let twice = recounted.twice;
    println!(rt;
        "{} commands were played into a hold-back layer over a sparse store",
        twice.commands
    )?;
    println!(rt; "{} lines, {} differ", texts.lines, texts.differ)?;
    if let Some(first) = &texts.first {
        report_difference(rt, first)?;
    }
    println!(rt;
        "the accepted additions went into a flat store too, as {} points, last minute first",
        twice.points
    )?;
    if twice.refused > 0 {
        println!(rt;
            "{} of them and of the growths were refused there",
            twice.refused
        )?;
    }
    println!(rt; "{}", twice.found)?;
    report_hand_over(rt, twice.handed_over)?;
    report_busiest(rt, &recounted.busiest)
}

fn report_random(rt: &HostRuntime, coverage: &Coverage) -> anyhow::Result<()> {
    println!(rt;
        "{FEEDS} random feeds, {} lines, {} differ",
        coverage.lines, coverage.differ
    )?;
    if let Some((feed, first)) = &coverage.first {
        print!(rt; "in feed {feed}, ")?;
        report_difference(rt, first)?;
    }
    println!(rt;
        "after {} of them the two warehouses share every cell",
        coverage.alike
    )?;
    println!(rt;
        "after {} audits accept both stores; taken over, with one more load in {}, they share every cell",
        coverage.handed_over, coverage.loaded
    )?;
    println!(rt;
        "{} busiest minutes, {} differ; after {} feeds the two indexed warehouses share every cell",
        coverage.busiest, coverage.busiest_differ, coverage.indexed_alike
    )?;
    for number in refusals::ALL {
        println!(rt; "refusal {number}: {} times", coverage.of(number))?;
    }
    Ok(())
}

fn run(rt: &HostRuntime) -> anyhow::Result<()> {
    let mut bytes = Vec::new(rt.alloc());
    rt.stdin().read_to_end(&mut bytes)?;
    report(rt, &recount(rt.alloc(), &bytes)?)?;
    report_random(rt, &cover(rt.alloc(), FEEDS)?)
}

fn main(rt: HostRuntime) -> anyhow::Result<()> {
    run(&rt)
}
