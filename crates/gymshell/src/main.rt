// A shell over one warehouse: commands on standard input or as arguments, answers on standard output.
#![tactic(auto)]

mod asking;
mod board;
mod lines;
mod out;
mod piles;
mod slot;
mod standing;
mod state;
mod talk;

use lines::{Input, Lines, Spelled};
use out::Out;
use pile::laying::Numbers;
use std::io::BufWriter;
use std::process::ExitCode;
use std::{env, io};
use talk::session;

// The cells of five bands.
const CELLS: usize = 1_118_480;

// The values of the largest load.
const VALUES: usize = 4096;

// All lines answered: whether one of them was answered by a refusal or was wrong.
fn answered<I: Lines>(rt: &HostRuntime, lines: &mut I) -> anyhow::Result<bool> {
    let alloc = rt.alloc();
    let mut first = vec![in alloc; 0i64; CELLS]?;
    let mut second = vec![in alloc; 0i64; CELLS]?;
    let buffer = vec![in alloc; 0i64; VALUES]?;
    let mut out = Out::new(alloc, BufWriter::new(alloc, rt.stdout())?);
    let first = Numbers::new(alloc, &mut first);
    let second = Numbers::new(alloc, &mut second);
    session(first, second, buffer, lines, &mut out, alloc)?;
    Ok(out.bad)
}

fn run(rt: &HostRuntime) -> anyhow::Result<ExitCode> {
    let mut words = Vec::new(rt.alloc());
    for word in env::args(rt)?.skip(1) {
        words.push(word.into_bytes())?;
    }
    if words.is_empty() {
        answered(rt, &mut Input::new(rt.alloc(), rt.stdin())?)?;
        return Ok(ExitCode::SUCCESS);
    }
    words.reverse();
    Ok(if answered(rt, &mut Spelled { words })? {
        ExitCode::FAILURE
    } else {
        ExitCode::SUCCESS
    })
}

fn main(rt: HostRuntime) -> anyhow::Result<ExitCode> {
    run(&rt)
}
