// A feed from text, a feed as text, and a feed in words: from standard input to standard output.
#![tactic(auto)]

use anyhow::bail;
use notation::feed::feed_of;
use notation::text::text_of;
use notation::words::words_of;
use std::env;
use std::io::{Read, Write};

const USAGE: &str = "usage: feedtext write|read|explain";

fn input(rt: &HostRuntime) -> anyhow::Result<Vec<u8>> {
    let mut bytes = Vec::new(rt.alloc());
    rt.stdin().read_to_end(&mut bytes)?;
    Ok(bytes)
}

#[derive(Clone, Copy)]
enum Way {
    Write,
    Read,
    Explain,
}

fn way_of(word: &str) -> anyhow::Result<Way> {
    Ok(match word {
        "write" => Way::Write,
        "read" => Way::Read,
        "explain" => Way::Explain,
        _ => bail!("{USAGE}"),
    })
}

// What a way makes of a feed or its text.
fn made(way: Way, bytes: &[u8], rt: &HostRuntime) -> anyhow::Result<Vec<u8>> {
    Ok(match way {
        Way::Write => feed_of(bytes, rt.alloc())?,
        Way::Read => text_of(bytes, rt.alloc())?,
        Way::Explain => words_of(bytes, rt.alloc())?,
    })
}

fn run(rt: &HostRuntime) -> anyhow::Result<()> {
    let mut args = env::args(rt)?.skip(1);
    let (Some(way), None) = (args.next(), args.next()) else {
        bail!("{USAGE}");
    };
    let way = way_of(&way)?;
    let output = made(way, &input(rt)?, rt)?;
    let mut stdout = rt.stdout();
    stdout.write_all(&output)?;
    stdout.flush()?;
    Ok(())
}

fn main(rt: HostRuntime) -> anyhow::Result<()> {
    run(&rt)
}

#[test]
fn each_word_makes_its_own(rt: HostRuntime) {
    let read = way_of("read").and_then(|way| made(way, b"G", &rt));
    assert!(rt; read.is_ok_and(|made| made.as_slice() == b"G\n".as_slice()));
    let written = way_of("write").and_then(|way| made(way, b"G\n", &rt));
    assert!(rt; written.is_ok_and(|made| made.as_slice() == b"G".as_slice()));
    assert!(rt; way_of("count").is_err());
}
