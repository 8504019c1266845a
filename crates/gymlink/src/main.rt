//! Sessions over captured lines: that of standard input, or those of the files that are named, where `-` is standard input.
#![tactic(auto)]

ghost use Rattle.std.specs.Prelude.{◌≡◌, pos, IfOk, length};
ghost use Rattle.store.specs.SparseMeaning.{sparse_means};
ghost use Rattle.holdback.specs.Layer.{layer_means};
ghost use Rattle.gymlink.specs.Shown.{session_text, no_values};

use console::memory::Page;
use holdback::held::HoldBack;
use linkfeed::session::play;
use std::alloc::{AllocError, Global};
use std::io::{Read, Write};
use std::{env, fs};
use store::sparse::Sparse;

// The size at which the warehouse is founded.
const SIZE: u8 = 4;

// The values of the largest load.
const VALUES: usize = 4096;

// The pile of the rules.
fn pile() -> HoldBack<Sparse>
    ensures bands { (layer_means sparse_means result).bands ≡ 3 }
    ensures room { (layer_means sparse_means result).room ≡ pos 1024 }
{
    HoldBack::new(Sparse::new(3, 1024))
}

// The buffer of the largest load.
fn buffer(heap: Global) -> Result<Vec<i64>, AllocError>
    ensures { IfOk result (λ values. values.items ≡ no_values) }
{
    Ok(vec![in heap; 0i64; VALUES]?)
}

// What a session over a line that a board filled with these bytes shows.
fn shown(captured: &[u8], heap: Global) -> anyhow::Result<Page>
    ensures { IfOk result (λ page. page.bytes.items ≡ session_text captured.now) }
{
    let mut buffer = buffer(heap)?;
    let mut page = Page::new(heap);
    let (_, played) = play(captured, pile(), SIZE, &mut buffer, &mut page);
    played?;
    Ok(page)
}

fn line_of(rt: &HostRuntime, name: &str) -> anyhow::Result<Vec<u8>> {
    if name != "-" {
        return Ok(fs::read(rt, name)?);
    }
    let mut bytes = Vec::new(rt.alloc());
    rt.stdin().read_to_end(&mut bytes)?;
    Ok(bytes)
}

fn session(rt: &HostRuntime, name: &str) -> anyhow::Result<()> {
    let page = shown(&line_of(rt, name)?, rt.alloc())?;
    let mut stdout = rt.stdout();
    stdout.write_all(page.bytes())?;
    stdout.flush()?;
    Ok(())
}

fn sessions(rt: &HostRuntime) -> anyhow::Result<()> {
    let mut named = false;
    for name in env::args(rt)?.skip(1) {
        named = true;
        session(rt, &name)?;
    }
    if !named {
        session(rt, "-")?;
    }
    Ok(())
}

fn main(rt: HostRuntime) -> anyhow::Result<()> {
    sessions(&rt)
}
