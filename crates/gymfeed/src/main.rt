// A console feed on standard input, its lines on standard output.
#![tactic(auto)]

ghost use Rattle.std.specs.Prelude.{◌≡◌, pos, IfOk, length};
ghost use Rattle.store.specs.SparseMeaning.{sparse_means};
ghost use Rattle.holdback.specs.Layer.{layer_means};
ghost use Rattle.warehouse.specs.Founding.{Founded};
ghost use Rattle.warehouse.specs.View.{unmarked};
ghost use Rattle.gymfeed.specs.Feeding.{FedAtFour};

mod standard;

use console::ends::{Sink, Source};
use console::fault::RunFault;
use console::running::run;
use holdback::held::HoldBack;
use standard::{Input, Output};
use std::alloc::{AllocError, Global};
use store::sparse::Sparse;

// The size at which the warehouse is founded.
const SIZE: u8 = 4;

// The values of the largest load.
const VALUES: usize = 4096;

// The pile of the rules, on which a warehouse can be founded at size 4.
fn pile() -> HoldBack<Sparse>
    ensures bands { (layer_means sparse_means result).bands ≡ 3 }
    ensures room { (layer_means sparse_means result).room ≡ pos 1024 }
    ensures founded { Founded (unmarked (layer_means sparse_means result) 4) }
{
    HoldBack::new(Sparse::new(3, 1024))
}

// The buffer of the largest load.
fn buffer(heap: Global) -> Result<Vec<i64>, AllocError>
    ensures { IfOk result (λ values. length values.items ≡ 4096) }
{
    Ok(vec![in heap; 0i64; VALUES]?)
}

// A feed on the pile, founded at size 4.
fn run_on_pile<I: Source, O: Sink>(
    buffer: &mut [i64],
    source: &mut I,
    sink: &mut O,
) -> Result<(), RunFault<I::Error, O::Error>>
    ensures { FedAtFour buffer.old I.Source source.old source.new O.Sink sink.old sink.new result buffer.new }
{
    let (_, answer) = run(pile(), SIZE, buffer, source, sink);
    answer
}

fn fed(rt: &HostRuntime) -> anyhow::Result<()> {
    let mut buffer = buffer(rt.alloc())?;
    let mut input = Input::new(rt.stdin());
    let mut output = Output::new(rt.alloc(), rt.stdout())?;
    run_on_pile(&mut buffer, &mut input, &mut output)?;
    Ok(())
}

fn main(rt: HostRuntime) -> anyhow::Result<()> {
    fed(&rt)
}
