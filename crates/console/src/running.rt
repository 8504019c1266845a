// A feed run to its end, and the law of its lines.
ghost use Rattle.console.specs.Running.{Resumed, Ran};

use crate::ends::{Sink, Source};
use crate::fault::RunFault;
use crate::printing::print;
use crate::pumping::pump;
use feed::run::end;
use store::interface::Store;
use warehouse::founding::survey;
use warehouse::record::Warehouse;

// The feed's commands, one after another, on any warehouse, whatever came before; the sink takes their lines, and nothing else changes
// warehouse and buffer. A load that is open at the end is given up. If the warehouse has a history, since a founding or an audit, the
// lines are those that the plain recount of it gives, which says too what the warehouse and the buffer, for the values of a load, then hold.
// With an error they hold what the commands obeyed until then leave, and an open load is given up without a line.
// Open: with an error, how many commands that were and what the sink took; how far past the feed's end the source was read.
pub fn resume<S: Store, I: Source, O: Sink>(
    warehouse: &mut Warehouse<S>,
    buffer: &mut [i64],
    source: &mut I,
    sink: &mut O,
) -> Result<(), RunFault<I::Error, O::Error>>
    ensures { Resumed S.Store warehouse.old buffer.old I.Source source.old source.new O.Sink sink.old sink.new result warehouse.new buffer.new }
{
    let (loading, pumped) = pump(warehouse, buffer, source, sink);
    let line = end(loading);
    pumped?;
    // closures: the variant's bare name gets no proof here, since the fault has the source's error as a parameter too
    print(sink, line).map_err(|error| RunFault::Output(error))?;
    sink.flush().map_err(|error| RunFault::Output(error))
}

// The law of a feed: on a store that can be founded at this size, whatever it is made of, the sink takes the lines that the
// plain recount of the source's bytes gives; the store comes back as what the feed left of it, closed, also with an error. On another
// nothing is read or printed, and store and buffer are as they were. Open is what `resume` leaves open.
pub fn run<S: Store, I: Source, O: Sink>(
    store: S,
    size: u8,
    buffer: &mut [i64],
    source: &mut I,
    sink: &mut O,
) -> (S, Result<(), RunFault<I::Error, O::Error>>)
    ensures { Ran S.Store store size buffer.old I.Source source.old source.new O.Sink sink.old sink.new result.1 result.0 buffer.new }
{
    // no `?`: the store goes out with every answer
    if let Err(refusal) = survey(&store, size) {
        return (store, Err(RunFault::Founding(refusal)));
    }
    let mut warehouse = Warehouse::take_over(store, size, 0);
    let answer = resume(&mut warehouse, buffer, source, sink);
    // settled where it is: closing it by value copies the store onto the stack once more
    warehouse.settle();
    (warehouse.store, answer)
}
