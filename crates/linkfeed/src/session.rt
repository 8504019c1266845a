//! A whole session over a captured line, with each state of the link in words and the lines of its feed.
ghost use Rattle.std.specs.Prelude.{◌≡◌, length};
ghost use Rattle.linkfeed.specs.Session.{Says, Hands, Serves, Greets, Plays, refused_line};

use crate::feeding::feed;
use crate::source::LinkSource;
use console::ends::Sink;
use console::fault::RunFault;
use link::captured::Captured;
use link::fault::Fault;
use link::session::wait;
use link::states::Ready;
use std::convert::Infallible;
use store::interface::Store;

const WELCOME: &[u8] = b"Welcome\n";

const READY: &[u8] = b"Ready\n";

const FEEDING: &[u8] = b"Feeding\n";

// Why a Welcome was refused, as a line.
fn refusal(fault: Fault) -> &'static [u8]
    ensures { result.now ≡ refused_line fault }
{
    match fault {
        Fault::NoMotor => b"E 32 No motor\n",
        Fault::Line => b"E 33 Line\n",
    }
}

fn say<O: Sink>(sink: &mut O, words: &[u8]) -> Result<(), RunFault<Infallible, O::Error>>
    ensures { Says (O.took sink.old) (O.took sink.new) (O.stuck sink.new) words.now result }
{
    match sink.write(words) {
        Ok(()) => Ok(()),
        Err(error) => Err(RunFault::Output(error)),
    }
}

fn hand_over<O: Sink>(sink: &mut O) -> Result<(), RunFault<Infallible, O::Error>>
    ensures { Hands (O.took sink.old) (O.took sink.new) (O.handed sink.new) (O.stuck sink.new) result }
{
    match sink.flush() {
        Ok(()) => Ok(()),
        Err(error) => Err(RunFault::Output(error)),
    }
}

// From the ready byte on: begins, and feeds a warehouse with what the line still has.
fn serve<S: Store, O: Sink>(
    ready: Ready,
    mut line: Captured<'_>,
    store: S,
    size: u8,
    buffer: &mut [i64],
    sink: &mut O,
) -> (S, Result<(), RunFault<Infallible, O::Error>>)
    ensures { Serves S.Store store size buffer.old line.entry.bytes O.Sink sink.old sink.new result.1 result.0 buffer.new }
{
    if let Err(stuck) = say(sink, READY) {
        return (store, Err(stuck));
    }
    let feeding = ready.begin(&mut line);
    if let Err(stuck) = say(sink, FEEDING) {
        return (store, Err(stuck));
    }
    let mut source = LinkSource::new(feeding, line);
    let (store, fed) = feed(&mut source, store, size, buffer, sink);
    let (feeding, _) = source.into_parts();
    let _ = feeding.end();
    (store, fed)
}

fn greet<S: Store, O: Sink>(
    mut line: Captured<'_>,
    store: S,
    size: u8,
    buffer: &mut [i64],
    sink: &mut O,
) -> (S, Result<(), RunFault<Infallible, O::Error>>)
    ensures { Greets S.Store store size buffer.old line.entry.bytes O.Sink sink.old sink.new result.1 result.0 buffer.new }
{
    match wait(&mut line) {
        Ok(ready) => serve(ready, line, store, size, buffer, sink),
        Err(refused) => (store, say(sink, refusal(refused.fault))),
    }
}

/// Plays a session over a line that a board once filled with these bytes: the link waits, begins, feeds a warehouse that
/// is founded on the store at this size, and ends. The sink is told each state of the link and the lines of the feed, or
/// why the Welcome was refused (32 No motor, 33 Line). The buffer is for the values of a load.
/// The store comes back: closed, as its feed left it, also with an error; or as it was, if it was never fed.
/// Open: with an error, what the sink took.
pub fn play<S: Store, O: Sink>(
    captured: &[u8],
    store: S,
    size: u8,
    buffer: &mut [i64],
    sink: &mut O,
) -> (S, Result<(), RunFault<Infallible, O::Error>>)
    ensures { Plays S.Store store size buffer.old captured.now O.Sink sink.old sink.new result.1 result.0 buffer.new }
{
    if let Err(stuck) = say(sink, WELCOME) {
        return (store, Err(stuck));
    }
    let (store, greeted) = greet(Captured::new(captured), store, size, buffer, sink);
    if let Err(fault) = greeted {
        return (store, Err(fault));
    }
    if let Err(stuck) = say(sink, WELCOME) {
        return (store, Err(stuck));
    }
    (store, hand_over(sink))
}
