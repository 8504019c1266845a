//! A warehouse fed from a link.
ghost use Rattle.std.specs.Prelude.{◌≡◌};
ghost use Rattle.link.specs.Meaning.{Meaning};
ghost use Rattle.linkfeed.specs.Piece.{StillGives};
ghost use Rattle.linkfeed.specs.Feeding.{Feeds};

use crate::source::LinkSource;
use crate::stopping::Stopping;
use console::ends::Sink;
use console::fault::RunFault;
use console::running::run;
use std::convert::Infallible;
use store::interface::Store;

/// Founds a warehouse on the store at this size, and obeys what the link hands on until it hands on none: the sink takes
/// the lines of these bytes. The buffer is for the values of a load. A store that cannot have the size is refused as 18
/// or 28, and then nothing is polled. The store comes back: as what the feed left of it, closed, also with an error; or as
/// it was, where it was refused.
/// Open: how far past the feed's end the line was polled; with an error, what the sink took.
pub fn feed<S: Store, L: Stopping, O: Sink>(
    source: &mut LinkSource<L>,
    store: S,
    size: u8,
    buffer: &mut [i64],
    sink: &mut O,
) -> (S, Result<(), RunFault<Infallible, O::Error>>)
    ensures { Feeds S.Store store size buffer.old (StillGives source.old.is_over (L.means source.old.line).comes) (source.new ≡ source.old) O.Sink sink.old sink.new result.1 result.0 buffer.new }
{
    run(store, size, buffer, source, sink)
}
