// The pieces of a feed, from its source to its lines.
ghost use Rattle.std.specs.Prelude.{None};
ghost use Rattle.console.specs.Playing.{state};
ghost use Rattle.console.specs.Pumping.{Pumps};

use crate::ends::{Sink, Source};
use crate::fault::RunFault;
use crate::playing::play;
use crate::window::Window;
use loads::open::OpenLoad;
use store::interface::Store;
use warehouse::record::Warehouse;

// Piece by piece until the source or the feed ends; what is printed of a piece is handed on before the next is read.
// No `?` here: the load goes out with every answer.
pub(crate) fn pump<S: Store, I: Source, O: Sink>(
    warehouse: &mut Warehouse<S>,
    buffer: &mut [i64],
    source: &mut I,
    sink: &mut O,
) -> (Option<OpenLoad>, Result<(), RunFault<I::Error, O::Error>>)
    ensures { Pumps S.Store (state warehouse.old None buffer.old) I.Source source.old source.new O.Sink sink.old sink.new result.1 (state warehouse.new result.0 buffer.new) }
{
    let mut loading = None;
    let mut window = Window::new();
    let mut offset = 0u64;
    'pieces: loop {
        let many = match window.fill(source) {
            Ok(many) => many,
            Err(error) => return (loading, Err(RunFault::Input(error))),
        };
        let bytes = window.bytes();
        if offset.checked_add(bytes.len() as u64).is_none() {
            return (loading, Err(RunFault::Long));
        }
        let last = many == 0;
        let (next, played) = play(warehouse, loading, buffer, bytes, offset, last, sink);
        loading = next;
        let used = match played {
            Ok(Some(used)) => used,
            Ok(None) => return (loading, Ok(())),
            Err(error) => return (loading, Err(RunFault::Output(error))),
        };
        if last {
            return (loading, Ok(()));
        }
        if let Err(error) = sink.flush() {
            return (loading, Err(RunFault::Output(error)));
        }
        window.drop_front(used);
        offset += used as u64;
    }
}
