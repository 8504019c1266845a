// The bytes of a feed, one command after another.
ghost use Rattle.std.specs.Prelude.{◌≡◌, ◌+◌, ◌^◌, ◌<◌, ◌≤◌, true, false, length};
ghost use Rattle.console.specs.Playing.{state, Nexts, Plays};

use crate::ends::Sink;
use crate::printing::{line_of, print};
use feed::run::step;
use feed::stepped::Stepped;
use loads::open::OpenLoad;
use store::interface::Store;
use warehouse::record::Warehouse;

// No command has more bytes.
const LONGEST: usize = 9;

// Whether a command can be read from so many bytes: nine are enough for any, and after the last none will come.
fn is_ready(left: usize, last: bool) -> bool
    ensures some { result ≡ true → 0 < left }
    ensures enough { result ≡ true → last ≡ false → 9 ≤ left }
    ensures few { result ≡ false → left < 9 }
    ensures all { result ≡ false → last ≡ true → left ≡ 0 }
{
    left > 0 && (last || left >= LONGEST)
}

// The command at the front of the bytes, and its line: how many bytes it has, or none where the feed ends.
// No struct holds warehouse, load and buffer: a load cannot be put back behind a `&mut`.
fn obey_next<S: Store, O: Sink>(
    warehouse: &mut Warehouse<S>,
    loading: Option<OpenLoad>,
    buffer: &mut [i64],
    bytes: &[u8],
    offset: u64,
    sink: &mut O,
) -> (Option<OpenLoad>, Result<Option<usize>, O::Error>)
    requires { 0 < length bytes.now }
    ensures { Nexts S.Store (state warehouse.old loading buffer.old) offset bytes.now O.Sink sink.old sink.new result.1 (state warehouse.new result.0 buffer.new) }
{
    let Stepped {
        loading,
        reply,
        width,
    } = step(warehouse, loading, buffer, bytes, offset);
    (loading, print(sink, line_of(reply)).map(|()| width))
}

// As many commands as the bytes surely hold whole, or all of them if no more bytes come: how many bytes they have, or none
// where the feed ends.
pub(crate) fn play<S: Store, O: Sink>(
    warehouse: &mut Warehouse<S>,
    mut loading: Option<OpenLoad>,
    buffer: &mut [i64],
    bytes: &[u8],
    offset: u64,
    last: bool,
    sink: &mut O,
) -> (Option<OpenLoad>, Result<Option<usize>, O::Error>)
    requires { offset + length bytes.now < 2 ^ 64 }
    ensures { Plays S.Store (state warehouse.old loading buffer.old) offset bytes.now last O.Sink sink.old sink.new result.1 (state warehouse.new result.0 buffer.new) }
{
    let mut rest = bytes;
    let mut here = offset;
    'commands: while is_ready(rest.len(), last) {
        let (next, went) = obey_next(warehouse, loading, buffer, rest, here, sink);
        loading = next;
        // no `?`: the load goes out with every answer
        let width = match went {
            Ok(Some(width)) => width,
            Ok(None) => return (loading, Ok(None)),
            Err(error) => return (loading, Err(error)),
        };
        rest = &rest[width..];
        here += width as u64;
    }
    (loading, Ok(Some(bytes.len() - rest.len())))
}
