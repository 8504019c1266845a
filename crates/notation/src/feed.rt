// The feed of a text.
ghost use Rattle.std.specs.Prelude.{◌≡◌, ◌+◌, ◌<◌, length};
ghost use Rattle.notation.specs.Pushing.{located, Feeds};

use crate::fault::{Misread, PushFault, ReadingFault, TextFault};
use crate::line::push_line;
use std::alloc::Global;

// A fault in this line, before which so many lines were read.
fn locate(fault: PushFault, passed: usize, line: &[u8]) -> ReadingFault
    requires { passed < usize.MAX }
    ensures { result ≡ located (passed + 1) (length line.now) fault }
{
    match fault {
        PushFault::Misread(Misread { left, problem }) => ReadingFault::Text(TextFault {
            line: passed + 1,
            column: 1 + line.len().saturating_sub(left),
            problem,
        }),
        PushFault::Memory(error) => ReadingFault::Memory(error),
    }
}

// The feed of a text, line after line; the first line that is none of a feed's is refused.
// An Err for memory is open, also for a text with a wrong line: no clause says when memory is wanting.
pub fn feed_of(text: &[u8], heap: Global) -> Result<Vec<u8>, ReadingFault>
    ensures { Feeds text.now result }
{
    let mut feed = Vec::new(heap);
    'lines: for (passed, line) in text.split(|b| *b == b'\n').enumerate() {
        push_line(&mut feed, line, heap).map_err(|fault| locate(fault, passed, line))?;
    }
    Ok(feed)
}
