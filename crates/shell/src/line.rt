//! A line, read.
ghost use Rattle.std.specs.Prelude.{◌≡◌};
ghost use Rattle.shell.specs.Grammar.{column, is_silent};
ghost use Rattle.shell.specs.Reading.{ReadsLine, located};

use crate::command::Spoken;
use crate::reading::whole_command;
use crate::words::{Words, from_word};
use crate::wrong::{LineFault, Misread, Unread, Wrong};
use std::alloc::Global;

// Whether a line says nothing: it has blanks alone, or is a remark.
fn is_silent(line: &[u8]) -> bool
    ensures { result ≡ is_silent line.now }
{
    matches!(*from_word(line), [] | [b'#', ..])
}

// The column of the last `left` bytes of a line.
fn column(line: &[u8], left: usize) -> usize
    ensures { result ≡ column line.now left }
{
    1 + line.len().saturating_sub(left)
}

fn locate(line: &[u8], unread: Unread) -> LineFault
    ensures { result ≡ located line.now unread }
{
    match unread {
        Unread::Misread(Misread { left, why }) => LineFault::Wrong(Wrong {
            column: column(line, left),
            why,
        }),
        Unread::Memory(error) => LineFault::Memory(error),
    }
}

/// What a line says, which has any bytes and no newline: a command; or nothing, where it has blanks alone or begins with
/// `#`. A line that is neither is wrong at the column of its first wrong word, or one past its end where a word is
/// missing. An Err for memory is open: no clause says when memory is wanting.
pub fn read_line(line: &[u8], heap: Global) -> Result<Option<Spoken>, LineFault>
    ensures { ReadsLine line.now result }
{
    if is_silent(line) {
        return Ok(None);
    }
    let mut words = Words { rest: line };
    let column = column(line, words.left());
    let command = whole_command(&mut words, heap).map_err(|unread| locate(line, unread))?;
    Ok(Some(Spoken { column, command }))
}
