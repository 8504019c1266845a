// A line of a text, read and put at the end of a feed.
ghost use Rattle.std.specs.Prelude.{◌≡◌, ◌+◌};
ghost use Rattle.notation.specs.Reading.{done, rows, command_by, are_fields, one, hex_bytes, letter_feed, line_feed};
ghost use Rattle.notation.specs.Pushing.{Pushes, HexReads};

use crate::encode::push_encoded;
use crate::fault::{Misread, Problem, PushFault};
use crate::fields::{field, misread, next_word};
use hex::FromHexError;
use std::alloc::{AllocError, Global};
use wire::command::Command;

fn finished<T: Drop>(value: T, rest: &[u8]) -> Result<T, Misread>
    ensures { result ≡ done value rest.now }
{
    match *rest {
        [] => Ok(value),
        _ => Err(Misread {
            left: rest.len(),
            problem: Problem::Surplus,
        }),
    }
}

// No function for two fields: their types differ by command.
fn read_command(letter: u8, rest: &[u8]) -> Result<Command, Misread>
    ensures { result ≡ command_by rows letter rest.now }
{
    match letter {
        b'G' => finished(Command::Grow, rest),
        b'L' => {
            let (level, rest) = field(rest)?;
            let (index, rest) = field(rest)?;
            finished(Command::Begin { level, index }, rest)
        }
        b'V' => {
            let (value, rest) = field(rest)?;
            finished(Command::Value { value }, rest)
        }
        b'F' => finished(Command::Finish, rest),
        b'A' => finished(Command::GiveUp, rest),
        b'P' => {
            let (minute, rest) = field(rest)?;
            let (value, rest) = field(rest)?;
            finished(Command::Add { minute, value }, rest)
        }
        b'Q' => {
            let (minute, rest) = field(rest)?;
            finished(Command::Point { minute }, rest)
        }
        b'S' => {
            let (from, rest) = field(rest)?;
            let (to, rest) = field(rest)?;
            finished(Command::Sum { from, to }, rest)
        }
        b'M' => {
            let (from, rest) = field(rest)?;
            let (to, rest) = field(rest)?;
            finished(Command::Mean { from, to }, rest)
        }
        _ => Err(Misread {
            left: 1 + rest.len(),
            problem: Problem::Letter,
        }),
    }
}

// The bytes of a word of hex pairs, of which there must be one.
fn read_hex(word: &[u8], rest: &[u8], heap: Global) -> Result<Vec<u8>, PushFault>
    ensures { HexReads word.now rest.now result }
{
    if word.is_empty() {
        return Err(misread(word, rest, Problem::NotHex).into());
    }
    hex::decode(heap, word).map_err(|error| match error {
        FromHexError::OutOfMemory => PushFault::Memory(AllocError),
        _ => misread(word, rest, Problem::NotHex).into(),
    })
}

fn push_hex(feed: &mut Vec<u8>, rest: &[u8], heap: Global) -> Result<(), PushFault>
    ensures { Pushes (one hex_bytes (λ bs. bs) rest.now) result feed.old.items feed.new.items }
{
    let (word, rest) = next_word(rest)?;
    let bytes = read_hex(word, rest, heap)?;
    finished((), rest)?;
    feed.extend_from_slice(&bytes)?;
    Ok(())
}

fn push_letter(feed: &mut Vec<u8>, letter: u8, rest: &[u8], heap: Global) -> Result<(), PushFault>
    ensures { Pushes (letter_feed letter rest.now) result feed.old.items feed.new.items }
{
    if letter == b'X' {
        return push_hex(feed, rest, heap);
    }
    let command = read_command(letter, rest)?;
    push_encoded(feed, command)?;
    Ok(())
}

fn has_fields(rest: &[u8]) -> bool
    ensures { result ≡ are_fields rest.now }
{
    matches!(*rest, [] | [b' ', ..])
}

pub(crate) fn push_line(feed: &mut Vec<u8>, line: &[u8], heap: Global) -> Result<(), PushFault>
    ensures { Pushes (line_feed line.now) result feed.old.items feed.new.items }
{
    match *line {
        [] | [b'#', ..] => Ok(()),
        [letter, ref rest @ ..] if has_fields(rest) => push_letter(feed, letter, rest, heap),
        _ => Err(PushFault::Misread(Misread {
            left: line.len(),
            problem: Problem::Letter,
        })),
    }
}
