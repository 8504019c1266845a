// A feed in words.
ghost use Rattle.std.specs.Prelude.{◌≡◌, Some, IfOk};
ghost use Rattle.notation.specs.Words.{words_of, phrase, ending};

use std::alloc::{AllocError, Global};
use std::fmt;
use wire::command::{Command, DecodeFault};
use wire::decode::decode;

// What a command says, with its numbers. Apart from its line of text: no two arms share a word.
#[derive(Clone, Copy)]
struct Phrase(Command);

impl fmt::Display for Phrase {
    ghost output = { λ told. Some (phrase told.0) };

    fn fmt<W: fmt::Write>(&self, f: &mut fmt::Formatter<W>) -> fmt::Result {
        match self.0 {
            Command::Grow => write!(f, "grow"),
            Command::Begin { level, index } => {
                write!(f, "begin a load of level {level} and index {index}")
            }
            Command::Value { value } => write!(f, "value {value}"),
            Command::Finish => write!(f, "finish the load"),
            Command::GiveUp => write!(f, "give the load up"),
            Command::Add { minute, value } => write!(f, "add {value} to minute {minute}"),
            Command::Point { minute } => write!(f, "ask for minute {minute}"),
            Command::Sum { from, to } => {
                write!(f, "ask for the sum of the minutes from {from} up to {to}")
            }
            Command::Mean { from, to } => {
                write!(f, "ask for the mean of the minutes from {from} up to {to}")
            }
        }
    }
}

// Why no command can be read, and the byte where it would begin.
#[derive(Clone, Copy)]
struct Ending(DecodeFault, u8);

impl fmt::Display for Ending {
    ghost output = { λ told. Some (ending told.0 told.1) };

    fn fmt<W: fmt::Write>(&self, f: &mut fmt::Formatter<W>) -> fmt::Result {
        match self.0 {
            DecodeFault::Command => write!(f, "no command begins with byte {}", self.1),
            DecodeFault::Cut => write!(f, "the feed ends inside a command"),
        }
    }
}

// The words of a feed: its commands, then why no more can be read.
// An Err is open: no clause says when memory is wanting.
pub fn words_of(feed: &[u8], heap: Global) -> Result<Vec<u8>, AllocError>
    ensures { IfOk result (λ words. words.items ≡ words_of feed.now) }
{
    let mut words = String::new(heap);
    let mut rest = feed;
    // by a loop: `decode` gives the rest with the command, so that an iterator would keep a state that stands here already
    'commands: while !rest.is_empty() {
        let at = feed.len() - rest.len();
        match decode(rest) {
            Ok((command, after)) => {
                writeln!(words, "at byte {at}: {}", Phrase(command))?;
                rest = after;
            }
            Err(fault) => {
                writeln!(words, "at byte {at}: {}", Ending(fault, rest[0]))?;
                rest = &[];
            }
        }
    }
    Ok(words.into_bytes())
}
