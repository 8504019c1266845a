// The text of a feed.
ghost use Rattle.std.specs.Prelude.{◌≡◌, Some, IfOk};
ghost use Rattle.notation.specs.Text.{text_of, command_line};

use std::alloc::{AllocError, Global};
use std::fmt;
use wire::command::Command;
use wire::decode::decode;

// The letter of a command, then its numbers.
#[derive(Clone, Copy)]
struct CommandLine(Command);

impl fmt::Display for CommandLine {
    ghost output = { λ line. Some (command_line line.0) };

    fn fmt<W: fmt::Write>(&self, f: &mut fmt::Formatter<W>) -> fmt::Result {
        match self.0 {
            Command::Grow => write!(f, "G"),
            Command::Begin { level, index } => write!(f, "L {level} {index}"),
            Command::Value { value } => write!(f, "V {value}"),
            Command::Finish => write!(f, "F"),
            Command::GiveUp => write!(f, "A"),
            Command::Add { minute, value } => write!(f, "P {minute} {value}"),
            Command::Point { minute } => write!(f, "Q {minute}"),
            Command::Sum { from, to } => write!(f, "S {from} {to}"),
            Command::Mean { from, to } => write!(f, "M {from} {to}"),
        }
    }
}

// The text of a feed: its commands, then the bytes that no command can be read from.
// An Err is open: no clause says when memory is wanting.
pub fn text_of(feed: &[u8], heap: Global) -> Result<Vec<u8>, AllocError>
    ensures { IfOk result (λ text. text.items ≡ text_of feed.now) }
{
    let mut text = String::new(heap);
    let mut rest = feed;
    // by a loop: `decode` gives the rest with the command, so that an iterator would keep a state that stands here already
    'commands: while let Ok((command, after)) = decode(rest) {
        writeln!(text, "{}", CommandLine(command))?;
        rest = after;
    }
    if !rest.is_empty() {
        writeln!(text, "X {}", hex::encode(heap, rest)?)?;
    }
    Ok(text.into_bytes())
}
