// The bytes of a command.
ghost use Rattle.std.specs.Prelude.{◌∷◌, ◌++◌};
ghost use Rattle.wire.specs.Encode.{four_bytes, encode};
ghost use Rattle.notation.specs.Pushing.{Appends};

use std::alloc::AllocError;
use wire::command::Command;

pub(crate) fn push_encoded(feed: &mut Vec<u8>, command: Command) -> Result<(), AllocError>
    ensures { Appends (encode command) result feed.old.items feed.new.items }
{
    match command {
        Command::Grow => feed.extend_from_slice(b"G"),
        Command::Begin { level, index } => {
            feed.extend_from_slice(&[b'L', level])?;
            push_four(feed, index)
        }
        Command::Value { value } => {
            feed.extend_from_slice(b"V")?;
            push_four(feed, value.cast_unsigned())
        }
        Command::Finish => feed.extend_from_slice(b"F"),
        Command::GiveUp => feed.extend_from_slice(b"A"),
        Command::Add { minute, value } => {
            feed.extend_from_slice(b"P")?;
            push_four(feed, minute)?;
            push_four(feed, value.cast_unsigned())
        }
        Command::Point { minute } => {
            feed.extend_from_slice(b"Q")?;
            push_four(feed, minute)
        }
        Command::Sum { from, to } => push_range(feed, b'S', from, to),
        Command::Mean { from, to } => push_range(feed, b'M', from, to),
    }
}

fn push_range(feed: &mut Vec<u8>, letter: u8, from: u32, to: u32) -> Result<(), AllocError>
    ensures { Appends (letter ∷ four_bytes from ++ four_bytes to) result feed.old.items feed.new.items }
{
    feed.extend_from_slice(&[letter])?;
    push_four(feed, from)?;
    push_four(feed, to)
}

fn push_four(feed: &mut Vec<u8>, n: u32) -> Result<(), AllocError>
    ensures { Appends (four_bytes n) result feed.old.items feed.new.items }
{
    feed.extend_from_slice(&n.to_be_bytes())
}
