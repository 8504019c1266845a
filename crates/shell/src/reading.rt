//! A command, read from the words of a line.
ghost use Rattle.shell.specs.Grammar.{operands, command_at, command_of};
ghost use Rattle.shell.specs.Reading.{ReadsCommand, ReadsWhole};

use crate::command::Command;
use crate::verb::{Verb, verb_of};
use crate::words::{Bands, Words};
use crate::wrong::{Misread, Unread, Why};
use std::alloc::Global;

// The command of this word, given the words that come.
fn take_operands(verb: Verb, words: &mut Words, heap: Global) -> Result<Command, Unread>
    ensures { ReadsCommand (operands verb words.old.rest.now) result words.new.rest.now }
{
    match verb {
        Verb::Flat => Ok(Command::Flat {
            bands: words.take::<Bands>()?.count,
        }),
        Verb::Sparse => Ok(Command::Sparse {
            bands: words.take()?,
            capacity: words.take()?,
        }),
        Verb::Layer => Ok(Command::Layer),
        Verb::Write => Ok(Command::Write {
            cell: words.take()?,
            value: words.take()?,
        }),
        Verb::Read => Ok(Command::Read {
            cell: words.take()?,
        }),
        Verb::Store => Ok(Command::Store),
        Verb::First => Ok(Command::First),
        Verb::Second => Ok(Command::Second),
        Verb::Compare => Ok(Command::Compare),
        Verb::Survey => Ok(Command::Survey {
            size: words.take()?,
        }),
        Verb::Found => Ok(Command::Found {
            size: words.take()?,
        }),
        Verb::Take => Ok(Command::Take {
            size: words.take()?,
            mark: words.take_or_zero()?,
        }),
        Verb::Audit => Ok(Command::Audit {
            size: words.take()?,
        }),
        Verb::Close => Ok(Command::Close),
        Verb::Size => Ok(Command::Size),
        Verb::Mark => Ok(Command::Mark),
        Verb::Free => Ok(Command::Free),
        Verb::Add => Ok(Command::Add {
            minute: words.take()?,
            value: words.take()?,
        }),
        Verb::Load => Ok(Command::Load {
            level: words.take()?,
            index: words.take()?,
            values: words.take_values(heap)?,
        }),
        Verb::Grow => Ok(Command::Grow),
        Verb::Settle => Ok(Command::Settle),
        Verb::Point => Ok(Command::Point {
            minute: words.take()?,
        }),
        Verb::Sum => Ok(Command::Sum {
            from: words.take()?,
            to: words.take()?,
        }),
        Verb::Mean => Ok(Command::Mean {
            from: words.take()?,
            to: words.take()?,
        }),
        Verb::Busiest => Ok(Command::Busiest {
            from: words.take()?,
            to: words.take()?,
        }),
        Verb::Trend => Ok(Command::Trend {
            level: words.take()?,
            index: words.take()?,
        }),
        Verb::Cells => Ok(Command::Cells),
        Verb::Line => Ok(Command::Line {
            bytes: words.take_hex(heap)?,
        }),
        Verb::Ring => Ok(Command::Ring),
        Verb::Put => Ok(Command::Put {
            bytes: words.take_hex(heap)?,
        }),
        Verb::Welcome => Ok(Command::Welcome),
        Verb::Begin => Ok(Command::Begin),
        Verb::Next => Ok(Command::Next),
        Verb::End => Ok(Command::End),
        Verb::Replied => Ok(Command::Replied),
        Verb::Help => Ok(Command::Help),
    }
}

// The command that the next words say.
pub(crate) fn take_command(words: &mut Words, heap: Global) -> Result<Command, Unread>
    ensures { ReadsCommand (command_at words.old.rest.now) result words.new.rest.now }
{
    let left = words.left();
    match verb_of(words.take_word()) {
        Some(verb) => take_operands(verb, words, heap),
        None => Err(Misread {
            left,
            why: Why::Name,
        }
        .into()),
    }
}

// The command that all of the words say.
pub(crate) fn whole_command(words: &mut Words, heap: Global) -> Result<Command, Unread>
    ensures { ReadsWhole (command_of words.old.rest.now) result }
{
    let command = take_command(words, heap)?;
    let left = words.left();
    if left > 0 {
        return Err(Misread {
            left,
            why: Why::Surplus,
        }
        .into());
    }
    Ok(command)
}
