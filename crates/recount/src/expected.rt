// What a whole feed should print, worked out from plain minutes.
ghost use Rattle.std.specs.Prelude.{◌<◌, IfOk, length};

use crate::lines::Expectation;
use crate::plain::{Deed, Plain};
use crate::refusals::{COMMAND, CUT, Fault};
use std::alloc::{AllocError, Global};
use wire::command::DecodeFault;
use wire::decode::decode;
use wire::line::Line;

#[derive(Drop)]
pub(crate) struct Expected {
    pub(crate) lines: Vec<Expectation>,
    // what was accepted
    pub(crate) deeds: Vec<Deed>,
}

// The line of an answer, if it has one.
fn line_of(answer: Result<Option<Line>, Fault>, offset: u64) -> Result<Option<Line>, AllocError> {
    match answer {
        Ok(line) => Ok(line),
        Err(Fault::Refused(number)) => Ok(Some(Line::Refused { number, offset })),
        Err(Fault::Memory) => Err(AllocError),
    }
}

// The command at the front of the bytes: its line, and the bytes after it. A fault ends the feed.
#[tactic(auto, using(wire::proofs::Rows::shorter))]
fn turn<'a>(
    plain: &mut Plain,
    bytes: &'a [u8],
    offset: u64,
) -> Result<(Option<Line>, &'a [u8]), AllocError>
    requires { 0 < length bytes.now }
    ensures { IfOk result (λ p. length p.1.now < length bytes.now) }
{
    let (answer, rest) = match decode(bytes) {
        Ok((command, rest)) => (plain.obey(command), rest),
        // not by the fault's `number`: the recount has its own
        Err(DecodeFault::Command) => (Err(Fault::Refused(COMMAND)), &bytes[..0]),
        Err(DecodeFault::Cut) => (Err(Fault::Refused(CUT)), &bytes[..0]),
    };
    Ok((line_of(answer, offset)?, rest))
}

// Every line of a feed, and at its end that of a load that is open.
pub(crate) fn expect(heap: Global, feed: &[u8]) -> Result<Expected, AllocError> {
    let mut plain = Plain::new(heap)?;
    let mut lines = Vec::new(heap);
    let mut rest = feed;
    // the commands differ in length, so that no range has their offsets
    while !rest.is_empty() {
        let offset = feed.len().saturating_sub(rest.len()) as u64;
        let (line, after) = turn(&mut plain, rest, offset)?;
        if let Some(line) = line {
            lines.push(Expectation { offset, line })?;
        }
        rest = after;
    }
    if let Some(line) = plain.end() {
        let offset = feed.len() as u64;
        lines.push(Expectation { offset, line })?;
    }
    let Plain { deeds, .. } = plain;
    Ok(Expected { lines, deeds })
}
