// The link to a motor board, and the line that it is on.
ghost use Rattle.std.specs.Prelude.{◌≡◌, ◌-◌, ◌++◌, min, length, take};
ghost use Rattle.link.specs.Meaning.{Meaning};
ghost use Rattle.gymshell.specs.Wire.{wire_means};

use link::captured::Captured;
use link::fault::Fault;
use link::line::Line;
use link::ring::Ring;
use link::states::Welcome;
use link::turns::Link;
use shell::answer::{Answer, Refused};
use shell::command::Command;
use shell::wrong::Why;
use std::mem::replace;

// The line that was given: none yet, what a board once sent, or a ring.
#[derive(Drop)]
pub(crate) enum Given {
    Nothing,
    Captured(Vec<u8>),
    Ring,
}

#[derive(Drop)]
pub(crate) enum Wire<'a> {
    Captured(Captured<'a>),
    Ring(Ring),
}

impl Line for Wire<'_> {
    ghost means = { wire_means };

    fn poll(&mut self) -> Option<u8> {
        match self {
            Wire::Captured(line) => line.poll(),
            Wire::Ring(line) => line.poll(),
        }
    }

    fn reply(&mut self, byte: u8) {
        match self {
            Wire::Captured(line) => line.reply(byte),
            Wire::Ring(line) => line.reply(byte),
        }
    }
}

impl Wire<'_> {
    fn latest_reply(&self) -> Option<u8> {
        match self {
            Wire::Captured(line) => line.latest_reply(),
            Wire::Ring(line) => line.latest_reply(),
        }
    }

    // Puts bytes into a ring.
    fn put(&mut self, bytes: &[u8]) -> Result<Answer, Why> {
        match self {
            Wire::Captured(_) => Err(Why::NoRing),
            Wire::Ring(ring) => Ok(Answer::Taken(fill(ring, bytes))),
        }
    }
}

// How many of the bytes the ring takes: up to the first for which it has no room.
fn fill(ring: &mut Ring, bytes: &[u8]) -> usize
    ensures most { result ≡ min (length bytes.now) (64 - length ring.old.bytes) }
    ensures taken { ring.new ≡ record ring.old { bytes = ring.old.bytes ++ take result bytes.now } }
{
    for (taken, byte) in bytes.iter().enumerate() {
        if !ring.put(*byte) {
            return taken;
        }
    }
    bytes.len()
}

// A link, and its line.
#[derive(Drop)]
pub(crate) struct Board<'a> {
    wire: Wire<'a>,
    link: Link,
}

impl<'a> Board<'a> {
    // The link as new, on the line that was given.
    pub(crate) fn new(given: &'a Given) -> Option<Board<'a>> {
        let wire = match given {
            Given::Nothing => return None,
            Given::Captured(bytes) => Wire::Captured(Captured::new(bytes)),
            Given::Ring => Wire::Ring(Ring::new()),
        };
        Some(Board {
            wire,
            link: Link::Welcome(Welcome::new()),
        })
    }

    // One call in the state that the link is in.
    fn turn(&mut self) -> Result<Option<u8>, Fault> {
        let link = replace(&mut self.link, Link::Welcome(Welcome::new()));
        let (next, shown) = link.turn(&mut self.wire);
        self.link = next;
        shown
    }

    fn poll(&mut self) -> Result<Answer, Why> {
        let Link::Welcome(_) = &self.link else {
            return Err(Why::NotWelcome);
        };
        Ok(match (self.turn(), &self.link) {
            (Err(fault), _) => Answer::Refused(Refused::Link(fault)),
            (Ok(_), Link::Welcome(welcome)) => Answer::Welcome(welcome.polls_left()),
            (Ok(_), _) => Answer::Ready,
        })
    }

    fn begin(&mut self) -> Result<Answer, Why> {
        let Link::Ready(_) = &self.link else {
            return Err(Why::NotReady);
        };
        let _ = self.turn();
        Ok(Answer::Feeding)
    }

    fn next(&mut self) -> Result<Answer, Why> {
        let Link::Feeding(_) = &self.link else {
            return Err(Why::NotFeeding);
        };
        Ok(Answer::Byte(self.turn().unwrap_or(None)))
    }

    fn end(&mut self) -> Result<Answer, Why> {
        let Link::Feeding(_) = &self.link else {
            return Err(Why::NotFeeding);
        };
        let welcome = Welcome::new();
        let left = welcome.polls_left();
        self.link = Link::Welcome(welcome);
        Ok(Answer::Welcome(left))
    }

    fn turned(&mut self, command: &Command) -> Option<Result<Answer, Why>> {
        Some(match command {
            Command::Put { bytes } => self.wire.put(bytes),
            Command::Welcome => self.poll(),
            Command::Begin => self.begin(),
            Command::Next => self.next(),
            Command::End => self.end(),
            Command::Replied => Ok(Answer::Byte(self.wire.latest_reply())),
            _ => return None,
        })
    }

    // What a command of the link answers; none is another command.
    pub(crate) fn answer(
        board: &mut Option<Board<'_>>,
        command: &Command,
    ) -> Option<Result<Answer, Why>> {
        match (board, command) {
            (Some(board), command) => board.turned(command),
            (
                None,
                Command::Put { .. }
                | Command::Welcome
                | Command::Begin
                | Command::Next
                | Command::End
                | Command::Replied,
            ) => Some(Err(Why::NoLine)),
            (None, _) => None,
        }
    }
}
