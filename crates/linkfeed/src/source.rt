//! A Feeding link as a source of bytes.
ghost use Rattle.std.specs.Prelude.{◌≡◌, Ok, IfOk, true, false};
ghost use Rattle.link.specs.Meaning.{Meaning};
ghost use Rattle.console.specs.Ends.{Reads};
ghost use Rattle.linkfeed.specs.Piece.{StillGives};
ghost use Rattle.linkfeed.specs.Handing.{HandsOn};

use crate::stopping::Stopping;
use console::ends::Source;
use link::line::Line;
use link::states::Feeding;
use std::convert::Infallible;

/// A Feeding link and its line. A feed from it is what the link hands on until it hands on none: that none is polled
/// once, and from then on the line is left alone.
#[derive(Drop)]
pub struct LinkSource<L: Line> {
    feeding: Feeding,
    line: L,
    // none came
    is_over: bool,
}

impl<L: Line> LinkSource<L> {
    /// The feed that begins with what the line gives next.
    pub fn new(feeding: Feeding, line: L) -> Self
        ensures line { result.line ≡ line }
        ensures begins { result.is_over ≡ false }
    {
        LinkSource {
            feeding,
            line,
            is_over: false,
        }
    }

    /// The link, still Feeding, and its line. Nothing is polled and nothing replied.
    pub fn into_parts(self) -> (Feeding, L)
        ensures { result.1 ≡ self.line }
    {
        (self.feeding, self.line)
    }
}

// Puts what is handed on at the front of the buffer, until it is full or none comes: how many bytes, and whether none came.
fn hand_on<L: Line>(feeding: &mut Feeding, line: &mut L, buffer: &mut [u8]) -> (usize, bool)
    ensures { HandsOn (L.means line.old) buffer.old result.0 result.1 (L.means line.new) buffer.new }
{
    for place in 0..buffer.len() {
        let Some(byte) = feeding.next_byte(line) else {
            return (place, true);
        };
        buffer[place] = byte;
    }
    (buffer.len(), false)
}

/// Always answers.
impl<L: Stopping> Source for LinkSource<L> {
    type Error = Infallible;

    ghost gives = { λ s bytes. StillGives s.is_over (L.means s.line).comes bytes };

    ghost broken = { λ _. ⊥ };

    fn read(&mut self, buffer: &mut [u8]) -> Result<usize, Infallible>
        ensures reads { Reads (StillGives self.old.is_over (L.means self.old.line).comes) (StillGives self.new.is_over (L.means self.new.line).comes) ⊥ buffer.new result }
        ensures over { self.old.is_over ≡ true → (result ≡ Ok 0) × (self.new ≡ self.old) × (buffer.new ≡ buffer.old) }
        ensures hands_on { self.old.is_over ≡ false → IfOk result (λ many. HandsOn (L.means self.old.line) buffer.old many self.new.is_over (L.means self.new.line) buffer.new) }
    {
        if self.is_over {
            return Ok(0);
        }
        let (many, none) = hand_on(&mut self.feeding, &mut self.line, buffer);
        self.is_over = none;
        Ok(many)
    }
}
