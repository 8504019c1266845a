//! Lines that give none at some poll.
ghost use Rattle.link.specs.Meaning.{Meaning, Waiting};
ghost use Rattle.linkfeed.specs.Piece.{Stops};
ghost use Rattle.linkfeed.specs.Waiting.{waiting_stops};

use link::captured::Captured;
use link::line::Line;
use link::ring::Ring;

/// A line that does not give bytes for ever, if nobody fills it meanwhile.
pub trait Stopping: Line {
    ghost stops: { (line : Self) → Stops (Self.means line).comes };
}

impl Stopping for Captured<'_> {
    ghost stops = { waiting_stops };
}

impl Stopping for Ring {
    ghost stops = { waiting_stops };
}
