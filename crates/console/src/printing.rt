// A reply as its line, and a line to the sink.
ghost use Rattle.std.specs.Prelude.{◌≡◌};
ghost use Rattle.feed.specs.Step.{said};
ghost use Rattle.feedlaw.specs.Lines.{shown, text};
ghost use Rattle.console.specs.Ends.{Takes};

use crate::ends::Sink;
use feed::stepped::Reply;
use wire::line::Line;
use wire::write_line::{LINE, write_line};

// A refusal has a line too.
pub(crate) fn line_of(reply: Reply) -> Option<Line>
    ensures { result ≡ said reply }
{
    reply.unwrap_or_else(|fault| Some(Line::from(fault)))
}

pub(crate) fn print<O: Sink>(sink: &mut O, line: Option<Line>) -> Result<(), O::Error>
    ensures { Takes (O.took sink.old) (O.took sink.new) (O.stuck sink.new) (text (shown line)) result }
{
    let Some(line) = line else {
        return Ok(());
    };
    // an array, since the call that writes a line takes a buffer
    let mut bytes = [0; LINE];
    let len = write_line(line, &mut bytes).unwrap();
    sink.write(&bytes[..len])
}
