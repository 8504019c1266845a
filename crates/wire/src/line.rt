// What a line of the feed says, and why it may not be written.
ghost use Rattle.std.specs.Prelude.{◌≡◌};
ghost use Rattle.wire.specs.Line.{line_fault_number};

use thiserror::Error;

#[derive(Clone, Copy, PartialEq, Eq, Debug)]
pub enum Line {
    Grown { size: u8 },
    Begun,
    Finished { cells: u32 },
    GivenUp { values: u32 },
    Added { cells: u32 },
    Point { value: i64, cells: u32 },
    Sum { sum: i64, cells: u32 },
    Mean { mean: i64, cells: u32 },
    Refused { number: u8, offset: u64 },
}

#[derive(Clone, Copy, PartialEq, Eq, Debug, Error)]
pub enum LineFault {
    #[error("the buffer is shorter than the line")]
    Buffer = 15,
}

impl LineFault {
    // The number of the rules.
    pub fn number(self) -> u8
        ensures { result ≡ line_fault_number self }
    {
        self as u8
    }
}
