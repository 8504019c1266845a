// Why the feed refuses a command, with the offset of its first byte; the number and the line that say it.
ghost use Rattle.std.specs.Prelude.{◌≡◌};
ghost use Rattle.feed.specs.Faults.{cause_number, fault_line};
ghost use Rattle.feed.specs.declared.fault.Cause.TheVariants.{Decode, Warehouse};

use warehouse::fault::Refusal;
use wire::command::DecodeFault;
use wire::line::Line;

#[derive(Clone, Copy, PartialEq, Eq, Debug)]
pub enum Cause {
    // no command can be read
    Decode(DecodeFault),
    // a value, a finish or a giving up without an open load, or a beginning with one
    Sequence,
    // the warehouse refuses the call
    Warehouse(Refusal),
}

#[derive(Clone, Copy, PartialEq, Eq, Debug)]
pub struct FeedFault {
    pub cause: Cause,
    pub offset: u64,
}

impl FeedFault {
    // The number of the rules, which the feed prints.
    pub fn number(self) -> u8
        ensures { result ≡ cause_number self.cause }
    {
        match self.cause {
            Cause::Decode(fault) => fault.number(),
            Cause::Sequence => 30,
            Cause::Warehouse(refusal) => refusal.fault.number(),
        }
    }
}

// The line that says it.
impl From<FeedFault> for Line {
    ghost from_gives = { λ fault line. line ≡ fault_line fault };

    fn from(fault: FeedFault) -> Line {
        Line::Refused {
            number: fault.number(),
            offset: fault.offset,
        }
    }
}

// One `From` for each lower fault: a generic one would want two more, from each into `Cause`.
impl From<(DecodeFault, u64)> for FeedFault {
    ghost from_gives = { λ e r. r ≡ record { cause = Decode e.0; offset = e.1 } };

    fn from((fault, offset): (DecodeFault, u64)) -> FeedFault {
        FeedFault {
            cause: Cause::Decode(fault),
            offset,
        }
    }
}

impl From<(Refusal, u64)> for FeedFault {
    ghost from_gives = { λ e r. r ≡ record { cause = Warehouse e.0; offset = e.1 } };

    fn from((refusal, offset): (Refusal, u64)) -> FeedFault {
        FeedFault {
            cause: Cause::Warehouse(refusal),
            offset,
        }
    }
}
