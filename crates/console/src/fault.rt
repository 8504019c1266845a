// Why a feed is not run to its end.
ghost use Rattle.console.specs.Faults.{fault_text};

use std::error::Error;
use std::fmt;
use std::fmt::Display;
use warehouse::fault::Refusal;

#[derive(Clone, Copy, Debug, Drop)]
pub enum RunFault<I, O> {
    // no warehouse can be founded on the store
    Founding(Refusal),
    // the source does not answer
    Input(I),
    // the sink does not answer
    Output(O),
    // more bytes came than can be counted in 64 bits
    Long,
}

impl<I: Display, O: Display> Display for RunFault<I, O> {
    ghost output = { fault_text I.output O.output };

    fn fmt<W: fmt::Write>(&self, f: &mut fmt::Formatter<W>) -> fmt::Result {
        match self {
            RunFault::Founding(refusal) => write!(f, "{refusal}"),
            RunFault::Input(error) => write!(f, "{error}"),
            RunFault::Output(error) => write!(f, "{error}"),
            RunFault::Long => write!(f, "the feed is longer than can be counted"),
        }
    }
}

impl<I: Error, O: Error> Error for RunFault<I, O> {}
