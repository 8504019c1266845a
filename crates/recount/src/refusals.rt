// The refusals that a feed can meet, by their numbers in the rules.
// Numbers of its own: the recount owes nothing to the code it checks.
use std::alloc::{AllocError, AllocFailed};

pub(crate) const COMMAND: u8 = 11;

pub(crate) const CUT: u8 = 12;

pub(crate) const LEVEL: u8 = 13;

pub(crate) const RANGE: u8 = 16;

pub(crate) const DOMAIN: u8 = 21;

pub(crate) const LARGE: u8 = 22;

pub(crate) const FULL: u8 = 23;

pub(crate) const TOP: u8 = 24;

pub(crate) const SHORT: u8 = 25;

pub(crate) const OVER: u8 = 26;

pub(crate) const SEQUENCE: u8 = 30;

pub(crate) const ALL: [u8; 11] = [
    COMMAND, CUT, LEVEL, RANGE, DOMAIN, LARGE, FULL, TOP, SHORT, OVER, SEQUENCE,
];

// Why a command has no answer.
#[derive(Clone, Copy, PartialEq, Eq, Debug)]
pub(crate) enum Fault {
    // the refusal with this number
    Refused(u8),
    // the recount has no more memory
    Memory,
}

impl From<AllocError> for Fault {
    fn from(_error: AllocError) -> Fault {
        Fault::Memory
    }
}

impl<T: Drop> From<AllocFailed<T>> for Fault {
    fn from(_error: AllocFailed<T>) -> Fault {
        Fault::Memory
    }
}
