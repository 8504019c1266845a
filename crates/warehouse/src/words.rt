// A refusal in words.
ghost use Rattle.std.specs.Prelude.{Some};
ghost use Rattle.warehouse.specs.Words.{fault_words, asked_words, refusal_words};

use crate::fault::{Asked, Fault, Refusal};
use std::error::Error;
use std::fmt;
use store::fault::CellFault;

impl fmt::Display for Fault {
    ghost output = { λ fault. Some (fault_words fault) };

    fn fmt<W: fmt::Write>(&self, f: &mut fmt::Formatter<W>) -> fmt::Result {
        match self {
            Fault::Cell(CellFault::Cell(cell)) => write!(f, "no cell {cell}"),
            Fault::Cell(CellFault::Full(cell)) => write!(f, "no room for cell {cell}"),
            Fault::Level => write!(f, "chunk level over 12"),
            Fault::Value(place) => write!(f, "value outside its limits at place {place}"),
            Fault::Buffer => write!(f, "buffer too short"),
            Fault::Range => write!(f, "range backward, or empty for a mean"),
            Fault::Interval => write!(f, "trend level 0 or over 20"),
            Fault::Size => write!(f, "store cannot have the size"),
            Fault::Domain => write!(f, "not inside the size"),
            Fault::Large(cell) => write!(f, "cell {cell} would pass the limit"),
            Fault::Full => write!(f, "no room for so many nonzero cells"),
            Fault::Top => write!(f, "store cannot grow further"),
            Fault::Short => write!(f, "not all values came"),
            Fault::Over => write!(f, "load has all its values"),
            Fault::Torn(cell) => write!(f, "cell {cell} cannot belong to a sum"),
            Fault::Dirty(cell) => write!(f, "store not empty, or room below zero, at cell {cell}"),
            Fault::Fine(cell) => write!(f, "cell {cell} has no exact trend"),
        }
    }
}

impl fmt::Display for Asked {
    ghost output = { λ asked. Some (asked_words asked) };

    fn fmt<W: fmt::Write>(&self, f: &mut fmt::Formatter<W>) -> fmt::Result {
        match self {
            Asked::Interval(level, index) => write!(f, "interval {index} of level {level}"),
            Asked::Minute(minute) => write!(f, "minute {minute}"),
            Asked::Minutes(from, to) => write!(f, "minutes from {from} up to {to}"),
            Asked::Size(size) => write!(f, "size {size}"),
        }
    }
}

impl fmt::Display for Refusal {
    ghost output = { λ refusal. Some (refusal_words refusal) };

    fn fmt<W: fmt::Write>(&self, f: &mut fmt::Formatter<W>) -> fmt::Result {
        write!(f, "{}, asked for {}", self.fault, self.asked)
    }
}

impl Error for Refusal {}
