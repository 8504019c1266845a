//! What the shell answers.
ghost use Rattle.std.specs.Prelude.{◌≡◌, Some};
ghost use Rattle.shell.specs.Faults.{refused_number, refused_words};

use crate::wrong::Wrong;
use compare::comparison::Comparison;
use haar::trend::Trend;
use link::fault::Fault as LinkFault;
use std::fmt;
use store::fault::CellFault;
use warehouse::fault::{Fault, Refusal};
use warehouse::reading::Reading;

/// A refusal of the library, by the call that refused.
#[derive(Clone, Copy, PartialEq, Eq, Debug)]
pub enum Refused {
    /// A store refuses a cell.
    Cell(CellFault),
    /// A warehouse refuses a call.
    Warehouse(Refusal),
    /// A Welcome is refused.
    Link(LinkFault),
}

impl Refused {
    /// The number of the rules.
    pub fn number(self) -> u8
        ensures { result ≡ refused_number self }
    {
        match self {
            Refused::Cell(fault) => fault.number(),
            Refused::Warehouse(refusal) => refusal.fault.number(),
            Refused::Link(fault) => fault.number(),
        }
    }
}

impl fmt::Display for Refused {
    ghost output = { λ refused. Some (refused_words refused) };

    fn fmt<W: fmt::Write>(&self, f: &mut fmt::Formatter<W>) -> fmt::Result {
        match self {
            Refused::Cell(fault) => write!(f, "{}", Fault::Cell(*fault)),
            Refused::Warehouse(refusal) => write!(f, "{refusal}"),
            // by hand: the words that the link gives have no contract
            Refused::Link(LinkFault::NoMotor) => write!(f, "No motor"),
            Refused::Link(LinkFault::Line) => write!(f, "Line"),
        }
    }
}

/// One line of an answer; `Help` is a line for each command.
#[derive(Clone, Copy)]
pub enum Answer {
    /// `ok`
    Done,
    /// a number alone: a cell's, a count of cells written, a size
    Number(i64),
    /// a value and how many cells were read for it
    Reading(Reading),
    /// `falling A`, `rising A` or `level`
    Trend(Trend),
    /// `fit`
    Fit,
    /// `size n`
    Size(u8),
    /// `bands T free F clean yes`, or `clean no`
    Store { bands: u8, free: u32, clean: bool },
    /// a line of `cells`: `c v`
    Cell { cell: u32, value: i64 },
    /// the last line of `cells`: `N cells`
    Cells(u32),
    /// `alike`, `differ C` or `bands`
    Compared(Comparison),
    /// `yes` or `no`
    Audited(bool),
    /// `taken K`
    Taken(usize),
    /// `welcome K`
    Welcome(u8),
    /// `ready`
    Ready,
    /// `feeding`
    Feeding,
    /// a byte as two hex digits, or `none`
    Byte(Option<u8>),
    /// `E number words`
    Refused(Refused),
    /// `? column: why`
    Wrong(Wrong),
    /// the commands, a line each
    Help,
}
