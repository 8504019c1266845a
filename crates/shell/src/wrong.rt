//! Why a line is no command that can be obeyed, and where.
ghost use Rattle.std.specs.Prelude.{◌≡◌, Some};
ghost use Rattle.shell.specs.Faults.{why_words, wrong_words};
ghost use Rattle.shell.specs.declared.wrong.Unread.TheVariants.{Misread, Memory};

use std::alloc::AllocError;
use std::fmt;
use thiserror::Error;

/// Why a word is wrong, or why a command is not allowed now.
#[derive(Clone, Copy, PartialEq, Eq, Debug)]
pub enum Why {
    /// No command has this name.
    Name,
    /// The line ends where a word should stand.
    Missing,
    /// The word is not a number, or has a sign where none may stand.
    NotNumber,
    /// No call takes a number so large, or so far below zero.
    TooLarge,
    /// The word is not pairs of hex digits.
    NotHex,
    /// The command has all its words before this one.
    Surplus,
    /// The command needs a pile.
    NoPile,
    /// The command needs a second pile.
    NoSecond,
    /// The command needs a warehouse.
    NoWarehouse,
    /// The command is for piles on which no warehouse stands.
    Standing,
    /// A pile has three layers at most.
    Layers,
    /// The command needs a line.
    NoLine,
    /// Bytes are put into a ring alone.
    NoRing,
    /// The link is in another state.
    NotWelcome,
    /// The link is in another state.
    NotReady,
    /// The link is in another state.
    NotFeeding,
}

impl fmt::Display for Why {
    ghost output = { λ why. Some (why_words why) };

    fn fmt<W: fmt::Write>(&self, f: &mut fmt::Formatter<W>) -> fmt::Result {
        match self {
            Why::Name => write!(f, "no command has this name"),
            Why::Missing => write!(f, "a word is missing"),
            Why::NotNumber => write!(f, "this is not a number"),
            Why::TooLarge => write!(f, "the number is too large"),
            Why::NotHex => write!(f, "these are not bytes in hex"),
            Why::Surplus => write!(f, "a word too many"),
            Why::NoPile => write!(f, "there is no pile"),
            Why::NoSecond => write!(f, "there is no second pile"),
            Why::NoWarehouse => write!(f, "there is no warehouse"),
            Why::Standing => write!(f, "a warehouse stands: close it first"),
            Why::Layers => write!(f, "the pile has three layers"),
            Why::NoLine => write!(f, "there is no line"),
            Why::NoRing => write!(f, "the line is no ring"),
            Why::NotWelcome => write!(f, "the link is not in Welcome"),
            Why::NotReady => write!(f, "the link is not Ready"),
            Why::NotFeeding => write!(f, "the link is not Feeding"),
        }
    }
}

impl std::error::Error for Why {}

/// The column of the first wrong word, counted in bytes from 1, and why it is wrong.
#[derive(Clone, Copy, PartialEq, Eq, Debug)]
pub struct Wrong {
    pub column: usize,
    pub why: Why,
}

impl fmt::Display for Wrong {
    ghost output = { λ wrong. Some (wrong_words wrong) };

    fn fmt<W: fmt::Write>(&self, f: &mut fmt::Formatter<W>) -> fmt::Result {
        write!(f, "{}: {}", self.column, self.why)
    }
}

impl std::error::Error for Wrong {}

/// Why a line was not read.
#[derive(Clone, Copy, PartialEq, Eq, Debug, Error)]
pub enum LineFault {
    /// It is no command.
    #[error(transparent)]
    Wrong(Wrong),
    /// Memory is wanting.
    #[error(transparent)]
    Memory(AllocError),
}

// How many bytes of the line were to come, from the wrong word on, and what is wrong there.
#[derive(Clone, Copy, PartialEq, Eq, Debug)]
pub(crate) struct Misread {
    pub(crate) left: usize,
    pub(crate) why: Why,
}

// Why words are not read.
#[derive(Clone, Copy, PartialEq, Eq, Debug)]
pub(crate) enum Unread {
    Misread(Misread),
    Memory(AllocError),
}

impl From<Misread> for Unread {
    ghost from_gives = { λ e r. r ≡ Misread e };

    fn from(misread: Misread) -> Unread {
        Unread::Misread(misread)
    }
}

impl From<AllocError> for Unread {
    ghost from_gives = { λ e r. r ≡ Memory e };

    fn from(error: AllocError) -> Unread {
        Unread::Memory(error)
    }
}
