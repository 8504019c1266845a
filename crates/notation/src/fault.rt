// Why a text is no text of a feed, and where.
ghost use Rattle.std.specs.Prelude.{◌≡◌};
ghost use Rattle.notation.specs.declared.fault.PushFault.TheVariants.{Misread, Memory};

use std::alloc::AllocError;
use thiserror::Error;

#[derive(Clone, Copy, PartialEq, Eq, Debug, Error)]
pub enum Problem {
    #[error("no line begins with this word")]
    Letter,
    #[error("a field is missing")]
    Missing,
    #[error("this is not a number")]
    NotNumber,
    #[error("the number is too large for its field")]
    TooLarge,
    #[error("something stands after the last field")]
    Surplus,
    #[error("these are not bytes in hex")]
    NotHex,
}

// How many bytes of the line were not yet read, and what is wrong there.
#[derive(Clone, Copy, PartialEq, Eq, Debug)]
pub(crate) struct Misread {
    pub(crate) left: usize,
    pub(crate) problem: Problem,
}

// Why a line is not pushed.
#[derive(Clone, Copy, PartialEq, Eq, Debug)]
pub(crate) enum PushFault {
    Misread(Misread),
    Memory(AllocError),
}

impl From<Misread> for PushFault {
    ghost from_gives = { λ e r. r ≡ Misread e };

    fn from(misread: Misread) -> PushFault {
        PushFault::Misread(misread)
    }
}

impl From<AllocError> for PushFault {
    ghost from_gives = { λ e r. r ≡ Memory e };

    fn from(error: AllocError) -> PushFault {
        PushFault::Memory(error)
    }
}

// Both line and column count from 1.
#[derive(Clone, Copy, PartialEq, Eq, Debug, Error)]
#[error("line {line}, column {column}: {problem}")]
pub struct TextFault {
    pub line: usize,
    pub column: usize,
    pub problem: Problem,
}

#[derive(Clone, Copy, PartialEq, Eq, Debug, Error)]
pub enum ReadingFault {
    #[error(transparent)]
    Text(TextFault),
    #[error(transparent)]
    Memory(AllocError),
}
