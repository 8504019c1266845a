//! The words that commands begin with.
ghost use Rattle.std.specs.Prelude.{◌≡◌};
ghost use Rattle.std.specs.Str.{bytes_eq};
ghost use Rattle.shell.specs.Verbs.{name_of, verb_of};

// A command, whatever it is given.
#[derive(Clone, Copy, PartialEq, Eq, Debug)]
pub(crate) enum Verb {
    Flat,
    Sparse,
    Layer,
    Write,
    Read,
    Store,
    First,
    Second,
    Compare,
    Survey,
    Found,
    Take,
    Audit,
    Close,
    Size,
    Mark,
    Free,
    Add,
    Load,
    Grow,
    Settle,
    Point,
    Sum,
    Mean,
    Busiest,
    Trend,
    Cells,
    Line,
    Ring,
    Put,
    Welcome,
    Begin,
    Next,
    End,
    Replied,
    Help,
}

const VERBS: [Verb; 36] = [
    Verb::Flat,
    Verb::Sparse,
    Verb::Layer,
    Verb::Write,
    Verb::Read,
    Verb::Store,
    Verb::First,
    Verb::Second,
    Verb::Compare,
    Verb::Survey,
    Verb::Found,
    Verb::Take,
    Verb::Audit,
    Verb::Close,
    Verb::Size,
    Verb::Mark,
    Verb::Free,
    Verb::Add,
    Verb::Load,
    Verb::Grow,
    Verb::Settle,
    Verb::Point,
    Verb::Sum,
    Verb::Mean,
    Verb::Busiest,
    Verb::Trend,
    Verb::Cells,
    Verb::Line,
    Verb::Ring,
    Verb::Put,
    Verb::Welcome,
    Verb::Begin,
    Verb::Next,
    Verb::End,
    Verb::Replied,
    Verb::Help,
];

impl Verb {
    // Its word.
    pub(crate) fn name(self) -> &'static str
        ensures { result.now ≡ name_of self }
    {
        match self {
            Verb::Flat => "flat",
            Verb::Sparse => "sparse",
            Verb::Layer => "layer",
            Verb::Write => "write",
            Verb::Read => "read",
            Verb::Store => "store",
            Verb::First => "first",
            Verb::Second => "second",
            Verb::Compare => "compare",
            Verb::Survey => "survey",
            Verb::Found => "found",
            Verb::Take => "take",
            Verb::Audit => "audit",
            Verb::Close => "close",
            Verb::Size => "size",
            Verb::Mark => "mark",
            Verb::Free => "free",
            Verb::Add => "add",
            Verb::Load => "load",
            Verb::Grow => "grow",
            Verb::Settle => "settle",
            Verb::Point => "point",
            Verb::Sum => "sum",
            Verb::Mean => "mean",
            Verb::Busiest => "busiest",
            Verb::Trend => "trend",
            Verb::Cells => "cells",
            Verb::Line => "line",
            Verb::Ring => "ring",
            Verb::Put => "put",
            Verb::Welcome => "welcome",
            Verb::Begin => "begin",
            Verb::Next => "next",
            Verb::End => "end",
            Verb::Replied => "replied",
            Verb::Help => "help",
        }
    }

    fn is_named(self, word: &[u8]) -> bool
        ensures { result ≡ bytes_eq (name_of self) word.now }
    {
        self.name().as_bytes() == word
    }
}

// The command that a word names.
pub(crate) fn verb_of(word: &[u8]) -> Option<Verb>
    ensures { result ≡ verb_of word.now }
{
    VERBS.iter().copied().find(|verb| verb.is_named(word))
}
