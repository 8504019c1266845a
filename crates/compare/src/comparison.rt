// What a comparison of two warehouses finds.
ghost use Rattle.std.specs.Prelude.{Some};
ghost use Rattle.compare.specs.Words.{comparison_words};

use std::fmt;

#[derive(Clone, Copy, PartialEq, Eq, Debug)]
pub enum Comparison {
    // their stores have not equally many bands
    Bands,
    // the lowest cell in which they differ
    Differ(u32),
    // they share every cell
    Alike,
}

impl fmt::Display for Comparison {
    ghost output = { λ found. Some (comparison_words found) };

    fn fmt<W: fmt::Write>(&self, f: &mut fmt::Formatter<W>) -> fmt::Result {
        match self {
            Comparison::Bands => write!(f, "the two stores have not equally many bands"),
            Comparison::Differ(cell) => write!(f, "the two warehouses differ first in cell {cell}"),
            Comparison::Alike => write!(f, "the two warehouses share every cell"),
        }
    }
}
