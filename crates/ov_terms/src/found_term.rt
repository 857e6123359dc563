//! A term whose column was found.

ghost use Rattle.std.specs.Prelude.{IsTrue};
ghost use Rattle.ov_terms.specs.Finding.{IsFoundTerm, IsTermOfRow, IsTermOfVersion};

use crate::lookup::Lookup;
use ov_model::Term;
use ov_typing::Shape;

/// A term of a query, with where its column is found.
#[derive(Clone, Copy, PartialEq, Eq)]
pub enum FoundTerm {
    Plain(Lookup),
    CountAll,
    Count(Lookup),
    Sum(Lookup),
    Min(Lookup),
    Max(Lookup),
}

impl FoundTerm {
    /// A term over rows of these columns.
    pub fn of(shape: &Shape<'_>, term: &Term) -> FoundTerm
        ensures { IsFoundTerm shape.now term.now result }
    {
        match term {
            Term::Plain(col) => FoundTerm::Plain(Lookup::of(shape, col)),
            Term::CountAll => FoundTerm::CountAll,
            Term::Count(col) => FoundTerm::Count(Lookup::of(shape, col)),
            Term::Sum(col) => FoundTerm::Sum(Lookup::of(shape, col)),
            Term::Min(col) => FoundTerm::Min(Lookup::of(shape, col)),
            Term::Max(col) => FoundTerm::Max(Lookup::of(shape, col)),
        }
    }

    /// Whether it is the same of a row in every version.
    pub(crate) fn is_of_row(self) -> bool
        ensures { IsTrue result → IsTermOfRow self }
    {
        match self {
            FoundTerm::CountAll => true,
            FoundTerm::Plain(found)
            | FoundTerm::Count(found)
            | FoundTerm::Sum(found)
            | FoundTerm::Min(found)
            | FoundTerm::Max(found) => found.is_of_row(),
        }
    }

    /// Whether it is the same of all rows of a version.
    pub(crate) fn is_of_version(self) -> bool
        ensures { IsTrue result → IsTermOfVersion self }
    {
        match self {
            FoundTerm::CountAll => true,
            FoundTerm::Plain(found)
            | FoundTerm::Count(found)
            | FoundTerm::Sum(found)
            | FoundTerm::Min(found)
            | FoundTerm::Max(found) => found.is_of_version(),
        }
    }
}
