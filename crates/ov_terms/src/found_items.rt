//! What a row of the answer has, with where its columns are found.

ghost use Rattle.std.specs.Prelude.{◌≡◌, List, IfOk, map};
ghost use Rattle.ov_model.specs.Answers.{Pair, term_of_group};
ghost use Rattle.ov_terms.specs.Finding.{IsFoundItems, found_term};

use crate::found_term::FoundTerm;
use ov_model::{Items, Seq, Term};
use ov_typing::Shape;
use std::alloc::{AllocError, Global};

/// What a row of the answer has.
#[derive(Drop)]
pub enum FoundItems {
    /// Every value of the row.
    Everything,
    /// These.
    Terms(Seq<FoundTerm>),
}

impl FoundItems {
    /// What a row of the answer has, over rows of these columns.
    pub fn of(alloc: Global, shape: &Shape<'_>, items: &Items) -> Result<FoundItems, AllocError>
        ensures { IfOk result (IsFoundItems shape.now items.now) }
    {
        match items {
            Items::Everything => Ok(FoundItems::Everything),
            Items::Terms(terms) => {
                let terms = find_terms(alloc, shape, terms.as_slice())?;
                Ok(FoundItems::Terms(Seq::from_vec(terms)))
            }
        }
    }
}

fn find_terms(
    alloc: Global,
    shape: &Shape<'_>,
    terms: &[Term],
) -> Result<Vec<FoundTerm>, AllocError>
    ensures { (group : List Pair) → IfOk result (λ found. map (found_term group) found.items ≡ map (term_of_group shape.now group) terms.now) }
{
    let mut found = Vec::with_capacity(alloc, terms.len())?;
    for term in terms {
        found.push(FoundTerm::of(shape, term))?;
    }
    Ok(found)
}
