//! Copies of the parts of a query that name no lineage.

ghost use Rattle.std.specs.Prelude.{◌≡◌, IfOk};

use ov_model::{Col, Items, Key, Operand, Seq, Term};
use std::alloc::{AllocError, Global};

fn copy_col(alloc: Global, col: &Col) -> Result<Col, AllocError>
    ensures { IfOk result (λ made. made ≡ col.now) }
{
    Ok(match col {
        Col::Vid => Col::Vid,
        Col::Name(name) => Col::Name(name.copy(alloc)?),
        Col::Left(name) => Col::Left(name.copy(alloc)?),
        Col::Right(name) => Col::Right(name.copy(alloc)?),
    })
}

fn copy_term(alloc: Global, term: &Term) -> Result<Term, AllocError>
    ensures { IfOk result (λ made. made ≡ term.now) }
{
    Ok(match term {
        Term::Plain(col) => Term::Plain(copy_col(alloc, col)?),
        Term::CountAll => Term::CountAll,
        Term::Count(col) => Term::Count(copy_col(alloc, col)?),
        Term::Sum(col) => Term::Sum(copy_col(alloc, col)?),
        Term::Min(col) => Term::Min(copy_col(alloc, col)?),
        Term::Max(col) => Term::Max(copy_col(alloc, col)?),
    })
}

/// The same side of a comparison.
pub fn copy_operand(alloc: Global, operand: &Operand) -> Result<Operand, AllocError>
    ensures { IfOk result (λ made. made ≡ operand.now) }
{
    Ok(match operand {
        Operand::Term(term) => Operand::Term(copy_term(alloc, term)?),
        Operand::Literal(value) => Operand::Literal(value.copy(alloc)?),
    })
}

/// The same columns.
pub fn copy_cols(alloc: Global, cols: &[Col]) -> Result<Seq<Col>, AllocError>
    ensures { IfOk result (λ made. made ≡ cols.now) }
{
    let mut made = Seq::new(alloc);
    for col in cols {
        made.push(copy_col(alloc, col)?)?;
    }
    Ok(made)
}

fn copy_terms(alloc: Global, terms: &[Term]) -> Result<Seq<Term>, AllocError>
    ensures { IfOk result (λ made. made ≡ terms.now) }
{
    let mut made = Seq::new(alloc);
    for term in terms {
        made.push(copy_term(alloc, term)?)?;
    }
    Ok(made)
}

/// The same items.
pub fn copy_items(alloc: Global, items: &Items) -> Result<Items, AllocError>
    ensures { IfOk result (λ made. made ≡ items.now) }
{
    Ok(match items {
        Items::Everything => Items::Everything,
        Items::Terms(terms) => Items::Terms(copy_terms(alloc, terms.as_slice())?),
    })
}

/// The same keys.
pub fn copy_keys(alloc: Global, keys: &[Key]) -> Result<Seq<Key>, AllocError>
    ensures { IfOk result (λ made. made ≡ keys.now) }
{
    let mut made = Seq::new(alloc);
    for key in keys {
        made.push(Key {
            term: copy_term(alloc, &key.term)?,
            down: key.down,
        })?;
    }
    Ok(made)
}

/// The same vids.
pub fn copy_vids(alloc: Global, vids: &[u32]) -> Result<Seq<u64>, AllocError>
    ensures { IfOk result (λ made. made ≡ vids.now) }
{
    let mut made = Seq::new(alloc);
    for vid in vids {
        made.push(u64::from(*vid))?;
    }
    Ok(made)
}
