//! Lists that are made item by item, and copies.

ghost use Rattle.std.specs.Prelude.{◌≡◌, ◌++◌, [], ◌∷◌, if◌then◌else◌, IfOk};

use ov_model::Cell;
use ov_value::{Column, Row};
use sqlite_items::Items;
use std::alloc::{AllocError, Global};

/// What can be copied.
pub trait Copies: Drop {
    /// A copy of it.
    fn copied(&self, alloc: Global) -> Result<Self, AllocError>
        ensures { IfOk result (λ made. made ≡ self.now) };
}

/// An item and these behind it.
pub fn onto<T: Drop>(alloc: Global, first: T, later: Items<T>) -> Result<Items<T>, AllocError>
    ensures { IfOk result (λ all. all ≡ first ∷ later) }
{
    let mut all = Items::new(alloc);
    all.push(first)?;
    all.append(later)?;
    Ok(all)
}

/// A copy of an item and these behind it.
pub fn with_first<T: Copies>(
    alloc: Global,
    first: &T,
    later: Items<T>,
) -> Result<Items<T>, AllocError>
    ensures { IfOk result (λ all. all ≡ first.now ∷ later) }
{
    onto(alloc, first.copied(alloc)?, later)
}

/// These items and one more.
pub fn with_last<T: Drop>(mut items: Items<T>, last: T) -> Result<Items<T>, AllocError>
    ensures { IfOk result (λ all. all ≡ items ++ last ∷ []) }
{
    items.push(last)?;
    Ok(items)
}

/// These items and those behind them.
pub fn both<T: Drop>(mut items: Items<T>, later: Items<T>) -> Result<Items<T>, AllocError>
    ensures { IfOk result (λ all. all ≡ items ++ later) }
{
    items.append(later)?;
    Ok(items)
}

/// These, behind a copy of an item where it is kept.
pub fn onto_if<T: Copies>(
    alloc: Global,
    kept: bool,
    first: &T,
    later: Items<T>,
) -> Result<Items<T>, AllocError>
    ensures { IfOk result (λ all. all ≡ (if kept then first.now ∷ later else later)) }
{
    if kept {
        with_first(alloc, first, later)
    } else {
        Ok(later)
    }
}

/// Copies of these.
pub fn copies_of<T: Copies>(alloc: Global, items: &[T]) -> Result<Items<T>, AllocError>
    ensures { IfOk result (λ all. all ≡ items.now) }
{
    match items {
        [] => Ok(Items::new(alloc)),
        [first, rest @ ..] => {
            let later = copies_of(alloc, rest)?;
            with_first(alloc, first, later)
        }
    }
}

impl<T: Copies> Copies for Items<T> {
    fn copied(&self, alloc: Global) -> Result<Items<T>, AllocError> {
        copies_of(alloc, self.as_slice())
    }
}

impl Copies for Row {
    fn copied(&self, alloc: Global) -> Result<Row, AllocError> {
        self.copy(alloc)
    }
}

impl Copies for Column {
    fn copied(&self, alloc: Global) -> Result<Column, AllocError> {
        self.copy(alloc)
    }
}

impl Copies for Cell {
    fn copied(&self, alloc: Global) -> Result<Cell, AllocError> {
        match self {
            Cell::Value(value) => Ok(Cell::Value(value.copy(alloc)?)),
            Cell::Sum(number) => Ok(Cell::Sum(*number)),
            Cell::Nothing => Ok(Cell::Nothing),
        }
    }
}
