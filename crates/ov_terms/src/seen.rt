//! What a term is over a group.

ghost use Rattle.std.specs.Prelude.{◌≡◌, ◌++◌, IfOk, OnOk};
ghost use Rattle.ov_model.specs.Answers.{is_null_cell, row_cells};
ghost use Rattle.ov_value.specs.Cells.{value_of};
ghost use Rattle.ov_terms.specs.Seeing.{cell_of};

use ov_model::Cell;
use ov_value::{CellRef, Cells, Txt, Value};
use std::alloc::{AllocError, Global};

/// What a term is over a group, without a copy.
#[derive(Clone, Copy)]
pub enum Seen<'a> {
    /// A value of a row or of the query, or a version's number.
    Cell(CellRef<'a>),
    /// A sum, or how many there are.
    Sum(i128),
    /// The sum, the least or the greatest of no values.
    Nothing,
}

impl<'a> Seen<'a> {
    /// A value of the query.
    pub fn of(value: &'a Value) -> Seen<'a>
        ensures { cell_of result ≡ Cell.Value value.now }
    {
        Seen::Cell(match value {
            Value::Int(n) => CellRef::Int(*n),
            Value::Text(text) => CellRef::Text(text.as_str()),
            Value::Flag(flag) => CellRef::Flag(*flag),
            Value::Null => CellRef::Null,
        })
    }
}

impl Seen<'_> {
    /// Whether it is NULL or nothing.
    pub fn is_null(self) -> bool
        ensures { result ≡ is_null_cell (cell_of self.entry) }
    {
        match self {
            Seen::Cell(CellRef::Null) | Seen::Nothing => true,
            Seen::Cell(_) | Seen::Sum(_) => false,
        }
    }

    /// The cell that it is, of its own.
    pub fn copy(self, alloc: Global) -> Result<Cell, AllocError>
        ensures { IfOk result (λ cell. cell ≡ cell_of self.entry) }
    {
        match self {
            Seen::Cell(cell) => Ok(Cell::Value(value_of(alloc, cell)?)),
            Seen::Sum(sum) => Ok(Cell::Sum(sum)),
            Seen::Nothing => Ok(Cell::Nothing),
        }
    }
}

/// The value that lies in a row's bytes, of its own.
pub(crate) fn value_of(alloc: Global, cell: CellRef<'_>) -> Result<Value, AllocError>
    ensures { IfOk result (λ value. value ≡ value_of cell.entry) }
{
    match cell {
        CellRef::Int(n) => Ok(Value::Int(n)),
        CellRef::Text(text) => Ok(Value::Text(Txt::new(alloc, text)?)),
        CellRef::Flag(flag) => Ok(Value::Flag(flag)),
        CellRef::Null => Ok(Value::Null),
    }
}

/// Adds the values of a row.
pub(crate) fn push_cells(
    alloc: Global,
    row: Cells<'_>,
    cells: &mut Vec<Cell>,
) -> Result<(), AllocError>
    ensures { OnOk result (cells.new.items ≡ cells.old.items ++ row_cells row.entry) }
{
    let mut left = row;
    while let Some(cell) = left.next() {
        cells.push(Cell::Value(value_of(alloc, cell)?))?;
    }
    Ok(())
}
