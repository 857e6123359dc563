//! A list of rows in one buffer.

ghost use Rattle.std.specs.Prelude.{◌≡◌, ◌<◌, ◌^◌, [], IfOk, length, map, slice_index_or};
ghost use Rattle.std.specs.List.{All};

use crate::row_ref::RowRef;
use crate::table::Table;
use std::alloc::AllocError;
use std::marker::Model;

/// Rows of one schema in order, which stay bytes in one buffer. Contracts see the list of them.
#[derive(Drop)]
pub struct RowTable {
    table: Table,
}

impl Model for RowTable {
    ghost use Rattle.std.specs.Prelude.{List, map};
    ghost use Rattle.ov_value.specs.declared.value.Value.{Value as RowValue};

    ghost Value = { List (List RowValue) };

    ghost view = { λ r. map (λ x. x.row) r.table.records };
}

impl RowTable {
    /// The rows of a table's records, without a copy.
    pub fn new(table: Table) -> RowTable
        ensures { result ≡ map (λ r. r.row) table.records }
    {
        RowTable { table }
    }

    /// How many rows there are.
    pub fn len(&self) -> usize
        ensures count { result ≡ length self.now }
        ensures small { result < 2 ^ 63 }
    {
        self.table.len()
    }

    /// The row at a position, counted from 0, where its bytes lie.
    pub fn row(&self, i: usize) -> RowRef<'_>
        requires { i < length self.now }
        ensures { result ≡ slice_index_or self.now i [] }
    {
        self.table.row(i)
    }

    /// The rows at these positions, in this order. No row's bytes are copied; it takes memory for the places alone.
    pub fn at(self, order: &[usize]) -> Result<RowTable, AllocError>
        requires { All (λ i. i < length self) order.now }
        ensures { IfOk result (λ made. made ≡ map (λ i. slice_index_or self i []) order.now) }
    {
        let table = self.table.at(order)?;
        Ok(RowTable { table })
    }
}
