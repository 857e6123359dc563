//! A list of records in one buffer.

ghost use Rattle.std.specs.Prelude.{◌≡◌, ◌<◌, ◌≤◌, ◌+◌, ◌^◌, ◌++◌, IfOk, OnOk, length, map, slice_index_or};
ghost use Rattle.std.specs.List.{All};
ghost use Rattle.ov_segment.specs.declared.numbered.Record.{Record as RecordValue};
ghost use Rattle.ov_segment.specs.Tables.{longer};

use crate::row_ref::RowRef;
use crate::table::Table;
use ov_value::{Cells, Column};
use std::alloc::{AllocError, Global};
use std::marker::Model;

/// Records of one schema in order, whose rows stay bytes in one buffer. Contracts see the list of them.
#[derive(Drop)]
pub struct RecordTable {
    table: Table,
}

impl Model for RecordTable {
    ghost use Rattle.std.specs.Prelude.{List};
    ghost use Rattle.ov_segment.specs.declared.numbered.Record.{Record as RecordValue};

    ghost Value = { List RecordValue };

    ghost view = { λ r. r.table.records };
}

impl RecordTable {
    /// The records of a table, without a copy.
    pub fn new(table: Table) -> RecordTable
        ensures { result ≡ table.records }
    {
        RecordTable { table }
    }

    /// The table of them, as it was when they were complete.
    pub fn table(&self) -> &Table
        ensures { result.now.records ≡ self.now }
    {
        &self.table
    }

    /// The records at these positions, in this order. No row's bytes are copied; it takes memory for the places alone.
    pub fn at(self, order: &[usize]) -> Result<RecordTable, AllocError>
        requires { All (λ i. i < length self) order.now }
        ensures { (none : RecordValue) → IfOk result (λ made. made ≡ map (λ i. slice_index_or self i none) order.now) }
    {
        let table = self.table.at(order)?;
        Ok(RecordTable { table })
    }

    /// The same records, whose rows have columns more, which are NULL. No row's bytes are copied or read.
    pub fn widened(self, alloc: Global, added: &[Column]) -> Result<RecordTable, AllocError>
        requires { All (λ r. length r.row + length added.now ≤ 64) self }
        ensures { IfOk result (λ made. made ≡ map (longer (length added.now)) self) }
    {
        let table = self.table.widened(alloc, added)?;
        Ok(RecordTable { table })
    }

    /// Copies of the records at these positions, in this order. Their bytes are copied, and not read.
    pub fn copies_at(&self, alloc: Global, order: &[usize]) -> Result<RecordTable, AllocError>
        requires { All (λ i. i < length self.now) order.now }
        ensures { (none : RecordValue) → IfOk result (λ made. made ≡ map (λ i. slice_index_or self.now i none) order.now) }
    {
        let mut table = self.table.like(alloc)?;
        copy_all(&mut table, &self.table, order)?;
        Ok(RecordTable { table })
    }

    /// How many records there are.
    pub fn len(&self) -> usize
        ensures count { result ≡ length self.now }
        ensures small { result < 2 ^ 63 }
    {
        self.table.len()
    }

    /// The rid of the record at a position, counted from 0.
    pub fn rid(&self, i: usize) -> u32
        requires { i < length self.now }
        ensures { (none : RecordValue) → result ≡ (slice_index_or self.now i none).rid }
    {
        self.table.rid(i)
    }

    /// The row at a position, where its bytes lie.
    pub fn row(&self, i: usize) -> RowRef<'_>
        requires { i < length self.now }
        ensures { (none : RecordValue) → result ≡ (slice_index_or self.now i none).row }
    {
        self.table.row(i)
    }

    /// The values of the row at a position. It takes no memory.
    pub fn cells(&self, i: usize) -> Cells<'_>
        requires { i < length self.now }
        ensures { (none : RecordValue) → result ≡ (slice_index_or self.now i none).row }
    {
        self.table.row(i).cells()
    }
}

// Appends the records of another table at these positions.
fn copy_all(table: &mut Table, other: &Table, order: &[usize]) -> Result<(), AllocError>
    requires columns { table.old.columns ≡ other.now.columns }
    requires there { All (λ i. i < length other.now.records) order.now }
    ensures { (none : RecordValue) → OnOk result (table.new.records ≡ table.old.records ++ map (λ i. slice_index_or other.now.records i none) order.now) }
{
    for i in order {
        table.copy_from(other, *i)?;
    }
    Ok(())
}
