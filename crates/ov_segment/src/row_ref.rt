//! A row where its bytes lie.

ghost use Rattle.std.specs.Prelude.{◌≡◌, ◌≢◌, ◌↔◌, ◌≤◌, List, length, IsTrue, IfSome, IsSomeAnd};
ghost use Rattle.std.specs.Ordering.{int_cmp};
ghost use Rattle.std.specs.declared.cmp.Ordering.TheVariants as order;
ghost use Rattle.ov_value.specs.declared.column.Column.{Column as ColumnValue};
ghost use Rattle.ov_value.specs.Cells.{value_of};
ghost use Rattle.ov_value.specs.Rows.{HasKinds, key_cmp, value_at};
ghost use Rattle.ov_value.specs.Spelling.{row_spelling};
ghost use Rattle.ov_value.specs.Decoding.{front_value, row_of, AreRow};
ghost use Rattle.ov_value.specs.declared.column.Kind.TheVariants as kind;
ghost use Rattle.ov_value.specs.declared.value.Value.TheVariants.{Int};

use ov_value::{CellRef, Cells, Column, Kind, Schema};
use std::cmp::Ordering;
use std::marker::Model;

/// A row where its bytes lie, in the buffer of a table. Contracts see the row.
#[derive(Drop)]
pub struct RowRef<'a> {
    columns: &'a [Column],
    marked: bool,
    bytes: &'a [u8],
}

impl<'a> Model for RowRef<'a> {
    ghost use Rattle.std.specs.Prelude.{List};
    ghost use Rattle.ov_value.specs.declared.value.Value.{Value as RowValue};
    ghost use Rattle.ov_value.specs.Decoding.{row_of};
    ghost use Rattle.ov_segment.specs.Tables.{AreBytes};

    ghost Value = { List RowValue };

    ghost view = { λ r. row_of r.columns.now r.marked r.bytes.now };

    ghost invariant = { λ r. AreBytes r.columns.now r.marked r.bytes.now };
}

impl<'a> RowRef<'a> {
    /// The row that these bytes spell, which begin with marks or not.
    pub(crate) fn new(columns: &'a [Column], marked: bool, bytes: &'a [u8]) -> RowRef<'a>
        requires few { length columns.now ≤ 64 }
        requires row { AreRow columns.now marked bytes.now }
        ensures { result ≡ row_of columns.now marked bytes.now }
    {
        RowRef {
            columns,
            marked,
            bytes,
        }
    }

    /// Its values in order. It takes no memory.
    pub fn cells(&self) -> Cells<'a>
        ensures { result ≡ self.now }
    {
        Cells::of(self.columns, self.marked, self.bytes)
    }

    /// The value at a position, counted from 0; NULL past the last. It takes the time of the values before it.
    pub fn at(&self, place: usize) -> CellRef<'a>
        ensures { value_of result ≡ value_at self.now place }
    {
        self.cells().at(place)
    }

    /// The row's bytes.
    pub fn bytes(&self) -> &'a [u8]
        ensures { result.now ≡ (row_spelling self.now).bytes }
    {
        self.bytes
    }

    /// Whether the row's bytes begin with marks.
    pub fn is_marked(&self) -> bool
        ensures { result ≡ (row_spelling self.now).marked }
    {
        self.marked
    }

    /// Whether two rows of the same columns are equal: a row has one spelling, so that their bytes are compared.
    pub fn same(&self, other: &RowRef<'_>) -> bool
        ensures { (columns : List ColumnValue) → HasKinds self.now columns → HasKinds other.now columns
            → IsTrue result ↔ (self.now ≡ other.now) }
    {
        are_same(self.marked, self.bytes, other.marked, other.bytes)
    }

    /// Compares two rows by their keys, as [`Schema::cmp_key`] does.
    pub fn cmp_key(&self, schema: &Schema, other: &RowRef<'_>) -> Ordering
        ensures { result ≡ key_cmp schema.now self.now other.now }
    {
        // Most keys begin with an int in the first column, and differ there.
        let order = cmp_fronts(schema, self, other);
        if order != Ordering::Equal {
            return order;
        }
        cmp_walked(schema, self, other)
    }

    /// The value in the first column, where it is an int and no marks stand before it. It takes no walk over the row.
    pub fn front_int(&self) -> Option<i64>
        ensures { IfSome result (λ n. value_at self.now 0 ≡ Int n) }
    {
        int_in_front(self.columns, self.marked, self.bytes)
    }
}

fn int_in_front(columns: &[Column], marked: bool, bytes: &[u8]) -> Option<i64>
    ensures { IfSome result (λ n. value_at (row_of columns.now marked bytes.now) 0 ≡ Int n) }
{
    if marked || bytes.len() < 8 {
        return None;
    }
    let (column, _) = columns.split_first()?;
    match column.kind {
        Kind::Int => Some(first_int(bytes)),
        _ => None,
    }
}

fn first_int(bytes: &[u8]) -> i64
    requires { 8 ≤ length bytes.now }
    ensures { Int result ≡ front_value kind.Int bytes.now }
{
    u64::from_be_bytes([
        bytes[0], bytes[1], bytes[2], bytes[3], bytes[4], bytes[5], bytes[6], bytes[7],
    ])
    .cast_signed()
}

// The order of two keys by the ints that they begin with; equal where these are, or where one doesn't begin so.
fn cmp_fronts(schema: &Schema, a: &RowRef<'_>, b: &RowRef<'_>) -> Ordering
    ensures { result ≢ order.Equal → key_cmp schema.now a.now b.now ≡ result }
{
    match schema.key() {
        [0, ..] => cmp_ints(a.front_int(), b.front_int()),
        _ => Ordering::Equal,
    }
}

// The order of two ints; equal where one is missing.
fn cmp_ints(a: Option<i64>, b: Option<i64>) -> Ordering
    ensures { result ≢ order.Equal → IsSomeAnd a (λ x. IsSomeAnd b (λ y. result ≡ int_cmp x y)) }
{
    match (a, b) {
        (Some(x), Some(y)) => x.cmp(&y),
        _ => Ordering::Equal,
    }
}

fn are_same(a_marked: bool, a: &[u8], b_marked: bool, b: &[u8]) -> bool
    ensures { IsTrue result ↔ ((a_marked ≡ b_marked) × (a.now ≡ b.now)) }
{
    a_marked == b_marked && a == b
}

// Most keys are the columns from the first one on: both rows are walked once, side by side.
fn cmp_walked(schema: &Schema, a: &RowRef<'_>, b: &RowRef<'_>) -> Ordering
    ensures { result ≡ key_cmp schema.now a.now b.now }
{
    let mut x = a.cells();
    let mut y = b.cells();
    for (i, place) in schema.key().iter().enumerate() {
        if *place as usize != i {
            return cmp_anywhere(schema, a, b);
        }
        match (x.next(), y.next()) {
            (Some(first), Some(second)) => {
                let order = first.compare(second);
                if order != Ordering::Equal {
                    return order;
                }
            }
            _ => return cmp_anywhere(schema, a, b),
        }
    }
    Ordering::Equal
}

// The same of a key whose columns stand anywhere.
#[inline(never)]
fn cmp_anywhere(schema: &Schema, a: &RowRef<'_>, b: &RowRef<'_>) -> Ordering
    ensures { result ≡ key_cmp schema.now a.now b.now }
{
    cmp_cells(schema, &a.cells(), &b.cells())
}

fn cmp_cells(schema: &Schema, a: &Cells<'_>, b: &Cells<'_>) -> Ordering
    ensures { result ≡ key_cmp schema.now a.now b.now }
{
    for place in schema.key() {
        let order = a.at(*place as usize).compare(b.at(*place as usize));
        if order != Ordering::Equal {
            return order;
        }
    }
    Ordering::Equal
}
