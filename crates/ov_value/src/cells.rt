//! What is left of a row's bytes, value by value.

ghost use Rattle.std.specs.Prelude.{◌≡◌, ◌≤◌, List, [], ◌∷◌, length, MatchOption};
ghost use Rattle.ov_value.specs.declared.column.Column.{Column as RowColumn};
ghost use Rattle.ov_value.specs.declared.column.Kind.TheVariants as kind;
ghost use Rattle.ov_value.specs.Rows.{value_at};
ghost use Rattle.ov_value.specs.Reading.{Begins, Steps};
ghost use Rattle.ov_value.specs.Decoding.{front_value, front_rest, step_value, step_rest, row_of, AreRow, nulls_of, body_of};
ghost use Rattle.ov_value.specs.Cells.{value_of};

use crate::cell::CellRef;
use crate::column::{Column, Kind};
use crate::marked::marks_at;
use std::marker::Model;
use std::str;

/// The values that are left of a row, where they lie in its bytes. Contracts see the list of them.
#[derive(Drop)]
pub struct Cells<'a> {
    columns: &'a [Column],
    nulls: u64,
    rest: &'a [u8],
}

impl<'a> Model for Cells<'a> {
    ghost use Rattle.std.specs.Prelude.{List};
    ghost use Rattle.ov_value.specs.declared.value.Value.{Value as RowValue};
    ghost use Rattle.ov_value.specs.Decoding.{decoded, CanRead};

    ghost Value = { List RowValue };

    ghost view = { λ c. decoded c.columns.now c.nulls c.rest.now };

    ghost invariant = { λ c. CanRead c.columns.now c.nulls c.rest.now };
}

impl<'a> Cells<'a> {
    /// The values of a row of at most 64 columns, whose bytes begin with marks or not. It takes no memory.
    pub fn of(columns: &'a [Column], marked: bool, bytes: &'a [u8]) -> Cells<'a>
        requires few { length columns.now ≤ 64 }
        requires row { AreRow columns.now marked bytes.now }
        ensures { result ≡ row_of columns.now marked bytes.now }
    {
        let (nulls, rest) = marks_and_body(columns.len(), marked, bytes);
        Cells {
            columns,
            nulls,
            rest,
        }
    }

    /// Takes off the first of the values; `None` where none is left.
    pub fn next(&mut self) -> Option<CellRef<'a>>
        ensures { MatchOption result (self.old ≡ []) (λ cell. self.old ≡ value_of cell ∷ self.new) }
    {
        match self.columns.split_first() {
            None => None,
            Some((column, columns)) => {
                let (cell, rest) = step(column.kind, self.nulls % 2 == 1, self.rest);
                self.columns = columns;
                self.nulls /= 2;
                self.rest = rest;
                Some(cell)
            }
        }
    }

    /// The value at a position, counted from 0; NULL past the last. It takes the time of the values before it.
    pub fn at(&self, place: usize) -> CellRef<'a>
        ensures { value_of result ≡ value_at self.now place }
    {
        let mut columns = self.columns;
        let mut nulls = self.nulls;
        let mut rest = self.rest;
        let mut before = place;
        while let Some((column, others)) = columns.split_first() {
            let (cell, after) = step(column.kind, nulls % 2 == 1, rest);
            if before == 0 {
                return cell;
            }
            columns = others;
            nulls /= 2;
            rest = after;
            before -= 1;
        }
        CellRef::Null
    }
}

// The marks of a row as a number, and the bytes behind them.
fn marks_and_body(most: usize, marked: bool, bytes: &[u8]) -> (u64, &[u8])
    requires { (columns : List RowColumn) × (length columns ≡ most) × (most ≤ 64) × AreRow columns marked bytes.now }
    ensures nulls { result.0 ≡ nulls_of marked bytes.now }
    ensures body { result.1.now ≡ body_of marked bytes.now }
{
    if !marked {
        return (0, bytes);
    }
    match marks_at(most, bytes) {
        Some((_, nulls, rest)) => (nulls, rest),
        None => unreachable!(),
    }
}

// The value in front, or NULL where it is marked so or no bytes are left, and the bytes behind it.
fn step(kind: Kind, null: bool, bytes: &[u8]) -> (CellRef<'_>, &[u8])
    requires { Steps kind null bytes.now (step_value kind null bytes.now) (step_rest kind null bytes.now) }
    ensures cell { value_of result.0 ≡ step_value kind null bytes.now }
    ensures rest { result.1.now ≡ step_rest kind null bytes.now }
{
    if null || bytes.is_empty() {
        return (CellRef::Null, bytes);
    }
    match kind {
        Kind::Int => int_at(bytes),
        Kind::Text => text_at(bytes),
        Kind::Flag => flag_at(bytes),
    }
}

fn int_at(bytes: &[u8]) -> (CellRef<'_>, &[u8])
    requires { Begins kind.Int bytes.now (front_value kind.Int bytes.now) (front_rest kind.Int bytes.now) }
    ensures cell { value_of result.0 ≡ front_value kind.Int bytes.now }
    ensures rest { result.1.now ≡ front_rest kind.Int bytes.now }
{
    let (front, rest) = bytes.split_at(8);
    let number = u64::from_be_bytes([
        front[0], front[1], front[2], front[3], front[4], front[5], front[6], front[7],
    ]);
    (CellRef::Int(number.cast_signed()), rest)
}

fn text_at(bytes: &[u8]) -> (CellRef<'_>, &[u8])
    requires { Begins kind.Text bytes.now (front_value kind.Text bytes.now) (front_rest kind.Text bytes.now) }
    ensures cell { value_of result.0 ≡ front_value kind.Text bytes.now }
    ensures rest { result.1.now ≡ front_rest kind.Text bytes.now }
{
    let (front, rest) = bytes.split_at(4);
    let len = u32::from_be_bytes([front[0], front[1], front[2], front[3]]) as usize;
    let (text, rest) = rest.split_at(len);
    // SAFETY: the bytes of a text that stands in a row are UTF-8.
    (
        CellRef::Text(unsafe { str::from_utf8_unchecked(text) }),
        rest,
    )
}

fn flag_at(bytes: &[u8]) -> (CellRef<'_>, &[u8])
    requires { Begins kind.Flag bytes.now (front_value kind.Flag bytes.now) (front_rest kind.Flag bytes.now) }
    ensures cell { value_of result.0 ≡ front_value kind.Flag bytes.now }
    ensures rest { result.1.now ≡ front_rest kind.Flag bytes.now }
{
    (CellRef::Flag(bytes[0] == 1), &bytes[1..])
}
