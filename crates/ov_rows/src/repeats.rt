//! Keys that stand twice.

ghost use Rattle.std.specs.Prelude.{◌≡◌, ◌↔◌, ◌<◌, ◌≤◌, ◌<ℤ◌, ◌-◌, IsTrue, IfSome, None, length, map};
ghost use Rattle.std.specs.List.{All};
ghost use Rattle.std.specs.Ordering.{is_lt};
ghost use Rattle.std.specs.declared.cmp.Ordering.TheVariants as order;
ghost use Rattle.ov_value.specs.Rows.{key_cmp};
ghost use Rattle.ov_model.specs.Lists.{Rises};
ghost use Rattle.ov_rows.specs.FileRows.{least_repeat as least_repeat_of, lesser as lesser_of, lines_at};
ghost use Rattle.ov_rows.specs.Keyed.{Tells, TellsOf, by_key, row_at, places};

use crate::keyed::{Keyed, kind_begin};
use ov_front::front_of;
use ov_segment::RowTable;
use ov_value::Schema;
use std::cmp::Ordering;

/// Whether each row's key is above that of the row before it: then the rows stand in key order, and no key stands twice.
pub(crate) fn keys_rise(schema: &Schema, rows: &RowTable) -> bool
    ensures { IsTrue result ↔ Rises (key_cmp schema.now) rows.now }
{
    let begin = kind_begin(schema, rows);
    let mut before = None;
    for i in 1..rows.len() {
        let front = front_of(begin, schema, &rows.row(i));
        if !stands_above(schema, rows, i, before, front) {
            return false;
        }
        before = front;
    }
    true
}

// Whether a row's key is above that of the row before it; of both the fronts are given, where they have such.
fn stands_above(
    schema: &Schema,
    rows: &RowTable,
    i: usize,
    before: Option<i64>,
    front: Option<i64>,
) -> bool
    requires second { 1 ≤ i }
    requires there { i < length rows.now }
    requires tells { IfSome before (λ x. IfSome front (λ y. x <ℤ y → key_cmp schema.now (row_at rows.now (i - 1)) (row_at rows.now i) ≡ order.Less)) }
    ensures { result ≡ is_lt (key_cmp schema.now (row_at rows.now (i - 1)) (row_at rows.now i)) }
{
    if let (Some(x), Some(y)) = (before, front) {
        if x < y {
            return true;
        }
    }
    is_below(schema, rows, i - 1, i)
}

#[inline(never)]
fn is_below(schema: &Schema, rows: &RowTable, a: usize, b: usize) -> bool
    requires first { a < length rows.now }
    requires second { b < length rows.now }
    ensures { result ≡ is_lt (key_cmp schema.now (row_at rows.now a) (row_at rows.now b)) }
{
    rows.row(a).cmp_key(schema, &rows.row(b)) == Ordering::Less
}

/// The same of the rows at these positions.
pub(crate) fn are_rising(schema: &Schema, rows: &RowTable, keyed: &[Keyed]) -> bool
    requires within { All (λ i. i < length rows.now) (places keyed.now) }
    requires tells { Tells schema.now rows.now keyed.now }
    ensures { IsTrue result → Rises (key_cmp schema.now) (map (row_at rows.now) (places keyed.now)) }
{
    for i in 1..keyed.len() {
        if !stands_below(schema, rows, keyed[i - 1], keyed[i]) {
            return false;
        }
    }
    true
}

fn stands_below(schema: &Schema, rows: &RowTable, a: Keyed, b: Keyed) -> bool
    requires first { a.place < length rows.now }
    requires second { b.place < length rows.now }
    requires tells { TellsOf schema.now rows.now a b }
    ensures { IsTrue result → by_key schema.now rows.now a b ≡ order.Less }
{
    a.front < b.front || is_below(schema, rows, a.place, b.place)
}

/// Of the rows that have the key of the row before them in this order, the least number.
pub(crate) fn least_repeat(schema: &Schema, rows: &RowTable, order: &[usize]) -> Option<u32>
    requires few { length rows.now ≤ 1000000 }
    requires within { All (λ i. i < length rows.now) order.now }
    ensures { result ≡ least_repeat_of schema.now None (lines_at rows.now order.now) }
{
    let mut least = None;
    for i in 1..order.len() {
        let before = rows.row(order[i - 1]);
        if before.cmp_key(schema, &rows.row(order[i])) == Ordering::Equal {
            least = Some(lesser(least, order[i] as u32 + 1));
        }
    }
    least
}

fn lesser(least: Option<u32>, nth: u32) -> u32
    ensures { result ≡ lesser_of least nth }
{
    match least {
        Some(number) if number < nth => number,
        _ => nth,
    }
}
