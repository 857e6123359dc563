//! Rows in the order of their keys.

ghost use Rattle.std.specs.Prelude.{◌≡◌, OnOk, OnErr};
ghost use Rattle.std.specs.List.Sorted.{IsPermutation, IsSorted, IsStable};
ghost use Rattle.ov_value.specs.Rows.{key_cmp};

use crate::row::Row;
use crate::schema::Schema;
use std::alloc::AllocError;

/// Sorts the rows by their keys. Rows of the same key keep their order. Where memory is wanting, the rows
/// stay as they are.
pub fn sort_by_key(schema: &Schema, rows: &mut Vec<Row>) -> Result<(), AllocError>
    ensures permutation { IsPermutation rows.old.items rows.new.items }
    ensures sorted { OnOk result (IsSorted (key_cmp schema.now) rows.new.items) }
    ensures stable { OnOk result (IsStable (key_cmp schema.now) rows.old.items rows.new.items) }
    ensures err { OnErr result (rows.new.items ≡ rows.old.items) }
{
    rows.sort_by(|a, b| schema.cmp_key(a, b))?;
    Ok(())
}
