// The rows of a generator, as bytes in one buffer.

ghost use Rattle.std.specs.Prelude.{◌≡◌, ◌≤◌, ◌+◌, IfOk};
ghost use Rattle.std.specs.List.{All};
ghost use Rattle.std.specs.List.Sorted.{IsStrictlySortedBy};
ghost use Rattle.ov_value.specs.Rows.{key_cmp};
ghost use Rattle.ov_value.specs.Spelling.{IsRow};
ghost use Rattle.ov_model.specs.Generator.{child_of, fresh_rows as fresh_rows_of, generated_schema};
ghost use Rattle.ov_gen.specs.Versions.{IsGrown, IsShort};

use ov_gen::{Gen, generate_schema};
use ov_segment::{RowTable, Table};
use ov_value::{Row, Schema};
use std::alloc::{AllocError, Global};

// These rows in one buffer.
fn table_of(alloc: Global, schema: &Schema, rows: &[Row]) -> Result<RowTable, AllocError>
    requires { All (IsRow schema.now) rows.now }
    ensures { IfOk result (λ made. made ≡ rows.now) }
{
    let mut table = Table::new(alloc, schema)?;
    for row in rows {
        table.push_row(schema, 0, row)?;
    }
    Ok(RowTable::new(table))
}

/// The rows of version 1, in one buffer.
pub(crate) fn first_table(alloc: Global, source: &mut Gen) -> Result<RowTable, AllocError>
    ensures rows { IfOk result (λ made. made ≡ (fresh_rows_of source.old.rows 1 source.old.state).is) }
    ensures state { IfOk result (λ _. source.new ≡ record { state = (fresh_rows_of source.old.rows 1 source.old.state).state; rows = source.old.rows }) }
    ensures grown { IfOk result (λ made. IsGrown source.old.rows 2 made) }
    ensures fit { IfOk result (λ made. All (IsRow generated_schema) made) }
    ensures short { IfOk result (λ made. All IsShort made) }
    ensures ordered { IfOk result (λ made. IsStrictlySortedBy (key_cmp generated_schema) made) }
{
    let schema = generate_schema(alloc)?;
    let rows = source.first(alloc)?;
    table_of(alloc, &schema, &rows)
}

/// The rows of the version with this number, made of its parent's, in one buffer.
pub(crate) fn child_table(
    alloc: Global,
    source: &mut Gen,
    vid: u32,
    parent: Vec<Row>,
) -> Result<RowTable, AllocError>
    requires later { 2 ≤ vid }
    requires parent { IsGrown source.old.rows vid parent.items }
    ensures rows { IfOk result (λ made. made ≡ (child_of source.old.rows vid source.old.state parent.items).is) }
    ensures state { IfOk result (λ _. source.new ≡ record { state = (child_of source.old.rows vid source.old.state parent.items).state; rows = source.old.rows }) }
    ensures grown { IfOk result (λ made. IsGrown source.old.rows (vid + 1) made) }
    ensures fit { IfOk result (λ made. All (IsRow generated_schema) made) }
    ensures short { IfOk result (λ made. All IsShort made) }
    ensures ordered { IfOk result (λ made. IsStrictlySortedBy (key_cmp generated_schema) made) }
{
    let schema = generate_schema(alloc)?;
    let rows = source.child(alloc, vid, parent)?;
    table_of(alloc, &schema, &rows)
}
