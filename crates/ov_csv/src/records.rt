//! From a record to a row.

ghost use Rattle.std.specs.Prelude.{◌≡◌, ◌<◌, ◌++◌, ◌∷◌, [], IfOk, OnOk, IfErr, None, Some, true, length, map, nat_eq};
ghost use Rattle.std.specs.List.{list_all, list_any};
ghost use Rattle.std.specs.Str.{is_utf8};
ghost use Rattle.ov_model.specs.Csv.{row_refusal, row_in, bad_field, null_key};
ghost use Rattle.ov_model.specs.declared.refusal.Refusal.TheVariants as refusal;
ghost use Rattle.ov_value.specs.Shapes.{Shape};
ghost use Rattle.ov_value.specs.Rows.{is_null, value_at};
ghost use Rattle.ov_value.specs.Spelling.{IsRow};
ghost use Rattle.ov_segment.specs.Drafts.{Holds, IsWhole};
ghost use Rattle.ov_csv.specs.Refusing.{StandsFor};

use crate::csv_err::CsvErr;
use crate::fields::read_field;
use crate::line::Line;
use crate::texts::Texts;
use ov_segment::{RowDraft, Table};
use ov_value::{Column, LONGEST_ROW, Schema};
use std::alloc::Global;

/// Adds the row that the record spells, which is the `row`th after the header, behind the rows of the table; or answers the
/// first refusal.
pub(crate) fn keep_row(
    alloc: Global,
    schema: &Schema,
    row: u64,
    line: &Line<'_>,
    draft: &mut RowDraft,
    table: &mut Table,
) -> Result<(), CsvErr>
    requires { table.old.columns ≡ schema.now.columns }
    ensures none { OnOk result (row_refusal schema.now row line.now ≡ None) }
    ensures ok { OnOk result (map (λ r. r.row) table.new.records ≡ map (λ r. r.row) table.old.records ++ row_in schema.now.columns line.now ∷ []) }
    ensures columns { OnOk result (table.new.columns ≡ schema.now.columns) }
    ensures err { IfErr result (λ why. StandsFor schema.now why (row_refusal schema.now row line.now)) }
{
    read_row(alloc, schema, row, line, draft)?;
    // Nothing depends on the rid that a row of a file gets here.
    let rid = row.min(u64::from(u32::MAX)) as u32;
    table.push_draft(schema, rid, draft)?;
    Ok(())
}

// Makes the row that the record spells, or answers the refusal.
fn read_row(
    alloc: Global,
    schema: &Schema,
    row: u64,
    line: &Line<'_>,
    draft: &mut RowDraft,
) -> Result<(), CsvErr>
    ensures none { OnOk result (row_refusal schema.now row line.now ≡ None) }
    ensures whole { OnOk result (IsWhole draft.new (row_in schema.now.columns line.now)) }
    ensures row { OnOk result (IsRow schema.now (row_in schema.now.columns line.now)) }
    ensures err { IfErr result (λ why. StandsFor schema.now why (row_refusal schema.now row line.now)) }
{
    if line.len() != schema.columns().len() {
        return Err(CsvErr::Width {
            row,
            found: line.len() as u64,
        });
    }
    let Some(texts) = Texts::of(line) else {
        return Err(CsvErr::NotText { row });
    };
    row_of(alloc, schema, row, &texts, draft)
}

// Makes the row of the texts, one a column, or answers the refusal.
fn row_of(
    alloc: Global,
    schema: &Schema,
    row: u64,
    texts: &Texts<'_>,
    draft: &mut RowDraft,
) -> Result<(), CsvErr>
    requires width { length texts.now ≡ length schema.now.columns }
    requires text { list_all is_utf8 texts.now ≡ true }
    ensures none { OnOk result (row_refusal schema.now row texts.now ≡ None) }
    ensures whole { OnOk result (IsWhole draft.new (row_in schema.now.columns texts.now)) }
    ensures row { OnOk result (IsRow schema.now (row_in schema.now.columns texts.now)) }
    ensures err { IfErr result (λ why. StandsFor schema.now why (row_refusal schema.now row texts.now)) }
{
    let _columns = schema.columns();
    read_values(alloc, schema, row, texts, draft)?;
    refuse_null_key(alloc, schema, row, texts, draft)?;
    if draft.len() > LONGEST_ROW {
        return Err(CsvErr::LongRow { row });
    }
    Ok(())
}

// Makes the row of the values of the texts, or answers the refusal of the first that spells none.
fn read_values(
    alloc: Global,
    schema: &Schema,
    row: u64,
    texts: &Texts<'_>,
    draft: &mut RowDraft,
) -> Result<(), CsvErr>
    requires { length texts.now ≡ length schema.now.columns }
    ensures none { OnOk result (bad_field row schema.now.columns texts.now ≡ None) }
    ensures ok { OnOk result (Holds draft.new (row_in schema.now.columns texts.now)) }
    ensures err { IfErr result (λ why. StandsFor schema.now why (bad_field row schema.now.columns texts.now)) }
{
    let columns = schema.columns();
    draft.clear();
    for (place, column) in columns.iter().enumerate() {
        match read_field(column.kind, texts.at(place)) {
            Some(cell) => draft.push(cell)?,
            None => return Err(refused_field(alloc, row, column)),
        }
    }
    Ok(())
}

// The refusal of a field that spells no value of its column.
fn refused_field(alloc: Global, row: u64, column: &Column) -> CsvErr
    ensures { (schema : Shape) → StandsFor schema result (Some (refusal.BadField row column.now.name column.now.kind)) }
{
    match column.name.copy(alloc) {
        Ok(name) => CsvErr::BadField {
            row,
            column: name,
            kind: column.kind,
        },
        Err(_) => CsvErr::Memory,
    }
}

// Refuses the first key column that is NULL in the row of the texts.
fn refuse_null_key(
    alloc: Global,
    schema: &Schema,
    row: u64,
    texts: &Texts<'_>,
    draft: &RowDraft,
) -> Result<(), CsvErr>
    requires width { length texts.now ≡ length schema.now.columns }
    requires holds { Holds draft.now (row_in schema.now.columns texts.now) }
    ensures none { OnOk result (null_key schema.now row 0 schema.now.columns (row_in schema.now.columns texts.now) ≡ None) }
    ensures err { IfErr result (λ why. StandsFor schema.now why (null_key schema.now row 0 schema.now.columns (row_in schema.now.columns texts.now))) }
{
    if !draft.has_null() {
        return Ok(());
    }
    for (place, column) in schema.columns().iter().enumerate() {
        if is_null_at(schema, texts, draft, place) && is_key(schema, place) {
            return Err(CsvErr::NullKey {
                row,
                column: column.name.copy(alloc)?,
            });
        }
    }
    Ok(())
}

// Whether the value at the place is NULL in the row of the texts.
fn is_null_at(schema: &Schema, texts: &Texts<'_>, draft: &RowDraft, place: usize) -> bool
    requires { Holds draft.now (row_in schema.now.columns texts.now) }
    ensures { result ≡ is_null (value_at (row_in schema.now.columns texts.now) place) }
{
    !draft.has_value(place)
}

fn is_key(schema: &Schema, place: usize) -> bool
    ensures { result ≡ list_any (nat_eq place) schema.now.key }
{
    schema.key().iter().any(|key| place == *key as usize)
}
