//! Parents' records with columns more.

ghost use Rattle.std.specs.Prelude.{◌≡◌, ◌≤◌, ◌+◌, ◌++◌, ℕ, List, [], length, IfOk};
ghost use Rattle.std.specs.List.{All};
ghost use Rattle.ov_segment.specs.declared.numbered.Record.{Record as RecordValue};
ghost use Rattle.ov_value.specs.Shapes.{Shape};
ghost use Rattle.ov_value.specs.declared.column.Column.{Column as ColumnValue};
ghost use Rattle.ov_model.specs.Assigned.{stored_parents};
ghost use Rattle.ov_model.specs.Moves.{wide};
ghost use Rattle.ov_model.specs.Records.{order_of, recs};
ghost use Rattle.ov_model.specs.World.{Dataset};
ghost use Rattle.ov_records.specs.Records.{InKeyOrder, RowsFit, lists_of};
ghost use Rattle.ov_catalog.specs.Numbers.{SetNumbers};
ghost use Rattle.ov_host.specs.declared.area.Extent.{Extent};
ghost use Rattle.law_commits.specs.Agreeing.{ParentsAgree};
ghost use Rattle.ov_parents.specs.Parents.{with_added};

use ov_segment::RecordTable;
use ov_value::Column;
use std::alloc::{AllocError, Global};

/// The records with these columns more, which are NULL in each row. No row is read or copied, since its bytes stay as they are.
pub fn with_columns(
    alloc: Global,
    records: Vec<RecordTable>,
    added: &[Column],
) -> Result<Vec<RecordTable>, AllocError>
    requires fit { (schema : Shape) × All (RowsFit schema) records.items × (length schema.columns + length added.now ≤ 64) }
    ensures same { IfOk result (λ made. made.items ≡ with_added added.now records.items) }
{
    if added.is_empty() {
        return Ok(records);
    }
    let mut wide = Vec::with_capacity(alloc, records.len())?;
    for table in records {
        wide.push(table.widened(alloc, added)?)?;
    }
    Ok(wide)
}

/// Records with columns more agree with the numbers as they did, stand in the order of their keys, fit the wider schema, and are
/// those that the dataset with the columns has.
pub fn records_with_columns()
    ensures agree { (d : SetNumbers Extent Extent) (vids : List ℕ) (added : List ColumnValue) (parents : List (List RecordValue)) → ParentsAgree d vids parents
        → ParentsAgree d vids (with_added added parents) }
    ensures order { (schema wider : Shape) (added : List ColumnValue) (parents : List (List RecordValue)) → wider.key ≡ schema.key → All (InKeyOrder schema) parents
        → All (InKeyOrder wider) (with_added added parents) }
    ensures fit { (schema wider : Shape) (added : List ColumnValue) (parents : List (List RecordValue)) → wider.key ≡ schema.key → wider.columns ≡ schema.columns ++ added
        → All (RowsFit schema) parents → All (RowsFit wider) (with_added added parents) }
    ensures stored { (d : Dataset) (vids : List ℕ) (added : List ColumnValue) (parents : List (List RecordValue))
        → lists_of parents ≡ stored_parents vids (recs d.cvd.versions []) (order_of d.cvd.versions)
        → lists_of (with_added added parents) ≡ stored_parents vids (recs (wide added d).cvd.versions []) (order_of (wide added d).cvd.versions) }
{}
