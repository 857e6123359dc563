//! Whether bytes spell a row of a schema, without memory.

ghost use Rattle.std.specs.Prelude.{◌≡◌, ◌↔◌, ◌≤◌, ◌≢◌, ◌<◌, ◌^◌, List, length, true, false, IsTrue, IfSome, IfNone};
ghost use Rattle.std.specs.List.{All};
ghost use Rattle.ov_value.specs.declared.value.Value.{Value as RowValue};
ghost use Rattle.ov_value.specs.Spelling.{IsSpelling, IsRow, kept as kept_values, marks};
ghost use Rattle.ov_value.specs.Reading.{Spelled};
ghost use Rattle.ov_value.specs.Decoding.{decoded, row_of, AreRow, CanRead, stands};

use crate::column::Column;
use crate::marked::marks_at;
use crate::schema::Schema;
use crate::walk::walk;

/// Whether all of the bytes, which begin with marks or not, spell a row of the schema. It takes no memory, and the time
/// of the columns and of the texts' bytes.
pub fn spells_row(schema: &Schema, marked: bool, bytes: &[u8]) -> bool
    // The row is that of the bytes.
    ensures found { IsTrue result → IsRow schema.now (row_of schema.now.columns marked bytes.now)
        × IsSpelling (row_of schema.now.columns marked bytes.now) marked bytes.now }

    // No row is passed over.
    ensures only { (row : List RowValue) → IsRow schema.now row → IsSpelling row marked bytes.now
        → IsTrue result × (row ≡ row_of schema.now.columns marked bytes.now) }
{
    if !marked && is_full(schema, bytes) {
        return true;
    }
    spells_any(schema, marked, bytes)
}

// Whether the bytes spell a row of which no value is NULL, as most are: no key has to be looked at.
fn is_full(schema: &Schema, bytes: &[u8]) -> bool
    ensures { IsTrue result → IsRow schema.now (row_of schema.now.columns false bytes.now)
        × IsSpelling (row_of schema.now.columns false bytes.now) false bytes.now }
{
    schema.plan().fits(bytes)
}

// As `spells_row`, of a row with NULLs or without.
#[inline(never)]
fn spells_any(schema: &Schema, marked: bool, bytes: &[u8]) -> bool
    ensures found { IsTrue result → IsRow schema.now (row_of schema.now.columns marked bytes.now)
        × IsSpelling (row_of schema.now.columns marked bytes.now) marked bytes.now }
    ensures only { (row : List RowValue) → IsRow schema.now row → IsSpelling row marked bytes.now
        → IsTrue result × (row ≡ row_of schema.now.columns marked bytes.now) }
{
    match marks_of_row(schema.columns(), marked, bytes) {
        None => false,
        Some((kept, nulls)) => all_stand(schema.key(), kept, nulls),
    }
}

// Of the row that the bytes spell how many values are kept, and the marks of those.
fn marks_of_row(columns: &[Column], marked: bool, bytes: &[u8]) -> Option<(usize, u64)>
    requires { length columns.now ≤ 64 }
    ensures found { IfSome result (λ x. AreRow columns.now marked bytes.now) }
    ensures kept { IfSome result (λ x. x.0 ≡ length (kept_values (row_of columns.now marked bytes.now))) }
    ensures marks { IfSome result (λ x. x.1 ≡ marks (kept_values (row_of columns.now marked bytes.now))) }
    ensures none { IfNone result ((row : List RowValue) → Spelled columns.now marked bytes.now row → ⊥) }
{
    if marked {
        return marks_of_marked(columns, bytes);
    }
    match walk(columns, 0, bytes) {
        None => None,
        Some(kept) => Some((kept, 0)),
    }
}

// The same of bytes that begin with marks.
fn marks_of_marked(columns: &[Column], bytes: &[u8]) -> Option<(usize, u64)>
    requires { length columns.now ≤ 64 }
    ensures found { IfSome result (λ x. AreRow columns.now true bytes.now) }
    ensures kept { IfSome result (λ x. x.0 ≡ length (kept_values (row_of columns.now true bytes.now))) }
    ensures marks { IfSome result (λ x. x.1 ≡ marks (kept_values (row_of columns.now true bytes.now))) }
    ensures none { IfNone result ((row : List RowValue) → Spelled columns.now true bytes.now row → ⊥) }
{
    match marks_at(columns.len(), bytes) {
        None => None,
        Some((width, nulls, rest)) => match walk(columns, nulls, rest) {
            None => None,
            Some(kept) => {
                if kept == width && nulls != 0 {
                    Some((kept, nulls))
                } else {
                    None
                }
            }
        },
    }
}

// Whether none of the values at these positions is NULL.
fn all_stand(key: &[u8], kept: usize, nulls: u64) -> bool
    requires { kept ≤ 64 }
    ensures { IsTrue result ↔ All (λ place. IsTrue (stands kept nulls place)) key.now }
{
    key.iter().all(|place| stands_at(kept, nulls, *place))
}

fn stands_at(kept: usize, nulls: u64, place: u8) -> bool
    requires { kept ≤ 64 }
    ensures { result ≡ stands kept nulls place }
{
    (place as usize) < kept && (nulls >> place) % 2 == 0
}
