//! The rows of the registry: those with one more, whether one is a user's, where a table's stands, and all but that one.

ghost use Rattle.std.specs.Prelude.{◌≡◌, ◌<◌, ◌^◌, length, IfOk};
ghost use Rattle.std.specs.Ordering.{is_eq};
ghost use Rattle.ov_value.specs.Rows.{value_at, value_cmp};
ghost use Rattle.ov_value.specs.declared.value.Value.TheVariants.{Text};
ghost use Rattle.ov_model.specs.Registry.{find as find_of, is_table as is_table_of, is_user as is_user_of, with_row as with_row_of, without_row as without_row_of};

use crate::rules::is_admin;
use ov_value::{Row, Value};
use std::alloc::{AllocError, Global};

// Whether the row has this text at this place.
fn has_text(row: &Row, place: usize, text: &str) -> bool
    ensures { result ≡ is_eq (value_cmp (value_at row.now place) (Text text.now)) }
{
    match row.values().get(place) {
        Some(Value::Text(found)) => found.as_str() == text,
        _ => false,
    }
}

// Whether it is the row of this owner's table of this name.
fn is_table(row: &Row, owner: &str, name: &str) -> bool
    ensures { result ≡ is_table_of owner.now name.now row.now }
{
    has_text(row, 0, owner) && has_text(row, 1, name)
}

// Whether the row is this user's.
fn is_user_row(row: &Row, name: &str) -> bool
    ensures { result ≡ is_eq (value_cmp (Text name.now) (value_at row.now 0)) }
{
    match row.values().get(0) {
        Some(Value::Text(found)) => name == found.as_str(),
        _ => false,
    }
}

/// Whether the name is `admin`, or one of these rows of users has it. It takes no memory.
pub fn is_user(rows: &[Row], name: &str) -> bool
    ensures { result ≡ is_user_of rows.now name.now }
{
    if is_admin(name) {
        return true;
    }
    for row in rows {
        if is_user_row(row, name) {
            return true;
        }
    }
    false
}

/// The place of the row of this owner's table of this name.
pub fn find(rows: &[Row], owner: &str, name: &str) -> Option<u32>
    requires { length rows.now < 2 ^ 32 }
    ensures place { result ≡ find_of rows.now owner.now name.now }
{
    let mut place = 0;
    for row in rows {
        if is_table(row, owner, name) {
            return Some(place);
        }
        place += 1;
    }
    None
}

/// The rows with one more behind them.
pub fn with_row(alloc: Global, rows: &[Row], row: &Row) -> Result<Vec<Row>, AllocError>
    ensures ok { IfOk result (λ made. made.items ≡ with_row_of rows.now row.now) }
{
    let mut made = Vec::with_capacity(alloc, rows.len() + 1)?;
    for old in rows {
        made.push(old.copy(alloc)?)?;
    }
    made.push(row.copy(alloc)?)?;
    Ok(made)
}

/// The rows but that of this owner's table of this name.
pub fn without_row(
    alloc: Global,
    rows: &[Row],
    owner: &str,
    name: &str,
) -> Result<Vec<Row>, AllocError>
    ensures ok { IfOk result (λ made. made.items ≡ without_row_of rows.now owner.now name.now) }
{
    let mut left = Vec::new(alloc);
    for row in rows {
        if !is_table(row, owner, name) {
            left.push(row.copy(alloc)?)?;
        }
    }
    Ok(left)
}
