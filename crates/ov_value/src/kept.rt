//! Which values of a row have bytes, and the marks of those that are NULL.

ghost use Rattle.std.specs.Prelude.{◌≡◌, ◌≤◌, length};
ghost use Rattle.std.specs.List.{list_any};
ghost use Rattle.ov_value.specs.Rows.{is_null};
ghost use Rattle.ov_value.specs.Spelling.{kept as kept_values, marks};

use crate::value::Value;

/// The values up to the last that is not NULL.
pub(crate) fn kept(values: &[Value]) -> &[Value]
    ensures { result.now ≡ kept_values values.now }
{
    &values[..kept_len(values)]
}

fn kept_len(values: &[Value]) -> usize
    ensures { result ≡ length (kept_values values.now) }
{
    let mut len = 0;
    for (i, value) in values.iter().enumerate() {
        if !value.is_null() {
            len = i + 1;
        }
    }
    len
}

/// Whether one of them is NULL.
pub(crate) fn has_null(values: &[Value]) -> bool
    ensures { result ≡ list_any is_null values.now }
{
    for value in values {
        if value.is_null() {
            return true;
        }
    }
    false
}

/// The number with a bit for each value, the first one's the least, set where it is NULL.
pub(crate) fn marks_of(values: &[Value]) -> u64
    requires { length values.now ≤ 64 }
    ensures { result ≡ marks values.now }
{
    let mut number = 0;
    for i in 0..values.len() {
        number = 2 * number + u64::from(values[values.len() - 1 - i].is_null());
    }
    number
}
