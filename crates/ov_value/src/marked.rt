//! From bytes with marks to the values that they spell.

ghost use Rattle.std.specs.Prelude.{◌≡◌, ◌≤◌, ◌<◌, ◌+◌, ◌/◌, ◌^◌, ◌↔◌, ℕ, List, IsTrue, IfOk, IfSome, IfNone, IsSomeAnd, length, true};
ghost use Rattle.ov_value.specs.declared.value.Value.{Value as RowValue};
ghost use Rattle.ov_value.specs.Reading.{Spelled, AreMarks, BeginWithMarks, low_number};

use crate::column::Column;
use crate::kept::{kept, marks_of};
use crate::plain::read_values;
use crate::value::Value;
use std::alloc::{AllocError, Global};

pub(crate) fn read_marked(
    alloc: Global,
    columns: &[Column],
    bytes: &[u8],
) -> Result<Option<Vec<Value>>, AllocError>
    requires { length columns.now ≤ 64 }
    ensures found { IfOk result (λ read. IfSome read (λ values. Spelled columns.now true bytes.now values.items)) }
    ensures only { (row : List RowValue) → Spelled columns.now true bytes.now row
        → IfOk result (λ read. IsSomeAnd read (λ values. values.items ≡ row)) }
{
    match marks_at(columns.len(), bytes) {
        None => Ok(None),
        Some((width, nulls, rest)) => match read_values(alloc, columns, nulls, rest)? {
            None => Ok(None),
            Some(values) => {
                if are_marks(&values, width, nulls) {
                    Ok(Some(values))
                } else {
                    Ok(None)
                }
            }
        },
    }
}

// Whether these are the marks of the values: so many are kept, and these of them are NULL, at least one.
fn are_marks(values: &[Value], width: usize, nulls: u64) -> bool
    requires { length values.now ≤ 64 }
    ensures { IsTrue result ↔ AreMarks values.now width nulls }
{
    let kept = kept(values);
    if kept.len() != width || nulls == 0 {
        return false;
    }
    marks_of(kept) == nulls
}

// The number of values that are marked, at most so many, the marks as a number, and what stands behind them.
pub(crate) fn marks_at(most: usize, bytes: &[u8]) -> Option<(usize, u64, &[u8])>
    requires { most ≤ 64 }
    ensures found { IfSome result (λ x. (x.0 ≤ most) × BeginWithMarks bytes.now x.0 x.1 x.2.now) }
    ensures none { IfNone result
        ((width nulls : ℕ) (rest : List ℕ) → width ≤ most → BeginWithMarks bytes.now width nulls rest → ⊥) }
{
    let (width, rest) = bytes.split_first()?;
    let width = *width as usize;
    let count = (width + 7) / 8;
    if width > most || rest.len() < count {
        return None;
    }
    let (marks, rest) = rest.split_at(count);
    Some((width, number_of(marks), rest))
}

// The number whose bytes these are, the least first.
fn number_of(bytes: &[u8]) -> u64
    requires { length bytes.now ≤ 8 }
    ensures { result ≡ low_number bytes.now }
{
    let mut number = 0;
    for i in 0..bytes.len() {
        number = 256 * number + u64::from(bytes[bytes.len() - 1 - i]);
    }
    number
}
