//! One value of a row.

ghost use Rattle.std.specs.Prelude.{◌≡◌, ◌↔◌, IsTrue, IfOk, refl};
ghost use Rattle.std.specs.Ordering.{eq_by_cmp, as_partial_cmp};
ghost use Rattle.std.specs.Cmp.{partial_equiv_from_equiv, eq_by_cmp_equiv, partial_order_from_total};
ghost use Rattle.ov_value.specs.Rows.{is_null as is_null_of, rank as rank_of, value_cmp};
ghost use Rattle.ov_value.specs.Spelling.{IsShort};
ghost use Rattle.ov_value.specs.Order.{value_cmp_total};

use crate::txt::Txt;
use std::alloc::{AllocError, Global};
use std::cmp::Ordering;

/// One value of a row: an int of 64 bits, a text, a flag or NULL, which is of no kind.
///
/// Ints are ordered by number, texts by their bytes, false comes before true. Values of unlike kinds, which
/// never stand in one column, are ordered as they are listed here.
#[derive(Drop)]
pub enum Value {
    Int(i64),
    Text(Txt),
    Flag(bool),
    Null,
}

impl Value {
    /// A copy of it.
    pub fn copy(&self, alloc: Global) -> Result<Value, AllocError>
        ensures ok { IfOk result (λ made. made ≡ self.now) }
    {
        match self {
            Value::Int(number) => Ok(Value::Int(*number)),
            Value::Text(text) => Ok(Value::Text(text.copy(alloc)?)),
            Value::Flag(flag) => Ok(Value::Flag(*flag)),
            Value::Null => Ok(Value::Null),
        }
    }

    /// Whether it is NULL.
    pub fn is_null(&self) -> bool
        ensures null { IsTrue result ↔ (self.now ≡ Value.Null) }
        ensures test { result ≡ is_null_of self.now }
    {
        matches!(self, Value::Null)
    }

    // Whether it is no text of 2^32 bytes or more.
    pub(crate) fn is_short(&self) -> bool
        ensures { IsTrue result ↔ IsShort self.now }
    {
        match self {
            Value::Text(text) => text.len() < 0x1_0000_0000,
            _ => true,
        }
    }

    // Where it stands among values of unlike kinds.
    fn rank(&self) -> u8
        ensures { result ≡ rank_of self.now }
    {
        match self {
            Value::Int(_) => 0,
            Value::Text(_) => 1,
            Value::Flag(_) => 2,
            Value::Null => 3,
        }
    }
}

impl PartialEq for Value {
    ghost eq = { eq_by_cmp value_cmp };

    ghost laws = { partial_equiv_from_equiv (eq_by_cmp_equiv value_cmp_total) };

    fn eq(&self, other: &Value) -> bool
        ensures tied { result ≡ eq_by_cmp value_cmp self.now other.now }
        ensures same { IsTrue result ↔ (self.now ≡ other.now) }
    {
        match (self, other) {
            (Value::Int(x), Value::Int(y)) => *x == *y,
            (Value::Text(x), Value::Text(y)) => *x == *y,
            (Value::Flag(x), Value::Flag(y)) => *x == *y,
            (Value::Null, Value::Null) => true,
            _ => false,
        }
    }
}

impl Eq for Value {
    ghost laws = { eq_by_cmp_equiv value_cmp_total };
}

impl PartialOrd for Value {
    ghost partial_cmp = { as_partial_cmp value_cmp };

    ghost laws = { partial_order_from_total value_cmp_total };

    fn partial_cmp(&self, other: &Value) -> Option<Ordering> {
        Some(self.cmp(other))
    }
}

impl Ord for Value {
    ghost cmp = { value_cmp };

    ghost total = { value_cmp_total };

    ghost matches_partial_cmp = { λ v w. refl };

    ghost matches_eq = { λ v w. refl };

    fn cmp(&self, other: &Value) -> Ordering {
        match (self, other) {
            (Value::Int(x), Value::Int(y)) => x.cmp(y),
            (Value::Text(x), Value::Text(y)) => x.cmp(y),
            (Value::Flag(x), Value::Flag(y)) => x.cmp(y),
            _ => self.rank().cmp(&other.rank()),
        }
    }
}
