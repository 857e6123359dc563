//! A row: its values, one a column.

ghost use Rattle.std.specs.Prelude.{◌≡◌, ◌↔◌, IsTrue, IfOk};
ghost use Rattle.std.specs.Ordering.{eq_by_cmp};
ghost use Rattle.std.specs.Cmp.{partial_equiv_from_equiv, eq_by_cmp_equiv};
ghost use Rattle.std.specs.Cmp.Lexicographic.{pointwise, lists_equiv};
ghost use Rattle.std.specs.List.{All};
ghost use Rattle.ov_value.specs.Spelling.{IsShort};
ghost use Rattle.ov_value.specs.Rows.{value_cmp};
ghost use Rattle.ov_value.specs.Order.{value_cmp_total};

use crate::value::Value;
use std::alloc::{AllocError, Global};
use std::marker::Model;

/// A row: its values in the order of the columns. Contracts see it as the list of them.
#[derive(Drop)]
pub struct Row {
    values: Vec<Value>,
}

impl Model for Row {
    ghost use Rattle.std.specs.Prelude.{List};
    ghost use Rattle.ov_value.specs.declared.value.Value.{Value as RowValue};

    ghost Value = { List RowValue };

    ghost view = { λ r. r.values.items };
}

impl Row {
    /// The row of these values, without a copy.
    pub fn new(values: Vec<Value>) -> Row
        ensures { result ≡ values.items }
    {
        Row { values }
    }

    /// Its values in order.
    pub fn values(&self) -> &[Value]
        ensures { result.now ≡ self.now }
    {
        self.values.as_slice()
    }

    /// Its values as a list that can be changed, without a copy.
    pub fn into_values(self) -> Vec<Value>
        ensures { result.items ≡ self }
    {
        let Row { values } = self;
        values
    }

    /// Whether each of its texts is below 2^32 bytes, as the bytes of a row ask.
    pub fn has_short_texts(&self) -> bool
        ensures { IsTrue result ↔ All IsShort self.now }
    {
        self.values.iter().all(|value| value.is_short())
    }

    /// A copy of it.
    pub fn copy(&self, alloc: Global) -> Result<Row, AllocError>
        ensures ok { IfOk result (λ made. made ≡ self.now) }
    {
        let mut values = Vec::with_capacity(alloc, self.values.len())?;
        for value in &self.values {
            values.push(value.copy(alloc)?)?;
        }
        Ok(Row { values })
    }
}

/// Rows are equal where they have equal values at each column; NULL is equal to NULL alone.
impl PartialEq for Row {
    ghost eq = { pointwise (eq_by_cmp value_cmp) };

    ghost laws = { partial_equiv_from_equiv (lists_equiv (eq_by_cmp_equiv value_cmp_total)) };

    fn eq(&self, other: &Row) -> bool
        ensures pointwise { result ≡ pointwise (eq_by_cmp value_cmp) self.now other.now }
        ensures same { IsTrue result ↔ (self.now ≡ other.now) }
    {
        self.values.as_slice() == other.values.as_slice()
    }
}

impl Eq for Row {
    ghost laws = { lists_equiv (eq_by_cmp_equiv value_cmp_total) };
}
