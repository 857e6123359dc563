//! A column of a schema: its name and the kind of its values.

ghost use Rattle.std.specs.Prelude.{◌≡◌, ◌↔◌, IsTrue, IfOk};
ghost use Rattle.ov_value.specs.Rows.{IsOfKind};

use crate::txt::Txt;
use crate::value::Value;
use std::alloc::{AllocError, Global};

/// The kind of a column's values. NULL may stand in a column of any kind.
#[derive(Clone, Copy, PartialEq, Eq)]
pub enum Kind {
    Int,
    Text,
    Flag,
}

/// A column: its name and its kind.
#[derive(Drop)]
pub struct Column {
    pub name: Txt,
    pub kind: Kind,
}

impl Kind {
    // Whether the value is NULL or of this kind.
    pub(crate) fn takes(&self, value: &Value) -> bool
        ensures { IsTrue result ↔ IsOfKind value.now self.now }
    {
        match (value, self) {
            (Value::Int(_), Kind::Int) => true,
            (Value::Text(_), Kind::Text) => true,
            (Value::Flag(_), Kind::Flag) => true,
            (Value::Null, _) => true,
            _ => false,
        }
    }
}

impl Column {
    /// A copy of it.
    pub fn copy(&self, alloc: Global) -> Result<Column, AllocError>
        ensures ok { IfOk result (λ made. made ≡ self.now) }
    {
        Ok(Column {
            name: self.name.copy(alloc)?,
            kind: self.kind,
        })
    }
}
