//! Why columns and the names of key columns make no schema.

use crate::txt::Txt;
use std::alloc::AllocError;

/// Why columns and the names of key columns make no schema. Where several hold, the first one in this
/// order is answered; `BadName` and `RepeatedName` go column by column, `UnknownKey` and `RepeatedKey`
/// name by name.
#[derive(Debug, Drop)]
pub enum SchemaErr {
    /// There are no columns.
    NoColumns,
    /// There are over 64 columns.
    TooManyColumns,
    /// A column's name is no name, or spells `vid` in any case of letters.
    BadName { name: Txt },
    /// A column has the name of one before it.
    RepeatedName { name: Txt },
    /// No key column is named.
    NoKey,
    /// A key column is named that is none of the columns.
    UnknownKey { name: Txt },
    /// A key column is named twice.
    RepeatedKey { name: Txt },
    /// There was no memory for it.
    Memory,
}

impl From<AllocError> for SchemaErr {
    ghost use Rattle.std.specs.Prelude.{◌≡◌};
    ghost use Rattle.ov_value.specs.declared.schema_err.SchemaErr.TheVariants as why;

    ghost from_gives = { λ _ made. made ≡ why.Memory };

    fn from(_error: AllocError) -> SchemaErr {
        SchemaErr::Memory
    }
}
