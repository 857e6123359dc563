//! Why a query fits no schema.

ghost use Rattle.std.specs.Prelude.{◌≡◌};
ghost use Rattle.ov_typing.specs.declared.type_err.TypeErr.TheVariants.{Memory};

use ov_value::{Kind, Txt};
use std::alloc::{AllocError, AllocFailed};

/// Why a query doesn't fit a schema. Names are those of columns; a version's number is named `vid`.
#[derive(Drop)]
pub enum TypeErr {
    /// No column has this name.
    UnknownColumn { name: Txt },
    /// The sides of this comparison, counted from 1 over the whole query, have different kinds.
    TypeMismatch { nth: u64, left: Kind, right: Kind },
    /// The query is grouped, and this column stands alone where it isn't one of GROUP BY.
    NotGrouped { name: Txt },
    /// SUM of a column that isn't of ints.
    NeedsInt { name: Txt },
    /// Memory was wanting.
    Memory,
}

impl From<AllocError> for TypeErr {
    ghost from_gives = { λ _ e. e ≡ Memory };

    fn from(_e: AllocError) -> TypeErr {
        TypeErr::Memory
    }
}

impl<T: Drop> From<AllocFailed<T>> for TypeErr {
    ghost from_gives = { λ _ e. e ≡ Memory };

    fn from(_e: AllocFailed<T>) -> TypeErr {
        TypeErr::Memory
    }
}
