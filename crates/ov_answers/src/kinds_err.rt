//! Why a query has no kinds.

ghost use Rattle.std.specs.Prelude.{◌≡◌};
ghost use Rattle.ov_answers.specs.declared.kinds_err.KindsErr.TheVariants.{Memory};

use ov_model::Refusal;
use std::alloc::AllocError;

/// Why a query has no kinds.
#[derive(Drop)]
pub enum KindsErr {
    Memory,
    Refused(Refusal),
}

impl From<AllocError> for KindsErr {
    ghost from_gives = { λ _ e. e ≡ Memory };

    fn from(_: AllocError) -> KindsErr {
        KindsErr::Memory
    }
}
