// A query or join that doesn't fit the schemas of what it reads.

ghost use Rattle.std.specs.Prelude.{◌≡◌, Some, IfOk, IfErr};
ghost use Rattle.ov_typing.specs.Refusing.{refusal_of};

use ov_model::Refusal;
use ov_store::StoreErr;
use ov_typing::TypeErr;

/// The refusal of a query or join that doesn't fit: 42 to 45.
pub(crate) fn refusal_by(off: TypeErr) -> Result<Refusal, StoreErr>
    ensures refusal { IfOk result (λ refusal. refusal_of off ≡ Some refusal) }
    ensures memory { IfErr result (λ err. err ≡ StoreErr.Memory) }
{
    match off {
        TypeErr::UnknownColumn { name } => Ok(Refusal::UnknownColumn { name }),
        TypeErr::TypeMismatch { nth, left, right } => {
            Ok(Refusal::TypeMismatch { nth, left, right })
        }
        TypeErr::NotGrouped { name } => Ok(Refusal::NotGrouped { name }),
        TypeErr::NeedsInt { name } => Ok(Refusal::NeedsInt { name }),
        TypeErr::Memory => Err(StoreErr::Memory),
    }
}
