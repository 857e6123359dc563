// A join before its rows are read.

ghost use Rattle.std.specs.Prelude.{◌≡◌, List, IfOk, IfErr};
ghost use Rattle.ov_model.specs.JoinGrammar.{SpellsJoin};
ghost use Rattle.ov_model.specs.declared.query.Symbol.{Symbol};
ghost use Rattle.ov_store.specs.Scanning.{set_in};
ghost use Rattle.ov_query.specs.Joining.{IsFitted};

use crate::refusing::refusal_by;
use crate::sides::{SideFound, found_side};
use ov_join::{TypedJoin, typed_join};
use ov_model::{JoinQuery, Refusal};
use ov_store::{Store, StoreErr};
use std::alloc::Global;

/// What comes of a join before its rows are read.
#[derive(Drop)]
pub(crate) enum Fitted<'a> {
    /// The versions of its sides are there, and it fits their schemas.
    Typed(TypedJoin<'a>),
    /// It is refused by numbers.
    Refused(Refusal),
}

/// The join with the schemas of its sides, or its refusal: 10 and 12 of the left side, 10 and 12 of the right one, and then 42
/// and 43. Nothing is read for it.
pub(crate) fn fitted_join<'a>(
    alloc: Global,
    store: &'a Store,
    join: &'a JoinQuery,
) -> Result<Fitted<'a>, StoreErr>
    requires { (symbols : List Symbol) × SpellsJoin symbols join.now }
    ensures fitted { IfOk result (IsFitted join.now (set_in store.now.held.numbers join.now.left.cvd) (set_in store.now.held.numbers join.now.right.cvd)) }
    ensures memory { IfErr result (λ why. why ≡ StoreErr.Memory) }
{
    let left = match found_side(alloc, store, &join.left)? {
        SideFound::There(schema) => schema,
        SideFound::Refused(refusal) => return Ok(Fitted::Refused(refusal)),
    };
    let right = match found_side(alloc, store, &join.right)? {
        SideFound::There(schema) => schema,
        SideFound::Refused(refusal) => return Ok(Fitted::Refused(refusal)),
    };
    match typed_join(alloc, join, left, right) {
        Ok(typed) => Ok(Fitted::Typed(typed)),
        Err(off) => Ok(Fitted::Refused(refusal_by(off)?)),
    }
}
