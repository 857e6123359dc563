//! Lists with a comma or a keyword between each two items.

ghost use Rattle.std.specs.Prelude.{[], ◌∷◌, length};
ghost use Rattle.ov_model.specs.Reading.{more_at, list_at, with_front};
ghost use Rattle.ov_parse.specs.Returning.{Gives};

use crate::part::Part;
use crate::scope::Scope;
use crate::stop::Stop;
use crate::symbols::eaten;
use ov_model::{Fixed, Symbol};
use sqlite_items::Items;
use std::alloc::Global;

/// Items with this between each two, at least one, and what stands behind them.
#[tactic(auto, unfolding(ov_model::specs::Reading::list_at))]
pub(crate) fn listed<T: Part>(
    alloc: Global,
    scope: Scope,
    between: Fixed,
    symbols: &[Symbol],
) -> Result<(Items<T>, &[Symbol]), Stop>
    ensures { Gives (λ x. (x.0, x.1.now)) result (list_at between (T.at scope) symbols.now) }
{
    let (first, rest) = T::read(alloc, scope, symbols)?;
    more(alloc, scope, between, first, rest)
}

/// The first item, and those that follow.
fn more<T: Part>(
    alloc: Global,
    scope: Scope,
    between: Fixed,
    first: T,
    symbols: &[Symbol],
) -> Result<(Items<T>, &[Symbol]), Stop>
    ensures { Gives (λ x. (x.0, x.1.now)) result (with_front (first ∷ []) (more_at between (T.at scope) (length symbols.now) symbols.now)) }
{
    let mut items = Items::new(alloc);
    items.push(first)?;
    let mut rest = symbols;
    for _ in 0..symbols.len() {
        let Some(after) = eaten(between, rest) else {
            return Ok((items, rest));
        };
        let (item, after) = T::read(alloc, scope, after)?;
        items.push(item)?;
        rest = after;
    }
    Ok((items, rest))
}
