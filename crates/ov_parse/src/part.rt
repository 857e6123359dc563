//! Parts of a query or join that are read at the front of symbols.

ghost use Rattle.std.specs.Prelude.{List, Option};
ghost use Rattle.ov_model.specs.declared.query.Symbol.{Symbol as ASymbol};
ghost use Rattle.ov_parse.specs.Returning.{Gives};
ghost use Rattle.ov_parse.specs.declared.scope.Scope.{Scope as AScope};

use crate::scope::Scope;
use crate::stop::Stop;
use ov_model::Symbol;
use std::alloc::Global;

/// A part of a query or join that can stand in a list.
pub(crate) trait Part: Drop {
    /// What reading gives at the front of symbols.
    ghost at: { AScope → List ASymbol → Option (Self × List ASymbol) };

    /// The part at the front of the symbols, and the symbols behind it.
    fn read(alloc: Global, scope: Scope, symbols: &[Symbol]) -> Result<(Self, &[Symbol]), Stop>
        ensures { Gives (λ x. (x.0, x.1.now)) result (at scope symbols.now) };
}
