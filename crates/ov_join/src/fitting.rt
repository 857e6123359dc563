//! A join that fits the schemas of its sides.

ghost use Rattle.std.specs.Prelude.{◌≡◌};

use ov_model::{JoinQuery, Query, Seq};
use ov_value::{Column, Kind, Schema};
use std::marker::Model;

/// A join that fits the schemas of its sides. Contracts see it as the three.
#[derive(Drop)]
pub struct TypedJoin<'a> {
    pub(crate) join: &'a JoinQuery,
    pub(crate) left: &'a Schema,
    pub(crate) right: &'a Schema,
    // What the join asks of rows side by side, which names no lineage, and their columns.
    pub(crate) wide: Query,
    pub(crate) columns: Vec<Column>,
    pub(crate) kinds: Seq<Kind>,
}

impl<'a> Model for TypedJoin<'a> {
    ghost use Rattle.std.specs.Prelude.{◌≡◌, [], Ok};
    ghost use Rattle.std.specs.Coded.{codes};
    ghost use Rattle.ov_model.specs.Asking.{guard_lineages};
    ghost use Rattle.ov_model.specs.Joins.{as_query, join_kinds, side_by_side, wide_guard};
    ghost use Rattle.ov_model.specs.contracts.query.Cond as cond;
    ghost use Rattle.ov_join.specs.Fitting.{Fitting};

    ghost Value = { Fitting };

    ghost coded = { Prim.hlevel (codes, cond.the_row.coded) };

    ghost view = { λ t. record { join = t.join.now; left = t.left.now; right = t.right.now } };

    ghost invariant = { λ t. (t.wide ≡ as_query t.join.now) × (t.columns.items ≡ (side_by_side t.left.now t.right.now).columns)
        × (join_kinds t.join.now t.left.now t.right.now ≡ Ok t.kinds) × (guard_lineages (wide_guard t.join.now.filter) ≡ []) };
}

impl<'a> TypedJoin<'a> {
    /// The join.
    pub fn join(&self) -> &JoinQuery
        ensures { result.now ≡ self.now.join }
    {
        self.join
    }
}
