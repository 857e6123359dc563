//! A query that fits a schema.

ghost use Rattle.std.specs.Prelude.{◌≡◌, Ok};
ghost use Rattle.ov_model.specs.Kinds.{is_grouped, kinds};

use crate::grouping::is_grouped;
use ov_model::{Query, Seq};
use ov_value::{Kind, Schema};
use std::marker::Model;

/// A query that fits a schema. Contracts see it as the two.
#[derive(Drop)]
pub struct Typed<'a> {
    pub(crate) query: &'a Query,
    pub(crate) schema: &'a Schema,
    pub(crate) kinds: Seq<Kind>,
}

impl<'a> Model for Typed<'a> {
    ghost use Rattle.std.specs.Prelude.{◌≡◌, Ok};
    ghost use Rattle.ov_model.specs.Kinds as Kinds;
    ghost use Rattle.std.specs.Coded.{codes};
    ghost use Rattle.ov_model.specs.contracts.query.Cond as cond;
    ghost use Rattle.ov_typing.specs.Fitting.{Fitting};

    ghost Value = { Fitting };

    ghost coded = { Prim.hlevel (codes, cond.the_row.coded) };

    ghost view = { λ t. record { query = t.query.now; schema = t.schema.now } };

    ghost invariant = { λ t. Kinds.kinds t.query.now t.schema.now ≡ Ok t.kinds };
}

impl<'a> Typed<'a> {
    /// The query.
    pub fn query(&self) -> &Query
        ensures { result.now ≡ self.now.query }
    {
        self.query
    }

    /// The schema that it fits.
    pub fn schema(&self) -> &Schema
        ensures { result.now ≡ self.now.schema }
    {
        self.schema
    }

    /// Whether the query is grouped: it has GROUP BY, or an aggregate among its items or in its order.
    pub fn is_grouped(&self) -> bool
        ensures { result ≡ is_grouped self.now.query }
    {
        is_grouped(self.query)
    }

    /// The kind of each column of the query's answer.
    pub fn kinds(&self) -> &[Kind]
        ensures { kinds self.now.query self.now.schema ≡ Ok result.now }
    {
        self.kinds.as_slice()
    }
}
