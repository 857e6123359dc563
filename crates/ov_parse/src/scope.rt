//! Where a term or a condition stands.

/// Where a term or a condition stands, which says what may stand there.
#[derive(Clone, Copy)]
pub(crate) enum Scope {
    /// Over the rows of a query, as its WHERE: no aggregate.
    Rows,
    /// Over the groups of a query, as its items, HAVING and ORDER BY: aggregates too.
    Groups,
    /// Over both sides of a join: columns of a side each.
    Sides,
}
