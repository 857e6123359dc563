//! Whether a query names the lineage of a version.

ghost use Rattle.std.specs.Prelude.{◌≡◌, not, map};
ghost use Rattle.ov_model.specs.Asking.{cond_lineages, guard_lineages, is_none_named, lineages_of, source_lineages};
ghost use Rattle.ov_model.specs.Lists.{joined};

use ov_model::{Cond, Query, Src, lineages_by_cases};

/// Whether its source is a lineage, or a condition of it asks for one.
pub fn names_lineage(query: &Query) -> bool
    ensures { result ≡ not (is_none_named (lineages_of query.now)) }
{
    is_lineage(&query.source) || guard_names(&query.filter) || guard_names(&query.having)
}

fn is_lineage(source: &Src) -> bool
    ensures { result ≡ not (is_none_named (source_lineages source.now)) }
{
    match source {
        Src::Lineage { .. } => true,
        Src::Listed { .. } | Src::Whole { .. } => false,
    }
}

fn guard_names(guard: &Option<Cond>) -> bool
    ensures { result ≡ not (is_none_named (guard_lineages guard.now)) }
{
    match guard {
        Some(cond) => cond_names(cond),
        None => false,
    }
}

#[cycle(names)]
fn cond_names(cond: &Cond) -> bool
    ensures { result ≡ not (is_none_named (cond_lineages cond.now)) }
{
    lineages_by_cases();
    match cond {
        Cond::InLineage(_, _, _) => true,
        Cond::Compare(_, _, _) | Cond::IsNull(_, _) | Cond::InList(_, _) => false,
        Cond::Not(inner) => cond_names(inner.get()),
        Cond::Every(conds) | Cond::Any(conds) => one_names(conds.as_slice()),
    }
}

#[cycle(names)]
fn one_names(conds: &[Cond]) -> bool
    ensures { result ≡ not (is_none_named (joined (map cond_lineages conds.now))) }
{
    for cond in conds {
        if cond_names(cond) {
            return true;
        }
    }
    false
}
