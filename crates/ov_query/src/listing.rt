// Lists of versions in place of the lineages that a query names.

ghost use Rattle.std.specs.Prelude.{◌≡◌, IfOk, map};
ghost use Rattle.ov_catalog.specs.Ready.{IsSet};
ghost use Rattle.ov_catalog.specs.Sets.{set_in as numbers_in};
ghost use Rattle.ov_model.specs.Asking.{name_read};
ghost use Rattle.ov_store.specs.Scanning.{set_in};
ghost use Rattle.ov_query.specs.Answering.{IsListedBy};
ghost use Rattle.ov_query.specs.Queries.{known_in};

use crate::permitting::name_of;
use ov_catalog::{Cvd, Version};
use ov_lineage::{Lineage, ResolveErr, resolve};
use ov_model::{Query, Refusal};
use ov_store::Store;
use std::alloc::{AllocError, Global};

/// A query with lists in place of its lineages.
#[derive(Drop)]
pub(crate) enum Listed {
    /// This query, which names none.
    Query(Query),
    /// Its dataset isn't there, or a version whose lineage it names.
    Refused(Refusal),
}

/// Lists in place of the lineages of a query, by the parents that the store's numbers have. Nothing is read for it.
pub(crate) fn lists_for(alloc: Global, store: &Store, query: &Query) -> Result<Listed, AllocError>
    ensures { IfOk result (IsListedBy (set_in store.now.held.numbers (name_read query.now.source)) query.now) }
{
    let name = name_of(&query.source);
    let Some(d) = store.catalog().cvd(name.as_str()) else {
        return Ok(Listed::Refused(Refusal::NoCvd {
            cvd: name.copy(alloc)?,
        }));
    };
    let lineage = lineage_of(alloc, d)?;
    match resolve(alloc, query, &lineage) {
        Ok(resolved) => Ok(Listed::Query(resolved)),
        Err(ResolveErr::NoVersion { vid }) => Ok(Listed::Refused(Refusal::NoVersion { vid })),
        Err(ResolveErr::Memory) => Err(AllocError),
    }
}

// The parents of a dataset's versions.
fn lineage_of(alloc: Global, d: &Cvd) -> Result<Lineage, AllocError>
    requires { IsSet d.now }
    ensures { IfOk result (λ lineage. lineage ≡ (known_in (numbers_in d.now)).parents) }
{
    let mut parents = Vec::with_capacity(alloc, d.versions.len())?;
    for version in &d.versions {
        parents.push(parents_of(alloc, version)?)?;
    }
    Lineage::of(alloc, &parents)
}

// The vids of a version's parents.
fn parents_of(alloc: Global, version: &Version) -> Result<Vec<u32>, AllocError>
    ensures { IfOk result (λ vids. vids.items ≡ map (λ edge. edge.0) version.now.parents) }
{
    let edges = version.parents.as_slice();
    let mut vids = Vec::with_capacity(alloc, edges.len())?;
    for edge in edges {
        vids.push(edge.0)?;
    }
    Ok(vids)
}
