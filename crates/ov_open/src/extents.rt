// The live extents of a catalog.

ghost use Rattle.std.specs.Prelude.{◌≡◌, ◌++◌, map, flat_map, IfOk, OnOk};
ghost use Rattle.ov_catalog.specs.Extents.{live as live_in, of_plan, of_set};
ghost use Rattle.ov_catalog.specs.Sets.{plan_in, set_in};

use ov_catalog::{Catalog, Cvd, Plan, Version};
use ov_host::Extent;
use ov_layout::Part;
use std::alloc::{AllocError, Global};

/// The live extents of a catalog, dataset by dataset: the lists of its versions, the segments of its partitions, and those of
/// its plan. In time linear in their number.
pub fn live(alloc: Global, catalog: &Catalog) -> Result<Vec<Extent>, AllocError>
    ensures { IfOk result (λ extents. extents.items ≡ live_in catalog.now.numbers) }
{
    let mut extents = Vec::new(alloc);
    for d in catalog.cvds() {
        add_set(d, &mut extents)?;
    }
    Ok(extents)
}

fn add_set(d: &Cvd, extents: &mut Vec<Extent>) -> Result<(), AllocError>
    ensures { OnOk result (extents.new.items ≡ extents.old.items ++ of_set (set_in d.now)) }
{
    add_lists(&d.versions, extents)?;
    add_segments(d.layout.parts(), extents)?;
    add_plan(&d.plan, extents)?;
    Ok(())
}

fn add_lists(versions: &[Version], extents: &mut Vec<Extent>) -> Result<(), AllocError>
    ensures { OnOk result (extents.new.items ≡ extents.old.items ++ map (λ v. v.list) versions.now) }
{
    for version in versions {
        extents.push(version.list)?;
    }
    Ok(())
}

fn add_segments(parts: &[Part], extents: &mut Vec<Extent>) -> Result<(), AllocError>
    ensures { OnOk result (extents.new.items ≡ extents.old.items ++ flat_map (λ part. part.segments) parts.now) }
{
    for part in parts {
        extents.extend_from_slice(part.segments.as_slice())?;
    }
    Ok(())
}

fn add_plan(plan: &Option<Plan>, extents: &mut Vec<Extent>) -> Result<(), AllocError>
    ensures { OnOk result (extents.new.items ≡ extents.old.items ++ of_plan (plan_in plan.now)) }
{
    if let Some(plan) = plan {
        extents.extend_from_slice(plan.segments.as_slice())?;
    }
    Ok(())
}
