//! Whether the lists of a dataset have few enough items for their counts.

ghost use Rattle.std.specs.Prelude.{◌↔◌, IsTrue, length};
ghost use Rattle.std.specs.List.{All};
ghost use Rattle.ov_event.specs.Fitting.{Few, ColumnsFit, SchemaFits, VersionFits, PartFits, RawTargetFits, RawPlanFits, MaybePlanFits, DatasetFits};

use crate::event::RawSchema;
use crate::whole::{RawPart, RawPlan, RawTarget, RawVersion, Whole};
use ov_items::Items;
use ov_value::{Column, Txt};

/// Whether each length and number of items of a dataset fits its field, so that it has a spelling.
pub fn whole_fits(said: &Whole) -> bool
    ensures { IsTrue result ↔ DatasetFits said.now }
{
    is_short(&said.name)
        && schema_fits(&said.schema)
        && versions_fit(&said.versions)
        && parts_fit(&said.parts)
        && maybe_plan_fits(&said.plan)
}

fn is_short(text: &Txt) -> bool
    ensures { IsTrue result ↔ Few 32 text.now }
{
    text.len() < 0x1_0000_0000
}

fn are_few<T>(items: &Items<T>) -> bool
    ensures { IsTrue result ↔ Few 32 items.now }
{
    items.len() < 0x1_0000_0000
}

fn columns_fit(columns: &Items<Column>) -> bool
    ensures { IsTrue result ↔ ColumnsFit columns.now }
{
    columns.len() < 256
        && columns
            .as_slice()
            .iter()
            .all(|column| is_short(&column.name))
}

fn schema_fits(schema: &RawSchema) -> bool
    ensures { IsTrue result ↔ SchemaFits schema.now }
{
    columns_fit(&schema.columns) && schema.key.len() < 256
}

fn version_fits(version: &RawVersion) -> bool
    ensures { IsTrue result ↔ VersionFits version.now }
{
    version.parents.len() < 0x1_0000 && is_short(&version.message)
}

fn versions_fit(versions: &Items<RawVersion>) -> bool
    ensures { IsTrue result ↔ (Few 32 versions.now × All VersionFits versions.now) }
{
    are_few(versions)
        && versions
            .as_slice()
            .iter()
            .all(|version| version_fits(version))
}

fn part_fits(part: &RawPart) -> bool
    ensures { IsTrue result ↔ PartFits part.now }
{
    are_few(&part.versions) && are_few(&part.holds) && are_few(&part.segments)
}

fn parts_fit(parts: &Items<RawPart>) -> bool
    ensures { IsTrue result ↔ (Few 32 parts.now × All PartFits parts.now) }
{
    are_few(parts) && parts.as_slice().iter().all(|part| part_fits(part))
}

fn target_fits(target: &RawTarget) -> bool
    ensures { IsTrue result ↔ RawTargetFits target.now }
{
    are_few(&target.versions) && are_few(&target.kept)
}

fn targets_fit(targets: &Items<RawTarget>) -> bool
    ensures { IsTrue result ↔ (Few 32 targets.now × All RawTargetFits targets.now) }
{
    are_few(targets) && targets.as_slice().iter().all(|target| target_fits(target))
}

fn plan_fits(plan: &RawPlan) -> bool
    ensures { IsTrue result ↔ RawPlanFits plan.now }
{
    targets_fit(&plan.targets) && are_few(&plan.segments)
}

fn maybe_plan_fits(plan: &Option<RawPlan>) -> bool
    ensures { IsTrue result ↔ MaybePlanFits plan.now }
{
    match plan {
        None => true,
        Some(plan) => plan_fits(plan),
    }
}
