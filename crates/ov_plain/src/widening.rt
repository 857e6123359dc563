//! A dataset with columns more at the right, which are NULL in each row that it has.

ghost use Rattle.std.specs.Prelude.{◌≡◌, ◌++◌, length, map, replicate, IfOk, OnOk};
ghost use Rattle.ov_value.specs.declared.value.Value.TheVariants.{Null};
ghost use Rattle.ov_model.specs.Book.{extended};
ghost use Rattle.ov_model.specs.Moves.{wide, wide_cvd, wide_part, wide_plan, wide_rec, wide_schema, wide_version};
ghost use Rattle.ov_model.specs.World.{stored};

use crate::copies::{Copies, onto};
use crate::dataset::{Cvd, Dataset, Part, Plan};
use crate::rec::{Rec, Version};
use ov_value::{Column, Row, Schema, SchemaErr, Value};
use sqlite_items::Items;
use std::alloc::{AllocError, Global};

/// Adds NULL for each of these columns.
fn add_nulls(added: &[Column], values: &mut Vec<Value>) -> Result<(), AllocError>
    ensures { OnOk result (values.new.items ≡ values.old.items ++ replicate (length added.now) Null) }
{
    match added {
        [] => Ok(()),
        [_, rest @ ..] => {
            values.push(Value::Null)?;
            add_nulls(rest, values)
        }
    }
}

/// A row with NULL in these columns more.
fn extended(alloc: Global, added: &[Column], row: &Row) -> Result<Row, AllocError>
    ensures { IfOk result (λ after. after ≡ extended (length added.now) row.now) }
{
    let mut values = row.copy(alloc)?.into_values();
    add_nulls(added, &mut values)?;
    Ok(Row::new(values))
}

/// These rows with NULL in these columns more.
fn wide_rows(alloc: Global, added: &[Column], rows: &[Row]) -> Result<Items<Row>, AllocError>
    ensures { IfOk result (λ after. after ≡ map (extended (length added.now)) rows.now) }
{
    match rows {
        [] => Ok(Items::new(alloc)),
        [row, rest @ ..] => {
            let later = wide_rows(alloc, added, rest)?;
            onto(alloc, extended(alloc, added, row)?, later)
        }
    }
}

/// A record with NULL in these columns more.
fn wide_rec(alloc: Global, added: &[Column], rec: &Rec) -> Result<Rec, AllocError>
    ensures { IfOk result (λ after. after ≡ wide_rec (length added.now) rec.now) }
{
    Ok(Rec {
        origin: rec.origin,
        row: extended(alloc, added, &rec.row)?,
    })
}

/// These records with NULL in these columns more.
fn wide_recs(alloc: Global, added: &[Column], recs: &[Rec]) -> Result<Items<Rec>, AllocError>
    ensures { IfOk result (λ after. after ≡ map (wide_rec (length added.now)) recs.now) }
{
    match recs {
        [] => Ok(Items::new(alloc)),
        [rec, rest @ ..] => {
            let later = wide_recs(alloc, added, rest)?;
            onto(alloc, wide_rec(alloc, added, rec)?, later)
        }
    }
}

/// These pieces, their records with NULL in these columns more.
fn wide_pieces(
    alloc: Global,
    added: &[Column],
    pieces: &[Items<Rec>],
) -> Result<Items<Items<Rec>>, AllocError>
    ensures { IfOk result (λ after. after ≡ map (map (wide_rec (length added.now))) pieces.now) }
{
    match pieces {
        [] => Ok(Items::new(alloc)),
        [piece, rest @ ..] => {
            let later = wide_pieces(alloc, added, rest)?;
            onto(alloc, wide_recs(alloc, added, piece.as_slice())?, later)
        }
    }
}

/// A partition with these columns more.
fn wide_part(alloc: Global, added: &[Column], part: &Part) -> Result<Part, AllocError>
    ensures { IfOk result (λ after. after ≡ wide_part (length added.now) part.now) }
{
    let versions = Items::from_slice(alloc, part.versions.as_slice())?;
    let holds = Items::from_slice(alloc, part.holds.as_slice())?;
    let pieces = wide_pieces(alloc, added, part.pieces.as_slice())?;
    Ok(Part {
        id: part.id,
        versions,
        holds,
        pieces,
    })
}

/// These partitions with these columns more.
fn wide_parts(alloc: Global, added: &[Column], parts: &[Part]) -> Result<Items<Part>, AllocError>
    ensures { IfOk result (λ after. after ≡ map (wide_part (length added.now)) parts.now) }
{
    match parts {
        [] => Ok(Items::new(alloc)),
        [part, rest @ ..] => {
            let later = wide_parts(alloc, added, rest)?;
            onto(alloc, wide_part(alloc, added, part)?, later)
        }
    }
}

/// A version with these columns more.
fn wide_version(alloc: Global, added: &[Column], version: &Version) -> Result<Version, AllocError>
    ensures { IfOk result (λ after. after ≡ wide_version (length added.now) version.now) }
{
    let parents = Items::from_slice(alloc, version.parents.as_slice())?;
    let message = version.message.copy(alloc)?;
    let rows = wide_rows(alloc, added, version.rows.as_slice())?;
    Ok(Version {
        parents,
        message,
        rows,
    })
}

/// These versions with these columns more.
fn wide_versions(
    alloc: Global,
    added: &[Column],
    versions: &[Version],
) -> Result<Items<Version>, AllocError>
    ensures { IfOk result (λ after. after ≡ map (wide_version (length added.now)) versions.now) }
{
    match versions {
        [] => Ok(Items::new(alloc)),
        [version, rest @ ..] => {
            let later = wide_versions(alloc, added, rest)?;
            onto(alloc, wide_version(alloc, added, version)?, later)
        }
    }
}

/// The plan that runs, where one does, with these columns more in the records that were copied.
fn wide_plan(
    alloc: Global,
    added: &[Column],
    plan: &Option<Plan>,
) -> Result<Option<Plan>, AllocError>
    ensures { IfOk result (λ after. after ≡ wide_plan (length added.now) plan.now) }
{
    match plan {
        None => Ok(None),
        Some(plan) => {
            let copied = wide_pieces(alloc, added, plan.copied.as_slice())?;
            let targets = plan.targets.copied(alloc)?;
            Ok(Some(Plan {
                p: plan.p,
                q: plan.q,
                targets,
                at: plan.at,
                copied,
            }))
        }
    }
}

/// A schema with these columns more; as it is where they are refused.
fn wide_schema(alloc: Global, added: &[Column], schema: &Schema) -> Result<Schema, AllocError>
    ensures { IfOk result (λ after. after ≡ wide_schema schema.now added.now) }
{
    match schema.widen(alloc, added) {
        Ok(wide) => Ok(wide),
        Err(SchemaErr::Memory) => Err(AllocError),
        Err(_) => schema.copy(alloc),
    }
}

/// A dataset's versions with these columns more.
fn wide_cvd(alloc: Global, added: &[Column], cvd: &Cvd) -> Result<Cvd, AllocError>
    ensures { IfOk result (λ after. after ≡ wide_cvd added.now cvd.now) }
{
    let name = cvd.name.copy(alloc)?;
    let schema = wide_schema(alloc, added, &cvd.schema)?;
    let versions = wide_versions(alloc, added, cvd.versions.as_slice())?;
    Ok(Cvd {
        number: cvd.number,
        name,
        schema,
        versions,
    })
}

/// A dataset with these columns more, each part of which has them.
fn wide_set(alloc: Global, added: &[Column], set: &Dataset) -> Result<Dataset, AllocError>
    ensures { IfOk result (λ after. after ≡ record set.now { cvd = wide_cvd added.now set.now.cvd; parts = map (wide_part (length added.now)) set.now.parts; plan = wide_plan (length added.now) set.now.plan }) }
{
    let cvd = wide_cvd(alloc, added, &set.cvd)?;
    let parts = wide_parts(alloc, added, set.parts.as_slice())?;
    let plan = wide_plan(alloc, added, &set.plan)?;
    Ok(Dataset {
        cvd,
        parts,
        next_part: set.next_part,
        threshold: set.threshold,
        plan,
    })
}

/// A dataset with the added columns; none is no change. It has as many versions and partitions as before, and stores as much.
#[tactic(auto, using(crate::proofs::Wider::as_many, crate::proofs::Wider::as_many_parts))]
pub fn wide(alloc: Global, added: &[Column], set: &Dataset) -> Result<Dataset, AllocError>
    ensures is { IfOk result (λ after. after ≡ wide added.now set.now) }
    ensures versions { IfOk result (λ after. length after.cvd.versions ≡ length set.now.cvd.versions) }
    ensures parts { IfOk result (λ after. length after.parts ≡ length set.now.parts) }
    ensures number { IfOk result (λ after. after.next_part ≡ set.now.next_part) }
    ensures stored { IfOk result (λ after. stored after ≡ stored set.now) }
{
    match added {
        [] => set.copied(alloc),
        [_, ..] => {
            let after = wide_set(alloc, added, set)?;
            Ok(after)
        }
    }
}
