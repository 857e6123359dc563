//! A dataset with its partitions, its threshold and its running plan, as the definitions have it.

ghost use Rattle.std.specs.Prelude.{◌≡◌, IfOk};

use crate::copies::Copies;
use crate::rec::{Rec, Version};
use ov_value::{Schema, Txt};
use sqlite_items::Items;
use std::alloc::{AllocError, Global};
use std::marker::Model;

/// A dataset: its number among all that were made, its name, its schema and its versions, numbered from 1.
#[derive(Drop)]
pub struct Cvd {
    pub number: u32,
    pub name: Txt,
    pub schema: Schema,
    pub versions: Items<Version>,
}

impl Model for Cvd {
    ghost use Rattle.ov_model.specs.Book.{Cvd as Known};

    ghost Value = { Known };

    ghost view = { λ c. record { number = c.number; name = c.name; schema = c.schema; versions = c.versions } };
}

impl Copies for Cvd {
    fn copied(&self, alloc: Global) -> Result<Cvd, AllocError> {
        let name = self.name.copy(alloc)?;
        let schema = self.schema.copy(alloc)?;
        let versions = self.versions.copied(alloc)?;
        Ok(Cvd {
            number: self.number,
            name,
            schema,
            versions,
        })
    }
}

/// A partition: its number, the versions that it serves, the versions whose records it keeps, both ascending, and its
/// pieces, which share no record.
#[derive(Drop)]
pub struct Part {
    pub id: u32,
    pub versions: Items<u32>,
    pub holds: Items<u32>,
    pub pieces: Items<Items<Rec>>,
}

impl Model for Part {
    ghost use Rattle.ov_model.specs.World.{Part as Known};

    ghost Value = { Known };

    ghost view = { λ p. record { id = p.id; versions = p.versions; holds = p.holds; pieces = p.pieces } };
}

impl Copies for Part {
    fn copied(&self, alloc: Global) -> Result<Part, AllocError> {
        let versions = Items::from_slice(alloc, self.versions.as_slice())?;
        let holds = Items::from_slice(alloc, self.holds.as_slice())?;
        let pieces = self.pieces.copied(alloc)?;
        Ok(Part {
            id: self.id,
            versions,
            holds,
            pieces,
        })
    }
}

/// A partition that a plan will make: its versions, the partition whose pieces it keeps, 0 for none, the places of those
/// pieces, counted from 0, and how many records these have.
#[derive(Drop)]
pub struct Target {
    pub versions: Items<u32>,
    pub source: u32,
    pub kept: Items<u64>,
    pub kept_records: u64,
}

impl Model for Target {
    ghost use Rattle.ov_model.specs.World.{Target as Known};

    ghost Value = { Known };

    ghost view = { λ t. record { versions = t.versions; source = t.source; kept = t.kept; kept_records = t.kept_records } };
}

impl Copies for Target {
    fn copied(&self, alloc: Global) -> Result<Target, AllocError> {
        let versions = Items::from_slice(alloc, self.versions.as_slice())?;
        let kept = Items::from_slice(alloc, self.kept.as_slice())?;
        Ok(Target {
            versions,
            source: self.source,
            kept,
            kept_records: self.kept_records,
        })
    }
}

/// A running plan: its threshold p / q, its targets, which of them is the current one, counted from 0, and the pieces that
/// were copied for it.
#[derive(Drop)]
pub struct Plan {
    pub p: u32,
    pub q: u32,
    pub targets: Items<Target>,
    pub at: u32,
    pub copied: Items<Items<Rec>>,
}

impl Model for Plan {
    ghost use Rattle.ov_model.specs.World.{Plan as Known};

    ghost Value = { Known };

    ghost view = { λ p. record { p = p.p; q = p.q; targets = p.targets; at = p.at; copied = p.copied } };
}

impl Copies for Plan {
    fn copied(&self, alloc: Global) -> Result<Plan, AllocError> {
        let targets = self.targets.copied(alloc)?;
        let copied = self.copied.copied(alloc)?;
        Ok(Plan {
            p: self.p,
            q: self.q,
            targets,
            at: self.at,
            copied,
        })
    }
}

/// A dataset with its partitions by number, the next partition's number, the threshold of the last plan, and the running
/// plan.
#[derive(Drop)]
pub struct Dataset {
    pub cvd: Cvd,
    pub parts: Items<Part>,
    pub next_part: u32,
    pub threshold: Option<(u32, u32)>,
    pub plan: Option<Plan>,
}

impl Model for Dataset {
    ghost use Rattle.ov_model.specs.World.{Dataset as Known};

    ghost Value = { Known };

    ghost view = { λ d. record { cvd = d.cvd; parts = d.parts; next_part = d.next_part; threshold = d.threshold; plan = d.plan } };
}

/// A copy of the plan that runs, where one does.
fn copy_of_plan(alloc: Global, plan: &Option<Plan>) -> Result<Option<Plan>, AllocError>
    ensures { IfOk result (λ made. made ≡ plan.now) }
{
    match plan {
        None => Ok(None),
        Some(plan) => Ok(Some(plan.copied(alloc)?)),
    }
}

impl Copies for Dataset {
    fn copied(&self, alloc: Global) -> Result<Dataset, AllocError> {
        let cvd = self.cvd.copied(alloc)?;
        let parts = self.parts.copied(alloc)?;
        let plan = copy_of_plan(alloc, &self.plan)?;
        Ok(Dataset {
            cvd,
            parts,
            next_part: self.next_part,
            threshold: self.threshold,
            plan,
        })
    }
}
