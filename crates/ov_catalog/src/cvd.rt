//! A dataset, as the journal's events tell it.

use ov_event::Items;
use ov_host::Extent;
use ov_layout::Layout;
use ov_value::{Schema, Txt};

/// A version.
#[derive(Drop)]
pub struct Version {
    /// Its parents, each a vid and the weight of the edge: how many records both versions have.
    pub parents: Items<(u32, u32)>,
    pub message: Txt,
    /// How many rows it has.
    pub rows: u32,
    /// How many of its records no parent gave it.
    pub fresh: u32,
    /// Where the rids of its records are.
    pub list: Extent,
}

/// One part of a plan, which will be a partition.
#[derive(Drop)]
pub struct Target {
    pub versions: Items<u32>,
    /// How many records its versions have together.
    pub size: u32,
    /// The partition whose segments it keeps; 0 for none.
    pub source: u32,
    /// The places of these segments there, from 0 on.
    pub kept: Items<u32>,
    /// How many records these segments have.
    pub kept_records: u32,
}

/// A running plan, under the threshold p / q.
#[derive(Drop)]
pub struct Plan {
    pub p: u32,
    pub q: u32,
    pub targets: Items<Target>,
    /// Which target is the current one, from 0 on.
    pub at: u32,
    /// How many records were copied for it.
    pub copied: u32,
    /// Where these are.
    pub segments: Vec<Extent>,
}

/// A dataset.
#[derive(Drop)]
pub struct Cvd {
    /// Its number, from 1 on, which no other dataset ever has.
    pub number: u32,
    pub name: Txt,
    pub schema: Schema,
    /// Its versions: the one with the vid n is at index n - 1.
    pub versions: Vec<Version>,
    pub layout: Layout,
    /// The threshold p / q of the last optimize that began a plan.
    pub threshold: Option<(u32, u32)>,
    pub plan: Option<Plan>,
    /// How many records its versions have together.
    pub records: u32,
}
