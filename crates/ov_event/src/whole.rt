//! A dataset as it stands, as one event.

use crate::event::RawSchema;
use ov_host::Extent;
use ov_items::Items;
use ov_value::Txt;

/// A dataset: its number, its name, its schema, how many records it has, the threshold p / q or 0 and 0 for
/// none, the number that the next partition gets, and its versions from 1 on, its partitions and its migration.
#[derive(Drop)]
pub struct Whole {
    pub number: u32,
    pub name: Txt,
    pub schema: RawSchema,
    pub records: u32,
    pub p: u32,
    pub q: u32,
    pub next: u32,
    pub versions: Items<RawVersion>,
    pub parts: Items<RawPart>,
    pub plan: Option<RawPlan>,
}

/// A version: its parents with their weights, its message, how many rows it has and how many of them were new,
/// and where its list lies.
#[derive(Drop)]
pub struct RawVersion {
    pub parents: Items<(u32, u32)>,
    pub message: Txt,
    pub rows: u32,
    pub fresh: u32,
    pub list: Extent,
}

/// A partition: its number, its versions, the versions that hold it, how many records it has, and where its
/// segments lie.
#[derive(Drop)]
pub struct RawPart {
    pub id: u32,
    pub versions: Items<u32>,
    pub holds: Items<u32>,
    pub records: u32,
    pub segments: Items<Extent>,
}

/// A migration: the target that is next, counted from 0, how many of its records are copied, the targets, and
/// where the segments lie that it has written.
#[derive(Drop)]
pub struct RawPlan {
    pub at: u32,
    pub copied: u32,
    pub targets: Items<RawTarget>,
    pub segments: Items<Extent>,
}

/// A target of a migration, with the versions that it will have.
#[derive(Drop)]
pub struct RawTarget {
    pub versions: Items<u32>,
    pub size: u32,
    pub source: u32,
    pub kept: Items<u32>,
    pub kept_records: u32,
}
