//! What is printed of a command.

use crate::refusal::Refusal;
use ov_value::Txt;
use sqlite_items::Items as Seq;

/// A partition: its number, its records and its versions.
#[derive(Drop)]
pub struct PartLine {
    pub id: u32,
    pub records: u32,
    pub versions: Seq<u32>,
}

/// A running plan: its threshold p / q, its current target of so many, counted from 1, the records copied for that one of
/// those that it has to copy, and the steps that the plan has left.
#[derive(Drop)]
pub struct PlanLine {
    pub p: u32,
    pub q: u32,
    pub target: u32,
    pub targets: u32,
    pub copied: u32,
    pub size: u32,
    pub steps: u64,
}

/// A version, with the records that no parent gave it.
#[derive(Drop)]
pub struct LogLine {
    pub vid: u32,
    pub rows: u32,
    pub fresh: u32,
    pub parents: Seq<u32>,
    pub message: Txt,
}

/// A dataset with its versions and its distinct records.
#[derive(Drop)]
pub struct CvdLine {
    pub name: Txt,
    pub versions: u32,
    pub records: u32,
}

/// What the split at one threshold comes to.
#[derive(Drop)]
pub struct BudgetLine {
    pub depth: u32,
    pub partitions: u32,
    pub stored: u64,
    pub cost: u64,
}

/// A staged table: its user and name, and the dataset and versions that it was checked out from.
#[derive(Drop)]
pub struct TableLine {
    pub user: Txt,
    pub table: Txt,
    pub cvd: Txt,
    pub vids: Txt,
}

/// The reply to a command.
#[derive(Drop)]
pub enum Reply {
    Init {
        cvd: Txt,
        rows: u32,
    },
    /// The text of a checkout, which has a header and so isn't empty.
    Csv {
        text: Seq<u8>,
    },
    ToFile {
        cvd: Txt,
        rows: u32,
        file: Txt,
    },
    Commit {
        cvd: Txt,
        vid: u32,
        rows: u32,
        fresh: u32,
    },
    /// The rows of an answer as lines of CSV, and their number.
    Answer {
        text: Seq<u8>,
        rows: u64,
    },
    Optimize {
        depth: u32,
        partitions: u32,
        stored: u64,
        records: u64,
        members: u64,
        cost: u64,
        steps: u64,
    },
    /// A line for each threshold from 1 / 100 on, and the plan of the one chosen.
    Within {
        lines: Seq<BudgetLine>,
        chosen: u32,
        depth: u32,
        partitions: u32,
        stored: u64,
        records: u64,
        members: u64,
        cost: u64,
        steps: u64,
    },
    Advise {
        cost: u64,
        best: u64,
        optimize: bool,
    },
    Migrate {
        taken: u32,
        left: u64,
    },
    Layout {
        parts: Seq<PartLine>,
        plan: Option<PlanLine>,
        stored: u64,
        cost: u64,
    },
    Log {
        versions: Seq<LogLine>,
    },
    Ls {
        cvds: Seq<CvdLine>,
    },
    Dropped {
        cvd: Txt,
    },
    Checkpoint {
        datasets: u32,
    },
    Generate {
        cvd: Txt,
        versions: u32,
        records: u32,
        members: u64,
    },
    User {
        name: Txt,
    },
    Whoami {
        name: Txt,
    },
    Unstaged {
        user: Txt,
        table: Txt,
    },
    Tables {
        tables: Seq<TableLine>,
    },
    Refused(Refusal),
}
