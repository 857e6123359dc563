//! What a line of a script may ask for.

use ov_value::{Column, Schema, Txt};
use sqlite_items::Items as Seq;

/// A command with its values, as its line gives them. A version's number is one of up to 18 digits, which need not be there.
#[derive(Drop)]
pub enum Command {
    /// A dataset with a first version, of a file's rows.
    Init {
        cvd: Txt,
        schema: Schema,
        file: Txt,
    },
    /// The merge of versions, printed, put into a file, or staged as a table of the user's.
    Checkout {
        cvd: Txt,
        vids: Seq<u64>,
        file: Option<Txt>,
        table: Option<Txt>,
    },
    /// A version more, of a file's rows, with these parents. Added columns, at least one, stand at the right.
    Commit {
        cvd: Txt,
        vids: Seq<u64>,
        file: Txt,
        message: Txt,
        added: Option<Seq<Column>>,
    },
    /// A version more, of a staged table's file.
    CommitStaged {
        user: Txt,
        table: Txt,
        message: Txt,
    },
    /// The answer to a query or a join.
    Run {
        text: Txt,
    },
    /// A plan of the split at p / q.
    Optimize {
        cvd: Txt,
        p: u64,
        q: u64,
    },
    /// A plan of the cheapest of 100 thresholds that stores at most so many records.
    OptimizeWithin {
        cvd: Txt,
        budget: u64,
    },
    /// Whether a plan within the budget is worth it: where the cost is over a / b of the best one.
    Advise {
        cvd: Txt,
        budget: u64,
        a: u64,
        b: u64,
    },
    /// Migration steps, up to 1,000,000.
    Migrate {
        count: u32,
    },
    /// Partitions and the running plan.
    Layout {
        cvd: Txt,
    },
    /// The versions of a dataset.
    Log {
        cvd: Txt,
    },
    /// The datasets.
    Ls,
    /// A dataset goes.
    DropCvd {
        cvd: Txt,
    },
    /// A snapshot, so that the journal can be shortened.
    Checkpoint,
    /// A dataset of so many versions, the first one of so many rows, made from a seed. There are at least one of each, up to
    /// 65,535 versions, and up to 1,000,000 of both together.
    Generate {
        cvd: Txt,
        seed: u64,
        rows: u32,
        versions: u32,
    },
    /// A user more.
    CreateUser {
        name: Txt,
    },
    /// The user from here on.
    Config {
        name: Txt,
    },
    /// The user's name.
    Whoami,
    /// A staged table goes.
    Unstage {
        user: Txt,
        table: Txt,
    },
    /// The user's staged tables.
    Tables,
}
