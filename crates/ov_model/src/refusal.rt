//! Why a command was refused.

use ov_value::{Kind, Txt};

/// A refusal with the values of its text. The number that is printed with each stands beside its text in the specs.
#[derive(Drop)]
pub enum Refusal {
    /// 4. Of a `migrate`: the steps taken and those left.
    NoRun {
        pages: u64,
        steps: Option<(u32, u64)>,
    },
    /// 5. Of a `migrate`: the steps taken and those left.
    JournalFull {
        steps: Option<(u32, u64)>,
    },
    /// 10.
    NoCvd {
        cvd: Txt,
    },
    /// 11.
    CvdExists {
        cvd: Txt,
    },
    /// 12.
    NoVersion {
        vid: u64,
    },
    /// 13.
    RepeatedVersion {
        vid: u64,
    },
    /// 14. Rows are counted from 1.
    DuplicateKey {
        row: u64,
    },
    /// 15.
    TooManyVersions {
        cvd: Txt,
    },
    /// 16.
    TooManyRecords {
        cvd: Txt,
    },
    /// 17.
    BadThreshold,
    /// 18.
    Migrating {
        cvd: Txt,
    },
    /// 19.
    TooManyRows,
    /// 20.
    TooManyCvds,
    /// 21.
    NoThreshold {
        budget: u64,
        least: u64,
    },
    /// 22.
    NoNumbers {
        cvd: Txt,
    },
    /// 23. Row 0 stands for columns that were to be added.
    FormatOne {
        row: u64,
    },
    /// 31.
    BadHeader,
    /// 32.
    Width {
        row: u64,
        found: u64,
        columns: u64,
    },
    /// 33.
    BadField {
        row: u64,
        column: Txt,
        kind: Kind,
    },
    /// 34.
    NotText {
        row: u64,
    },
    /// 35.
    LongFile,
    /// 36.
    LongRow {
        row: u64,
    },
    /// 37.
    NullKey {
        row: u64,
        column: Txt,
    },
    /// 40. Bytes are counted from 0.
    BadByte {
        at: u64,
    },
    /// 41.
    NotAQuery,
    /// 42.
    UnknownColumn {
        name: Txt,
    },
    /// 43. Comparisons are counted from 1.
    TypeMismatch {
        nth: u64,
        left: Kind,
        right: Kind,
    },
    /// 44.
    NotGrouped {
        name: Txt,
    },
    /// 45.
    NeedsInt {
        name: Txt,
    },
    /// 46.
    TooManyJoined,
    /// 51.
    UnknownCommand,
    /// 52.
    Missing {
        what: Txt,
    },
    /// 53. The command is word 1.
    UnexpectedWord {
        nth: u64,
    },
    /// 54.
    BadNumber,
    /// 55.
    LongLine,
    /// 56. Columns are counted from 1.
    BadKind {
        column: u64,
    },
    /// 57.
    NotUtf8,
    /// 58.
    OpenQuote,
    /// 61.
    NoColumns,
    /// 62.
    TooManyColumns,
    /// 63.
    BadName {
        name: Txt,
    },
    /// 64.
    RepeatedName {
        name: Txt,
    },
    /// 65.
    NoKey,
    /// 66.
    UnknownKey {
        name: Txt,
    },
    /// 67.
    RepeatedKey {
        name: Txt,
    },
    /// 70.
    NoFile {
        name: Txt,
    },
    /// 71.
    Denied {
        rule: u64,
    },
    /// 72.
    NoUser {
        name: Txt,
    },
    /// 73.
    UserExists {
        name: Txt,
    },
    /// 74. A staged table is named with its user, `user.table`.
    NoTable {
        table: Txt,
    },
    /// 75.
    TableStaged {
        table: Txt,
    },
    /// 76.
    ForeignRegistry,
    /// 77.
    TooManyListed,
}
