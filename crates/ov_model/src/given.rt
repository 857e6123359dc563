//! What a word of a line gives, and how it is read.

use ov_value::{Column, Txt};
use sqlite_items::Items as Seq;

/// What a word gives.
#[derive(Drop)]
pub enum Given {
    /// A text as it stands.
    Text(Txt),
    /// A number of up to 18 digits.
    Number(u64),
    /// A number below 2^32.
    Count(u32),
    /// The number of the word before it, and its own.
    Both(u32, u32),
    /// Numbers in order, at least one.
    Vids(Seq<u64>),
    /// Two numbers, the one over the other.
    Ratio(u64, u64),
    /// Texts in order.
    Names(Seq<Txt>),
    /// Columns in order.
    Columns(Seq<Column>),
    /// A user and a table of theirs.
    Table(Txt, Txt),
}

/// How a word is read.
#[derive(Clone, Copy)]
pub enum Reading {
    /// As it is.
    AnyText,
    /// A text of 1 to 255 bytes.
    FileName,
    /// A text of up to 1,024 bytes.
    Message,
    /// A number from the least to the greatest.
    NumberFrom { least: u64, most: u64 },
    /// A number up to the greatest.
    CountTo { most: u32 },
    /// A number from 1 to the greatest of its own, which with the number before it is at most the greatest of both.
    NumberWith { each: u32, most: u32 },
    /// Numbers joined by commas.
    ListOfVids,
    /// Two numbers joined by `/`.
    TwoNumbers,
    /// Texts joined by commas; of an empty word none.
    ListOfNames,
    /// Items `name:kind` joined by commas; of an empty word none.
    SchemaItems,
    /// `user.table`, split at the first dot.
    StagedTable,
}
