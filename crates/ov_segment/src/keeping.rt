//! From a segment in pieces to a table of the records that are wanted.

ghost use Rattle.std.specs.Prelude.{◌≡◌, OnOk, OnErr};
ghost use Rattle.ov_value.specs.Decoding.{row_of, AreRow};
ghost use Rattle.ov_segment.specs.Fronts.{ReadsFront};
ghost use Rattle.ov_segment.specs.Keeping.{put as put_into};

use crate::at::{GREATEST, LONGEST, MARK, number_of, rid_of};
use crate::table::Table;
use ov_value::{Schema, spells_row};
use std::alloc::AllocError;

/// Why a pass over the records that a reader holds came to its end.
#[derive(Clone, Copy, PartialEq, Eq)]
pub enum Stop {
    /// The bytes that are left are less than a whole record.
    More,
    /// The bytes that are left begin as no segment does that goes on from the records passed.
    Bad,
}

/// What stands in front of bytes: a record's rid, whether its row's bytes begin with marks, and these bytes.
pub(crate) enum Front<'a> {
    Record(u32, bool, &'a [u8]),
    More,
    Bad,
}

/// The record at the front of the bytes, whose rid is above the last one. It takes no memory.
pub(crate) fn front_at<'a>(schema: &Schema, last: u32, bytes: &'a [u8]) -> Front<'a>
    ensures { ReadsFront schema.now last bytes.now result }
{
    if bytes.len() < 8 {
        return Front::More;
    }
    let rid = rid_of(bytes);
    let number = number_of(bytes);
    let len = number % MARK;
    if rid <= last || rid > GREATEST || len > LONGEST {
        return Front::Bad;
    }
    let end = 8 + len as usize;
    if bytes.len() < end {
        return Front::More;
    }
    let row = &bytes[8..end];
    if spells_row(schema, number >= MARK, row) {
        Front::Record(rid, number >= MARK, row)
    } else {
        Front::Bad
    }
}

/// Appends the record where it is wanted.
pub(crate) fn put(
    table: &mut Table,
    wanted: bool,
    rid: u32,
    marked: bool,
    row: &[u8],
) -> Result<(), AllocError>
    requires { AreRow table.old.columns marked row.now }
    ensures ok { OnOk result (table.new ≡ put_into wanted table.old (record { rid = rid; row = row_of table.old.columns marked row.now })) }
    ensures err { OnErr result (table.new ≡ table.old) }
{
    if wanted {
        table.push(rid, marked, row)
    } else {
        Ok(())
    }
}
