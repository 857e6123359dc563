//! All whole records at the front of bytes, in one pass.

ghost use Rattle.std.specs.Prelude.{◌≡◌, IfOk};
ghost use Rattle.ov_segment.specs.Keeping.{Passes, Stops, TakesFrom};

use crate::keeping::{Front, Stop, front_at, put};
use crate::table::Table;
use ov_member::{Ahead, MembersDraft};
use ov_value::Schema;
use std::alloc::AllocError;

/// Where a pass over bytes stopped.
#[derive(Drop)]
pub(crate) struct Passed<'a, 'b> {
    pub stop: Stop,
    /// The rid of the last record.
    pub last: u32,
    /// What stands behind it.
    pub rest: &'a [u8],
    /// What is ahead of the wanted rids from it on.
    pub ahead: Ahead<'b>,
}

/// Passes all whole records at the front of the bytes, whose rids are above `before`, and appends those to the table whose
/// rids `ahead` says are wanted. The rids of all of them come behind those that came before.
///
/// One loop over what stands in memory: the frames of a call for each record took more than to look at it.
pub(crate) fn pass_all<'a, 'b>(
    schema: &Schema,
    before: u32,
    bytes: &'a [u8],
    ahead: &Ahead<'b>,
    rids: &mut MembersDraft,
    table: &mut Table,
) -> Result<Passed<'a, 'b>, AllocError>
    requires columns { table.old.columns ≡ schema.now.columns }
    requires rids { TakesFrom before rids.old }
    ensures passes { IfOk result (λ p. Passes schema.now before bytes.entry.now (record { inside = ahead.now.inside; edges = ahead.now.edges }) rids.old table.old
        p.last p.rest.now (record { inside = p.ahead.inside; edges = p.ahead.edges }) rids.new table.new) }
    ensures stops { IfOk result (λ p. Stops schema.now p.last p.rest.now p.stop) }
{
    let mut last = before;
    let mut rest = bytes;
    let mut walk = ahead.at(last);
    loop {
        match front_at(schema, last, rest) {
            Front::Record(rid, marked, row) => {
                walk.go_to(rid);
                put(table, walk.is_inside(), rid, marked, row)?;
                rids.push(rid)?;
                last = rid;
                rest = &rest[8 + row.len()..];
            }
            Front::More => {
                return Ok(Passed {
                    stop: Stop::More,
                    last,
                    rest,
                    ahead: walk,
                });
            }
            Front::Bad => {
                return Ok(Passed {
                    stop: Stop::Bad,
                    last,
                    rest,
                    ahead: walk,
                });
            }
        }
    }
}
