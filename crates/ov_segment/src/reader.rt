//! A reader of a segment whose bytes come in pieces.

ghost use Rattle.std.specs.Prelude.{◌≡◌, false, ◌-◌, ◌+◌, ◌++◌, ◌≤◌, if◌then◌else◌, IfOk, OnErr, length, min, take, drop, vec_len, vec_capacity};
ghost use Rattle.ov_segment.specs.Reading.{fresh, after_feed, Answers};
ghost use Rattle.ov_segment.specs.Keeping.{Passes, Stops, TakesFrom, is_bad};

use crate::at::record_at;
use crate::held::{Passed, pass_all};
use crate::keeping::Stop;
use crate::next::Next;
use crate::table::Table;
use ov_member::{Ahead, MembersDraft};
use ov_value::Schema;
use std::alloc::{AllocError, Global};
use std::marker::Model;

// The most bytes that a reader holds: more than a record has.
const MOST: usize = 131_072;

/// A reader of a segment whose bytes come in pieces. It holds at most 131,072 bytes. Contracts see the bytes
/// held, the rid of the last record given, or 0, and whether it has answered Bad.
#[derive(Drop)]
pub struct SegmentReader {
    buffer: Vec<u8>,
    start: usize,
    last: u32,
    over: bool,
}

impl Model for SegmentReader {
    ghost use Rattle.std.specs.Prelude.{◌≤◌, drop, vec_len, vec_capacity};
    ghost use Rattle.ov_segment.specs.Held.{Reader};

    ghost Value = { Reader };

    ghost view = { λ r. record { held = drop r.start r.buffer.items; last = r.last; over = r.over } };

    ghost invariant = { λ r. (r.start ≤ vec_len r.buffer) × (vec_len r.buffer ≤ 131072) × (131072 ≤ vec_capacity r.buffer) };
}

impl SegmentReader {
    /// A reader that holds nothing yet. It takes all its memory here, but for the records' rows.
    pub fn new(alloc: Global) -> Result<SegmentReader, AllocError>
        ensures { IfOk result (λ made. made ≡ fresh) }
    {
        Ok(SegmentReader {
            buffer: Vec::with_capacity(alloc, MOST)?,
            start: 0,
            last: 0,
            over: false,
        })
    }

    /// Goes to the front of another segment, with the memory that it has: it is as a new one.
    pub fn restart(&mut self)
        ensures { self.new ≡ fresh }
    {
        self.buffer.clear();
        self.start = 0;
        self.last = 0;
        self.over = false;
    }

    /// Takes bytes from the front of these, as many as there is room for, and answers how many; none after it
    /// has answered Bad.
    pub fn feed(&mut self, bytes: &[u8]) -> usize
        ensures taken { result ≡ (if self.old.over then 0 else min (length bytes.now) (131072 - length self.old.held)) }
        ensures held { self.new ≡ after_feed self.old (take result bytes.now) }
    {
        if self.over {
            return 0;
        }
        let taken = bytes.len().min(MOST - (self.buffer.len() - self.start));
        if self.buffer.len() + taken > MOST {
            drop_front(&mut self.buffer, self.start);
            self.start = 0;
        }
        append(&mut self.buffer, &bytes[..taken]);
        taken
    }

    /// The next record, or why there is none. After want of memory it is as before.
    pub fn next(&mut self, schema: &Schema) -> Result<Next, AllocError>
        ensures answer { IfOk result (λ next. Answers schema.now self.old next self.new) }
        ensures err { OnErr result (self.new ≡ self.old) }
    {
        if self.over {
            return Ok(Next::Bad);
        }
        let alloc = *self.buffer.allocator();
        let (next, len) = record_at(alloc, schema, self.last, &self.buffer[self.start..])?;
        match &next {
            Next::Record(one) => {
                self.last = one.rid;
                self.start += len;
            }
            Next::More => {}
            Next::Bad => self.over = true,
        }
        Ok(next)
    }

    /// Passes all whole records that are held, and appends those to the table whose rids `ahead` says are wanted; `ahead`
    /// then is what is ahead from the last rid on. The rids of all of them come behind those in `rids`. It takes memory in
    /// the table and for the rids alone. After want of memory the reader is as before, and the table and the rids may have
    /// some of the records.
    pub fn pass_held(
        &mut self,
        schema: &Schema,
        ahead: &mut Ahead<'_>,
        rids: &mut MembersDraft,
        table: &mut Table,
    ) -> Result<Stop, AllocError>
        requires open { self.old.over ≡ false }
        requires columns { table.old.columns ≡ schema.now.columns }
        requires rids { TakesFrom self.old.last rids.old }
        ensures passes { IfOk result (λ stop. Passes schema.now self.old.last self.old.held (record { inside = ahead.old.inside; edges = ahead.old.edges }) rids.old table.old
            self.new.last self.new.held (record { inside = ahead.new.inside; edges = ahead.new.edges }) rids.new table.new) }
        ensures stops { IfOk result (Stops schema.now self.new.last self.new.held) }
        ensures over { IfOk result (λ stop. self.new.over ≡ is_bad stop) }
        ensures err { OnErr result (self.new ≡ self.old) }
    {
        let bytes = &self.buffer[self.start..];
        let Passed {
            stop,
            last,
            rest,
            ahead: walk,
        } = pass_all(schema, self.last, bytes, ahead, rids, table)?;
        let start = self.buffer.len() - rest.len();
        *ahead = walk;
        self.start = start;
        self.last = last;
        self.over = stop == Stop::Bad;
        Ok(stop)
    }

    /// The number of bytes held.
    pub fn held(&self) -> usize
        ensures count { result ≡ length self.now.held }
        ensures most { result ≤ 131072 }
    {
        self.buffer.len() - self.start
    }
}

// Takes the first bytes off, without memory.
fn drop_front(buffer: &mut Vec<u8>, count: usize)
    requires { count ≤ vec_len buffer.old }
    ensures items { buffer.new.items ≡ drop count buffer.old.items }
    ensures capacity { vec_capacity buffer.new ≡ vec_capacity buffer.old }
{
    let len = buffer.len() - count;
    buffer.rotate_left(count);
    buffer.truncate(len);
}

// Appends bytes for which there is room, without memory.
fn append(buffer: &mut Vec<u8>, bytes: &[u8])
    requires { vec_len buffer.old + length bytes.now ≤ vec_capacity buffer.old }
    ensures items { buffer.new.items ≡ buffer.old.items ++ bytes.now }
    ensures capacity { vec_capacity buffer.old ≤ vec_capacity buffer.new }
{
    let added = buffer.extend_from_slice(bytes);
    prove!(added.is_ok());
}
