//! Records in one buffer.

ghost use Rattle.std.specs.Prelude.{◌≡◌, ◌==◌, ◌<◌, ◌≤◌, ◌+◌, ◌++◌, ◌^◌, List, [], length, map, IfOk, OnOk, OnErr, slice_index_or};
ghost use Rattle.std.specs.List.{All, dedup};
ghost use Rattle.std.specs.List.Sorted.{IsPermutation, IsNonDecreasingBy, IsStableByKey};
ghost use Rattle.std.specs.Ordering.{nat_cmp};
ghost use Rattle.ov_value.specs.Spelling.{IsRow};
ghost use Rattle.ov_value.specs.Decoding.{row_of, AreRow};
ghost use Rattle.ov_value.specs.declared.value.Value.{Value as RowValue};
ghost use Rattle.ov_segment.specs.Drafts.{IsWhole};
ghost use Rattle.ov_segment.specs.declared.numbered.Record.{Record as RecordValue};
ghost use Rattle.ov_segment.specs.Tables.{joined, longer, moved_by, places_in, pushed};

use crate::draft::RowDraft;
use crate::place::Place;
use crate::row_ref::RowRef;
use ov_value::{Column, Row, Schema, append_row};
use std::alloc::{AllocError, Global};
use std::marker::Model;

/// Records of one schema, whose rows stay bytes in one buffer. Contracts see the schema's columns and the list of the
/// records. Rows are read from the bytes where one is looked at, and no row has memory of its own.
#[derive(Drop)]
pub struct Table {
    columns: Vec<Column>,
    bytes: Vec<u8>,
    places: Vec<Place>,
}

impl Model for Table {
    ghost use Rattle.ov_segment.specs.Tables.{Content, records_at, AreAt};

    ghost Value = { Content };

    ghost view = { λ t. record { columns = t.columns.items; records = records_at t.columns.items t.bytes.items t.places.items } };

    ghost invariant = { λ t. AreAt t.columns.items t.bytes.items t.places.items };
}

impl Table {
    /// A table without a record. It takes memory for the columns alone.
    pub fn new(alloc: Global, schema: &Schema) -> Result<Table, AllocError>
        ensures columns { IfOk result (λ made. made.columns ≡ schema.now.columns) }
        ensures records { IfOk result (λ made. made.records ≡ []) }
    {
        let columns = copies_of(alloc, schema.columns())?;
        Ok(Table {
            columns,
            bytes: Vec::new(alloc),
            places: Vec::new(alloc),
        })
    }

    /// The same, with room for the places of so many records.
    pub fn with_room(alloc: Global, schema: &Schema, records: usize) -> Result<Table, AllocError>
        ensures columns { IfOk result (λ made. made.columns ≡ schema.now.columns) }
        ensures records { IfOk result (λ made. made.records ≡ []) }
    {
        let columns = copies_of(alloc, schema.columns())?;
        Ok(Table {
            columns,
            bytes: Vec::new(alloc),
            places: Vec::with_capacity(alloc, records)?,
        })
    }

    /// A table without a record, with the columns of this one.
    pub fn like(&self, alloc: Global) -> Result<Table, AllocError>
        ensures columns { IfOk result (λ made. made.columns ≡ self.now.columns) }
        ensures records { IfOk result (λ made. made.records ≡ []) }
    {
        Ok(Table {
            columns: copies_of(alloc, &self.columns)?,
            bytes: Vec::new(alloc),
            places: Vec::new(alloc),
        })
    }

    /// How many records there are.
    pub fn len(&self) -> usize
        ensures count { result ≡ length self.now.records }
        ensures small { result < 2 ^ 63 }
    {
        self.places.len()
    }

    /// Appends a record whose row has these bytes, which begin with marks or not. They are copied.
    pub fn push(&mut self, rid: u32, marked: bool, bytes: &[u8]) -> Result<(), AllocError>
        requires { AreRow self.old.columns marked bytes.now }
        ensures ok { OnOk result (self.new ≡ pushed self.old (record { rid = rid; row = row_of self.old.columns marked bytes.now })) }
        ensures err { OnErr result (self.new ≡ self.old) }
    {
        let start = self.bytes.len();
        self.bytes.extend_from_slice(bytes)?;
        let end = self.bytes.len();
        let place = Place {
            start,
            end,
            rid,
            marked,
        };
        match self.places.push(place) {
            Ok(()) => {}
            Err(_) => return Err(AllocError),
        }
        Ok(())
    }

    /// Appends a record with this row. Its bytes are made here.
    pub fn push_row(&mut self, schema: &Schema, rid: u32, row: &Row) -> Result<(), AllocError>
        requires columns { self.old.columns ≡ schema.now.columns }
        requires row { IsRow schema.now row.now }
        ensures ok { OnOk result (self.new ≡ pushed self.old (record { rid = rid; row = row.now })) }
        ensures err { OnErr result (self.new ≡ self.old) }
    {
        let start = self.bytes.len();
        let marked = match append_row(&mut self.bytes, schema, row) {
            Ok(marked) => marked,
            Err(_) => return Err(AllocError),
        };
        let end = self.bytes.len();
        let place = Place {
            start,
            end,
            rid,
            marked,
        };
        match self.places.push(place) {
            Ok(()) => {}
            Err(_) => return Err(AllocError),
        }
        Ok(())
    }

    /// Appends a record with the row that a draft has. Its bytes are copied.
    pub fn push_draft(
        &mut self,
        schema: &Schema,
        rid: u32,
        draft: &RowDraft,
    ) -> Result<(), AllocError>
        requires columns { self.old.columns ≡ schema.now.columns }
        requires row { (row : List RowValue) × IsWhole draft.now row × IsRow schema.now row }
        ensures ok { (row : List RowValue) → IsWhole draft.now row → IsRow schema.now row → OnOk result (self.new ≡ pushed self.old (record { rid = rid; row = row })) }
        ensures err { OnErr result (self.new ≡ self.old) }
    {
        let _columns = schema.columns();
        let start = self.bytes.len();
        let marked = match draft.append_to(&mut self.bytes) {
            Ok(marked) => marked,
            Err(_) => return Err(AllocError),
        };
        let end = self.bytes.len();
        let place = Place {
            start,
            end,
            rid,
            marked,
        };
        match self.places.push(place) {
            Ok(()) => {}
            Err(_) => return Err(AllocError),
        }
        Ok(())
    }

    /// Appends the record at a position of another table with the same columns. Its bytes are copied, and not read.
    pub fn copy_from(&mut self, other: &Table, i: usize) -> Result<(), AllocError>
        requires columns { self.old.columns ≡ other.now.columns }
        requires there { i < length other.now.records }
        ensures ok { (none : RecordValue) → OnOk result (self.new ≡ pushed self.old (slice_index_or other.now.records i none)) }
        ensures err { OnErr result (self.new ≡ self.old) }
    {
        let place = other.places[i];
        self.push(
            place.rid,
            place.marked,
            &other.bytes[place.start..place.end],
        )
    }

    /// Puts the records into the order of their rids. Those of one rid keep their order. It takes memory for the places
    /// alone; where memory is wanting, the records stay as they are.
    pub fn sort_by_rid(&mut self) -> Result<(), AllocError>
        ensures columns { self.new.columns ≡ self.old.columns }
        ensures permutation { IsPermutation self.old.records self.new.records }
        ensures sorted { OnOk result (IsNonDecreasingBy (λ r. r.rid) self.new.records) }
        ensures stable { OnOk result (IsStableByKey (λ r. r.rid) nat_cmp self.old.records self.new.records) }
        ensures err { OnErr result (self.new ≡ self.old) }
    {
        sort_places(&mut self.places)?;
        Ok(())
    }

    /// The rid of the record at a position, counted from 0.
    pub fn rid(&self, i: usize) -> u32
        requires { i < length self.now.records }
        ensures { (none : RecordValue) → result ≡ (slice_index_or self.now.records i none).rid }
    {
        self.places[i].rid
    }

    /// The row at a position, where its bytes lie.
    pub fn row(&self, i: usize) -> RowRef<'_>
        requires { i < length self.now.records }
        ensures { (none : RecordValue) → result ≡ (slice_index_or self.now.records i none).row }
    {
        let place = self.places[i];
        RowRef::new(
            &self.columns,
            place.marked,
            &self.bytes[place.start..place.end],
        )
    }

    /// Appends all records of another table with the same columns, in their order. The bytes are copied at once, and not read.
    pub fn append(&mut self, other: &Table) -> Result<(), AllocError>
        requires { self.old.columns ≡ other.now.columns }
        ensures ok { OnOk result (self.new ≡ joined self.old other.now) }
        ensures err { OnErr result (self.new ≡ self.old) }
    {
        let base = self.bytes.len();
        match self.bytes.extend_from_slice(&other.bytes) {
            Ok(()) => {}
            Err(_) => return Err(AllocError),
        }
        let moved = match moved_places(*self.places.allocator(), &other.places, base) {
            Ok(moved) => moved,
            Err(_) => return Err(AllocError),
        };
        match self.places.extend_from_slice(&moved) {
            Ok(()) => Ok(()),
            Err(_) => Err(AllocError),
        }
    }

    /// The records at these positions, in this order. No row's bytes are copied; it takes memory for the places alone.
    pub fn at(self, order: &[usize]) -> Result<Table, AllocError>
        requires { All (λ i. i < length self.records) order.now }
        ensures columns { IfOk result (λ made. made.columns ≡ self.columns) }
        ensures records { (none : RecordValue) → IfOk result (λ made. made.records ≡ map (λ i. slice_index_or self.records i none) order.now) }
    {
        let Table {
            columns,
            bytes,
            places,
        } = self;
        let places = places_at(*places.allocator(), &places, order)?;
        Ok(Table {
            columns,
            bytes,
            places,
        })
    }

    /// The same records with columns more, which are NULL in each row. A row's bytes don't depend on NULLs at its end, so it
    /// takes time and memory for the columns alone.
    pub fn widened(self, alloc: Global, added: &[Column]) -> Result<Table, AllocError>
        requires { All (λ r. length r.row + length added.now ≤ 64) self.records }
        ensures { IfOk result (λ made. made.records ≡ map (longer (length added.now)) self.records) }
    {
        // Without a record nothing says how many columns there are.
        if self.places.is_empty() {
            return Ok(self);
        }
        let Table {
            columns,
            bytes,
            places,
        } = self;
        let columns = both_of(alloc, &columns, added)?;
        Ok(Table {
            columns,
            bytes,
            places,
        })
    }

    /// Of successive records with one rid the first stays.
    pub fn drop_repeats(&mut self)
        ensures columns { self.new.columns ≡ self.old.columns }
        ensures records { self.new.records ≡ dedup (λ x k. x.rid == k.rid) self.old.records }
    {
        drop_repeated(&mut self.places);
    }
}

fn sort_places(places: &mut Vec<Place>) -> Result<(), AllocError>
    ensures permutation { IsPermutation places.old.items places.new.items }
    ensures sorted { OnOk result (IsNonDecreasingBy (λ p. p.rid) places.new.items) }
    ensures stable { OnOk result (IsStableByKey (λ p. p.rid) nat_cmp places.old.items places.new.items) }
    ensures err { OnErr result (places.new.items ≡ places.old.items) }
{
    places.sort_by_key(|place| place.rid)?;
    Ok(())
}

fn copies_of(alloc: Global, columns: &[Column]) -> Result<Vec<Column>, AllocError>
    ensures { IfOk result (λ copies. copies.items ≡ columns.now) }
{
    let mut copies = Vec::with_capacity(alloc, columns.len())?;
    for column in columns {
        copies.push(column.copy(alloc)?)?;
    }
    Ok(copies)
}

fn both_of(alloc: Global, columns: &[Column], added: &[Column]) -> Result<Vec<Column>, AllocError>
    ensures { IfOk result (λ all. all.items ≡ columns.now ++ added.now) }
{
    let mut all = copies_of(alloc, columns)?;
    for column in added {
        all.push(column.copy(alloc)?)?;
    }
    Ok(all)
}

fn drop_repeated(places: &mut Vec<Place>)
    ensures { places.new.items ≡ dedup (λ x k. x.rid == k.rid) places.old.items }
{
    let same = |a: &mut Place, b: &mut Place| -> bool
        ensures { (result ≡ (a.entry.now.rid == b.entry.now.rid)) × ((a.exit.now ≡ a.entry.now) × (b.exit.now ≡ b.entry.now)) }
    { a.rid == b.rid };
    places.dedup_by(same);
}

// The places behind so many bytes more.
fn moved_places(alloc: Global, places: &[Place], base: usize) -> Result<Vec<Place>, AllocError>
    requires { All (λ p. (p.start ≤ p.end) × (base + p.end < 2 ^ 64)) places.now }
    ensures { IfOk result (λ moved. moved.items ≡ map (moved_by base) places.now) }
{
    let mut moved = Vec::with_capacity(alloc, places.len())?;
    for place in places {
        moved.push(Place {
            start: base + place.start,
            end: base + place.end,
            rid: place.rid,
            marked: place.marked,
        })?;
    }
    Ok(moved)
}

// The places at these positions.
fn places_at(alloc: Global, places: &[Place], order: &[usize]) -> Result<Vec<Place>, AllocError>
    requires { All (λ i. i < length places.now) order.now }
    ensures { IfOk result (λ found. found.items ≡ places_in places.now order.now) }
{
    let mut found = Vec::with_capacity(alloc, order.len())?;
    for i in order {
        found.push(places[*i])?;
    }
    Ok(found)
}
