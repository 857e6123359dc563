//! Rows, and what a term is over a group of spots among them.

ghost use Rattle.std.specs.Prelude.{◌≡◌, IfOk, length, slice_index_or};
ghost use Rattle.ov_fetch.specs.Scans.{row_at, rows_of};
ghost use Rattle.ov_model.specs.Answers.{row_cells};
ghost use Rattle.ov_value.specs.Cells.{value_of};
ghost use Rattle.ov_value.specs.declared.value.Value.TheVariants.{Null};
ghost use Rattle.ov_model.specs.declared.answer.Cell.TheVariants as cell;
ghost use Rattle.ov_terms.specs.Finding.{first_value, found_term, value_at};
ghost use Rattle.ov_terms.specs.Seeing.{cell_of};
ghost use Rattle.ov_terms.specs.Standing.{pair_at, pairs_at, row_in};

use crate::found_term::FoundTerm;
use crate::lookup::Lookup;
use crate::matches::SideBySide;
use crate::seen::{Seen, push_cells};
use crate::spot::Spot;
use ov_model::{Cell, Seq};
use ov_segment::RecordTable;
use ov_value::CellRef;
use std::alloc::{AllocError, Global};
use std::marker::Model;

/// Where the rows of a table lie.
#[derive(Drop)]
enum Source<'a> {
    /// Among the records of a scan.
    One(&'a RecordTable),
    /// Among those of two, side by side.
    Two(&'a SideBySide<'a>),
}

/// Rows whose values are read where they lie. Contracts see the list of them.
#[derive(Drop)]
pub struct Table<'a> {
    source: Source<'a>,
}

impl<'a> Model for Table<'a> {
    ghost use Rattle.std.specs.Prelude.{List};
    ghost use Rattle.ov_model.specs.Book.{Row};
    ghost use Rattle.ov_terms.specs.Sources.{rows_in};

    ghost Value = { List Row };

    ghost view = { λ t. rows_in t.source };
}

impl<'a> Table<'a> {
    /// The rows of records.
    pub fn of(records: &'a RecordTable) -> Table<'a>
        ensures { result ≡ rows_of records.now }
    {
        Table {
            source: Source::One(records),
        }
    }

    /// The rows of two scans, side by side.
    pub fn of_two(rows: &'a SideBySide<'a>) -> Table<'a>
        ensures { result ≡ rows.now }
    {
        Table {
            source: Source::Two(rows),
        }
    }

    /// How many rows there are.
    pub(crate) fn len(&self) -> usize
        ensures { result ≡ length self.now }
    {
        match &self.source {
            Source::One(records) => records.len(),
            Source::Two(rows) => rows.len(),
        }
    }

    /// The value of a column at a spot; NULL where there is none.
    pub fn value_at(&self, spot: Spot, found: Lookup) -> Seen<'a>
        ensures { cell_of result ≡ cell.Value (value_at found (pair_at self.now spot)) }
    {
        match found {
            Lookup::Vid => Seen::Cell(CellRef::Int(i64::from(spot.vid))),
            Lookup::Column(place) => Seen::Cell(self.cell(spot.place, place)),
            Lookup::Nowhere => Seen::Cell(CellRef::Null),
        }
    }

    // The value at a position of a row; NULL where there is none.
    fn cell(&self, at: usize, place: usize) -> CellRef<'a>
        ensures { value_of result ≡ slice_index_or (row_in self.now at) place Null }
    {
        match &self.source {
            Source::One(records) => cell_in(*records, at, place),
            Source::Two(rows) => rows.cell(at, place),
        }
    }

    /// The values of a row; none where it isn't there.
    pub(crate) fn cells(&self, alloc: Global, at: usize) -> Result<Seq<Cell>, AllocError>
        ensures { IfOk result (λ cells. cells ≡ row_cells (row_in self.now at)) }
    {
        match &self.source {
            Source::One(records) => cells_in(alloc, *records, at),
            Source::Two(rows) => rows.cells(alloc, at),
        }
    }

    // The value of a group's column, which is the same at each of its spots.
    fn first_value(&self, group: &[Spot], found: Lookup) -> Seen<'a>
        ensures { cell_of result ≡ first_value (pairs_at self.now group.now) found }
    {
        match group {
            [] => Seen::Nothing,
            [spot, ..] => self.value_at(*spot, found),
        }
    }

    /// What a term is over a group.
    pub fn term(&self, group: &[Spot], term: FoundTerm) -> Seen<'a>
        ensures { cell_of result ≡ found_term (pairs_at self.now group.now) term }
    {
        match term {
            FoundTerm::Plain(found) => self.first_value(group, found),
            FoundTerm::CountAll => Seen::Sum(group.len() as i128),
            FoundTerm::Count(found) => Seen::Sum(self.count(group, found) as i128),
            FoundTerm::Sum(found) => self.sum(group, found),
            FoundTerm::Min(found) => self.least(group, found),
            FoundTerm::Max(found) => self.greatest(group, found),
        }
    }
}

// The value at a position of a record; NULL where there is none.
#[inline(always)]
fn cell_in<'a>(records: &'a RecordTable, at: usize, place: usize) -> CellRef<'a>
    ensures { value_of result ≡ slice_index_or (row_at records.now at) place Null }
{
    if at < records.len() {
        records.row(at).at(place)
    } else {
        CellRef::Null
    }
}

// The values of a record; none where it isn't there.
fn cells_in(alloc: Global, records: &RecordTable, at: usize) -> Result<Seq<Cell>, AllocError>
    ensures { IfOk result (λ cells. cells ≡ row_cells (row_at records.now at)) }
{
    if at >= records.len() {
        return Ok(Seq::new(alloc));
    }
    let mut cells = Vec::new(alloc);
    push_cells(alloc, records.row(at).cells(), &mut cells)?;
    Ok(Seq::from_vec(cells))
}
