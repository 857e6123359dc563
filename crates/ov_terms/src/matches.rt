//! Rows of two scans, side by side.

ghost use Rattle.std.specs.Prelude.{◌≡◌, ◌++◌, IfOk, OnOk, length, slice_index_or};
ghost use Rattle.std.specs.List.{All};
ghost use Rattle.ov_model.specs.Answers.{row_cells};
ghost use Rattle.ov_value.specs.Cells.{value_of};
ghost use Rattle.ov_value.specs.declared.value.Value.TheVariants.{Null};
ghost use Rattle.ov_terms.specs.Standing.{AreWide, Stands, joined_rows, row_in};

use crate::seen::push_cells;
use ov_model::{Cell, Seq};
use ov_segment::RecordTable;
use ov_value::CellRef;
use std::alloc::{AllocError, Global};
use std::marker::Model;

/// The positions of a left record and of a right one.
#[derive(Clone, Copy, PartialEq, Eq)]
pub struct Match {
    pub left: usize,
    pub right: usize,
}

/// Rows that are a left record's and then a right one's, whose values are read where they lie. Contracts see the list of them.
#[derive(Drop)]
pub struct SideBySide<'a> {
    left: &'a RecordTable,
    right: &'a RecordTable,
    // How many values a left record has.
    width: usize,
    matches: &'a [Match],
}

impl<'a> Model for SideBySide<'a> {
    ghost use Rattle.std.specs.Prelude.{List};
    ghost use Rattle.std.specs.List.{All};
    ghost use Rattle.ov_model.specs.Book.{Row};
    ghost use Rattle.ov_terms.specs.Standing.{AreWide, Stands, joined_rows};

    ghost Value = { List Row };

    ghost view = { λ s. joined_rows s.left.now s.right.now s.matches.now };

    ghost invariant = { λ s. AreWide s.width s.left.now × All (Stands s.left.now s.right.now) s.matches.now };
}

impl<'a> SideBySide<'a> {
    /// The rows of these matches, where each left record has `width` values.
    pub fn of(
        left: &'a RecordTable,
        right: &'a RecordTable,
        width: usize,
        matches: &'a [Match],
    ) -> SideBySide<'a>
        requires wide { AreWide width left.now }
        requires stand { All (Stands left.now right.now) matches.now }
        ensures { result ≡ joined_rows left.now right.now matches.now }
    {
        SideBySide {
            left,
            right,
            width,
            matches,
        }
    }

    /// How many rows there are.
    pub(crate) fn len(&self) -> usize
        ensures { result ≡ length self.now }
    {
        self.matches.len()
    }

    /// The value at a position of a row; NULL where there is none.
    // (kept out of the loops over the rows of one scan, which are longer and slower with it)
    #[cold]
    #[inline(never)]
    pub(crate) fn cell(&self, at: usize, place: usize) -> CellRef<'a>
        ensures { value_of result ≡ slice_index_or (row_in self.now at) place Null }
    {
        if at >= self.matches.len() {
            return CellRef::Null;
        }
        let found = self.matches[at];
        if place < self.width {
            self.left.row(found.left).at(place)
        } else {
            self.right.row(found.right).at(place - self.width)
        }
    }

    /// The values of a row; none where it isn't there.
    pub(crate) fn cells(&self, alloc: Global, at: usize) -> Result<Seq<Cell>, AllocError>
        ensures { IfOk result (λ cells. cells ≡ row_cells (row_in self.now at)) }
    {
        if at >= self.matches.len() {
            return Ok(Seq::new(alloc));
        }
        let found = self.matches[at];
        let mut cells = Vec::new(alloc);
        push_cells(alloc, self.left.row(found.left).cells(), &mut cells)?;
        push_cells(alloc, self.right.row(found.right).cells(), &mut cells)?;
        Ok(Seq::from_vec(cells))
    }
}
