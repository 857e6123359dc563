//! A side of a join: its rows, and where the columns of ON are found in them.

ghost use Rattle.std.specs.Prelude.{◌≡◌, IfOk, length, map};
ghost use Rattle.std.specs.List.{list_any};
ghost use Rattle.ov_fetch.specs.Scans.{rows_of};
ghost use Rattle.ov_model.specs.Answers.{Pair, is_null_cell, sorted_by, value_in};
ghost use Rattle.ov_model.specs.declared.query.Col.TheVariants.{Name};
ghost use Rattle.ov_model.specs.declared.answer.Cell.TheVariants as cell;
ghost use Rattle.ov_terms.specs.Finding.{value_at};
ghost use Rattle.ov_terms.specs.Standing.{pair_at, spots_in};
ghost use Rattle.ov_qrun.specs.Keys.{key_in, spot_order};
ghost use Rattle.ov_join.specs.Meeting.{left_key, places_of, right_key};

use crate::fitting::TypedJoin;
use ov_fetch::Scan;
use ov_model::Col;
use ov_qrun::sort_spots;
use ov_terms::{Lookup, Spot, Table};
use ov_typing::Shape;
use ov_value::Txt;
use std::alloc::{AllocError, Global};

/// The rows of a side, where the columns of ON are found in them, and the positions of the version's rows, in key order.
#[derive(Drop)]
pub(crate) struct Side<'a> {
    pub(crate) table: Table<'a>,
    pub(crate) cols: Vec<Lookup>,
    pub(crate) places: &'a [usize],
}

// Where a column is found.
fn lookup(alloc: Global, shape: &Shape<'_>, name: &Txt) -> Result<Lookup, AllocError>
    ensures { (pair : Pair) → IfOk result (λ found. value_at found pair ≡ value_in shape.now pair (Name name.now)) }
{
    let col = Col::Name(name.copy(alloc)?);
    Ok(Lookup::of(shape, &col))
}

fn left_cols(alloc: Global, shape: &Shape<'_>, on: &[(Txt, Txt)]) -> Result<Vec<Lookup>, AllocError>
    ensures { (pair : Pair) → IfOk result (λ found. key_in found.items pair ≡ left_key shape.now on.now pair) }
{
    let mut found = Vec::with_capacity(alloc, on.len())?;
    for names in on {
        found.push(lookup(alloc, shape, &names.0)?)?;
    }
    Ok(found)
}

fn right_cols(
    alloc: Global,
    shape: &Shape<'_>,
    on: &[(Txt, Txt)],
) -> Result<Vec<Lookup>, AllocError>
    ensures { (pair : Pair) → IfOk result (λ found. key_in found.items pair ≡ right_key shape.now on.now pair) }
{
    let mut found = Vec::with_capacity(alloc, on.len())?;
    for names in on {
        found.push(lookup(alloc, shape, &names.1)?)?;
    }
    Ok(found)
}

impl<'a> Side<'a> {
    /// The left side.
    pub(crate) fn left(
        alloc: Global,
        typed: &TypedJoin<'_>,
        scan: &'a Scan,
    ) -> Result<Side<'a>, AllocError>
        requires { length scan.now.picks ≡ 1 }
        ensures rows { IfOk result (λ side. side.table ≡ rows_of scan.now.records) }
        ensures cols { (pair : Pair) → IfOk result (λ side. key_in side.cols.items pair ≡ left_key typed.now.left typed.now.join.on pair) }
        ensures places { IfOk result (λ side. side.places.now ≡ places_of scan.now) }
    {
        let cols = left_cols(alloc, &Shape::of(typed.left), typed.join.on.as_slice())?;
        Ok(Side {
            table: Table::of(&scan.records),
            cols,
            places: scan.picks.as_slice()[0].as_slice(),
        })
    }

    /// The right side.
    pub(crate) fn right(
        alloc: Global,
        typed: &TypedJoin<'_>,
        scan: &'a Scan,
    ) -> Result<Side<'a>, AllocError>
        requires { length scan.now.picks ≡ 1 }
        ensures rows { IfOk result (λ side. side.table ≡ rows_of scan.now.records) }
        ensures cols { (pair : Pair) → IfOk result (λ side. key_in side.cols.items pair ≡ right_key typed.now.right typed.now.join.on pair) }
        ensures places { IfOk result (λ side. side.places.now ≡ places_of scan.now) }
    {
        let cols = right_cols(alloc, &Shape::of(typed.right), typed.join.on.as_slice())?;
        Ok(Side {
            table: Table::of(&scan.records),
            cols,
            places: scan.picks.as_slice()[0].as_slice(),
        })
    }

    // The spots of the version's rows.
    fn spots(&self, alloc: Global) -> Result<Vec<Spot>, AllocError>
        ensures { IfOk result (λ made. made.items ≡ spots_in 0 self.now.places.now) }
    {
        let mut made = Vec::with_capacity(alloc, self.places.len())?;
        for place in self.places {
            made.push(Spot {
                vid: 0,
                place: *place,
            })?;
        }
        Ok(made)
    }

    /// The version's rows, sorted by their values in the columns of ON. Rows with the same ones keep their order.
    pub(crate) fn sorted(&self, alloc: Global) -> Result<Vec<Spot>, AllocError>
        ensures { IfOk result (λ made. made.items ≡ sorted_by (spot_order self.now.table self.now.cols.items) (spots_in 0 self.now.places.now)) }
    {
        let mut made = self.spots(alloc)?;
        sort_spots(&self.table, self.cols.as_slice(), &mut made)?;
        Ok(made)
    }

    /// Whether a row has NULL in a column of ON.
    pub(crate) fn has_null(&self, spot: Spot) -> bool
        ensures { result ≡ list_any (λ found. is_null_cell (cell.Value (value_at found (pair_at self.now.table spot)))) self.now.cols.items }
    {
        self.cols
            .iter()
            .any(|found| self.table.value_at(spot, *found).is_null())
    }
}
