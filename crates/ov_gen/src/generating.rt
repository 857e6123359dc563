//! The generator.

ghost use Rattle.std.specs.Prelude.{◌≡◌, ◌≤◌, ◌+◌, ◌-◌, ◌/◌, ℕ, IfOk, OnErr};
ghost use Rattle.std.specs.List.{All};
ghost use Rattle.std.specs.List.Sorted.{IsStrictlySortedBy};
ghost use Rattle.ov_value.specs.Rows.{key_cmp};
ghost use Rattle.ov_value.specs.Spelling.{IsRow};
ghost use Rattle.ov_model.specs.Generator.{changes, child_of, fresh_rows as fresh_rows_of, generated_schema, parent_drawn};
ghost use Rattle.ov_gen.specs.Versions.{Begin, IsGrown, IsShort};

use crate::drawing::{draw, draw_parent};
use crate::rows::{fresh_row, fresh_rows, renumber};
use ov_value::Row;
use std::alloc::{AllocError, Global};
use std::marker::Model;

/// A generator: what the next number is drawn from, and the number of rows of the first version.
#[derive(Drop)]
pub struct Gen {
    state: u64,
    rows: u32,
}

impl Model for Gen {
    ghost use Rattle.std.specs.Prelude.{◌≤◌};
    ghost use Rattle.ov_gen.specs.Versions.{Source};

    ghost Value = { Source };

    ghost view = { λ g. record { state = g.state; rows = g.rows } };

    ghost invariant = { λ g. 1 ≤ g.rows };
}

impl Gen {
    /// The generator of datasets whose first version has so many rows.
    pub fn new(seed: u64, rows: u32) -> Gen
        requires some { 1 ≤ rows }
        ensures state { result.state ≡ seed }
        ensures rows { result.rows ≡ rows }
    {
        Gen { state: seed, rows }
    }

    /// The rows of version 1.
    pub fn first(&mut self, alloc: Global) -> Result<Vec<Row>, AllocError>
        ensures rows { IfOk result (λ made. made.items ≡ (fresh_rows_of self.old.rows 1 self.old.state).is) }
        ensures state { IfOk result (λ _. self.new ≡ record { state = (fresh_rows_of self.old.rows 1 self.old.state).state; rows = self.old.rows }) }
        ensures unchanged { OnErr result (self.new ≡ self.old) }
        ensures grown { IfOk result (λ made. IsGrown self.old.rows 2 made.items) }
        ensures fit { IfOk result (λ made. All (IsRow generated_schema) made.items) }
        ensures short { IfOk result (λ made. All IsShort made.items) }
        ensures ordered { IfOk result (λ made. IsStrictlySortedBy (key_cmp generated_schema) made.items) }
    {
        let mut state = self.state;
        let rows = fresh_rows(alloc, &mut state, self.rows)?;
        self.state = state;
        Ok(rows)
    }

    /// The parent of the version with this number, drawn before its rows are.
    pub fn parent(&mut self, vid: u32) -> u32
        requires later { 2 ≤ vid }
        ensures drawn { result ≡ (parent_drawn (vid - 1) self.old.state).is }
        ensures state { self.new ≡ record { state = (parent_drawn (vid - 1) self.old.state).state; rows = self.old.rows } }
        ensures least { 1 ≤ result }
        ensures greatest { result ≤ vid - 1 }
    {
        draw_parent(&mut self.state, vid - 1)
    }

    /// The rows of the version with this number, made of its parent's in place.
    pub fn child(
        &mut self,
        alloc: Global,
        vid: u32,
        parent: Vec<Row>,
    ) -> Result<Vec<Row>, AllocError>
        requires later { 2 ≤ vid }
        requires parent { IsGrown self.old.rows vid parent.items }
        ensures rows { IfOk result (λ made. made.items ≡ (child_of self.old.rows vid self.old.state parent.items).is) }
        ensures state { IfOk result (λ _. self.new ≡ record { state = (child_of self.old.rows vid self.old.state parent.items).state; rows = self.old.rows }) }
        ensures unchanged { OnErr result (self.new ≡ self.old) }
        ensures grown { IfOk result (λ made. IsGrown self.old.rows (vid + 1) made.items) }
        ensures fit { IfOk result (λ made. All (IsRow generated_schema) made.items) }
        ensures short { IfOk result (λ made. All IsShort made.items) }
        ensures ordered { IfOk result (λ made. IsStrictlySortedBy (key_cmp generated_schema) made.items) }
    {
        let mut rows = parent;
        let mut state = self.state;
        change_rows(alloc, &mut state, self.rows, &mut rows);
        let id = u64::from(self.rows) + u64::from(vid);
        rows.push(fresh_row(alloc, &mut state, id)?)?;
        self.state = state;
        Ok(rows)
    }
}

// Gives rows another number: one, and one more for each hundred of `count`. Those that may change have the ids up to `count`.
fn change_rows(alloc: Global, state: &mut u64, count: u32, rows: &mut Vec<Row>)
    requires some { 1 ≤ count }
    requires grown { (end : ℕ) × Begin count 1 end rows.old.items }
    ensures rows { rows.new.items ≡ (changes (1 + count / 100) count (record { state = state.old; is = rows.old.items })).is }
    ensures state { state.new ≡ (changes (1 + count / 100) count (record { state = state.old; is = rows.old.items })).state }
    ensures kept { (end : ℕ) → Begin count 1 end rows.old.items → Begin count 1 end rows.new.items }
{
    for _ in 0..1 + count / 100 {
        let place = draw(state, u64::from(count)) as usize;
        let number = draw(state, 1000);
        renumber(alloc, &mut rows[place], number);
    }
}
