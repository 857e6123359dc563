//! From a scan to the spots that WHERE takes, and from a group to a row of an answer.

ghost use Rattle.std.specs.Prelude.{◌≡◌, ◌++◌, ◌∷◌, [], if◌then◌else◌, IfOk, OnOk, filter, length, map};
ghost use Rattle.ov_model.specs.Answers.{row_of};
ghost use Rattle.ov_terms.specs.Finding.{IsGuardOfRow, found_term, in_version, is_taken, shown_by, verdicts};
ghost use Rattle.ov_terms.specs.Standing.{pair_at, pairs_at, pairs_among, spots_in};

use crate::found_cond::FoundCond;
use crate::found_items::FoundItems;
use crate::found_term::FoundTerm;
use crate::of_rows::is_guard_of_row;
use crate::of_versions::takes_none;
use crate::spot::Spot;
use crate::table::Table;
use ov_fetch::Pick;
use ov_model::{Cell, Seq};
use std::alloc::{AllocError, Global};
use std::slice;

fn push_if(taken: bool, spot: Spot, kept: &mut Vec<Spot>) -> Result<(), AllocError>
    ensures { OnOk result (kept.new.items ≡ kept.old.items ++ (if taken then spot ∷ [] else [])) }
{
    if taken {
        kept.push(spot)?;
    }
    Ok(())
}

impl<'a> Table<'a> {
    // Whether WHERE takes each record, where it says the same of it in every version.
    fn verdicts(&self, alloc: Global, guard: &Option<FoundCond>) -> Result<Vec<bool>, AllocError>
        ensures { IfOk result (λ made. made.items ≡ verdicts guard.now self.now) }
    {
        let mut made = Vec::with_capacity(alloc, self.len())?;
        for place in 0..self.len() {
            let spot = Spot { vid: 0, place };
            made.push(self.holds(slice::from_ref(&spot), guard))?;
        }
        Ok(made)
    }

    /// The spots that WHERE takes, of versions whose rows stand at these positions: version by version, in this order. What
    /// WHERE drops takes no memory.
    ///
    /// Where WHERE doesn't name the version, it is asked once for each record, which takes a byte. Where it does, what it
    /// says of the version alone is decided once for each version, and where WHERE is false then, no row of it is looked at.
    pub fn kept(
        &self,
        alloc: Global,
        vids: &[u32],
        picks: &[Pick],
        guard: &Option<FoundCond>,
    ) -> Result<Vec<Spot>, AllocError>
        requires { length vids.now ≡ length picks.now }
        ensures { IfOk result (λ kept. pairs_at self.now kept.items
            ≡ filter (is_taken guard.now) (pairs_among self.now vids.now picks.now)) }
    {
        if is_guard_of_row(guard) {
            self.kept_by_record(alloc, vids, picks, guard)
        } else {
            self.kept_by_spot(alloc, vids, picks, guard)
        }
    }

    /// The spots of the rows that WHERE takes, each of version 0, in their order.
    pub fn kept_rows(
        &self,
        alloc: Global,
        guard: &Option<FoundCond>,
    ) -> Result<Vec<Spot>, AllocError>
        ensures { IfOk result (λ kept. pairs_at self.now kept.items ≡ filter (is_taken guard.now) (map (in_version 0) self.now)) }
    {
        let mut kept = Vec::new(alloc);
        for place in 0..self.len() {
            let spot = Spot { vid: 0, place };
            push_if(self.holds(slice::from_ref(&spot), guard), spot, &mut kept)?;
        }
        Ok(kept)
    }

    // The spots that a WHERE takes which says the same of a row in every version.
    fn kept_by_record(
        &self,
        alloc: Global,
        vids: &[u32],
        picks: &[Pick],
        guard: &Option<FoundCond>,
    ) -> Result<Vec<Spot>, AllocError>
        requires paired { length vids.now ≡ length picks.now }
        requires same { IsGuardOfRow guard.now }
        ensures { IfOk result (λ kept. pairs_at self.now kept.items
            ≡ filter (is_taken guard.now) (pairs_among self.now vids.now picks.now)) }
    {
        let verdicts = self.verdicts(alloc, guard)?;
        let mut kept = Vec::new(alloc);
        for (i, pick) in picks.iter().enumerate() {
            self.keep_by_record(
                vids[i],
                pick.as_slice(),
                guard,
                verdicts.as_slice(),
                &mut kept,
            )?;
        }
        Ok(kept)
    }

    // The spots that WHERE takes.
    fn kept_by_spot(
        &self,
        alloc: Global,
        vids: &[u32],
        picks: &[Pick],
        guard: &Option<FoundCond>,
    ) -> Result<Vec<Spot>, AllocError>
        requires { length vids.now ≡ length picks.now }
        ensures { IfOk result (λ kept. pairs_at self.now kept.items
            ≡ filter (is_taken guard.now) (pairs_among self.now vids.now picks.now)) }
    {
        let mut kept = Vec::new(alloc);
        for (i, pick) in picks.iter().enumerate() {
            self.keep_at_version(alloc, vids[i], pick.as_slice(), guard, &mut kept)?;
        }
        Ok(kept)
    }

    // Whether WHERE takes a spot, by what it says of the records.
    fn is_taken(&self, spot: Spot, guard: &Option<FoundCond>, said: &[bool]) -> bool
        requires same { IsGuardOfRow guard.now }
        requires said { said.now ≡ verdicts guard.now self.now }
        ensures { result ≡ is_taken guard.now (pair_at self.now spot) }
    {
        match said.get(spot.place) {
            Some(taken) => *taken,
            None => self.holds(slice::from_ref(&spot), guard),
        }
    }

    // Adds a version's spots that a WHERE takes which says the same of a row in every version.
    fn keep_by_record(
        &self,
        vid: u32,
        places: &[usize],
        guard: &Option<FoundCond>,
        said: &[bool],
        kept: &mut Vec<Spot>,
    ) -> Result<(), AllocError>
        requires same { IsGuardOfRow guard.now }
        requires said { said.now ≡ verdicts guard.now self.now }
        ensures { OnOk result (pairs_at self.now kept.new.items
            ≡ pairs_at self.now kept.old.items ++ filter (is_taken guard.now) (pairs_at self.now (spots_in vid places.now))) }
    {
        for place in places {
            let spot = Spot { vid, place: *place };
            let taken = self.is_taken(spot, guard, said);
            push_if(taken, spot, kept)?;
        }
        Ok(())
    }

    // Adds a version's spots that WHERE takes, which is read as it stands in this version.
    fn keep_at_version(
        &self,
        alloc: Global,
        vid: u32,
        places: &[usize],
        guard: &Option<FoundCond>,
        kept: &mut Vec<Spot>,
    ) -> Result<(), AllocError>
        ensures { OnOk result (pairs_at self.now kept.new.items
            ≡ pairs_at self.now kept.old.items ++ filter (is_taken guard.now) (pairs_at self.now (spots_in vid places.now))) }
    {
        let here = self.guard_at(alloc, vid, guard)?;
        if takes_none(&here) {
            return Ok(());
        }
        self.keep_by_spot(vid, places, &here, kept)
    }

    // Adds a version's spots that WHERE takes.
    fn keep_by_spot(
        &self,
        vid: u32,
        places: &[usize],
        guard: &Option<FoundCond>,
        kept: &mut Vec<Spot>,
    ) -> Result<(), AllocError>
        ensures { OnOk result (pairs_at self.now kept.new.items
            ≡ pairs_at self.now kept.old.items ++ filter (is_taken guard.now) (pairs_at self.now (spots_in vid places.now))) }
    {
        for place in places {
            let spot = Spot { vid, place: *place };
            let taken = self.holds(slice::from_ref(&spot), guard);
            push_if(taken, spot, kept)?;
        }
        Ok(())
    }

    /// The row of an answer that a group gives.
    pub fn shown(
        &self,
        alloc: Global,
        group: &[Spot],
        items: &FoundItems,
    ) -> Result<Seq<Cell>, AllocError>
        ensures { IfOk result (λ cells. cells ≡ shown_by items.now (pairs_at self.now group.now)) }
    {
        match items {
            FoundItems::Everything => self.row(alloc, group),
            FoundItems::Terms(terms) => self.terms(alloc, group, terms.as_slice()),
        }
    }

    // The values of a group's first row; none of an empty group.
    fn row(&self, alloc: Global, group: &[Spot]) -> Result<Seq<Cell>, AllocError>
        ensures { IfOk result (λ cells. cells ≡ row_of (pairs_at self.now group.now)) }
    {
        match group {
            [] => Ok(Seq::new(alloc)),
            [spot, ..] => self.cells(alloc, spot.place),
        }
    }

    fn terms(
        &self,
        alloc: Global,
        group: &[Spot],
        terms: &[FoundTerm],
    ) -> Result<Seq<Cell>, AllocError>
        ensures { IfOk result (λ cells. cells ≡ map (found_term (pairs_at self.now group.now)) terms.now) }
    {
        let mut cells = Vec::with_capacity(alloc, terms.len())?;
        for term in terms {
            cells.push(self.term(group, *term).copy(alloc)?)?;
        }
        Ok(Seq::from_vec(cells))
    }
}
