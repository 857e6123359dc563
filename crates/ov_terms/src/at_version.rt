//! WHERE in one version: what it says of the version's number is decided once, and not again for each of its rows.

ghost use Rattle.std.specs.Prelude.{◌≡◌, ◌∷◌, [], List, IfOk, IfSome, Some, map};
ghost use Rattle.ov_model.specs.Answers.{Pair};
ghost use Rattle.ov_model.specs.Book.{Row};
ghost use Rattle.ov_terms.specs.Finding.{SaysSame, TakesSame, found_truth, in_version};

use crate::found_cond::{FoundCond, found_by_cases};
use crate::of_versions::is_of_version;
use crate::spot::Spot;
use crate::table::Table;
use ov_model::{Boxed, Seq};
use std::alloc::{AllocError, Global};
use std::slice;

// All of no conditions, which is true, or one of none, which is false.
fn decided(alloc: Global, truth: bool) -> FoundCond
    ensures { (group : List Pair) → found_truth group result ≡ Some truth }
{
    found_by_cases();
    if truth {
        FoundCond::Every(Seq::new(alloc))
    } else {
        FoundCond::Any(Seq::new(alloc))
    }
}

impl<'a> Table<'a> {
    // What a condition says of all rows of a version, where it is of the version alone and says anything.
    fn decision(&self, vid: u32, cond: &FoundCond) -> Option<bool>
        ensures { (row : Row) → IfSome result (λ truth. found_truth (in_version vid row ∷ []) cond.now ≡ Some truth) }
    {
        if !is_of_version(cond) {
            return None;
        }
        let spot = Spot { vid, place: 0 };
        self.truth(slice::from_ref(&spot), cond)
    }

    // A condition over the rows of a version, in which all is decided that is of the version alone.
    #[cycle(at_version)]
    fn at_version(&self, alloc: Global, vid: u32, cond: &FoundCond) -> Result<FoundCond, AllocError>
        ensures { IfOk result (SaysSame vid cond.now) }
    {
        if let Some(truth) = self.decision(vid, cond) {
            return Ok(decided(alloc, truth));
        }
        found_by_cases();
        match cond {
            FoundCond::Compare(left, sign, right) => {
                let left = left.copy(alloc)?;
                let right = right.copy(alloc)?;
                Ok(FoundCond::Compare(left, *sign, right))
            }
            FoundCond::IsNull(tested, negated) => {
                let tested = tested.copy(alloc)?;
                Ok(FoundCond::IsNull(tested, *negated))
            }
            FoundCond::InList(vids, negated) => {
                let vids = Seq::from_slice(alloc, vids.as_slice())?;
                Ok(FoundCond::InList(vids, *negated))
            }
            FoundCond::Not(inner) => {
                let inner = self.at_version(alloc, vid, inner.get())?;
                let inner = Boxed::new(alloc, inner)?;
                Ok(FoundCond::Not(inner))
            }
            FoundCond::Every(conds) => {
                let conds = self.all_at_version(alloc, vid, conds.as_slice())?;
                Ok(FoundCond::Every(conds))
            }
            FoundCond::Any(conds) => {
                let conds = self.all_at_version(alloc, vid, conds.as_slice())?;
                Ok(FoundCond::Any(conds))
            }
        }
    }

    #[cycle(at_version)]
    fn all_at_version(
        &self,
        alloc: Global,
        vid: u32,
        conds: &[FoundCond],
    ) -> Result<Seq<FoundCond>, AllocError>
        ensures { (row : Row) → IfOk result (λ made. map (found_truth (in_version vid row ∷ [])) made
            ≡ map (found_truth (in_version vid row ∷ [])) conds.now) }
    {
        let mut made = Seq::new(alloc);
        for cond in conds {
            made.push(self.at_version(alloc, vid, cond)?)?;
        }
        Ok(made)
    }

    /// WHERE over the rows of a version, in which all is decided that is of the version alone.
    pub(crate) fn guard_at(
        &self,
        alloc: Global,
        vid: u32,
        guard: &Option<FoundCond>,
    ) -> Result<Option<FoundCond>, AllocError>
        ensures { IfOk result (TakesSame vid guard.now) }
    {
        match guard {
            None => Ok(None),
            Some(cond) => Ok(Some(self.at_version(alloc, vid, cond)?)),
        }
    }
}
