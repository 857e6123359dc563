//! What a condition says of a group.

ghost use Rattle.std.specs.Prelude.{◌≡◌, ◌↔◌, IsTrue, Some, map, nat_eq};
ghost use Rattle.std.specs.List.{list_any};
ghost use Rattle.ov_model.specs.Answers.{cell_order, is_null_cell, truth_every, truth_any};
ghost use Rattle.ov_terms.specs.Finding.{found_holds, found_operand, found_truth, is_among};
ghost use Rattle.ov_terms.specs.Seeing.{cell_of};
ghost use Rattle.ov_terms.specs.Standing.{pairs_at};

use crate::found_cond::{FoundCond, found_by_cases};
use crate::found_operand::FoundOperand;
use crate::order::cell_order;
use crate::seen::Seen;
use crate::spot::Spot;
use crate::table::Table;
use crate::truths::{compared, truth_and, truth_not, truth_or, turned_if};
use std::cmp::Ordering;

impl<'a> Table<'a> {
    // How the two sides of a comparison compare.
    fn order_of(
        &self,
        group: &[Spot],
        left: &FoundOperand,
        right: &FoundOperand,
    ) -> Option<Ordering>
        ensures { result ≡ cell_order (found_operand (pairs_at self.now group.now) left.now)
            (found_operand (pairs_at self.now group.now) right.now) }
    {
        match (left, right) {
            (FoundOperand::Term(x), FoundOperand::Term(y)) => {
                cell_order(self.term(group, *x), self.term(group, *y))
            }
            (FoundOperand::Term(x), FoundOperand::Literal(y)) => {
                cell_order(self.term(group, *x), Seen::of(y))
            }
            (FoundOperand::Literal(x), FoundOperand::Term(y)) => {
                cell_order(Seen::of(x), self.term(group, *y))
            }
            (FoundOperand::Literal(x), FoundOperand::Literal(y)) => {
                cell_order(Seen::of(x), Seen::of(y))
            }
        }
    }

    // Whether a side of a comparison is NULL or nothing.
    fn is_null(&self, group: &[Spot], tested: &FoundOperand) -> bool
        ensures { result ≡ is_null_cell (found_operand (pairs_at self.now group.now) tested.now) }
    {
        match tested {
            FoundOperand::Term(term) => self.term(group, *term).is_null(),
            FoundOperand::Literal(value) => Seen::of(value).is_null(),
        }
    }

    // Whether the version of a group is one of these.
    fn is_among(&self, group: &[Spot], vids: &[u32]) -> bool
        ensures { result ≡ is_among (pairs_at self.now group.now) vids.now }
    {
        match group {
            [] => false,
            [spot, ..] => is_one_of(spot.vid, vids),
        }
    }

    /// What a condition says of a group: true, false, or none where it is unknown.
    #[cycle(truth)]
    pub fn truth(&self, group: &[Spot], cond: &FoundCond) -> Option<bool>
        ensures { result ≡ found_truth (pairs_at self.now group.now) cond.now }
    {
        found_by_cases();
        match cond {
            FoundCond::Compare(left, sign, right) => {
                compared(*sign, self.order_of(group, left, right))
            }
            FoundCond::IsNull(tested, negated) => {
                Some(turned_if(*negated, self.is_null(group, tested)))
            }
            FoundCond::InList(vids, negated) => {
                Some(turned_if(*negated, self.is_among(group, vids.as_slice())))
            }
            FoundCond::Not(inner) => truth_not(self.truth(group, inner.get())),
            FoundCond::Every(conds) => self.every(group, conds.as_slice()),
            FoundCond::Any(conds) => self.any(group, conds.as_slice()),
        }
    }

    #[cycle(truth)]
    fn every(&self, group: &[Spot], conds: &[FoundCond]) -> Option<bool>
        ensures { result ≡ truth_every (map (found_truth (pairs_at self.now group.now)) conds.now) }
    {
        let mut truth = Some(true);
        for cond in conds {
            if is(truth, false) {
                return truth;
            }
            truth = truth_and(truth, self.truth(group, cond));
        }
        truth
    }

    #[cycle(truth)]
    fn any(&self, group: &[Spot], conds: &[FoundCond]) -> Option<bool>
        ensures { result ≡ truth_any (map (found_truth (pairs_at self.now group.now)) conds.now) }
    {
        let mut truth = Some(false);
        for cond in conds {
            if is(truth, true) {
                return truth;
            }
            truth = truth_or(truth, self.truth(group, cond));
        }
        truth
    }

    /// Whether WHERE or HAVING takes a group: it isn't there, or it is true.
    pub fn holds(&self, group: &[Spot], guard: &Option<FoundCond>) -> bool
        ensures { result ≡ found_holds guard.now (pairs_at self.now group.now) }
    {
        match guard {
            None => true,
            Some(cond) => match self.truth(group, cond) {
                Some(truth) => truth,
                None => false,
            },
        }
    }
}

fn is_one_of(vid: u32, vids: &[u32]) -> bool
    ensures { result ≡ list_any (nat_eq vid) vids.now }
{
    vids.iter().any(|other| vid == *other)
}

fn is(truth: Option<bool>, wanted: bool) -> bool
    ensures { IsTrue result ↔ (truth ≡ Some wanted) }
{
    truth == Some(wanted)
}
