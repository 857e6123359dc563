//! The answer of a join over a scan of each side.

ghost use Rattle.std.specs.Prelude.{◌≡◌, ◌≢◌, ◌<◌, ◌≤◌, Ok, IfOk, IfErr, OnOk, length};
ghost use Rattle.ov_fetch.specs.Scans.{IsSound};
ghost use Rattle.ov_model.specs.Joins.{join_answer, join_kinds};
ghost use Rattle.ov_join.specs.Meeting.{pairs_met};
ghost use Rattle.ov_join.specs.declared.join_err.JoinErr.TheVariants.{Memory};

use crate::fitting::TypedJoin;
use crate::join_err::JoinErr;
use crate::matching::{matches_of, partners};
use crate::side::Side;
use ov_fetch::Scan;
use ov_model::{Answer, Seq};
use ov_qrun::rows_over;
use ov_terms::SideBySide;
use ov_value::Kind;
use std::alloc::{AllocError, Global};

fn copy_of(alloc: Global, kinds: &[Kind]) -> Result<Seq<Kind>, AllocError>
    ensures { IfOk result (λ copy. copy ≡ kinds.now) }
{
    let mut copy = Vec::with_capacity(alloc, kinds.len())?;
    for kind in kinds {
        copy.push(*kind)?;
    }
    Ok(Seq::from_vec(copy))
}

/// The answer of a join over one version of each side, where the rows fit the schemas that it was typed with.
///
/// The right rows are sorted once by their values in the columns of ON, and each left row's partners are sought among them; a row
/// with NULL there has none. That more than 1,000,000 pairs match is known before a pair is made: until then memory goes by the
/// rows of both sides, and then by the pairs that match, 16 bytes each, and as for a query by those that WHERE takes.
pub fn run_join(
    alloc: Global,
    typed: &TypedJoin<'_>,
    left: &Scan,
    right: &Scan,
) -> Result<Answer, JoinErr>
    requires left { IsSound typed.now.left left.now }
    requires right { IsSound typed.now.right right.now }
    requires left_once { length left.now.vids ≡ 1 }
    requires right_once { length right.now.vids ≡ 1 }
    ensures few { OnOk result (length (pairs_met typed.now left.now right.now) ≤ 1000000) }
    ensures kinds { IfOk result (λ made. join_kinds typed.now.join typed.now.left typed.now.right ≡ Ok made.kinds) }
    ensures rows { IfOk result (λ made. made.rows
        ≡ join_answer typed.now.join typed.now.left typed.now.right (pairs_met typed.now left.now right.now)) }
    ensures err { IfErr result (λ why. why ≢ Memory → 1000000 < length (pairs_met typed.now left.now right.now)) }
{
    let ls = Side::left(alloc, typed, left)?;
    let rs = Side::right(alloc, typed, right)?;
    let sorted = rs.sorted(alloc)?;
    let found = partners(alloc, &ls, &rs, sorted.as_slice())?;
    let matches = matches_of(alloc, found.as_slice())?;
    let joined = SideBySide::of(
        &left.records,
        &right.records,
        typed.left.columns().len(),
        matches.as_slice(),
    );
    let rows = rows_over(alloc, &typed.wide, typed.columns.as_slice(), &joined)?;
    let kinds = copy_of(alloc, typed.kinds.as_slice())?;
    Ok(Answer { kinds, rows })
}
