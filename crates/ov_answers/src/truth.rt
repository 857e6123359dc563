//! What a condition says of a group of pairs.

ghost use Rattle.std.specs.Prelude.{◌≡◌, ◌≤◌, length, map, Some, IfOk};
ghost use Rattle.std.specs.List.{list_any};
ghost use Rattle.ov_model.specs.Answers.{operand_in, is_version, version_among, compared, cell_order, is_null_cell, truth, term_of_group, turned_if};
ghost use Rattle.ov_model.specs.Lineages.{relatives};
ghost use Rattle.ov_model.specs.declared.query.Col.TheVariants.{Vid};
ghost use Rattle.ov_model.specs.declared.query.Term.TheVariants.{Plain};
ghost use Rattle.ov_answers.specs.Reading.{here, is_taken};

use crate::lineage::relatives;
use crate::order::{cell_order, is_null_cell};
use crate::pairing::Pair;
use crate::terms::term_of_group;
use crate::truths::{compared, is_true, truth_any, truth_every, truth_not, turned_if};
use ov_model::{Cell, Col, Cond, LineageKind, Operand, Seq, Sign, Term, truth_by_cases};
use ov_plain::Cvd;
use ov_value::Value;
use std::alloc::{AllocError, Global};

/// The cell of an operand over a group.
fn operand_in(
    alloc: Global,
    cvd: &Cvd,
    group: &[Pair],
    operand: &Operand,
) -> Result<Cell, AllocError>
    ensures { IfOk result (λ cell. cell ≡ operand_in (here cvd.now group.now) operand.now) }
{
    match operand {
        Operand::Term(term) => term_of_group(alloc, &cvd.schema, group, term),
        Operand::Literal(value) => Ok(Cell::Value(value.copy(alloc)?)),
    }
}

/// What a comparison says of a group.
fn compares(
    alloc: Global,
    cvd: &Cvd,
    group: &[Pair],
    left: &Operand,
    sign: Sign,
    right: &Operand,
) -> Result<Option<bool>, AllocError>
    ensures { IfOk result (λ truth. truth ≡ compared sign (cell_order (operand_in (here cvd.now group.now) left.now) (operand_in (here cvd.now group.now) right.now))) }
{
    let a = operand_in(alloc, cvd, group, left)?;
    let b = operand_in(alloc, cvd, group, right)?;
    Ok(compared(sign, cell_order(&a, &b)))
}

/// Whether an operand is NULL or nothing, or its opposite.
fn is_null(
    alloc: Global,
    cvd: &Cvd,
    group: &[Pair],
    operand: &Operand,
    negated: bool,
) -> Result<Option<bool>, AllocError>
    ensures { IfOk result (λ truth. truth ≡ Some (turned_if negated (is_null_cell (operand_in (here cvd.now group.now) operand.now)))) }
{
    let cell = operand_in(alloc, cvd, group, operand)?;
    Ok(Some(turned_if(negated, is_null_cell(&cell))))
}

/// Whether a cell is this version's number.
fn is_version(cell: &Cell, vid: u64) -> bool
    ensures { result ≡ is_version cell.now vid }
{
    match cell {
        Cell::Value(Value::Int(n)) => i128::from(*n) == i128::from(vid),
        _ => false,
    }
}

/// Whether a cell is one of these versions' numbers.
fn is_one_version(cell: &Cell, vids: &[u64]) -> bool
    ensures { result ≡ list_any (is_version cell.now) vids.now }
{
    match vids {
        [] => false,
        [vid, rest @ ..] => is_version(cell, *vid) || is_one_version(cell, rest),
    }
}

/// Whether a cell is one of these versions' numbers.
fn is_listed_version(cell: &Cell, vids: &[u32]) -> bool
    ensures { result ≡ list_any (is_version cell.now) vids.now }
{
    match vids {
        [] => false,
        [vid, rest @ ..] => { is_version(cell, u64::from(*vid)) || is_listed_version(cell, rest) }
    }
}

/// The number of the version of a group.
fn version_of(alloc: Global, cvd: &Cvd, group: &[Pair]) -> Result<Cell, AllocError>
    ensures { IfOk result (λ cell. cell ≡ term_of_group cvd.now.schema group.now (Plain Vid)) }
{
    term_of_group(alloc, &cvd.schema, group, &Term::Plain(Col::Vid))
}

/// Whether the version of a group is in this lineage of a version, or its opposite.
fn is_related(
    alloc: Global,
    cvd: &Cvd,
    group: &[Pair],
    kind: LineageKind,
    vid: u64,
    negated: bool,
) -> Result<Option<bool>, AllocError>
    requires { length cvd.now.versions ≤ 65535 }
    ensures { IfOk result (λ truth. truth ≡ Some (turned_if negated (version_among (here cvd.now group.now) (relatives cvd.now kind vid)))) }
{
    let cell = version_of(alloc, cvd, group)?;
    let vids = relatives(alloc, cvd, kind, vid)?;
    Ok(Some(turned_if(negated, is_one_version(&cell, vids.as_slice()))))
}

/// Whether the version of a group is one of these, or its opposite.
fn is_listed(
    alloc: Global,
    cvd: &Cvd,
    group: &[Pair],
    vids: &[u32],
    negated: bool,
) -> Result<Option<bool>, AllocError>
    ensures { IfOk result (λ truth. truth ≡ Some (turned_if negated (version_among (here cvd.now group.now) vids.now))) }
{
    let cell = version_of(alloc, cvd, group)?;
    Ok(Some(turned_if(negated, is_listed_version(&cell, vids))))
}

/// What a condition says of a group of pairs.
#[cycle(truth)]
pub fn truth(
    alloc: Global,
    cvd: &Cvd,
    group: &[Pair],
    cond: &Cond,
) -> Result<Option<bool>, AllocError>
    requires { length cvd.now.versions ≤ 65535 }
    ensures { IfOk result (λ found. found ≡ truth (here cvd.now group.now) cond.now) }
{
    truth_by_cases();
    match cond {
        Cond::Compare(left, sign, right) => compares(alloc, cvd, group, left, *sign, right),
        Cond::IsNull(tested, negated) => is_null(alloc, cvd, group, tested, *negated),
        Cond::InLineage(kind, vid, negated) => {
            is_related(alloc, cvd, group, *kind, *vid, *negated)
        }
        Cond::InList(vids, negated) => is_listed(alloc, cvd, group, vids.as_slice(), *negated),
        Cond::Not(inner) => Ok(truth_not(truth(alloc, cvd, group, inner.get())?)),
        Cond::Every(conds) => {
            let each = truths(alloc, cvd, group, conds.as_slice())?;
            Ok(truth_every(each.as_slice()))
        }
        Cond::Any(conds) => {
            let each = truths(alloc, cvd, group, conds.as_slice())?;
            Ok(truth_any(each.as_slice()))
        }
    }
}

/// What each of these conditions says.
#[cycle(truth)]
fn truths(
    alloc: Global,
    cvd: &Cvd,
    group: &[Pair],
    conds: &[Cond],
) -> Result<Seq<Option<bool>>, AllocError>
    requires { length cvd.now.versions ≤ 65535 }
    ensures { IfOk result (λ found. found ≡ map (truth (here cvd.now group.now)) conds.now) }
{
    let mut found = Seq::new(alloc);
    for cond in conds {
        found.push(truth(alloc, cvd, group, cond)?)?;
    }
    Ok(found)
}

/// Whether a condition is true of a group; where there is none, each group is taken.
#[tactic(auto, unfolding(crate::specs::Reading::is_taken))]
pub fn is_taken(
    alloc: Global,
    cvd: &Cvd,
    group: &[Pair],
    cond: &Option<Cond>,
) -> Result<bool, AllocError>
    requires { length cvd.now.versions ≤ 65535 }
    ensures { IfOk result (λ taken. taken ≡ is_taken cvd.now cond.now group.now) }
{
    match cond {
        None => Ok(true),
        Some(cond) => Ok(is_true(truth(alloc, cvd, group, cond)?)),
    }
}
