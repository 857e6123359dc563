//! The storage budget: the splits at 100 thresholds, the cheapest of those that store no more than a budget, its plan, and whether
//! it is worth it.

ghost use Rattle.std.specs.Prelude.{◌≡◌, ◌+◌, ◌<◌, ◌^◌, length, map, IfOk};
ghost use Rattle.ov_model.specs.Act.{refuses};
ghost use Rattle.ov_model.specs.Budget.{advise_deed, best_from, better_of, choice, is_better, is_worth, least_of, least_stored, line_at, within_deed};
ghost use Rattle.ov_model.specs.Plans.{parts_at};
ghost use Rattle.ov_model.specs.Records.{counted};
ghost use Rattle.ov_model.specs.World.{cost, set_named};
ghost use Rattle.ov_model.specs.declared.refusal.Refusal.TheVariants as no;
ghost use Rattle.ov_plain.specs.Small.{IsSmall};
ghost use Rattle.ov_plain_act.specs.Acts.{deed_of, session_of};
ghost use Rattle.ov_plain_act.specs.Lines.{advise_from, advise_of, lines_of, ratio_off, reply_from, within_from, within_of};
ghost use Rattle.ov_plain_act.specs.Small.{AreSmall, AreSmallMoves, IsSmallSet};

use crate::deed::{Deed, Move, does, no_cvd, refuses, tells};
use crate::laying::cost_in;
use crate::planning::{is_threshold, split_sizes, steps_at, within_refusal};
use crate::session::Session;
use crate::world::{World, first_named};
use ov_model::{BudgetLine, Refusal, Reply};
use ov_plain::{Dataset, depth_at, onto, serve_few, tree_members, tree_records};
use ov_value::Txt;
use sqlite_items::Items;
use std::alloc::{AllocError, Global};

/// What the split at p / 100 comes to.
fn line_at(alloc: Global, set: &Dataset, p: u32) -> Result<BudgetLine, AllocError>
    requires { IsSmall set.now.cvd }
    ensures { IfOk result (λ line. line ≡ line_at set.now p) }
{
    let depth = depth_at(alloc, set, p, 100)?;
    let (partitions, stored, cost) = split_sizes(alloc, set, p, 100)?;
    Ok(BudgetLine {
        depth,
        partitions,
        stored,
        cost,
    })
}

/// A line for each of so many thresholds, from p / 100 on.
#[tactic(auto, using(crate::proofs::Choosing::counted_more))]
fn lines_from(
    alloc: Global,
    set: &Dataset,
    p: u32,
    count: u32,
) -> Result<Items<BudgetLine>, AllocError>
    requires small { IsSmall set.now.cvd }
    requires few { p + count < 2 ^ 32 }
    ensures is { IfOk result (λ lines. lines ≡ map (line_at set.now) (counted p count)) }
    ensures count { IfOk result (λ lines. length lines ≡ count) }
{
    if count == 0 {
        return Ok(Items::new(alloc));
    }
    let later = lines_from(alloc, set, p + 1, count - 1)?;
    onto(alloc, line_at(alloc, set, p)?, later)
}

/// The lines of the 100 thresholds.
#[tactic(auto, unfolding(crate::specs::Lines::lines_of))]
fn table(alloc: Global, set: &Dataset) -> Result<Items<BudgetLine>, AllocError>
    requires { IsSmall set.now.cvd }
    ensures is { IfOk result (λ lines. lines ≡ lines_of set.now) }
    ensures count { IfOk result (λ lines. length lines ≡ 100) }
{
    lines_from(alloc, set, 1, 100)
}

/// Whether a line costs less than another, or as much and stores less.
fn is_better(a: &BudgetLine, b: &BudgetLine) -> bool
    ensures { result ≡ is_better a.now b.now }
{
    a.cost < b.cost || (a.cost == b.cost && a.stored < b.stored)
}

/// A copy of a line.
fn copy_of(line: &BudgetLine) -> BudgetLine
    ensures { result ≡ line.now }
{
    BudgetLine {
        depth: line.depth,
        partitions: line.partitions,
        stored: line.stored,
        cost: line.cost,
    }
}

/// A line with its number, or one behind it that is better.
fn better_of(n: u32, line: &BudgetLine, later: Option<(u32, BudgetLine)>) -> (u32, BudgetLine)
    ensures { result ≡ better_of (n, line.now) later }
{
    match later {
        Some((p, other)) if is_better(&other, line) => (p, other),
        _ => (n, copy_of(line)),
    }
}

/// The best of these lines within the budget, with its number; they are counted from n.
fn best_from(budget: u64, n: u32, lines: &[BudgetLine]) -> Option<(u32, BudgetLine)>
    requires { n + length lines.now < 2 ^ 32 }
    ensures { result ≡ best_from budget n lines.now }
{
    match lines {
        [] => None,
        [line, rest @ ..] => {
            let later = best_from(budget, n + 1, rest);
            if line.stored <= budget {
                Some(better_of(n, line, later))
            } else {
                later
            }
        }
    }
}

/// The least of a number and what these lines store.
fn least_stored(least: u64, lines: &[BudgetLine]) -> u64
    ensures { result ≡ least_stored least lines.now }
{
    match lines {
        [] => least,
        [line, rest @ ..] => {
            if line.stored < least {
                least_stored(line.stored, rest)
            } else {
                least_stored(least, rest)
            }
        }
    }
}

/// The least that any of these lines stores.
fn least_of(lines: &[BudgetLine]) -> u64
    ensures { result ≡ least_of lines.now }
{
    match lines {
        [] => 0,
        [line, rest @ ..] => least_stored(line.stored, rest),
    }
}

/// The refusal of a budget within which there is no line.
fn no_threshold(
    alloc: Global,
    session: &Session,
    budget: u64,
    lines: &[BudgetLine],
) -> Result<Deed, AllocError>
    ensures is { IfOk result (λ deed. deed_of deed ≡ refuses (session_of session.now) (no.NoThreshold budget (least_of lines.now))) }
    ensures small { IfOk result (λ deed. AreSmallMoves deed.moves) }
{
    let least = least_of(lines);
    refuses(alloc, session, Refusal::NoThreshold { budget, least })
}

/// What is told of the plan at p / 100 that was chosen of these lines.
fn within_reply(
    alloc: Global,
    set: &Dataset,
    lines: Items<BudgetLine>,
    p: u32,
) -> Result<Reply, AllocError>
    requires { IsSmall set.now.cvd }
    ensures { IfOk result (λ reply. reply ≡ reply_from set.now lines p (parts_at set.now p 100)) }
{
    let (partitions, stored, cost) = split_sizes(alloc, set, p, 100)?;
    Ok(Reply::Within {
        lines,
        chosen: p,
        depth: depth_at(alloc, set, p, 100)?,
        partitions,
        stored,
        records: tree_records(alloc, set)?,
        members: tree_members(alloc, set)?,
        cost,
        steps: steps_at(alloc, set, p, 100)?,
    })
}

/// What an `optimize` within a budget does by these lines.
fn within_lines(
    alloc: Global,
    session: &Session,
    set: &Dataset,
    budget: u64,
    lines: Items<BudgetLine>,
) -> Result<Deed, AllocError>
    requires small { IsSmall set.now.cvd }
    requires few { length lines ≡ 100 }
    ensures is { IfOk result (λ deed. deed_of deed ≡ within_from (session_of session.now) set.now budget lines (choice budget lines)) }
    ensures small { IfOk result (λ deed. AreSmallMoves deed.moves) }
{
    match best_from(budget, 1, lines.as_slice()) {
        None => no_threshold(alloc, session, budget, lines.as_slice()),
        Some((p, _)) => {
            let reply = within_reply(alloc, set, lines, p)?;
            let cvd = set.cvd.number;
            does(alloc, session, Move::BeginPlan { cvd, p, q: 100 }, reply)
        }
    }
}

/// What an `optimize` of this dataset within a budget does.
#[tactic(auto, using(crate::proofs::Choosing::within_chosen, crate::proofs::Choosing::within_refused, crate::proofs::Fitting::set_small))]
fn within_of(
    alloc: Global,
    session: &Session,
    name: &Txt,
    budget: u64,
    set: &Dataset,
) -> Result<Deed, AllocError>
    requires { IsSmallSet set.now }
    ensures is { IfOk result (λ deed. deed_of deed ≡ within_of (session_of session.now) name.now budget set.now) }
    ensures small { IfOk result (λ deed. AreSmallMoves deed.moves) }
{
    match within_refusal(alloc, set)? {
        Some(refusal) => refuses(alloc, session, refusal),
        None => {
            let lines = table(alloc, set)?;
            within_lines(alloc, session, set, budget, lines)
        }
    }
}

/// What an `optimize` within a budget does.
#[tactic(auto, using(crate::proofs::Choosing::within_found))]
pub fn within_deed(
    alloc: Global,
    world: &World,
    session: &Session,
    name: &Txt,
    budget: u64,
) -> Result<Deed, AllocError>
    requires { AreSmall world.now.sets }
    ensures is { IfOk result (λ deed. deed_of deed ≡ within_deed (session_of session.now) name.now budget (set_named world.now name.now)) }
    ensures small { IfOk result (λ deed. AreSmallMoves deed.moves) }
{
    match first_named(world.sets.as_slice(), name) {
        None => no_cvd(alloc, session, name),
        Some(set) => within_of(alloc, session, name, budget, set),
    }
}

/// What checkouts of all versions read now.
fn present_cost(alloc: Global, set: &Dataset) -> Result<u64, AllocError>
    ensures { IfOk result (λ all. all ≡ cost set.now) }
{
    if set.parts.len() > 65_535 || !serve_few(set.parts.as_slice()) {
        return Err(AllocError);
    }
    cost_in(alloc, set)
}

/// Whether the present cost is over a / b of the best one.
fn is_worth(a: u64, b: u64, present: u64, best: u64) -> bool
    ensures { result ≡ is_worth a b present best }
{
    (a as u128 * best as u128) < b as u128 * present as u128
}

/// What an `advise` at a ratio a / b does by these lines.
fn advise_lines(
    alloc: Global,
    session: &Session,
    set: &Dataset,
    budget: u64,
    a: u64,
    b: u64,
    lines: &[BudgetLine],
) -> Result<Deed, AllocError>
    requires { length lines.now ≡ 100 }
    ensures is { IfOk result (λ deed. deed_of deed ≡ advise_from (session_of session.now) set.now budget a b lines.now (choice budget lines.now)) }
    ensures small { IfOk result (λ deed. AreSmallMoves deed.moves) }
{
    match best_from(budget, 1, lines) {
        None => no_threshold(alloc, session, budget, lines),
        Some((_, line)) => {
            let cost = present_cost(alloc, set)?;
            let best = line.cost;
            let optimize = is_worth(a, b, cost, best);
            tells(
                alloc,
                session,
                Reply::Advise {
                    cost,
                    best,
                    optimize,
                },
            )
        }
    }
}

/// Why there is no advice at a / b.
fn ratio_refusal(a: u64, b: u64) -> Option<Refusal>
    ensures { result ≡ ratio_off a b }
{
    if is_threshold(b, a) {
        None
    } else {
        Some(Refusal::BadThreshold)
    }
}

/// What an `advise` of this dataset does.
#[tactic(auto, using(crate::proofs::Choosing::advise_chosen, crate::proofs::Choosing::advise_refused, crate::proofs::Fitting::set_small))]
fn advise_of(
    alloc: Global,
    session: &Session,
    name: &Txt,
    budget: u64,
    a: u64,
    b: u64,
    set: &Dataset,
) -> Result<Deed, AllocError>
    requires { IsSmallSet set.now }
    ensures is { IfOk result (λ deed. deed_of deed ≡ advise_of (session_of session.now) name.now budget a b set.now) }
    ensures small { IfOk result (λ deed. AreSmallMoves deed.moves) }
{
    match ratio_refusal(a, b) {
        Some(refusal) => refuses(alloc, session, refusal),
        None => {
            let lines = table(alloc, set)?;
            advise_lines(alloc, session, set, budget, a, b, lines.as_slice())
        }
    }
}

/// What an `advise` does.
#[tactic(auto, using(crate::proofs::Choosing::advise_found))]
pub fn advise_deed(
    alloc: Global,
    world: &World,
    session: &Session,
    name: &Txt,
    budget: u64,
    a: u64,
    b: u64,
) -> Result<Deed, AllocError>
    requires { AreSmall world.now.sets }
    ensures is { IfOk result (λ deed. deed_of deed ≡ advise_deed (session_of session.now) name.now budget a b (set_named world.now name.now)) }
    ensures small { IfOk result (λ deed. AreSmallMoves deed.moves) }
{
    match first_named(world.sets.as_slice(), name) {
        None => no_cvd(alloc, session, name),
        Some(set) => advise_of(alloc, session, name, budget, a, b, set),
    }
}
