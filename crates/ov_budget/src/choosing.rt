//! The choice of a threshold.

ghost use Rattle.std.specs.Prelude.{◌≡◌, ◌≤◌, ◌<◌, ℕ, length, Some, None, IfOk, MatchResult};
ghost use Rattle.ov_budget.specs.Choices.{IsBest, IsLeast, AreOver, better_of, choice, is_better, is_worth, least_of, line_in};

use crate::thresholds::Line;

/// That all thresholds store more than a budget.
#[derive(Clone, Copy, PartialEq, Eq)]
pub struct NoThreshold {
    /// What one of them stores, and none stores less.
    pub least: u64,
}

/// Whether a line costs less than another one, or as much and stores less.
pub(crate) fn is_better(a: &Line, b: &Line) -> bool
    ensures { result ≡ is_better a.now b.now }
{
    a.cost < b.cost || (a.cost == b.cost && a.stored < b.stored)
}

/// Of a line and the best one of those behind it the better one, ties to the first.
fn better_of(line: (u32, Line), behind: Option<(u32, Line)>) -> (u32, Line)
    ensures { result ≡ better_of line behind }
{
    match behind {
        Some(best) if is_better(&best.1, &line.1) => best,
        _ => line,
    }
}

/// The best line that stores at most the budget, with its number from 1 on.
fn choice(table: &[Line], budget: u64) -> Option<(u32, Line)>
    requires { length table.now ≤ 100 }
    ensures { result ≡ choice budget table.now }
{
    let mut best = None;
    let mut at = table.len();
    while 0 < at {
        at -= 1;
        let line = table[at];
        if line.stored <= budget {
            best = Some(better_of((at as u32 + 1, line), best));
        }
    }
    best
}

/// The least that a line stores.
pub(crate) fn least_of(table: &[Line]) -> u64
    ensures { result ≡ least_of table.now }
{
    let [first, rest @ ..] = table else {
        return 0;
    };
    let mut least = first.stored;
    for line in rest {
        if line.stored < least {
            least = line.stored;
        }
    }
    least
}

/// The p, from 1 to 100, of the threshold p / 100 with the least cost among those that store at most the budget; ties go to the least
/// stored, then to the least p. `NoThreshold` exactly where all store more, with the least that one stores. `table` has 100 lines,
/// that of p at index p - 1. Takes no memory.
pub fn pick(table: &[Line], budget: u64) -> Result<u32, NoThreshold>
    requires { length table.now ≡ 100 }
    ensures there { IfOk result (λ p. (1 ≤ p) × (p ≤ 100)) }

    // It is the best one within the budget, or all are over it.
    ensures best { MatchResult result (λ p. IsBest budget 1 table.now p (line_in table.now p))
        (λ none. AreOver budget table.now × IsLeast table.now none.least) }

    // The same as the rule computes it.
    ensures choice { MatchResult result (λ p. choice budget table.now ≡ Some (p, line_in table.now p))
        (λ none. (choice budget table.now ≡ None) × (none.least ≡ least_of table.now)) }
{
    match choice(table, budget) {
        Some((p, _)) => Ok(p),
        None => Err(NoThreshold {
            least: least_of(table),
        }),
    }
}

/// Whether a plan is worth it: whether the present cost is over a / b of the best one, `b * cost > a * best` in whole numbers.
pub fn is_worth(cost: u64, best: u64, a: u64, b: u64) -> bool
    ensures { result ≡ is_worth a b cost best }
{
    b as u128 * cost as u128 > a as u128 * best as u128
}
