// A table as it is told.

ghost use Rattle.std.specs.Prelude.{◌≡◌, map, IfOk};
ghost use Rattle.law_budget.specs.Told.{told};

use ov_budget::Line;
use ov_model::{BudgetLine, Seq};
use std::alloc::{AllocError, Global};

// A line as it is told.
fn told_line(line: &Line) -> BudgetLine
    ensures { result ≡ told line.now }
{
    BudgetLine {
        depth: line.depth,
        partitions: line.partitions,
        stored: line.stored,
        cost: line.cost,
    }
}

/// The lines of a table as a reply tells them.
pub(crate) fn told_lines(alloc: Global, lines: &[Line]) -> Result<Seq<BudgetLine>, AllocError>
    ensures { IfOk result (λ shown. shown ≡ map told lines.now) }
{
    let mut shown = Vec::with_capacity(alloc, lines.len())?;
    for line in lines {
        shown.push(told_line(line))?;
    }
    Ok(Seq::from_vec(shown))
}
