//! The lines of replies that have one for each item of a list.

ghost use Rattle.std.specs.Prelude.{◌≡◌, ◌++◌, OnOk, flat_map};
ghost use Rattle.ov_reply.specs.Pieces.{piece_text};
ghost use Rattle.ov_model.specs.Replies.{part_line, running_line, plan_line, parents_text, log_line, cvd_line, table_line, budget_line, budget_lines};

use crate::pieces::Piece::{self, Number, Numbers, Text};
use crate::pieces::write_line;
use ov_model::{BudgetLine, CvdLine, LogLine, PartLine, PlanLine, TableLine};
use std::alloc::AllocError;

fn write_part(part: &PartLine, out: &mut Vec<u8>) -> Result<(), AllocError>
    ensures { OnOk result (out.new.items ≡ out.old.items ++ part_line part.now) }
{
    write_line(
        &[
            Text(b"partition "),
            Number(part.id as u64),
            Text(b": records "),
            Number(part.records as u64),
            Text(b", versions "),
            Numbers(part.versions.as_slice()),
        ],
        out,
    )
}

/// A line for each partition.
pub(crate) fn write_parts(parts: &[PartLine], out: &mut Vec<u8>) -> Result<(), AllocError>
    ensures { OnOk result (out.new.items ≡ out.old.items ++ flat_map part_line parts.now) }
{
    for part in parts {
        write_part(part, out)?;
    }
    Ok(())
}

fn write_running(plan: &PlanLine, out: &mut Vec<u8>) -> Result<(), AllocError>
    ensures { OnOk result (out.new.items ≡ out.old.items ++ running_line plan.now) }
{
    write_line(
        &[
            Text(b"plan "),
            Number(plan.p as u64),
            Text(b"/"),
            Number(plan.q as u64),
            Text(b": target "),
            Number(plan.target as u64),
            Text(b" of "),
            Number(plan.targets as u64),
            Text(b", copied "),
            Number(plan.copied as u64),
            Text(b" of "),
            Number(plan.size as u64),
            Text(b", steps "),
            Number(plan.steps),
        ],
        out,
    )
}

/// The line of the running plan, where one runs.
pub(crate) fn write_plan(plan: &Option<PlanLine>, out: &mut Vec<u8>) -> Result<(), AllocError>
    ensures { OnOk result (out.new.items ≡ out.old.items ++ plan_line plan.now) }
{
    match plan {
        None => Ok(()),
        Some(plan) => write_running(plan, out),
    }
}

fn parents_piece(parents: &[u32]) -> Piece<'_>
    ensures { piece_text result ≡ parents_text parents.now }
{
    match parents {
        [] => Text(b"none"),
        _ => Numbers(parents),
    }
}

fn write_version(version: &LogLine, out: &mut Vec<u8>) -> Result<(), AllocError>
    ensures { OnOk result (out.new.items ≡ out.old.items ++ log_line version.now) }
{
    write_line(
        &[
            Text(b"version "),
            Number(version.vid as u64),
            Text(b": "),
            Number(version.rows as u64),
            Text(b" rows, "),
            Number(version.fresh as u64),
            Text(b" new, parents "),
            parents_piece(version.parents.as_slice()),
            Text(b", "),
            Text(version.message.as_bytes()),
        ],
        out,
    )
}

/// A line for each version.
pub(crate) fn write_log(versions: &[LogLine], out: &mut Vec<u8>) -> Result<(), AllocError>
    ensures { OnOk result (out.new.items ≡ out.old.items ++ flat_map log_line versions.now) }
{
    for version in versions {
        write_version(version, out)?;
    }
    Ok(())
}

fn write_cvd(cvd: &CvdLine, out: &mut Vec<u8>) -> Result<(), AllocError>
    ensures { OnOk result (out.new.items ≡ out.old.items ++ cvd_line cvd.now) }
{
    write_line(
        &[
            Text(cvd.name.as_bytes()),
            Text(b": "),
            Number(cvd.versions as u64),
            Text(b" versions, "),
            Number(cvd.records as u64),
            Text(b" records"),
        ],
        out,
    )
}

/// A line for each dataset.
pub(crate) fn write_cvds(cvds: &[CvdLine], out: &mut Vec<u8>) -> Result<(), AllocError>
    ensures { OnOk result (out.new.items ≡ out.old.items ++ flat_map cvd_line cvds.now) }
{
    for cvd in cvds {
        write_cvd(cvd, out)?;
    }
    Ok(())
}

fn write_table(table: &TableLine, out: &mut Vec<u8>) -> Result<(), AllocError>
    ensures { OnOk result (out.new.items ≡ out.old.items ++ table_line table.now) }
{
    write_line(
        &[
            Text(table.user.as_bytes()),
            Text(b"."),
            Text(table.table.as_bytes()),
            Text(b": "),
            Text(table.cvd.as_bytes()),
            Text(b" "),
            Text(table.vids.as_bytes()),
        ],
        out,
    )
}

/// A line for each staged table.
pub(crate) fn write_tables(tables: &[TableLine], out: &mut Vec<u8>) -> Result<(), AllocError>
    ensures { OnOk result (out.new.items ≡ out.old.items ++ flat_map table_line tables.now) }
{
    for table in tables {
        write_table(table, out)?;
    }
    Ok(())
}

fn write_budget(p: u64, budget: &BudgetLine, out: &mut Vec<u8>) -> Result<(), AllocError>
    ensures { OnOk result (out.new.items ≡ out.old.items ++ budget_line p budget.now) }
{
    write_line(
        &[
            Text(b"p "),
            Number(p),
            Text(b": depth "),
            Number(budget.depth as u64),
            Text(b", partitions "),
            Number(budget.partitions as u64),
            Text(b", stored "),
            Number(budget.stored),
            Text(b", cost "),
            Number(budget.cost),
        ],
        out,
    )
}

/// A line for each threshold from 1 / 100 on.
pub(crate) fn write_budgets(budgets: &[BudgetLine], out: &mut Vec<u8>) -> Result<(), AllocError>
    ensures { OnOk result (out.new.items ≡ out.old.items ++ budget_lines 1 budgets.now) }
{
    for (i, budget) in budgets.iter().enumerate() {
        write_budget(i as u64 + 1, budget, out)?;
    }
    Ok(())
}
