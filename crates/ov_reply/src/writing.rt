//! The replies.

ghost use Rattle.std.specs.Prelude.{◌≡◌, ◌≢◌, ◌++◌, ◌∷◌, ℕ, List, [], true, false, IfOk, OnOk, length, codes};
ghost use Rattle.ov_model.specs.declared.reply.Reply.TheVariants as says;
ghost use Rattle.ov_model.specs.Replies.{has_text, is_error as is_error_of, reply_text, optimize_line, chosen_line, stored_line, count_line};

use crate::listed::{write_budgets, write_cvds, write_log, write_parts, write_plan, write_tables};
use crate::pieces::Piece::{self, Number, Text};
use crate::pieces::{write_line, write_pieces};
use crate::refusal::{number_of, write_text};
use ov_model::{Refusal, Reply};
use ov_value::Txt;
use std::alloc::{AllocError, Global};

/// Whether it is an error.
pub fn is_error(answer: &Reply) -> bool
    ensures { result ≡ is_error_of answer.now }
{
    matches!(answer, Reply::Refused(_))
}

/// The text of a reply: its lines, each ended by a line feed. No reply that a run of a script gives is without one.
pub fn reply(alloc: Global, answer: &Reply) -> Result<Vec<u8>, AllocError>
    ensures text { IfOk result (λ text. text.items ≡ reply_text answer.now) }
    ensures some { has_text answer.now ≡ true → IfOk result (λ text. text.items ≢ []) }
{
    let mut out = Vec::new(alloc);
    write_reply(answer, &mut out)?;
    Ok(out)
}

fn write_reply(answer: &Reply, out: &mut Vec<u8>) -> Result<(), AllocError>
    ensures { OnOk result (out.new.items ≡ out.old.items ++ reply_text answer.now) }
{
    match answer {
        Reply::Init { cvd, rows } => write_init(cvd, *rows, out),
        Reply::Csv { text } => out.extend_from_slice(text.as_slice()),
        Reply::ToFile { cvd, rows, file } => write_to_file(cvd, *rows, file, out),
        Reply::Commit {
            cvd,
            vid,
            rows,
            fresh,
        } => write_commit(cvd, *vid, *rows, *fresh, out),
        Reply::Answer { text, rows } => {
            out.extend_from_slice(text.as_slice())?;
            write_count(*rows, b"rows", out)
        }
        Reply::Optimize {
            depth,
            partitions,
            stored,
            records,
            members,
            cost,
            steps,
        } => write_optimize(
            *depth,
            *partitions,
            *stored,
            *records,
            *members,
            *cost,
            *steps,
            out,
        ),
        Reply::Within {
            lines,
            chosen,
            depth,
            partitions,
            stored,
            records,
            members,
            cost,
            steps,
        } => {
            write_budgets(lines.as_slice(), out)?;
            write_chosen(*chosen, out)?;
            write_optimize(
                *depth,
                *partitions,
                *stored,
                *records,
                *members,
                *cost,
                *steps,
                out,
            )
        }
        Reply::Advise {
            cost,
            best,
            optimize,
        } => write_advise(*cost, *best, *optimize, out),
        Reply::Migrate { taken, left } => write_migrate(*taken, *left, out),
        Reply::Layout {
            parts,
            plan,
            stored,
            cost,
        } => {
            write_parts(parts.as_slice(), out)?;
            write_plan(plan, out)?;
            write_stored(*stored, *cost, out)
        }
        Reply::Log { versions } => write_log(versions.as_slice(), out),
        Reply::Ls { cvds } => {
            write_cvds(cvds.as_slice(), out)?;
            write_count(cvds.as_slice().len() as u64, b"datasets", out)
        }
        Reply::Dropped { cvd } => write_line(&[Text(cvd.as_bytes()), Text(b": dropped")], out),
        Reply::Checkpoint { datasets } => write_checkpoint(*datasets, out),
        Reply::Generate {
            cvd,
            versions,
            records,
            members,
        } => write_generate(cvd, *versions, *records, *members, out),
        Reply::User { name } => write_line(&[Text(b"user "), Text(name.as_bytes())], out),
        Reply::Whoami { name } => write_line(&[Text(name.as_bytes())], out),
        Reply::Unstaged { user, table } => write_unstaged(user, table, out),
        Reply::Tables { tables } => {
            write_tables(tables.as_slice(), out)?;
            write_count(tables.as_slice().len() as u64, b"tables", out)
        }
        Reply::Refused(refusal) => write_refused(refusal, out),
    }
}

fn write_refused(refusal: &Refusal, out: &mut Vec<u8>) -> Result<(), AllocError>
    ensures { OnOk result (out.new.items ≡ out.old.items ++ reply_text (says.Refused refusal.now)) }
{
    write_pieces(
        &[Text(b"error "), Number(number_of(refusal)), Text(b": ")],
        out,
    )?;
    write_text(refusal, out)?;
    write_line(&[], out)?;
    Ok(())
}

fn write_init(cvd: &Txt, rows: u32, out: &mut Vec<u8>) -> Result<(), AllocError>
    ensures { OnOk result (out.new.items ≡ out.old.items ++ reply_text (says.Init cvd.now rows)) }
{
    write_line(
        &[
            Text(cvd.as_bytes()),
            Text(b": version 1 ("),
            Number(rows as u64),
            Text(b" rows)"),
        ],
        out,
    )
}

fn write_to_file<'a>(
    cvd: &'a Txt,
    rows: u32,
    file: &'a Txt,
    out: &mut Vec<u8>,
) -> Result<(), AllocError>
    ensures { OnOk result (out.new.items ≡ out.old.items ++ reply_text (says.ToFile cvd.now rows file.now)) }
{
    write_line(
        &[
            Text(cvd.as_bytes()),
            Text(b": "),
            Number(rows as u64),
            Text(b" rows to "),
            Text(file.as_bytes()),
        ],
        out,
    )
}

fn write_commit(
    cvd: &Txt,
    vid: u32,
    rows: u32,
    fresh: u32,
    out: &mut Vec<u8>,
) -> Result<(), AllocError>
    ensures { OnOk result (out.new.items ≡ out.old.items ++ reply_text (says.Commit cvd.now vid rows fresh)) }
{
    write_line(
        &[
            Text(cvd.as_bytes()),
            Text(b": version "),
            Number(vid as u64),
            Text(b" ("),
            Number(rows as u64),
            Text(b" rows, "),
            Number(fresh as u64),
            Text(b" new)"),
        ],
        out,
    )
}

fn write_optimize(
    depth: u32,
    partitions: u32,
    stored: u64,
    records: u64,
    members: u64,
    cost: u64,
    steps: u64,
    out: &mut Vec<u8>,
) -> Result<(), AllocError>
    ensures { OnOk result (out.new.items ≡ out.old.items ++ optimize_line depth partitions stored records members cost steps) }
{
    write_line(
        &[
            Text(b"depth "),
            Number(depth as u64),
            Text(b", partitions "),
            Number(partitions as u64),
            Text(b", stored "),
            Number(stored),
            Text(b", records "),
            Number(records),
            Text(b", members "),
            Number(members),
            Text(b", cost "),
            Number(cost),
            Text(b", steps "),
            Number(steps),
        ],
        out,
    )
}

fn write_chosen(chosen: u32, out: &mut Vec<u8>) -> Result<(), AllocError>
    ensures { OnOk result (out.new.items ≡ out.old.items ++ chosen_line chosen) }
{
    write_line(
        &[Text(b"chosen "), Number(chosen as u64), Text(b"/100")],
        out,
    )
}

fn write_advise(cost: u64, best: u64, optimize: bool, out: &mut Vec<u8>) -> Result<(), AllocError>
    ensures { OnOk result (out.new.items ≡ out.old.items ++ reply_text (says.Advise cost best optimize)) }
{
    let advice: &[u8] = if optimize { b": optimize" } else { b": keep" };
    write_line(
        &[
            Text(b"cost "),
            Number(cost),
            Text(b", best "),
            Number(best),
            Text(advice),
        ],
        out,
    )
}

fn write_migrate(taken: u32, left: u64, out: &mut Vec<u8>) -> Result<(), AllocError>
    ensures { OnOk result (out.new.items ≡ out.old.items ++ reply_text (says.Migrate taken left)) }
{
    write_line(
        &[
            Text(b"steps "),
            Number(taken as u64),
            Text(b" left "),
            Number(left),
        ],
        out,
    )
}

fn write_stored(stored: u64, cost: u64, out: &mut Vec<u8>) -> Result<(), AllocError>
    ensures { OnOk result (out.new.items ≡ out.old.items ++ stored_line stored cost) }
{
    write_line(
        &[
            Text(b"stored "),
            Number(stored),
            Text(b", cost "),
            Number(cost),
        ],
        out,
    )
}

fn write_checkpoint(datasets: u32, out: &mut Vec<u8>) -> Result<(), AllocError>
    ensures { OnOk result (out.new.items ≡ out.old.items ++ reply_text (says.Checkpoint datasets)) }
{
    write_line(
        &[
            Text(b"checkpoint: "),
            Number(datasets as u64),
            Text(b" datasets"),
        ],
        out,
    )
}

fn write_generate(
    cvd: &Txt,
    versions: u32,
    records: u32,
    members: u64,
    out: &mut Vec<u8>,
) -> Result<(), AllocError>
    ensures { OnOk result (out.new.items ≡ out.old.items ++ reply_text (says.Generate cvd.now versions records members)) }
{
    write_line(
        &[
            Text(cvd.as_bytes()),
            Text(b": "),
            Number(versions as u64),
            Text(b" versions, "),
            Number(records as u64),
            Text(b" records, "),
            Number(members),
            Text(b" members"),
        ],
        out,
    )
}

fn write_unstaged<'a>(user: &'a Txt, table: &'a Txt, out: &mut Vec<u8>) -> Result<(), AllocError>
    ensures { OnOk result (out.new.items ≡ out.old.items ++ reply_text (says.Unstaged user.now table.now)) }
{
    write_line(
        &[
            Text(user.as_bytes()),
            Text(b"."),
            Text(table.as_bytes()),
            Text(b": unstaged"),
        ],
        out,
    )
}

/// How many of them there are.
fn write_count(n: u64, what: &[u8], out: &mut Vec<u8>) -> Result<(), AllocError>
    ensures { OnOk result (out.new.items ≡ out.old.items ++ count_line n what.now) }
{
    write_line(
        &[Text(b"("), Number(n), Text(b" "), Text(what), Text(b")")],
        out,
    )
}
