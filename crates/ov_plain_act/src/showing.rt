//! Checkouts: the merge of the listed versions as the text of a file, printed or put into a file.

ghost use Rattle.std.specs.Prelude.{◌≡◌, ◌≤◌, ◌<◌, ◌^◌, [], length, Some, None, IfOk};
ghost use Rattle.ov_model.specs.Act.{gives, checkout_deed, merge_of, vids_refusal};
ghost use Rattle.ov_model.specs.World.{set_named};
ghost use Rattle.ov_model.specs.declared.reply.Reply.TheVariants as says;
ghost use Rattle.ov_plain_act.specs.Acts.{deed_of, session_of};
ghost use Rattle.ov_plain_act.specs.Small.{AreSmall, AreSmallMoves, IsSmallSet};

use crate::deed::{Deed, no_cvd, refuses, tells, tells_in};
use crate::session::Session;
use crate::world::{World, first_named};
use ov_answers::{merge_of, vids_refusal};
use ov_model::{Reply, Seq};
use ov_plain::{Cvd, Dataset};
use ov_plain_csv::text_of;
use ov_value::{Row, Txt};
use std::alloc::{AllocError, Global};

/// What is told of rows that are put into a file.
pub fn to_file(alloc: Global, cvd: &Cvd, rows: &[Row], file: &Txt) -> Result<Reply, AllocError>
    requires { length rows.now < 2 ^ 32 }
    ensures { IfOk result (λ reply. reply ≡ says.ToFile cvd.now.name (length rows.now) file.now) }
{
    Ok(Reply::ToFile {
        cvd: cvd.name.copy(alloc)?,
        rows: rows.len() as u32,
        file: file.copy(alloc)?,
    })
}

/// These rows, printed or put into a file.
fn gives(
    alloc: Global,
    session: &Session,
    cvd: &Cvd,
    rows: &[Row],
    file: &Option<Txt>,
) -> Result<Deed, AllocError>
    requires { length rows.now < 2 ^ 32 }
    ensures is { IfOk result (λ deed. deed_of deed ≡ gives (session_of session.now) cvd.now rows.now file.now) }
    ensures small { IfOk result (λ deed. AreSmallMoves deed.moves) }
{
    let text = text_of(alloc, &cvd.schema, rows)?;
    match file {
        None => tells(alloc, session, Reply::Csv { text }),
        Some(file) => {
            let later = session.with_file(alloc, file, text)?;
            let reply = to_file(alloc, cvd, rows, file)?;
            Ok(tells_in(alloc, later, reply))
        }
    }
}

/// The rows that a checkout gives. There are fewer than 2^32.
pub fn rows_merged(alloc: Global, set: &Dataset, vids: &[u64]) -> Result<Seq<Row>, AllocError>
    requires small { IsSmallSet set.now }
    requires few { length vids.now ≤ 65535 }
    ensures is { IfOk result (λ rows. rows ≡ merge_of set.now.cvd vids.now) }
    ensures count { IfOk result (λ rows. length rows < 2 ^ 32) }
{
    let rows = merge_of(alloc, &set.cvd, vids)?;
    Ok(rows)
}

/// What a checkout of this dataset does.
fn checkout_of(
    alloc: Global,
    session: &Session,
    vids: &[u64],
    file: &Option<Txt>,
    name: &Txt,
    set: &Dataset,
) -> Result<Deed, AllocError>
    requires small { IsSmallSet set.now }
    requires few { length vids.now ≤ 65535 }
    ensures is { IfOk result (λ deed. deed_of deed ≡ checkout_deed (session_of session.now) vids.now file.now name.now (Some set.now)) }
    ensures small { IfOk result (λ deed. AreSmallMoves deed.moves) }
{
    let count = set.cvd.versions.len() as u64;
    match vids_refusal(alloc, count, &[], vids)? {
        Some(refusal) => refuses(alloc, session, refusal),
        None => {
            let rows = rows_merged(alloc, set, vids)?;
            gives(alloc, session, &set.cvd, rows.as_slice(), file)
        }
    }
}

/// What a checkout does.
pub fn checkout_deed(
    alloc: Global,
    world: &World,
    session: &Session,
    name: &Txt,
    vids: &[u64],
    file: &Option<Txt>,
) -> Result<Deed, AllocError>
    requires small { AreSmall world.now.sets }
    requires few { length vids.now ≤ 65535 }
    ensures is { IfOk result (λ deed. deed_of deed ≡ checkout_deed (session_of session.now) vids.now file.now name.now (set_named world.now name.now)) }
    ensures small { IfOk result (λ deed. AreSmallMoves deed.moves) }
{
    match first_named(world.sets.as_slice(), name) {
        None => no_cvd(alloc, session, name),
        Some(set) => checkout_of(alloc, session, vids, file, name, set),
    }
}
