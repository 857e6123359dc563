//! What `log` and `ls` tell.

ghost use Rattle.std.specs.Prelude.{◌≡◌, ◌+◌, ◌++◌, ◌≤◌, ◌<◌, ◌^◌, [], ◌∷◌, length, map, Some, IfOk, OnOk};
ghost use Rattle.ov_model.specs.Act.{log_lines, log_deed, ls_line, tells};
ghost use Rattle.ov_model.specs.Records.{fresh_in, records_of};
ghost use Rattle.ov_model.specs.World.{set_named};
ghost use Rattle.ov_model.specs.declared.reply.Reply.TheVariants as says;
ghost use Rattle.ov_plain_act.specs.Acts.{deed_of, session_of, lines_after};
ghost use Rattle.ov_plain_act.specs.Small.{AreSmall, AreSmallMoves, HaveFewRows, IsSmallSet};

use crate::deed::{Deed, no_cvd, tells};
use crate::session::Session;
use crate::world::{World, first_named};
use ov_answers::ls_line;
use ov_model::{CvdLine, LogLine, Reply};
use ov_plain::{Dataset, Rec, Version, onto, records_of};
use ov_value::Txt;
use sqlite_items::Items;
use std::alloc::{AllocError, Global};

/// How many of these records a version has first.
pub fn count_fresh(recs: &[Rec], origin: u32) -> u32
    requires { length recs.now < 2 ^ 32 }
    ensures is { result ≡ length (fresh_in recs.now origin) }
    ensures few { result ≤ length recs.now }
{
    match recs {
        [] => 0,
        [first, rest @ ..] => {
            if first.origin == origin {
                count_fresh(rest, origin) + 1
            } else {
                count_fresh(rest, origin)
            }
        }
    }
}

/// What `log` tells of a version, of which these are the records.
fn line_of(alloc: Global, vid: u32, version: &Version, own: &[Rec]) -> Result<LogLine, AllocError>
    requires rows { length version.now.rows < 2 ^ 32 }
    requires own { length own.now ≡ length version.now.rows }
    ensures { IfOk result (λ line. line ≡ record { vid = vid; rows = length version.now.rows; fresh = length (fresh_in own.now vid); parents = version.now.parents; message = version.now.message }) }
{
    let parents = Items::from_slice(alloc, version.parents.as_slice())?;
    let message = version.message.copy(alloc)?;
    Ok(LogLine {
        vid,
        rows: version.rows.len() as u32,
        fresh: count_fresh(own, vid),
        parents,
        message,
    })
}

/// Adds what `log` tells of these versions; `done` are the records of those before them.
fn add_lines(
    alloc: Global,
    mut done: Items<Items<Rec>>,
    versions: &[Version],
    found: &mut Items<LogLine>,
) -> Result<(), AllocError>
    requires few { length done + length versions.now ≤ 65535 }
    requires rows { HaveFewRows versions.now }
    ensures { OnOk result (found.new ≡ found.old ++ lines_after done versions.now) }
{
    match versions {
        [] => Ok(()),
        [version, rest @ ..] => {
            let own = records_of(alloc, version, done.as_slice())?;
            let vid = done.len() as u32 + 1;
            found.push(line_of(alloc, vid, version, own.as_slice())?)?;
            done.push(own)?;
            add_lines(alloc, done, rest, found)
        }
    }
}

/// What `log` tells of a dataset.
fn log_lines(alloc: Global, set: &Dataset) -> Result<Items<LogLine>, AllocError>
    requires { IsSmallSet set.now }
    ensures { IfOk result (λ lines. lines ≡ log_lines [] set.now.cvd.versions) }
{
    let mut lines = Items::new(alloc);
    add_lines(
        alloc,
        Items::new(alloc),
        set.cvd.versions.as_slice(),
        &mut lines,
    )?;
    Ok(lines)
}

/// What `log` of this dataset does.
fn log_of(alloc: Global, session: &Session, name: &Txt, set: &Dataset) -> Result<Deed, AllocError>
    requires { IsSmallSet set.now }
    ensures is { IfOk result (λ deed. deed_of deed ≡ log_deed (session_of session.now) name.now (Some set.now)) }
    ensures small { IfOk result (λ deed. AreSmallMoves deed.moves) }
{
    let versions = log_lines(alloc, set)?;
    tells(alloc, session, Reply::Log { versions })
}

/// What `log` does.
pub fn log_deed(
    alloc: Global,
    world: &World,
    session: &Session,
    name: &Txt,
) -> Result<Deed, AllocError>
    requires { AreSmall world.now.sets }
    ensures is { IfOk result (λ deed. deed_of deed ≡ log_deed (session_of session.now) name.now (set_named world.now name.now)) }
    ensures small { IfOk result (λ deed. AreSmallMoves deed.moves) }
{
    match first_named(world.sets.as_slice(), name) {
        None => no_cvd(alloc, session, name),
        Some(set) => log_of(alloc, session, name, set),
    }
}

/// What `ls` tells of these datasets.
fn sets_shown(alloc: Global, sets: &[Dataset]) -> Result<Items<CvdLine>, AllocError>
    requires { AreSmall sets.now }
    ensures { IfOk result (λ lines. lines ≡ map ls_line sets.now) }
{
    match sets {
        [] => Ok(Items::new(alloc)),
        [set, rest @ ..] => {
            let later = sets_shown(alloc, rest)?;
            onto(alloc, ls_line(alloc, set)?, later)
        }
    }
}

/// What `ls` does.
pub fn ls_deed(alloc: Global, world: &World, session: &Session) -> Result<Deed, AllocError>
    requires { AreSmall world.now.sets }
    ensures is { IfOk result (λ deed. deed_of deed ≡ tells (session_of session.now) (says.Ls (map ls_line world.now.sets))) }
    ensures small { IfOk result (λ deed. AreSmallMoves deed.moves) }
{
    let cvds = sets_shown(alloc, world.sets.as_slice())?;
    tells(alloc, session, Reply::Ls { cvds })
}
