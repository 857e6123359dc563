// The commands that take a table out for a user, and commit it.
ghost use Rattle.std.specs.Prelude.{◌≡◌, ◌≢◌, ◌≤◌, ◌+◌, ℕ, List, Option, [], true, false, None, Some, IfOk, IfErr, IsErrOf, OnOk, length};
ghost use Rattle.ov_core.specs.AtWorld.{IsAtWorld};
ghost use Rattle.ov_core.specs.Held.{IsByJournal};
ghost use Rattle.ov_host.specs.Host.{Rose};
ghost use Rattle.law_runs.specs.Serving.{session_of};
ghost use Rattle.law_steps.specs.Turns.{running};
ghost use Rattle.ov_model.specs.Act.{repeated_key};
ghost use Rattle.ov_model.specs.Registry.{stage_name, stage_schema};
ghost use Rattle.ov_model.specs.World.{World, Dataset, set_named};
ghost use Rattle.ov_model.specs.declared.command.Command.TheVariants as asks;
ghost use Rattle.ov_registry.specs.Last.{is_foreign_in, last_vid};
ghost use Rattle.ov_registry.specs.declared.registry.Registry.TheVariants as registry;
ghost use Rattle.ov_staging.specs.Changing.{AreRowsDamaged};
ghost use Rattle.ov_store.specs.Kept.{MayCall};
ghost use Rattle.ov_store.specs.Refusals.{refused as refused_of};
ghost use Rattle.ov_store.specs.Scanning.{scan_off, set_in};
ghost use Rattle.ov_session.specs.Bounds.{bytes_in};
ghost use Rattle.ov_session.specs.Commands.{Acts, Attended, Goes, IfNoFile, IsDamageOf, IsMergeOf, IsNoDamage};
ghost use Rattle.ov_session.specs.Serving.{IsServed};
ghost use Rattle.ov_session.specs.Staging.{IsPutDamaged, keeps};
ghost use Rattle.ov_session.specs.Standing.{IsAtSilently, IsIdleBehind};

use crate::changing::commit;
use crate::errors::{EndErr, ended, refused};
use crate::reading::{checkout, give, merged};
use ov_checkout::Checkout;
use ov_host::{Host, Stage};
use ov_model::Reply;
use ov_registry::{Registry, change};
use ov_staging::{Next, Origin, file_of_table, may_stage, origin_of};
use ov_store::Store;
use ov_value::{Row, Txt};
use std::alloc::Global;

// Puts these rows in the place of the staged tables' last ones, and behind that the merge into the table's file.
fn keep_table<H: Host, T: Stage>(
    alloc: Global,
    store: &mut Store,
    host: &mut H,
    stage: &mut T,
    rows: &[Row],
    cvd: Txt,
    made: Checkout,
    file: Txt,
) -> Result<Reply, EndErr>
    requires call { MayCall store.old (H.state host.old) }
    requires own { is_foreign_in stage_schema (set_in store.old.held.numbers stage_name) ≡ false }
    requires once { repeated_key stage_schema [] 1 rows.now ≡ None }
    ensures goes { Goes (H.state host.old) (H.state host.new) }
    ensures attended { Attended (T.staged stage.old) (T.staged stage.new) }
    ensures fetched { (H.state host.new).fetched ≤ (H.state host.old).fetched + bytes_in (set_in store.old.held.numbers stage_name) (last_vid (set_in store.old.held.numbers stage_name)) }
    ensures cause { IsErrOf result EndErr.Host → Rose (H.state host.old).faults (H.state host.new).faults }
    ensures stage { IsErrOf result EndErr.Stage → Rose (T.staged stage.old).faults (T.staged stage.new).faults }
    ensures damaged { IfErr result (IsDamageOf (AreRowsDamaged registry.Stage (set_in store.old.held.numbers stage_name) rows.now store.old.held (H.state host.new))) }
    ensures undamaged { (w : World) → IsAtWorld w store.old.held (H.state host.old) → IfErr result IsNoDamage }
    ensures usable { OnOk result (MayCall store.new (H.state host.new)) }
    ensures begins_none { running store.old.held.numbers ≡ None → OnOk result (running store.new.held.numbers ≡ None) }
    ensures by_journal { IsByJournal store.old.held (H.state host.old) → (IsErrOf result EndErr.Host → ⊥) → IsByJournal store.new.held (H.state host.new) }
    ensures at { (w : World) → IsAtWorld w store.old.held (H.state host.old) → OnOk result (IsAtSilently store.new.held (H.state host.old) (H.state host.new)) }
    ensures seen { IfOk result (IfNoFile ⊥) }
    ensures idle { IfErr result (λ why. IsIdleBehind why store.old store.new (T.staged stage.old) (T.staged stage.new) (H.state host.old) (H.state host.new)) }
    ensures acts { (w : World) (user : List ℕ) (d : Dataset) (vids : List ℕ) → (T.staged stage.old).tells ≡ true → IsAtWorld w store.old.held (H.state host.old)
        → IsMergeOf d vids made → d.cvd.name ≡ cvd
        → Acts (keeps w (session_of (T.staged stage.old).files user) rows.now d vids file) (session_of (T.staged stage.old).files user)
        (session_of (T.staged stage.new).files user) w result store.old.held store.new.held (H.state host.old) (H.state host.new) }
{
    let name = Txt::new(alloc, "orpheus_stage")?;
    match change(alloc, store, host, Registry::Stage, rows) {
        Ok(()) => give(alloc, stage, cvd, made, Some(file)),
        Err(off) => refused(off, name),
    }
}

// Reads the merge of these versions, and keeps it as the table.
fn put_table<H: Host, T: Stage>(
    alloc: Global,
    store: &mut Store,
    host: &mut H,
    stage: &mut T,
    rows: &[Row],
    cvd: Txt,
    vids: &[u64],
    file: Txt,
) -> Result<Reply, EndErr>
    requires call { MayCall store.old (H.state host.old) }
    requires own { is_foreign_in stage_schema (set_in store.old.held.numbers stage_name) ≡ false }
    requires once { repeated_key stage_schema [] 1 rows.now ≡ None }
    requires listed { refused_of cvd (scan_off store.old.held.numbers cvd vids.now) ≡ None }
    ensures goes { Goes (H.state host.old) (H.state host.new) }
    ensures attended { Attended (T.staged stage.old) (T.staged stage.new) }
    ensures fetched { (H.state host.new).fetched ≤ (H.state host.old).fetched
        + (bytes_in (set_in store.old.held.numbers cvd) vids.now + bytes_in (set_in store.old.held.numbers stage_name) (last_vid (set_in store.old.held.numbers stage_name))) }
    ensures cause { IsErrOf result EndErr.Host → Rose (H.state host.old).faults (H.state host.new).faults }
    ensures stage { IsErrOf result EndErr.Stage → Rose (T.staged stage.old).faults (T.staged stage.new).faults }
    ensures damaged { IfErr result (IsDamageOf (IsPutDamaged (set_in store.old.held.numbers cvd) vids.now
        (set_in store.old.held.numbers stage_name) rows.now store.old.held (H.state host.new))) }
    ensures undamaged { (w : World) → IsAtWorld w store.old.held (H.state host.old) → IfErr result IsNoDamage }
    ensures usable { OnOk result (MayCall store.new (H.state host.new)) }
    ensures begins_none { running store.old.held.numbers ≡ None → OnOk result (running store.new.held.numbers ≡ None) }
    ensures by_journal { IsByJournal store.old.held (H.state host.old) → (IsErrOf result EndErr.Host → ⊥) → IsByJournal store.new.held (H.state host.new) }
    ensures at { (w : World) → IsAtWorld w store.old.held (H.state host.old) → OnOk result (IsAtSilently store.new.held (H.state host.old) (H.state host.new)) }
    ensures seen { IfOk result (IfNoFile ⊥) }
    ensures idle { IfErr result (λ why. IsIdleBehind why store.old store.new (T.staged stage.old) (T.staged stage.new) (H.state host.old) (H.state host.new)) }
    ensures acts { (w : World) (user : List ℕ) (d : Dataset) → (T.staged stage.old).tells ≡ true → IsAtWorld w store.old.held (H.state host.old)
        → set_named w cvd ≡ Some d
        → Acts (keeps w (session_of (T.staged stage.old).files user) rows.now d vids.now file) (session_of (T.staged stage.old).files user)
        (session_of (T.staged stage.new).files user) w result store.old.held store.new.held (H.state host.old) (H.state host.new) }
{
    match merged(alloc, store, host, cvd.as_str(), vids) {
        Ok(made) => keep_table(alloc, store, host, stage, rows, cvd, made, file),
        Err(off) => refused(off, cvd),
    }
}

// Checks these versions of a dataset out as a table of the user's: one change of the staged tables, and behind it the table's file,
// which after a fault of the stage or a stop may be missing or hold anything.
fn stage_table<H: Host, T: Stage>(
    alloc: Global,
    store: &mut Store,
    host: &mut H,
    stage: &mut T,
    user: &Txt,
    cvd: Txt,
    vids: &[u64],
    table: &Txt,
) -> Result<Reply, EndErr>
    requires call { MayCall store.old (H.state host.old) }
    ensures { (file : Option (List ℕ)) → IsServed user.now user.now (asks.Checkout cvd vids.now file (Some table.now)) result store.old store.new
        (T.staged stage.old) (T.staged stage.new) (H.state host.old) (H.state host.new) }
{
    match may_stage(alloc, store, host, user, &cvd, vids, table) {
        Ok(Next::Rows(rows)) => match file_of_table(alloc, user, table) {
            Ok(file) => put_table(alloc, store, host, stage, rows.as_slice(), cvd, vids, file),
            Err(_) => Err(EndErr::Memory),
        },
        Ok(Next::Refused(refusal)) => Ok(Reply::Refused(refusal)),
        Err(off) => ended(Err(off)),
    }
}

/// Gives the merge of these versions of a dataset: prints it, puts it into a file, or stages it as a table of the user's.
pub fn check_out<H: Host, T: Stage>(
    alloc: Global,
    store: &mut Store,
    host: &mut H,
    stage: &mut T,
    user: &Txt,
    cvd: Txt,
    vids: &[u64],
    file: Option<Txt>,
    table: Option<Txt>,
) -> Result<Reply, EndErr>
    requires call { MayCall store.old (H.state host.old) }
    ensures { IsServed user.now user.now (asks.Checkout cvd vids.now file table) result store.old store.new
        (T.staged stage.old) (T.staged stage.new) (H.state host.old) (H.state host.new) }
{
    match table {
        Some(table) => stage_table(alloc, store, host, stage, user, cvd, vids, &table),
        None => checkout(alloc, store, host, stage, cvd, vids, file),
    }
}

/// Commits the file of a user's staged table as the next version of the dataset that it came from, on the versions that it came from.
/// The table stays staged.
pub fn commit_staged<H: Host, T: Stage>(
    alloc: Global,
    store: &mut Store,
    host: &mut H,
    stage: &mut T,
    owner: &Txt,
    table: &Txt,
    message: &Txt,
) -> Result<Reply, EndErr>
    requires call { MayCall store.old (H.state host.old) }
    requires message { length message.now ≤ 1024 }
    ensures { (user : List ℕ) → IsServed user user (asks.CommitStaged owner.now table.now message.now) result store.old store.new
        (T.staged stage.old) (T.staged stage.new) (H.state host.old) (H.state host.new) }
{
    match origin_of(alloc, store, host, owner, table) {
        Ok(Origin::From { cvd, vids }) => match file_of_table(alloc, owner, table) {
            Ok(file) => commit(
                alloc,
                store,
                host,
                stage,
                cvd,
                vids.as_slice(),
                &[],
                &file,
                message,
            ),
            Err(_) => Err(EndErr::Memory),
        },
        Ok(Origin::Refused(refusal)) => Ok(Reply::Refused(refusal)),
        Err(off) => ended(Err(off)),
    }
}
