// The commands that change the store.
ghost use Rattle.std.specs.Prelude.{◌≡◌, ◌≢◌, ◌≤◌, ◌+◌, ℕ, List, [], true, false, Some, None, Ok, IsTrue, IsErrOf, IfOk, IfErr, OnOk, length};
ghost use Rattle.std.specs.FinMap.{get};
ghost use Rattle.std.specs.List.{All};
ghost use Rattle.ov_host.specs.Host.{Rose, State};
ghost use Rattle.ov_value.specs.Naming.{is_name};
ghost use Rattle.ov_value.specs.Spelling.{IsRow};
ghost use Rattle.ov_files.specs.Files.{file_rows};
ghost use Rattle.ov_model.specs.Act.{Session, columns_of, commit_deed, commit_refusal, commit_rows, drop_deed, init_deed, init_refusal, schema_with as schema_with_of, with_rows};
ghost use Rattle.ov_model.specs.Moves.{wide};
ghost use Rattle.ov_model.specs.World.{World, Dataset, set_named};
ghost use Rattle.ov_model.specs.declared.refusal.Refusal.{Refusal as RefusalValue};
ghost use Rattle.ov_core.specs.AtWorld.{IsAtWorld};
ghost use Rattle.ov_core.specs.Held.{IsByJournal};
ghost use Rattle.law_steps.specs.Turns.{running};
ghost use Rattle.law_runs.specs.Serving.{files_of, session_of};
ghost use Rattle.ov_store.specs.Beginning.{IsShort};
ghost use Rattle.ov_read.specs.Sizes.{bytes_for};
ghost use Rattle.ov_store.specs.Committing.{IfSet, IsDamagedAt, Set, TakesRows, adds, commit_off, parents_off_in, schema_for};
ghost use Rattle.ov_store.specs.Kept.{MayCall};
ghost use Rattle.ov_store.specs.Scanning.{set_in};
ghost use Rattle.ov_store.specs.declared.errors.StoreErr.{StoreErr as StoreErrValue};
ghost use Rattle.ov_session.specs.Bounds.{bytes_in};
ghost use Rattle.ov_session.specs.Commands.{Acts, Attended, Goes, HasFileRows, HasMissed, HasRowsOf, HasSet, HasShortRows, HasWideRows, IfDamaged, IfNoFile, IsAskedOf, IsCommitDamaged, IsDamageOf, IsFoundAs, IsFoundBy, IsNoDamage, IsNoHost, begun};
ghost use Rattle.ov_session.specs.Reads.{commit_row_off};
ghost use Rattle.ov_session.specs.Standing.{Idle, IsAtSilently, IsIdle};

use crate::errors::{EndErr, refused, schema_refused};
use ov_files::{FileRows, rows_of_file};
use ov_host::{Host, Stage};
use ov_model::{Reply, Seq};
use ov_segment::RowTable;
use ov_store::{Store, schema_with};
use ov_value::{Column, Schema, Txt};
use std::alloc::Global;

// Makes a dataset of these rows, whose name is free.
fn begin<H: Host>(
    store: &mut Store,
    host: &mut H,
    cvd: Txt,
    schema: Schema,
    rows: RowTable,
) -> Result<Reply, EndErr>
    requires call { MayCall store.old (H.state host.old) }
    requires name { IsTrue (is_name cvd) }
    requires fit { All (IsRow schema) rows }
    requires short { All IsShort rows }
    ensures goes { Goes (H.state host.old) (H.state host.new) }
    ensures fetched { (H.state host.new).fetched ≡ (H.state host.old).fetched }
    ensures cause { IsErrOf result EndErr.Host → Rose (H.state host.old).faults (H.state host.new).faults }
    ensures host_alone { IsErrOf result EndErr.Stage → ⊥ }
    ensures undamaged { IfErr result IsNoDamage }
    ensures usable { OnOk result (MayCall store.new (H.state host.new)) }
    ensures begins_none { running store.old.held.numbers ≡ None → OnOk result (running store.new.held.numbers ≡ None) }
    ensures by_journal { IsByJournal store.old.held (H.state host.old) → (IsErrOf result EndErr.Host → ⊥) → IsByJournal store.new.held (H.state host.new) }
    ensures at { (w : World) → IsAtWorld w store.old.held (H.state host.old) → OnOk result (IsAtSilently store.new.held (H.state host.old) (H.state host.new)) }
    ensures seen { IfOk result (IfNoFile ⊥) }
    ensures acts { (w : World) (s : Session) → IsAtWorld w store.old.held (H.state host.old) → init_refusal w cvd ≡ None
        → Acts (with_rows w s schema false (begun s cvd schema) (Ok rows)) s s w result
        store.old.held store.new.held (H.state host.old) (H.state host.new) }
{
    match store.init(host, &cvd, schema, rows) {
        Ok(made) => Ok(Reply::Init {
            cvd,
            rows: made.rows,
        }),
        Err(off) => refused(off, cvd),
    }
}

/// Makes a dataset with version 1, of a file's rows.
pub fn init<H: Host, T: Stage>(
    alloc: Global,
    store: &mut Store,
    host: &mut H,
    stage: &mut T,
    cvd: Txt,
    schema: Schema,
    file: Txt,
) -> Result<Reply, EndErr>
    requires call { MayCall store.old (H.state host.old) }
    requires name { IsTrue (is_name cvd) }
    ensures goes { Goes (H.state host.old) (H.state host.new) }
    ensures attended { Attended (T.staged stage.old) (T.staged stage.new) }
    ensures fetched { (H.state host.new).fetched ≡ (H.state host.old).fetched }
    ensures cause { IsErrOf result EndErr.Host → Rose (H.state host.old).faults (H.state host.new).faults }
    ensures stage { IsErrOf result EndErr.Stage → Rose (T.staged stage.old).faults (T.staged stage.new).faults }
    ensures undamaged { IfErr result IsNoDamage }
    ensures usable { OnOk result (MayCall store.new (H.state host.new)) }
    ensures begins_none { running store.old.held.numbers ≡ None → OnOk result (running store.new.held.numbers ≡ None) }
    ensures by_journal { IsByJournal store.old.held (H.state host.old) → (IsErrOf result EndErr.Host → ⊥) → IsByJournal store.new.held (H.state host.new) }
    ensures at { (w : World) → IsAtWorld w store.old.held (H.state host.old) → OnOk result (IsAtSilently store.new.held (H.state host.old) (H.state host.new)) }
    ensures missed { IfOk result (IfNoFile (Rose (T.staged stage.old).misses (T.staged stage.new).misses)) }
    ensures idle { IfErr result (λ why. IsIdle why store.old store.new (T.staged stage.old) (T.staged stage.new) (H.state host.old) (H.state host.new)) }
    ensures acts { (w : World) (user : List ℕ) → (T.staged stage.old).tells ≡ true → IsAtWorld w store.old.held (H.state host.old)
        → Acts (init_deed w (session_of (T.staged stage.old).files user) cvd schema file) (session_of (T.staged stage.old).files user)
        (session_of (T.staged stage.new).files user) w result store.old.held store.new.held (H.state host.old) (H.state host.new) }
{
    match store.may_begin(cvd.as_str()) {
        Ok(()) => match rows_of_file(alloc, stage, &file, &schema)? {
            FileRows::Rows(rows) => begin(store, host, cvd, schema, rows),
            FileRows::Refused(refusal) => Ok(Reply::Refused(refusal)),
        },
        Err(off) => refused(off, cvd),
    }
}

// The next version of a dataset, of these rows, with these columns more.
fn next_version<H: Host>(
    store: &mut Store,
    host: &mut H,
    cvd: Txt,
    vids: &[u64],
    added: &[Column],
    rows: RowTable,
    message: &Txt,
) -> Result<Reply, EndErr>
    requires call { MayCall store.old (H.state host.old) }
    requires fit { (set : Set) → set_in store.old.held.numbers cvd ≡ Some set → TakesRows set.schema added.now rows }
    requires short { All IsShort rows }
    requires some { vids.now ≢ [] }
    requires message { length message.now ≤ 1024 }
    ensures goes { Goes (H.state host.old) (H.state host.new) }
    ensures fetched { (set : Set) → set_in store.old.held.numbers cvd ≡ Some set
        → (H.state host.new).fetched ≤ (H.state host.old).fetched + bytes_for set vids.now }
    ensures unread { (off : StoreErrValue) → parents_off_in (set_in store.old.held.numbers cvd) vids.now ≡ Some off
        → H.state host.new ≡ H.state host.old }
    ensures cause { IsErrOf result EndErr.Host → Rose (H.state host.old).faults (H.state host.new).faults }
    ensures host_alone { IsErrOf result EndErr.Stage → ⊥ }
    ensures damaged { IfErr result (IsDamageOf (λ page. (commit_off store.old.held cvd vids.now added.now rows ≡ None)
        × IfSet (λ set. IsDamagedAt set (record { vids = vids.now; message = message.now; added = added.now; rows = rows }) (H.state host.new) page)
        (set_in store.old.held.numbers cvd))) }
    ensures idle { IfErr result (IfDamaged (Idle store.old store.new (H.state host.old) (H.state host.new))) }
    ensures undamaged { (w : World) → IsAtWorld w store.old.held (H.state host.old) → IfErr result IsNoDamage }
    ensures usable { OnOk result (MayCall store.new (H.state host.new)) }
    ensures begins_none { running store.old.held.numbers ≡ None → OnOk result (running store.new.held.numbers ≡ None) }
    ensures by_journal { IsByJournal store.old.held (H.state host.old) → (IsErrOf result EndErr.Host → ⊥) → IsByJournal store.new.held (H.state host.new) }
    ensures at { (w : World) → IsAtWorld w store.old.held (H.state host.old) → OnOk result (IsAtSilently store.new.held (H.state host.old) (H.state host.new)) }
    ensures seen { IfOk result (IfNoFile ⊥) }
    ensures acts { (w : World) (s : Session) (d : Dataset) → IsAtWorld w store.old.held (H.state host.old) → set_named w cvd ≡ Some d
        → commit_refusal d vids.now ≡ None
        → Acts (with_rows w s (wide added.now d).cvd.schema (adds added.now) (commit_rows s d vids.now message.now added.now) (Ok rows)) s s w result
        store.old.held store.new.held (H.state host.old) (H.state host.new) }
{
    match store.commit(host, cvd.as_str(), vids, added, rows, message) {
        Ok(made) => Ok(Reply::Commit {
            cvd,
            vid: made.vid,
            rows: made.rows,
            fresh: made.fresh,
        }),
        Err(off) => refused(off, cvd),
    }
}

// What came before a commit's rows were stored.
#[derive(Drop)]
enum Asked {
    // The rows of its file.
    Rows(RowTable),
    // Its reply: it is refused.
    Said(Reply),
}

// The rows of a file by a schema.
fn rows_by<T: Stage>(
    alloc: Global,
    stage: &mut T,
    file: &Txt,
    schema: &Schema,
) -> Result<Asked, EndErr>
    ensures attended { Attended (T.staged stage.old) (T.staged stage.new) }
    ensures files { (T.staged stage.new).files ≡ (T.staged stage.old).files }
    ensures stage { IsErrOf result EndErr.Stage → Rose (T.staged stage.old).faults (T.staged stage.new).faults }
    ensures stage_alone { IfErr result IsNoHost }
    ensures fit { IfOk result (HasRowsOf schema.now) }
    ensures short { IfOk result HasShortRows }
    ensures missed { IfOk result (HasMissed (T.staged stage.old) (T.staged stage.new)) }
    ensures found { (T.staged stage.old).tells ≡ true
        → IfOk result (IsFoundAs (file_rows schema.now file.now (get (T.staged stage.old).files file.now))) }
{
    match rows_of_file(alloc, stage, file, schema)? {
        FileRows::Rows(rows) => Ok(Asked::Rows(rows)),
        FileRows::Refused(refusal) => Ok(Asked::Said(Reply::Refused(refusal))),
    }
}

// The rows of a file by the schema with these columns, where it takes them. Columns that it doesn't take are refused before the file
// is looked for.
fn wide_rows<T: Stage>(
    alloc: Global,
    stage: &mut T,
    file: &Txt,
    schema: &Schema,
    added: &[Column],
) -> Result<Asked, EndErr>
    ensures attended { Attended (T.staged stage.old) (T.staged stage.new) }
    ensures files { (T.staged stage.new).files ≡ (T.staged stage.old).files }
    ensures stage { IsErrOf result EndErr.Stage → Rose (T.staged stage.old).faults (T.staged stage.new).faults }
    ensures stage_alone { IfErr result IsNoHost }
    ensures fit { IfOk result (HasWideRows schema.now added.now) }
    ensures short { IfOk result HasShortRows }
    ensures missed { IfOk result (HasMissed (T.staged stage.old) (T.staged stage.new)) }
    ensures found { (T.staged stage.old).tells ≡ true
        → IfOk result (IsFoundBy (schema_with_of schema.now added.now) file.now (T.staged stage.old).files) }
{
    match schema_with(alloc, schema, added) {
        Ok(wide) => rows_by(alloc, stage, file, &wide),
        Err(off) => Ok(Asked::Said(Reply::Refused(schema_refused(off)?))),
    }
}

// The rows of a file for a version with these parents and columns, where the dataset may have one.
fn rows_for<T: Stage>(
    alloc: Global,
    store: &Store,
    stage: &mut T,
    cvd: &Txt,
    vids: &[u64],
    added: &[Column],
    file: &Txt,
) -> Result<Asked, EndErr>
    ensures attended { Attended (T.staged stage.old) (T.staged stage.new) }
    ensures files { (T.staged stage.new).files ≡ (T.staged stage.old).files }
    ensures stage { IsErrOf result EndErr.Stage → Rose (T.staged stage.old).faults (T.staged stage.new).faults }
    ensures stage_alone { IfErr result IsNoHost }
    ensures fit { (set : Set) → set_in store.now.held.numbers cvd.now ≡ Some set → IfOk result (HasWideRows set.schema added.now) }
    ensures short { IfOk result HasShortRows }
    ensures found { IfOk result (HasSet (set_in store.now.held.numbers cvd.now)) }
    ensures read { (set : Set) → set_in store.now.held.numbers cvd.now ≡ Some set
        → IfOk result (HasFileRows (schema_for set.schema added.now) file.now (T.staged stage.old)) }
    ensures missed { IfOk result (HasMissed (T.staged stage.old) (T.staged stage.new)) }
    ensures asked { (w : World) (t : State) (s : Session) (message : List ℕ) → (T.staged stage.old).tells ≡ true → IsAtWorld w store.now.held t
        → s.files ≡ files_of (T.staged stage.old).files
        → IfOk result (IsAskedOf w s cvd.now vids.now message added.now file.now) }
{
    match store.may_commit(cvd.as_str(), vids) {
        Ok(d) => wide_rows(alloc, stage, file, &d.schema, added),
        Err(off) => {
            let name = cvd.copy(alloc)?;
            Ok(Asked::Said(refused(off, name)?))
        }
    }
}

/// The columns that a commit adds.
pub fn columns_of(added: &Option<Seq<Column>>) -> &[Column]
    ensures { result.now ≡ columns_of added.now }
{
    match added {
        Some(added) => added.as_slice(),
        None => &[],
    }
}

/// Commits a file's rows as the next version of a dataset, with these parents, and with these columns more.
pub fn commit<H: Host, T: Stage>(
    alloc: Global,
    store: &mut Store,
    host: &mut H,
    stage: &mut T,
    cvd: Txt,
    vids: &[u64],
    added: &[Column],
    file: &Txt,
    message: &Txt,
) -> Result<Reply, EndErr>
    requires call { MayCall store.old (H.state host.old) }
    requires some { vids.now ≢ [] }
    requires message { length message.now ≤ 1024 }
    ensures goes { Goes (H.state host.old) (H.state host.new) }
    ensures attended { Attended (T.staged stage.old) (T.staged stage.new) }
    ensures fetched { (H.state host.new).fetched ≤ (H.state host.old).fetched + bytes_in (set_in store.old.held.numbers cvd) vids.now }
    ensures unread { (off : RefusalValue) → commit_row_off store.old.held.numbers cvd vids.now added.now ≡ Some off → H.state host.new ≡ H.state host.old }
    ensures cause { IsErrOf result EndErr.Host → Rose (H.state host.old).faults (H.state host.new).faults }
    ensures stage { IsErrOf result EndErr.Stage → Rose (T.staged stage.old).faults (T.staged stage.new).faults }
    ensures damaged { IfErr result (IsDamageOf (λ page. (commit_row_off store.old.held.numbers cvd vids.now added.now ≡ None)
        × IsCommitDamaged cvd vids.now added.now file.now message.now (T.staged stage.old) store.old.held (H.state host.new) page)) }
    ensures undamaged { (w : World) → IsAtWorld w store.old.held (H.state host.old) → IfErr result IsNoDamage }
    ensures usable { OnOk result (MayCall store.new (H.state host.new)) }
    ensures begins_none { running store.old.held.numbers ≡ None → OnOk result (running store.new.held.numbers ≡ None) }
    ensures by_journal { IsByJournal store.old.held (H.state host.old) → (IsErrOf result EndErr.Host → ⊥) → IsByJournal store.new.held (H.state host.new) }
    ensures at { (w : World) → IsAtWorld w store.old.held (H.state host.old) → OnOk result (IsAtSilently store.new.held (H.state host.old) (H.state host.new)) }
    ensures missed { IfOk result (IfNoFile (Rose (T.staged stage.old).misses (T.staged stage.new).misses)) }
    ensures idle { IfErr result (λ why. IsIdle why store.old store.new (T.staged stage.old) (T.staged stage.new) (H.state host.old) (H.state host.new)) }
    ensures acts { (w : World) (user : List ℕ) → (T.staged stage.old).tells ≡ true → IsAtWorld w store.old.held (H.state host.old)
        → Acts (commit_deed w (session_of (T.staged stage.old).files user) cvd vids.now message.now added.now file.now (set_named w cvd))
        (session_of (T.staged stage.old).files user) (session_of (T.staged stage.new).files user) w result
        store.old.held store.new.held (H.state host.old) (H.state host.new) }
{
    match rows_for(alloc, store, stage, &cvd, vids, added, file)? {
        Asked::Rows(rows) => next_version(store, host, cvd, vids, added, rows, message),
        Asked::Said(reply) => Ok(reply),
    }
}

/// Drops a dataset.
pub fn drop_cvd<H: Host>(store: &mut Store, host: &mut H, cvd: Txt) -> Result<Reply, EndErr>
    requires call { MayCall store.old (H.state host.old) }
    ensures goes { Goes (H.state host.old) (H.state host.new) }
    ensures fetched { (H.state host.new).fetched ≡ (H.state host.old).fetched }
    ensures cause { IsErrOf result EndErr.Host → Rose (H.state host.old).faults (H.state host.new).faults }
    ensures host_alone { IsErrOf result EndErr.Stage → ⊥ }
    ensures undamaged { IfErr result IsNoDamage }
    ensures usable { OnOk result (MayCall store.new (H.state host.new)) }
    ensures begins_none { running store.old.held.numbers ≡ None → OnOk result (running store.new.held.numbers ≡ None) }
    ensures by_journal { IsByJournal store.old.held (H.state host.old) → (IsErrOf result EndErr.Host → ⊥) → IsByJournal store.new.held (H.state host.new) }
    ensures at { (w : World) → IsAtWorld w store.old.held (H.state host.old) → OnOk result (IsAtSilently store.new.held (H.state host.old) (H.state host.new)) }
    ensures seen { IfOk result (IfNoFile ⊥) }
    ensures acts { (w : World) (s : Session) → IsAtWorld w store.old.held (H.state host.old)
        → Acts (drop_deed s cvd (set_named w cvd)) s s w result store.old.held store.new.held (H.state host.old) (H.state host.new) }
{
    match store.drop_cvd(host, cvd.as_str()) {
        Ok(()) => Ok(Reply::Dropped { cvd }),
        Err(off) => refused(off, cvd),
    }
}
