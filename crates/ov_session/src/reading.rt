// The commands that read.
ghost use Rattle.std.specs.Prelude.{◌≡◌, ◌≤◌, ◌+◌, ℕ, List, true, false, None, Some, IsErrOf, IfOk, IfErr, MatchResult, OnOk, length, map};
ghost use Rattle.ov_host.specs.Host.{Rose, State};
ghost use Rattle.ov_model.specs.Act.{Session, checkout_deed, gives, layout_deed, log_deed, ls_line, merge_of, tells};
ghost use Rattle.ov_model.specs.Asking.{run_deed};
ghost use Rattle.ov_model.specs.QueryTexts.{asked_of};
ghost use Rattle.ov_model.specs.World.{World, Dataset, set_named};
ghost use Rattle.ov_model.specs.declared.refusal.Refusal.{Refusal as RefusalValue};
ghost use Rattle.ov_model.specs.declared.reply.Reply.TheVariants as says;
ghost use Rattle.ov_core.specs.AtWorld.{IsAtWorld};
ghost use Rattle.law_runs.specs.Serving.{session_of};
ghost use Rattle.ov_fetch.specs.Extents.{Looked};
ghost use Rattle.ov_query.specs.Joining.{IsReplyFor};
ghost use Rattle.ov_query.specs.Queries.{IsQueryDamaged, query_fetch, query_off};
ghost use Rattle.ov_store.specs.Scanning.{IsDamagedIn, IsUndamaged, IsUnscanned, scan_off, set_in};
ghost use Rattle.ov_store.specs.declared.errors.StoreErr.{StoreErr as StoreErrValue};
ghost use Rattle.ov_session.specs.Bounds.{bytes_in};
ghost use Rattle.ov_session.specs.Standing.{IsIdle};
ghost use Rattle.ov_session.specs.Commands.{Acts, Attended, IfNoFile, IsDamageOf, IsMergeOf, IsNoDamage, IsNoHost, IsScanDamaged};

use crate::errors::{EndErr, end, refused};
use ov_checkout::{Checkout, checkout_of};
use ov_host::{Host, Stage};
use ov_listing::{cvd_lines, layout_of, log_lines};
use ov_model::{Refusal, Reply, Seq};
use ov_query::answer_to;
use ov_store::{Store, StoreErr};
use ov_value::Txt;
use std::alloc::Global;

/// The merge of these versions of a dataset.
pub(crate) fn merged<H: Host>(
    alloc: Global,
    store: &Store,
    host: &mut H,
    cvd: &str,
    vids: &[u64],
) -> Result<Checkout, StoreErr>
    requires usable { store.now.usable ≡ true }
    ensures looked { Looked (H.state host.old) (H.state host.new) }
    ensures fetched { (H.state host.new).fetched ≤ (H.state host.old).fetched + bytes_in (set_in store.now.held.numbers cvd.now) vids.now }
    ensures unread { (off : StoreErrValue) → scan_off store.now.held.numbers cvd.now vids.now ≡ Some off → H.state host.new ≡ H.state host.old }
    ensures why { IfErr result (IsUnscanned (scan_off store.now.held.numbers cvd.now vids.now) (set_in store.now.held.numbers cvd.now) vids.now (H.state host.old) (H.state host.new)) }
    ensures allowed { OnOk result (scan_off store.now.held.numbers cvd.now vids.now ≡ None) }
    ensures whole { (page : ℕ) → (H.state host.old).tells ≡ true
        → OnOk result (IsDamagedIn (set_in store.now.held.numbers cvd.now) vids.now (H.state host.old) page → ⊥) }
    ensures world { (w : World) (d : Dataset) → IsAtWorld w store.now.held (H.state host.old) → set_named w cvd.now ≡ Some d
        → MatchResult result (IsMergeOf d vids.now) IsUndamaged }
{
    let Some(d) = store.catalog().cvd(cvd) else {
        return Err(StoreErr::NoCvd);
    };
    let scan = store.scan(host, cvd, vids)?;
    Ok(checkout_of(alloc, &d.schema, scan)?)
}

/// Prints a checkout, or puts it into a file.
pub(crate) fn give<T: Stage>(
    alloc: Global,
    stage: &mut T,
    cvd: Txt,
    made: Checkout,
    file: Option<Txt>,
) -> Result<Reply, EndErr>
    ensures attended { Attended (T.staged stage.old) (T.staged stage.new) }
    ensures stage { IsErrOf result EndErr.Stage → Rose (T.staged stage.old).faults (T.staged stage.new).faults }
    ensures stage_alone { IfErr result IsNoHost }
    ensures seen { IfOk result (IfNoFile ⊥) }
    ensures given { (w : World) (user : List ℕ) (d : Dataset) (vids : List ℕ) → (T.staged stage.old).tells ≡ true → IsMergeOf d vids made → d.cvd.name ≡ cvd
        → IfOk result (λ reply. gives (session_of (T.staged stage.old).files user) d.cvd (merge_of d.cvd vids) file
        ≡ tells (session_of (T.staged stage.new).files user) reply) }
{
    let Some(file) = file else {
        let text = made.text(alloc)?;
        return Ok(Reply::Csv {
            text: Seq::from_vec(text),
        });
    };
    // As many rows are more than memory has.
    let Ok(rows) = u32::try_from(made.rows()) else {
        return Err(EndErr::Memory);
    };
    made.put(alloc, stage, &file)?;
    Ok(Reply::ToFile { cvd, rows, file })
}

/// Prints the merge of these versions of a dataset, or puts it into a file.
pub fn checkout<H: Host, T: Stage>(
    alloc: Global,
    store: &Store,
    host: &mut H,
    stage: &mut T,
    cvd: Txt,
    vids: &[u64],
    file: Option<Txt>,
) -> Result<Reply, EndErr>
    requires usable { store.now.usable ≡ true }
    ensures looked { Looked (H.state host.old) (H.state host.new) }
    ensures fetched { (H.state host.new).fetched ≤ (H.state host.old).fetched + bytes_in (set_in store.now.held.numbers cvd) vids.now }
    ensures unread { (off : StoreErrValue) → scan_off store.now.held.numbers cvd vids.now ≡ Some off → H.state host.new ≡ H.state host.old }
    ensures attended { Attended (T.staged stage.old) (T.staged stage.new) }
    ensures cause { IsErrOf result EndErr.Host → Rose (H.state host.old).faults (H.state host.new).faults }
    ensures stage { IsErrOf result EndErr.Stage → Rose (T.staged stage.old).faults (T.staged stage.new).faults }
    ensures damaged { IfErr result (IsDamageOf (IsScanDamaged cvd vids.now store.now.held (H.state host.new))) }
    ensures whole { (page : ℕ) → (H.state host.old).tells ≡ true
        → OnOk result (IsScanDamaged cvd vids.now store.now.held (H.state host.old) page → ⊥) }
    ensures undamaged { (w : World) → IsAtWorld w store.now.held (H.state host.old) → IfErr result IsNoDamage }
    ensures seen { IfOk result (IfNoFile ⊥) }
    ensures idle { IfErr result (λ why. IsIdle why store.now store.now (T.staged stage.old) (T.staged stage.new) (H.state host.old) (H.state host.new)) }
    ensures acts { (w : World) (user : List ℕ) → (T.staged stage.old).tells ≡ true → IsAtWorld w store.now.held (H.state host.old)
        → Acts (checkout_deed (session_of (T.staged stage.old).files user) vids.now file cvd (set_named w cvd))
        (session_of (T.staged stage.old).files user) (session_of (T.staged stage.new).files user) w result
        store.now.held store.now.held (H.state host.old) (H.state host.new) }
{
    match merged(alloc, store, host, cvd.as_str(), vids) {
        Ok(made) => give(alloc, stage, cvd, made, file),
        Err(off) => refused(off, cvd),
    }
}

/// The reply to a query or join of a user: an answer, which reads each page of its versions once, of a join those of the left side
/// and then those of the right one; or the first refusal, which reads nothing, but 46, which the rows of both sides decide.
pub fn run_query<H: Host>(
    alloc: Global,
    store: &Store,
    host: &mut H,
    user: &Txt,
    text: &Txt,
) -> Result<Reply, EndErr>
    requires usable { store.now.usable ≡ true }
    requires text { length text.now ≤ 65536 }
    ensures looked { Looked (H.state host.old) (H.state host.new) }
    ensures fetched { (H.state host.new).fetched ≤ (H.state host.old).fetched + query_fetch store.now.held.numbers user.now text.now }
    ensures unread { (refusal : RefusalValue) → query_off store.now.held.numbers user.now text.now ≡ Some refusal
        → H.state host.new ≡ H.state host.old }
    ensures cause { IsErrOf result EndErr.Host → Rose (H.state host.old).faults (H.state host.new).faults }
    ensures host_alone { IsErrOf result EndErr.Stage → ⊥ }
    ensures damaged { IfErr result (IsDamageOf (IsQueryDamaged store.now.held.numbers user.now text.now (H.state host.new))) }
    ensures whole { (page : ℕ) → (H.state host.old).tells ≡ true
        → OnOk result (IsQueryDamaged store.now.held.numbers user.now text.now (H.state host.old) page → ⊥) }
    ensures undamaged { (w : World) → IsAtWorld w store.now.held (H.state host.old) → IfErr result IsNoDamage }
    ensures reply { IfOk result (IsReplyFor store.now.held.numbers user.now (asked_of text.now) (H.state host.old)) }
    ensures memory { (refusal : RefusalValue) → query_off store.now.held.numbers user.now text.now ≡ Some refusal
        → IfErr result (λ why. why ≡ EndErr.Memory) }
    ensures seen { IfOk result (IfNoFile ⊥) }
    ensures told { (w : World) (s : Session) → IsAtWorld w store.now.held (H.state host.old) → s.user ≡ user.now
        → IfOk result (λ reply. run_deed w s (asked_of text.now) ≡ tells s reply) }
{
    match answer_to(alloc, store, host, user.as_str(), text.as_str()) {
        Ok(reply) => Ok(reply),
        Err(off) => Err(end(off)),
    }
}

/// The partitions of a dataset, and the plan that runs.
pub fn layout(alloc: Global, store: &Store, cvd: Txt) -> Result<Reply, EndErr>
    ensures told { (w : World) (s : Session) (t : State) → IsAtWorld w store.now.held t
        → IfOk result (λ reply. layout_deed s cvd (set_named w cvd) ≡ tells s reply) }
    ensures seen { IfOk result (IfNoFile ⊥) }
    ensures memory { IfErr result (λ why. why ≡ EndErr.Memory) }
{
    match store.catalog().cvd(cvd.as_str()) {
        Some(d) => Ok(layout_of(alloc, d)?),
        None => Ok(Reply::Refused(Refusal::NoCvd { cvd })),
    }
}

/// The versions of a dataset.
pub fn log(alloc: Global, store: &Store, cvd: Txt) -> Result<Reply, EndErr>
    ensures told { (w : World) (s : Session) (t : State) → IsAtWorld w store.now.held t
        → IfOk result (λ reply. log_deed s cvd (set_named w cvd) ≡ tells s reply) }
    ensures seen { IfOk result (IfNoFile ⊥) }
    ensures memory { IfErr result (λ why. why ≡ EndErr.Memory) }
{
    match store.catalog().cvd(cvd.as_str()) {
        Some(d) => Ok(Reply::Log {
            versions: log_lines(alloc, d)?,
        }),
        None => Ok(Reply::Refused(Refusal::NoCvd { cvd })),
    }
}

/// The datasets.
pub fn ls(alloc: Global, store: &Store) -> Result<Reply, EndErr>
    ensures told { (w : World) (s : Session) (t : State) → IsAtWorld w store.now.held t
        → IfOk result (λ reply. reply ≡ says.Ls (map ls_line w.sets)) }
    ensures seen { IfOk result (IfNoFile ⊥) }
    ensures memory { IfErr result (λ why. why ≡ EndErr.Memory) }
{
    Ok(Reply::Ls {
        cvds: cvd_lines(alloc, store.catalog())?,
    })
}
