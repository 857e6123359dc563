// The reply to a query.

ghost use Rattle.std.specs.Prelude.{◌≡◌, ◌≤◌, ◌+◌, ℕ, List, [], true, None, Some, Ok, IfOk, IfErr, OnOk, length};
ghost use Rattle.ov_host.specs.Host.{State};
ghost use Rattle.ov_core.specs.AtWorld.{IsAtWorld};
ghost use Rattle.ov_fetch.specs.Extents.{Looked};
ghost use Rattle.ov_fetch.specs.Scans.{IsSound};
ghost use Rattle.ov_model.specs.Act.{Session, tells};
ghost use Rattle.ov_model.specs.Answers.{Related, answer, answer_text};
ghost use Rattle.ov_model.specs.Asking.{answered, lineages_of, name_read, query_by, run_deed};
ghost use Rattle.ov_model.specs.Kinds.{kinds};
ghost use Rattle.ov_model.specs.QueryTexts.{asked_of};
ghost use Rattle.ov_model.specs.World.{Dataset, World, cvd_in, set_named};
ghost use Rattle.ov_model.specs.declared.refusal.Refusal.{Refusal as RefusalValue};
ghost use Rattle.ov_model.specs.declared.reply.Reply.TheVariants as says;
ghost use Rattle.ov_store.specs.Scanning.{IsDamagedIn, IsUndamaged, set_in};
ghost use Rattle.ov_terms.specs.Standing.{NoLineages, pairs_shown};
ghost use Rattle.ov_value.specs.declared.column.Kind.{Kind as KindValue};
ghost use Rattle.ov_query.specs.Answering.{HasSchema};
ghost use Rattle.ov_query.specs.Joining.{IsReplyFor};
ghost use Rattle.ov_query.specs.Queries.{IsDamagedRead, IsOfNoFile, IsQueryDamaged, IsReplyBy, IsUnanswered, IsUnread, bytes_read, one_read, query_fetch, query_off, set_off, vids_read};

use crate::joining::reply_to_join;
use crate::listing::{Listed, lists_for};
use crate::permitting::{Permitted, asked_by, name_of};
use crate::refusing::refusal_by;
use crate::scanning::{refused_version, scan_of};
use ov_csv::write_answer;
use ov_fetch::Scan;
use ov_host::Host;
use ov_model::{Query, Refusal, Reply, Seq};
use ov_qrun::run_typed;
use ov_store::{Store, StoreErr};
use ov_typing::{Typed, names_lineage, typed};
use std::alloc::{AllocError, Global};

// The answer of a query over the rows of a scan, as the lines and the number that are printed.
fn answer_over(alloc: Global, typed: &Typed<'_>, scan: &Scan) -> Result<Reply, AllocError>
    requires sound { IsSound typed.now.schema scan.now }
    requires filter { NoLineages typed.now.query.filter }
    requires having { NoLineages typed.now.query.having }
    ensures { (related : Related) (kinds_are : List KindValue) → kinds typed.now.query typed.now.schema ≡ Ok kinds_are
        → let rows = answer typed.now.query typed.now.schema related (pairs_shown scan.now)
        in IfOk result (λ reply. reply ≡ says.Answer (answer_text kinds_are rows) (length rows)) }
{
    let answer = run_typed(alloc, typed, scan)?;
    let text = write_answer(alloc, &answer)?;
    Ok(Reply::Answer {
        text: Seq::from_vec(text),
        rows: answer.rows.len() as u64,
    })
}

// The answer of a query that nothing refuses: reads the versions that it names, once.
fn read_and_answer<H: Host>(
    alloc: Global,
    store: &Store,
    host: &mut H,
    typed: &Typed<'_>,
) -> Result<Reply, StoreErr>
    requires usable { store.now.usable ≡ true }
    requires plain { lineages_of typed.now.query ≡ [] }
    requires allowed { set_off typed.now.query (set_in store.now.held.numbers (name_read typed.now.query.source)) ≡ None }
    requires schema { HasSchema typed.now.schema (set_in store.now.held.numbers (name_read typed.now.query.source)) }
    ensures looked { Looked (H.state host.old) (H.state host.new) }
    ensures fetched { let set = set_in store.now.held.numbers (name_read typed.now.query.source)
        in (H.state host.new).fetched ≤ (H.state host.old).fetched + bytes_read None (one_read set (vids_read typed.now.query.source set)) }
    ensures reply { IfOk result (IsReplyBy None) }
    ensures why { let set = set_in store.now.held.numbers (name_read typed.now.query.source)
        in IfErr result (IsUnread None (one_read set (vids_read typed.now.query.source set)) (H.state host.old) (H.state host.new)) }
    ensures whole { (page : ℕ) → (H.state host.old).tells ≡ true
        → let set = set_in store.now.held.numbers (name_read typed.now.query.source)
        in OnOk result (IsDamagedIn set (vids_read typed.now.query.source set) (H.state host.old) page → ⊥) }
    ensures world { (w : World) (d : Dataset) (s : Session) → IsAtWorld w store.now.held (H.state host.old)
        → set_named w (name_read typed.now.query.source) ≡ Some d
        → IfOk result (λ reply. answered s typed.now.query d.cvd (kinds typed.now.query d.cvd.schema) ≡ tells s reply) }
    ensures undamaged { (w : World) → IsAtWorld w store.now.held (H.state host.old) → IfErr result IsUndamaged }
{
    let scan = scan_of(store, host, &typed.query().source)?;
    Ok(answer_over(alloc, typed, &scan)?)
}

// The same of a query that names no lineage.
fn reply_to_lists<H: Host>(
    alloc: Global,
    store: &Store,
    host: &mut H,
    query: &Query,
) -> Result<Reply, StoreErr>
    requires usable { store.now.usable ≡ true }
    requires plain { lineages_of query.now ≡ [] }
    ensures looked { Looked (H.state host.old) (H.state host.new) }
    ensures fetched { let set = set_in store.now.held.numbers (name_read query.now.source)
        in (H.state host.new).fetched ≤ (H.state host.old).fetched + bytes_read (set_off query.now set) (one_read set (vids_read query.now.source set)) }
    ensures unread { (refusal : RefusalValue) → set_off query.now (set_in store.now.held.numbers (name_read query.now.source)) ≡ Some refusal
        → H.state host.new ≡ H.state host.old }
    ensures reply { IfOk result (IsReplyBy (set_off query.now (set_in store.now.held.numbers (name_read query.now.source)))) }
    ensures why { let set = set_in store.now.held.numbers (name_read query.now.source)
        in IfErr result (IsUnread (set_off query.now set) (one_read set (vids_read query.now.source set)) (H.state host.old) (H.state host.new)) }
    ensures whole { (page : ℕ) → (H.state host.old).tells ≡ true
        → let set = set_in store.now.held.numbers (name_read query.now.source)
        in OnOk result (IsDamagedRead (set_off query.now set) (one_read set (vids_read query.now.source set)) (H.state host.old) page → ⊥) }
    ensures seen { IfOk result IsOfNoFile }
    ensures world { (w : World) (s : Session) → IsAtWorld w store.now.held (H.state host.old)
        → IfOk result (λ reply. query_by s query.now (cvd_in (set_named w (name_read query.now.source))) ≡ tells s reply) }
    ensures undamaged { (w : World) → IsAtWorld w store.now.held (H.state host.old) → IfErr result IsUndamaged }
{
    let name = name_of(&query.source);
    let Some(d) = store.catalog().cvd(name.as_str()) else {
        return Ok(Reply::Refused(Refusal::NoCvd {
            cvd: name.copy(alloc)?,
        }));
    };
    if let Some(refusal) = refused_version(store, &query.source)? {
        return Ok(Reply::Refused(refusal));
    }
    match typed(alloc, query, &d.schema) {
        Ok(typed) => read_and_answer(alloc, store, host, &typed),
        Err(off) => Ok(Reply::Refused(refusal_by(off)?)),
    }
}

// The reply to a query that its user may ask: by the numbers of its dataset it is refused, or it is answered. Lists take the place of the
// lineages that it names.
fn reply_to<H: Host>(
    alloc: Global,
    store: &Store,
    host: &mut H,
    query: &Query,
) -> Result<Reply, StoreErr>
    requires usable { store.now.usable ≡ true }
    ensures looked { Looked (H.state host.old) (H.state host.new) }
    ensures fetched { let set = set_in store.now.held.numbers (name_read query.now.source)
        in (H.state host.new).fetched ≤ (H.state host.old).fetched + bytes_read (set_off query.now set) (one_read set (vids_read query.now.source set)) }
    ensures unread { (refusal : RefusalValue) → set_off query.now (set_in store.now.held.numbers (name_read query.now.source)) ≡ Some refusal
        → H.state host.new ≡ H.state host.old }
    ensures reply { IfOk result (IsReplyBy (set_off query.now (set_in store.now.held.numbers (name_read query.now.source)))) }
    ensures why { let set = set_in store.now.held.numbers (name_read query.now.source)
        in IfErr result (IsUnread (set_off query.now set) (one_read set (vids_read query.now.source set)) (H.state host.old) (H.state host.new)) }
    ensures whole { (page : ℕ) → (H.state host.old).tells ≡ true
        → let set = set_in store.now.held.numbers (name_read query.now.source)
        in OnOk result (IsDamagedRead (set_off query.now set) (one_read set (vids_read query.now.source set)) (H.state host.old) page → ⊥) }
    ensures seen { IfOk result IsOfNoFile }
    ensures world { (w : World) (s : Session) → IsAtWorld w store.now.held (H.state host.old)
        → IfOk result (λ reply. query_by s query.now (cvd_in (set_named w (name_read query.now.source))) ≡ tells s reply) }
    ensures undamaged { (w : World) → IsAtWorld w store.now.held (H.state host.old) → IfErr result IsUndamaged }
{
    if !names_lineage(query) {
        return reply_to_lists(alloc, store, host, query);
    }
    match lists_for(alloc, store, query)? {
        Listed::Query(resolved) => reply_to_lists(alloc, store, host, &resolved),
        Listed::Refused(refusal) => Ok(Reply::Refused(refusal)),
    }
}

/// The reply to the text of a `run` by a user, over a store.
///
/// Refusals of a query in their order: 40, 41, 71, 10, 12 of the first lineage from the left, per version that is listed, from the
/// left, 12 and 13, and the first of 42 to 45. Those of a join: 40, 41, 71, 10 and 12 of the left side, 10 and 12 of the right one,
/// the first of 42 and 43, and then 46, which the rows decide. What is refused before 46 reads nothing.
///
/// Else the list of each version that a query names is read once, and once each partition that serves one of them; and so for each
/// side of a join, the left one first, also where both are one version. Nothing else is read, and nothing is changed. The relatives
/// of versions are known without reading: they are looked up once for each lineage that the query names, in the time of all parents
/// of the dataset's versions. The rows of both sides of a join stand in memory once, and their pairs as places of 16 bytes each.
///
/// `Memory`, `Host` and `Damaged` are the only errors, the last two only where nothing is refused.
pub fn answer_to<H: Host>(
    alloc: Global,
    store: &Store,
    host: &mut H,
    user: &str,
    text: &str,
) -> Result<Reply, StoreErr>
    requires usable { store.now.usable ≡ true }
    requires text { length text.now ≤ 65536 }
    ensures looked { Looked (H.state host.old) (H.state host.new) }
    ensures fetched { (H.state host.new).fetched ≤ (H.state host.old).fetched + query_fetch store.now.held.numbers user.now text.now }
    ensures unread { (refusal : RefusalValue) → query_off store.now.held.numbers user.now text.now ≡ Some refusal
        → H.state host.new ≡ H.state host.old }

    // A refusal is the first one, and an answer comes exactly where there is none; of a join 46 or the answer, by the rows that are
    // read. It is never 70.
    ensures reply { IfOk result (IsReplyFor store.now.held.numbers user.now (asked_of text.now) (H.state host.old)) }
    ensures seen { IfOk result IsOfNoFile }

    // Why there is no reply; and an answer excludes what would be damaged.
    ensures why { IfErr result (IsUnanswered store.now.held.numbers user.now text.now (H.state host.old) (H.state host.new)) }
    ensures whole { (page : ℕ) → (H.state host.old).tells ≡ true
        → OnOk result (IsQueryDamaged store.now.held.numbers user.now text.now (H.state host.old) page → ⊥) }

    // At a World nothing is damaged, and the reply is the one that the text means there.
    ensures world { (w : World) (s : Session) → IsAtWorld w store.now.held (H.state host.old) → s.user ≡ user.now
        → IfOk result (λ reply. run_deed w s (asked_of text.now) ≡ tells s reply) }
    ensures undamaged { (w : World) → IsAtWorld w store.now.held (H.state host.old) → IfErr result IsUndamaged }
{
    match asked_by(alloc, user, text)? {
        Permitted::Query(query) => reply_to(alloc, store, host, &query),
        Permitted::Join(join) => reply_to_join(alloc, store, host, &join),
        Permitted::Refused(refusal) => Ok(Reply::Refused(refusal)),
    }
}
