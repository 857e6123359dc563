// The reply to a join.

ghost use Rattle.std.specs.Prelude.{◌≡◌, ◌≤◌, ◌+◌, ℕ, List, true, None, Some, IfOk, IfErr, IsOk, OnOk, length};
ghost use Rattle.ov_host.specs.Host.{State};
ghost use Rattle.ov_core.specs.AtWorld.{IsAtWorld};
ghost use Rattle.ov_fetch.specs.Extents.{Looked};
ghost use Rattle.ov_fetch.specs.Scans.{IsSound};
ghost use Rattle.ov_join.specs.Meeting.{rows_shown};
ghost use Rattle.ov_model.specs.Act.{Session, tells};
ghost use Rattle.ov_model.specs.JoinGrammar.{SpellsJoin};
ghost use Rattle.ov_model.specs.Joins.{join_deed, join_kinds};
ghost use Rattle.ov_model.specs.World.{World};
ghost use Rattle.ov_model.specs.declared.query.Symbol.{Symbol};
ghost use Rattle.ov_model.specs.declared.refusal.Refusal.{Refusal as RefusalValue};
ghost use Rattle.ov_store.specs.Scanning.{IsUndamaged, set_in};
ghost use Rattle.ov_query.specs.Joining.{IsJoinReply, IsJoinReplyBy, IsSideThere, join_reply};
ghost use Rattle.ov_query.specs.Queries.{AreDamaged, IsDamagedRead, IsOfNoFile, IsUnread, bytes_of_all, bytes_read, join_off, join_reads};

use crate::fitting::{Fitted, fitted_join};
use crate::sides::scan_side;
use ov_csv::write_answer;
use ov_fetch::Scan;
use ov_host::Host;
use ov_join::{JoinErr, TypedJoin, run_join};
use ov_model::{JoinQuery, Refusal, Reply, Seq};
use ov_store::{Store, StoreErr};
use std::alloc::{AllocError, Global};

// What a join says over the rows of both sides: its answer, or 46.
fn join_over(
    alloc: Global,
    typed: &TypedJoin<'_>,
    left: &Scan,
    right: &Scan,
) -> Result<Reply, AllocError>
    requires left { IsSound typed.now.left left.now }
    requires right { IsSound typed.now.right right.now }
    requires left_once { length left.now.vids ≡ 1 }
    requires right_once { length right.now.vids ≡ 1 }
    requires fits { IsOk (join_kinds typed.now.join typed.now.left typed.now.right) }
    ensures { IfOk result (λ reply. reply ≡ join_reply typed.now.join typed.now.left typed.now.right (rows_shown left.now) (rows_shown right.now)) }
{
    let answer = match run_join(alloc, typed, left, right) {
        Ok(answer) => answer,
        Err(JoinErr::TooMany) => return Ok(Reply::Refused(Refusal::TooManyJoined)),
        Err(JoinErr::Memory) => return Err(AllocError),
    };
    let text = write_answer(alloc, &answer)?;
    Ok(Reply::Answer {
        text: Seq::from_vec(text),
        rows: answer.rows.len() as u64,
    })
}

// The reply to a join that the numbers don't refuse: reads the version of each side once, the left one first.
fn read_and_join<H: Host>(
    alloc: Global,
    store: &Store,
    host: &mut H,
    typed: &TypedJoin<'_>,
) -> Result<Reply, StoreErr>
    requires usable { store.now.usable ≡ true }
    requires left { IsSideThere typed.now.join.left (set_in store.now.held.numbers typed.now.join.left.cvd) typed.now.left }
    requires right { IsSideThere typed.now.join.right (set_in store.now.held.numbers typed.now.join.right.cvd) typed.now.right }
    requires fits { IsOk (join_kinds typed.now.join typed.now.left typed.now.right) }
    ensures looked { Looked (H.state host.old) (H.state host.new) }
    ensures fetched { let join = typed.now.join
        in (H.state host.new).fetched ≤ (H.state host.old).fetched
        + bytes_of_all (join_reads join (set_in store.now.held.numbers join.left.cvd) (set_in store.now.held.numbers join.right.cvd)) }
    ensures reply { let join = typed.now.join
        in IfOk result (IsJoinReply join (set_in store.now.held.numbers join.left.cvd) (set_in store.now.held.numbers join.right.cvd) (H.state host.old)) }
    ensures why { let join = typed.now.join
        in IfErr result (IsUnread None (join_reads join (set_in store.now.held.numbers join.left.cvd) (set_in store.now.held.numbers join.right.cvd))
        (H.state host.old) (H.state host.new)) }
    ensures whole { (page : ℕ) → (H.state host.old).tells ≡ true
        → let join = typed.now.join
        in OnOk result (AreDamaged (join_reads join (set_in store.now.held.numbers join.left.cvd) (set_in store.now.held.numbers join.right.cvd))
        (H.state host.old) page → ⊥) }
    ensures world { (w : World) (s : Session) → IsAtWorld w store.now.held (H.state host.old)
        → IfOk result (λ reply. join_deed w s typed.now.join ≡ tells s reply) }
    ensures undamaged { (w : World) → IsAtWorld w store.now.held (H.state host.old) → IfErr result IsUndamaged }
{
    let left = scan_side(store, host, &typed.join().left)?;
    let right = scan_side(store, host, &typed.join().right)?;
    Ok(join_over(alloc, typed, &left, &right)?)
}

/// The reply to a join that its user may ask: by the numbers of both sides' datasets it is refused, or both sides are read.
pub(crate) fn reply_to_join<H: Host>(
    alloc: Global,
    store: &Store,
    host: &mut H,
    join: &JoinQuery,
) -> Result<Reply, StoreErr>
    requires usable { store.now.usable ≡ true }
    requires spelled { (symbols : List Symbol) × SpellsJoin symbols join.now }
    ensures looked { Looked (H.state host.old) (H.state host.new) }
    ensures fetched { let left = set_in store.now.held.numbers join.now.left.cvd
        in let right = set_in store.now.held.numbers join.now.right.cvd
        in (H.state host.new).fetched ≤ (H.state host.old).fetched + bytes_read (join_off join.now left right) (join_reads join.now left right) }
    ensures unread { (refusal : RefusalValue)
        → join_off join.now (set_in store.now.held.numbers join.now.left.cvd) (set_in store.now.held.numbers join.now.right.cvd) ≡ Some refusal
        → H.state host.new ≡ H.state host.old }
    ensures reply { let left = set_in store.now.held.numbers join.now.left.cvd
        in let right = set_in store.now.held.numbers join.now.right.cvd
        in IfOk result (IsJoinReplyBy (join_off join.now left right) join.now left right (H.state host.old)) }
    ensures why { let left = set_in store.now.held.numbers join.now.left.cvd
        in let right = set_in store.now.held.numbers join.now.right.cvd
        in IfErr result (IsUnread (join_off join.now left right) (join_reads join.now left right) (H.state host.old) (H.state host.new)) }
    ensures whole { (page : ℕ) → (H.state host.old).tells ≡ true
        → let left = set_in store.now.held.numbers join.now.left.cvd
        in let right = set_in store.now.held.numbers join.now.right.cvd
        in OnOk result (IsDamagedRead (join_off join.now left right) (join_reads join.now left right) (H.state host.old) page → ⊥) }
    ensures seen { IfOk result IsOfNoFile }
    ensures world { (w : World) (s : Session) → IsAtWorld w store.now.held (H.state host.old)
        → IfOk result (λ reply. join_deed w s join.now ≡ tells s reply) }
    ensures undamaged { (w : World) → IsAtWorld w store.now.held (H.state host.old) → IfErr result IsUndamaged }
{
    match fitted_join(alloc, store, join)? {
        Fitted::Typed(typed) => read_and_join(alloc, store, host, &typed),
        Fitted::Refused(refusal) => Ok(Reply::Refused(refusal)),
    }
}
