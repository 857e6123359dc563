// A line and its reply.
ghost use Rattle.std.specs.Prelude.{◌≡◌, ◌≢◌, ◌≤◌, ◌+◌, ℕ, true, false, None, Ok, Err, IsErrOf, IsTrue, IfOk, IfErr, MatchResult, OnOk, is_ok};
ghost use Rattle.ov_host.specs.Host.{Calls, Rose, State};
ghost use Rattle.ov_host.specs.Tape.{Prints};
ghost use Rattle.ov_model.specs.Formed.{IsAsked};
ghost use Rattle.ov_model.specs.Forms.{all_forms};
ghost use Rattle.ov_model.specs.Line.{Asks};
ghost use Rattle.ov_model.specs.declared.command.Command.{Command as CommandValue};
ghost use Rattle.ov_model.specs.Replies.{reply_text};
ghost use Rattle.ov_model.specs.World.{World};
ghost use Rattle.ov_value.specs.Naming.{is_name};
ghost use Rattle.ov_core.specs.AtWorld.{IsAtWorld};
ghost use Rattle.ov_core.specs.Held.{IsByJournal};
ghost use Rattle.law_runs.specs.Serving.{Serves, is_error as is_error_of, session_of};
ghost use Rattle.ov_store.specs.Kept.{Kept, MayCall};
ghost use Rattle.ov_session.specs.Acting.{IsNextUser, kind_of, user_by};
ghost use Rattle.ov_session.specs.Asking.{line_asked};
ghost use Rattle.ov_session.specs.Bounds.{IsFetchedBy, IsReading, IsReadingCommand, is_off};
ghost use Rattle.law_steps.specs.Turns.{running};
ghost use Rattle.ov_session.specs.Replying.{IsReplied, IsSaidBy};
ghost use Rattle.ov_session.specs.Reads.{becomes_of};
ghost use Rattle.ov_session.specs.Damages.{IsLineDamaged, IsMetBy};
ghost use Rattle.ov_session.specs.Serving.{IsOfFile, IsServed, IsServedAlone};
ghost use Rattle.ov_session.specs.Standing.{IsAtSome, IsIdleOn};
ghost use Rattle.ov_session.specs.Stepping.{NoneBehind, line_begins};
ghost use Rattle.ov_session.specs.Commands.{Attended, Goes, IsDamageOf, IsNoDamage, IsSaid, IsUnsaid, MeetsDamage, is_comment_in, is_comment_of, is_refused};

use crate::budgets::{advise, optimize_within};
use crate::changing::{columns_of, commit, drop_cvd, init};
use crate::checkpoints::checkpoint;
use crate::errors::EndErr;
use crate::generating::make_versions;
use crate::lines::{asked, refusal};
use crate::planning::{migrate, optimize};
use crate::reading::{layout, log, ls, run_query};
use crate::registering::{become_user, create_user, tables, unstage, whoami};
use crate::staging::{check_out, commit_staged};
use crate::stepping::take_steps;
use ov_generate::Wanted;
use ov_host::{Host, Stage};
use ov_model::{Command, Reply};
use ov_reply::{is_error, reply as reply_text};
use ov_store::Store;
use ov_value::Txt;
use std::alloc::Global;

/// What came of a line.
#[derive(Clone, Copy, PartialEq, Eq)]
pub enum Served {
    /// It is a comment, and has no reply.
    Comment,
    /// Its reply is no error.
    Done,
    /// Its reply is an error.
    Refused,
}

// Does what a command asks that no rule denies, that changes nothing and has to do with no file, and that makes nobody the user. Its
// reply isn't printed yet.
fn answer_by_reading<H: Host>(
    alloc: Global,
    store: &Store,
    host: &mut H,
    user: &Txt,
    command: Command,
) -> Result<Reply, EndErr>
    requires call { MayCall store.now (H.state host.old) }
    requires asked { IsAsked command }
    requires no_file { IsOfFile command → ⊥ }
    requires stays { becomes_of command ≡ None }
    requires reads { IsReadingCommand command }
    ensures { IsServedAlone user.now user.now command result store.now store.now (H.state host.old) (H.state host.new) }
{
    match command {
        Command::Run { text } => run_query(alloc, store, host, user, &text),
        Command::Advise { cvd, budget, a, b } => advise(alloc, store, host, cvd, budget, a, b),
        Command::Layout { cvd } => layout(alloc, store, cvd),
        Command::Log { cvd } => log(alloc, store, cvd),
        Command::Ls => ls(alloc, store),
        Command::Whoami => whoami(alloc, user),
        Command::Tables => tables(alloc, store, host, user),
        _ => unreachable!(),
    }
}

// The same, of a command that may change the store.
fn answer_by_store<H: Host>(
    alloc: Global,
    store: &mut Store,
    host: &mut H,
    user: &Txt,
    command: Command,
) -> Result<Reply, EndErr>
    requires call { MayCall store.old (H.state host.old) }
    requires asked { IsAsked command }
    requires no_file { IsOfFile command → ⊥ }
    requires stays { becomes_of command ≡ None }
    ensures { IsServedAlone user.now user.now command result store.old store.new (H.state host.old) (H.state host.new) }
{
    match command {
        Command::Optimize { cvd, p, q } => optimize(store, host, cvd, p, q),
        Command::OptimizeWithin { cvd, budget } => optimize_within(alloc, store, host, cvd, budget),
        Command::Migrate { count } => migrate(store, host, count),
        Command::DropCvd { cvd } => drop_cvd(store, host, cvd),
        Command::Checkpoint => checkpoint(store, host),
        Command::Generate {
            cvd,
            seed,
            rows,
            versions,
        } => {
            let wanted = Wanted {
                cvd,
                seed,
                rows,
                versions,
            };
            make_versions(alloc, store, host, wanted)
        }
        Command::CreateUser { name } => create_user(alloc, store, host, name),
        Command::Unstage { user: owner, table } => unstage(alloc, store, host, owner, table),
        _ => answer_by_reading(alloc, store, host, user, command),
    }
}

// The same, of any command that makes nobody the user.
fn answer<H: Host, T: Stage>(
    alloc: Global,
    store: &mut Store,
    host: &mut H,
    stage: &mut T,
    user: &Txt,
    command: Command,
) -> Result<Reply, EndErr>
    requires call { MayCall store.old (H.state host.old) }
    requires asked { IsAsked command }
    requires stays { becomes_of command ≡ None }
    ensures { IsServed user.now user.now command result store.old store.new (T.staged stage.old) (T.staged stage.new)
        (H.state host.old) (H.state host.new) }
{
    match command {
        Command::Init { cvd, schema, file } => init(alloc, store, host, stage, cvd, schema, file),
        Command::Commit {
            cvd,
            vids,
            file,
            message,
            added,
        } => commit(
            alloc,
            store,
            host,
            stage,
            cvd,
            vids.as_slice(),
            columns_of(&added),
            &file,
            &message,
        ),
        Command::Checkout {
            cvd,
            vids,
            file,
            table,
        } => check_out(
            alloc,
            store,
            host,
            stage,
            user,
            cvd,
            vids.as_slice(),
            file,
            table,
        ),
        Command::CommitStaged {
            user: owner,
            table,
            message,
        } => commit_staged(alloc, store, host, stage, &owner, &table, &message),
        _ => answer_by_store(alloc, store, host, user, command),
    }
}

// Does what a command asks that no rule denies. The user is the one that it names from here on, where it isn't refused. Its reply isn't
// printed yet.
fn act<H: Host, T: Stage>(
    alloc: Global,
    store: &mut Store,
    host: &mut H,
    stage: &mut T,
    user: &mut Txt,
    command: Command,
) -> Result<Reply, EndErr>
    requires call { MayCall store.old (H.state host.old) }
    requires asked { IsAsked command }
    requires user { IsTrue (is_name user.old) }
    ensures serves { IsServed user.old user.new command result store.old store.new (T.staged stage.old) (T.staged stage.new)
        (H.state host.old) (H.state host.new) }
    ensures user { MatchResult result (λ reply. user.new ≡ user_by (becomes_of command) (kind_of reply) user.old) (λ why. user.new ≡ user.old) }
    ensures named { IsTrue (is_name user.new) }
{
    match command {
        Command::Config { name } => become_user(alloc, store, host, user, name),
        _ => answer(alloc, store, host, stage, user, command),
    }
}

// Prints a reply, in one print.
fn print_reply<H: Host>(alloc: Global, host: &mut H, reply: &Reply) -> Result<Served, EndErr>
    ensures goes { Goes (H.state host.old) (H.state host.new) }
    ensures fetched { (H.state host.new).fetched ≡ (H.state host.old).fetched }
    ensures cause { IsErrOf result EndErr.Host → Rose (H.state host.old).faults (H.state host.new).faults }
    ensures host_alone { IfErr result IsUnsaid }
    ensures served { IfOk result (IsSaid (is_error_of reply.now)) }
    ensures unsaid { IsErrOf result EndErr.Memory → H.state host.new ≡ H.state host.old }
    ensures said { (IsErrOf result EndErr.Memory → ⊥) → Calls (Prints (reply_text reply.now)) (is_ok result) (H.state host.old) (H.state host.new) }
    ensures usable { (store : Kept) → MayCall store (H.state host.old) → OnOk result (MayCall store (H.state host.new)) }
{
    let text = reply_text(alloc, reply)?;
    if host.print(text.as_slice()).is_err() {
        return Err(EndErr::Host);
    }
    if is_error(reply) {
        return Ok(Served::Refused);
    }
    Ok(Served::Done)
}

// Prints a reply, and gives its memory back.
fn say<H: Host>(alloc: Global, host: &mut H, reply: Reply) -> Result<Served, EndErr>
    ensures goes { Goes (H.state host.old) (H.state host.new) }
    ensures fetched { (H.state host.new).fetched ≡ (H.state host.old).fetched }
    ensures cause { IsErrOf result EndErr.Host → Rose (H.state host.old).faults (H.state host.new).faults }
    ensures host_alone { IfErr result IsUnsaid }
    ensures served { IfOk result (IsSaid (is_error_of reply)) }
    ensures unsaid { IsErrOf result EndErr.Memory → H.state host.new ≡ H.state host.old }
    ensures said { (IsErrOf result EndErr.Memory → ⊥) → Calls (Prints (reply_text reply)) (is_ok result) (H.state host.old) (H.state host.new) }
    ensures usable { (store : Kept) → MayCall store (H.state host.old) → OnOk result (MayCall store (H.state host.new)) }
{
    print_reply(alloc, host, &reply)
}

// Does what a line asks, and prints its one reply; a comment has none. No step is taken.
fn serve_line<H: Host, T: Stage>(
    alloc: Global,
    store: &mut Store,
    host: &mut H,
    stage: &mut T,
    line: &[u8],
    user: &mut Txt,
) -> Result<Served, EndErr>
    requires call { MayCall store.old (H.state host.old) }
    requires user { IsTrue (is_name user.old) }
    ensures goes { Goes (H.state host.old) (H.state host.new) }
    ensures attended { Attended (T.staged stage.old) (T.staged stage.new) }
    ensures still { IsReading (line_asked user.old line.now) → store.new.held ≡ store.old.held }
    ensures fetched { IsFetchedBy user.old (line_asked user.old line.now) store.old.held store.new.held (IsErrOf result EndErr.Host)
        (H.state host.old) (H.state host.new) }
    ensures unread { is_off store.old.held.numbers user.old (line_asked user.old line.now) ≡ true
        → (H.state host.new).fetched ≡ (H.state host.old).fetched }
    ensures cause { IsErrOf result EndErr.Host → Rose (H.state host.old).faults (H.state host.new).faults }
    ensures stage { IsErrOf result EndErr.Stage → Rose (T.staged stage.old).faults (T.staged stage.new).faults }
    ensures damaged { IfErr result (IsDamageOf (IsLineDamaged user.old (line_asked user.old line.now) (T.staged stage.old)
        store.old.held store.new.held (H.state host.new))) }
    ensures begins_none { line_begins store.old.held.numbers (line_asked user.old line.now) ≡ false → running store.old.held.numbers ≡ None → OnOk result (running store.new.held.numbers ≡ None) }
    ensures whole { (command : CommandValue) (page : ℕ) → line_asked user.old line.now ≡ Asks command → (H.state host.old).tells ≡ true
        → OnOk result (MeetsDamage user.old command (T.staged stage.old) store.old.held (H.state host.old) page → ⊥) }
    ensures idle { IfErr result (λ why. IsIdleOn (line_asked user.old line.now) why store.old store.new
        (T.staged stage.old) (T.staged stage.new) (H.state host.old) (H.state host.new)) }
    ensures undamaged { (w : World) → IsAtWorld w store.old.held (H.state host.old) → IfErr result IsNoDamage }
    ensures usable { OnOk result (MayCall store.new (H.state host.new)) }
    ensures by_journal { IsByJournal store.old.held (H.state host.old) → (IsErrOf result EndErr.Host → ⊥) → IsByJournal store.new.held (H.state host.new) }
    ensures at { (w : World) → IsAtWorld w store.old.held (H.state host.old) → OnOk result (IsAtSome store.new.held (H.state host.new)) }
    ensures user { IsNextUser (line_asked user.old line.now) result user.old user.new }
    ensures named { IsTrue (is_name user.new) }
    ensures comment { IfOk result (λ served. is_comment_of served ≡ is_comment_in (line_asked user.old line.now)) }
    ensures replied { IfOk result (λ served. IsSaidBy (line_asked user.old line.now) served store.old.held
        (T.staged stage.old) (T.staged stage.new) (H.state host.old) (H.state host.new)) }
    ensures serves { (w : World) → (T.staged stage.old).tells ≡ true → IsAtWorld w store.old.held (H.state host.old)
        → Serves all_forms 0 w (session_of (T.staged stage.old).files user.old) (session_of (T.staged stage.new).files user.new) line.now
        (is_ok result) (is_refused result) store.old.held store.new.held (H.state host.old) (H.state host.new) }
{
    match asked(alloc, line, user) {
        Ok(None) => Ok(Served::Comment),
        Ok(Some(command)) => {
            let reply = act(alloc, store, host, stage, user, command)?;
            say(alloc, host, reply)
        }
        Err(off) => {
            let reply = Reply::Refused(refusal(off)?);
            say(alloc, host, reply)
        }
    }
}

// Whether a line has no reply.
fn is_comment(served: Served) -> bool
    ensures { result ≡ is_comment_of served }
{
    served == Served::Comment
}

/// Serves a line: does what it asks, prints its one reply, and then takes up to so many migration steps, until no plan runs or
/// there is no room for the next one. A comment has no reply, and no step comes behind it; behind a refusal steps come too.
///
/// A step for which there is no room says nothing. Where a step meets damage, or the host or memory fails it, the line ends so,
/// though its reply was printed; the steps before stay.
///
/// The user is the one that the line acts as, and then the one whom the line's answer names as the user from there on.
///
/// Reads are bounded where no step comes: where none is asked for, or no plan runs and the line begins none. An optimize that isn't
/// refused begins one, and no other line does.
pub fn serve<H: Host, T: Stage>(
    alloc: Global,
    store: &mut Store,
    host: &mut H,
    stage: &mut T,
    line: &[u8],
    steps: u32,
    user: &mut Txt,
) -> Result<Served, EndErr>
    requires call { MayCall store.old (H.state host.old) }
    requires steps { steps ≤ 1000 }
    requires user { IsTrue (is_name user.old) }
    ensures goes { Goes (H.state host.old) (H.state host.new) }
    ensures attended { Attended (T.staged stage.old) (T.staged stage.new) }
    ensures still { NoneBehind steps store.old.held.numbers (line_asked user.old line.now) → IsReading (line_asked user.old line.now) → store.new.held ≡ store.old.held }
    ensures fetched { NoneBehind steps store.old.held.numbers (line_asked user.old line.now) → IsFetchedBy user.old (line_asked user.old line.now)
        store.old.held store.new.held (IsErrOf result EndErr.Host) (H.state host.old) (H.state host.new) }
    ensures unread { NoneBehind steps store.old.held.numbers (line_asked user.old line.now) → is_off store.old.held.numbers user.old (line_asked user.old line.now) ≡ true
        → (H.state host.new).fetched ≡ (H.state host.old).fetched }
    ensures cause { IsErrOf result EndErr.Host → Rose (H.state host.old).faults (H.state host.new).faults }
    ensures stage { IsErrOf result EndErr.Stage → Rose (T.staged stage.old).faults (T.staged stage.new).faults }
    ensures damaged { IfErr result (IsDamageOf (IsMetBy steps user.old (line_asked user.old line.now) store.old store.new
        (T.staged stage.old) (T.staged stage.new) (H.state host.old) (H.state host.new))) }
    ensures whole { (command : CommandValue) (page : ℕ) → line_asked user.old line.now ≡ Asks command → (H.state host.old).tells ≡ true
        → OnOk result (MeetsDamage user.old command (T.staged stage.old) store.old.held (H.state host.old) page → ⊥) }
    ensures idle { IsErrOf result EndErr.Stage → IsIdleOn (line_asked user.old line.now) EndErr.Stage store.old store.new
        (T.staged stage.old) (T.staged stage.new) (H.state host.old) (H.state host.new) }
    ensures undamaged { (w : World) → IsAtWorld w store.old.held (H.state host.old) → IfErr result IsNoDamage }
    ensures usable { OnOk result (MayCall store.new (H.state host.new)) }
    ensures by_journal { IsByJournal store.old.held (H.state host.old) → (IsErrOf result EndErr.Host → ⊥) → IsByJournal store.new.held (H.state host.new) }
    ensures at { (w : World) → IsAtWorld w store.old.held (H.state host.old) → OnOk result (IsAtSome store.new.held (H.state host.new)) }
    ensures user { IsNextUser (line_asked user.old line.now) result user.old user.new }
    ensures named { IsTrue (is_name user.new) }
    ensures comment { IfOk result (λ served. is_comment_of served ≡ is_comment_in (line_asked user.old line.now)) }
    ensures replied { IfOk result (λ served. IsReplied steps (line_asked user.old line.now) served store.old.held
        (T.staged stage.old) (T.staged stage.new) (H.state host.old) (H.state host.new)) }
    ensures serves { (w : World) → (T.staged stage.old).tells ≡ true → IsAtWorld w store.old.held (H.state host.old)
        → Serves all_forms steps w (session_of (T.staged stage.old).files user.old) (session_of (T.staged stage.new).files user.new) line.now
        (is_ok result) (is_refused result) store.old.held store.new.held (H.state host.old) (H.state host.new) }
{
    let served = serve_line(alloc, store, host, stage, line, user)?;
    if is_comment(served) {
        return Ok(served);
    }
    take_steps(store, host, steps)?;
    Ok(served)
}
