// A whole run.
ghost use Rattle.std.specs.Prelude.{◌≡◌, ◌≤◌, ◌||◌, ◌+◌, ◌^◌, ◌⊎◌, true, None, Some, List, ℕ, [], codes, length, IsErrOf, IfOk, IfErr, IsOk, MatchResult};
ghost use Rattle.ov_host.specs.declared.area.Extent.{Extent};
ghost use Rattle.ov_host.specs.Disk.{as_read};
ghost use Rattle.ov_host.specs.Host.{Rose, State};
ghost use Rattle.ov_host.specs.Stops.{Only};
ghost use Rattle.ov_journal.specs.Opened.{IsLeftByOpen};
ghost use Rattle.ov_model.specs.Words.{lines_of};
ghost use Rattle.ov_model.specs.World.{World};
ghost use Rattle.ov_catalog.specs.Numbers.{Numbers};
ghost use Rattle.law_image.specs.Images.{StandsAs};
ghost use Rattle.ov_core.specs.AtWorld.{IsAtWorld};
ghost use Rattle.ov_core.specs.Held.{IsByJournal};
ghost use Rattle.law_runs.specs.Serving.{session_of};
ghost use Rattle.ov_open.specs.Opening.{IsWorld};
ghost use Rattle.ov_session.specs.Commands.{Attended, Goes, is_refusal_of};
ghost use Rattle.ov_session.specs.Stepping.{TakesNoStep};
ghost use Rattle.ov_store.specs.Kept.{MayCall};
ghost use Rattle.ov_args.specs.Words.{options_of};
ghost use Rattle.ov_script.specs.Reader.{ended_lines, taken_of};
ghost use Rattle.ov_top.specs.Bytes.{Opens, OpensAs};
ghost use Rattle.ov_top.specs.Ending.{AreWords, Cause, IsTold, IsUndamaged, Keeps, Plays};
ghost use Rattle.ov_top.specs.Running.{AllServed, AreReading, IsReadWhole, IsRunDamage, IsUnharmed, Spent, reads, status_by, status_by_opening, user_of_run};

use crate::errors::RunErr;
use crate::status::Status;
use ov_args::{WordsErr, options};
use ov_host::{Host, Source, Stage};
use ov_open::OpenErr;
use ov_script::Reader;
use ov_session::{Served, serve};
use ov_store::Store;
use ov_value::Txt;
use std::alloc::{AllocError, Global};

/// The user whom a run begins as.
const FIRST_USER: &str = "admin";

// Whether one of both is so: a reply before, or this one, is an error.
fn or_refused(failed: bool, served: Served) -> bool
    ensures { result ≡ (failed || is_refusal_of served) }
{
    failed || served == Served::Refused
}

fn first_user(alloc: Global) -> Result<Txt, AllocError>
    ensures { IfOk result (λ user. user ≡ user_of_run) }
{
    Txt::new(alloc, FIRST_USER)
}

// Serves the lines of the script, and says whether a reply is an error.
fn serve_all<H: Host, S: Source, T: Stage>(
    alloc: Global,
    store: Store,
    host: &mut H,
    source: &mut S,
    stage: &mut T,
    steps: u32,
) -> Result<bool, RunErr>
    requires call { MayCall store (H.state host.old) }
    requires steps { steps ≤ 1000 }
    ensures goes { Goes (H.state host.old) (H.state host.new) }
    ensures attended { Attended (T.staged stage.old) (T.staged stage.new) }
    ensures spent { Spent (S.script source.old) (S.script source.new) }
    ensures host { IsErrOf result RunErr.Host → Rose (H.state host.old).faults (H.state host.new).faults }
    ensures input { IsErrOf result RunErr.Input
        → Rose (S.script source.old).faults (S.script source.new).faults
        ⊎ Rose (T.staged stage.old).faults (T.staged stage.new).faults }
    ensures damaged { ((H.state host.old).tells ≡ true → IsByJournal store.held (H.state host.old))
        → IfErr result (IsRunDamage steps (S.script source.old) (T.staged stage.new) (H.state host.new)) }
    ensures undamaged { (w : World) → IsAtWorld w store.held (H.state host.old) → IfErr result IsUnharmed }
    ensures fetched { TakesNoStep steps store.held.numbers → (S.script source.old).tells ≡ true → AreReading user_of_run (lines_of (S.script source.old).left)
        → (H.state host.new).fetched ≤ (H.state host.old).fetched + reads store.held.numbers user_of_run (lines_of (S.script source.old).left) }
    ensures too_long { IsErrOf result RunErr.TooLong → (S.script source.old).tells ≡ true
        → length (S.script source.old).left ≡ length (S.script source.new).left + 2 ^ 32 }
    ensures ended { (S.script source.old).tells ≡ true → IsOk result → IsReadWhole (S.script source.old) (S.script source.new) }
    ensures served { (w : World) → (S.script source.old).tells ≡ true → (T.staged stage.old).tells ≡ true
        → IsAtWorld w store.held (H.state host.old) → AllServed steps w (session_of (T.staged stage.old).files user_of_run)
        (T.staged stage.new).files (lines_of (S.script source.old).left)
        (ended_lines (taken_of (S.script source.old) (S.script source.new))) (Rose (T.staged stage.old).faults (T.staged stage.new).faults → ⊥)
        result store.held (H.state host.old) (H.state host.new) }
{
    let mut store = store;
    let mut user = first_user(alloc)?;
    let mut reader = Reader::new(alloc)?;
    let mut line = Vec::new(alloc);
    let mut failed = false;
    'lines: while reader.next_line(source, &mut line)? {
        let served = serve(
            alloc,
            &mut store,
            host,
            stage,
            line.as_slice(),
            steps,
            &mut user,
        )?;
        failed = or_refused(failed, served);
    }
    Ok(failed)
}

// The status of a run whose store was opened.
fn status_of(ran: Result<bool, RunErr>) -> Status
    ensures { result ≡ status_by ran }
{
    match ran {
        Ok(false) => Status::Done,
        Ok(true) => Status::Refused,
        Err(RunErr::Host) => Status::HostFault,
        Err(RunErr::Input) => Status::InputFault,
        Err(RunErr::Memory) => Status::Memory,
        Err(RunErr::Damaged { area, at }) => Status::Damaged { area, at },
        Err(RunErr::TooLong) => Status::ScriptTooLong,
    }
}

// The status of a run whose store wasn't.
fn status_unopened(off: OpenErr) -> Status
    ensures { result ≡ status_by_opening off }
{
    match off {
        OpenErr::Host => Status::HostFault,
        OpenErr::Memory => Status::Memory,
        OpenErr::NotAStore => Status::NotAStore,
        OpenErr::Format { found } => Status::Format { found },
        OpenErr::Damaged { area, at } => Status::Damaged { area, at },
    }
}

// Opens the store, and serves the lines of the script over it.
fn run_script<H: Host, S: Source, T: Stage>(
    alloc: Global,
    host: &mut H,
    source: &mut S,
    stage: &mut T,
    steps: u32,
) -> Status
    requires steps { steps ≤ 1000 }
    ensures cause { (words : List (List ℕ)) (o : List ℕ × ℕ) → options_of words ≡ Some o → o.1 ≡ steps → Cause result words
        (record { host = H.state host.old; script = S.script source.old; stage = T.staged stage.old })
        (record { host = H.state host.new; script = S.script source.new; stage = T.staged stage.new }) }
    ensures keeps { Keeps
        (record { host = H.state host.old; script = S.script source.old; stage = T.staged stage.old })
        (record { host = H.state host.new; script = S.script source.new; stage = T.staged stage.new }) }
    ensures spares { (H.state host.old).tells ≡ true → (Opens (H.state host.old).tape.disk → ⊥)
        → Only (H.state host.old).tape (H.state host.new).tape (IsLeftByOpen (H.state host.old).tape.disk) }
    ensures undamaged { (w : World) → (H.state host.old).tells ≡ true → StandsAs w (as_read (H.state host.old).tape.disk) → IsUndamaged result }
    ensures fetched { (numbers : Numbers Extent Extent) → (H.state host.old).tells ≡ true → OpensAs numbers (H.state host.old).tape.disk
        → TakesNoStep steps numbers → (S.script source.old).tells ≡ true → AreReading user_of_run (lines_of (S.script source.old).left)
        → (H.state host.new).fetched ≤ (H.state host.old).fetched + reads numbers user_of_run (lines_of (S.script source.old).left) }
    ensures plays { (w : World) → IsTold w (record { host = H.state host.old; script = S.script source.old; stage = T.staged stage.old })
        → Plays result steps w
        (record { host = H.state host.old; script = S.script source.old; stage = T.staged stage.old })
        (record { host = H.state host.new; script = S.script source.new; stage = T.staged stage.new }) }
{
    match Store::open(alloc, host) {
        Ok(store) => status_of(serve_all(alloc, store, host, source, stage, steps)),
        Err(off) => status_unopened(off),
    }
}

/// Runs a script over its ends. The words are those after the program's name: a folder's name, and perhaps how many migration
/// steps may be taken after each command, from 0 to 1,000.
///
/// Each line that is no comment is one command, and has one reply, which is printed once what the command does is on the disk.
/// `Usage` exactly where the words are off the form; then, and at want of memory for reading them, no end is called.
///
/// The steps come behind the reply, until no plan runs or there is no room for the next one, and print nothing; a comment has none
/// behind it. So there are steps only where a plan runs when the run begins, or an `optimize` of the script begins one. Damage that
/// a step meets ends the run as that of a command does. The bytes that a run of reading lines fetches are bounded where no step
/// comes: where none is asked for, or no plan runs at the entry, since these lines begin none.
pub fn run<H: Host, S: Source, T: Stage>(
    alloc: Global,
    words: &[Txt],
    host: &mut H,
    source: &mut S,
    stage: &mut T,
) -> Status
    ensures cause { Cause result words.now
        (record { host = H.state host.old; script = S.script source.old; stage = T.staged stage.old })
        (record { host = H.state host.new; script = S.script source.new; stage = T.staged stage.new }) }
    ensures keeps { Keeps
        (record { host = H.state host.old; script = S.script source.old; stage = T.staged stage.old })
        (record { host = H.state host.new; script = S.script source.new; stage = T.staged stage.new }) }
    ensures spares { (H.state host.old).tells ≡ true → (Opens (H.state host.old).tape.disk → ⊥)
        → Only (H.state host.old).tape (H.state host.new).tape (IsLeftByOpen (H.state host.old).tape.disk) }
    ensures undamaged { (w : World) → (H.state host.old).tells ≡ true → StandsAs w (as_read (H.state host.old).tape.disk) → IsUndamaged result }
    ensures fetched { (numbers : Numbers Extent Extent) (o : List ℕ × ℕ) → (H.state host.old).tells ≡ true → OpensAs numbers (H.state host.old).tape.disk
        → options_of words.now ≡ Some o → TakesNoStep o.1 numbers → (S.script source.old).tells ≡ true → AreReading user_of_run (lines_of (S.script source.old).left)
        → (H.state host.new).fetched ≤ (H.state host.old).fetched + reads numbers user_of_run (lines_of (S.script source.old).left) }
    ensures plays { (w : World) (o : List ℕ × ℕ) → options_of words.now ≡ Some o
        → IsTold w (record { host = H.state host.old; script = S.script source.old; stage = T.staged stage.old })
        → Plays result o.1 w
        (record { host = H.state host.old; script = S.script source.old; stage = T.staged stage.old })
        (record { host = H.state host.new; script = S.script source.new; stage = T.staged stage.new }) }
{
    match options(alloc, words) {
        Ok(wanted) => run_script(alloc, host, source, stage, wanted.steps),
        Err(WordsErr::Usage) => Status::Usage,
        Err(WordsErr::Memory) => Status::Memory,
    }
}
