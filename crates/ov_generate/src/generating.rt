//! `generate`.

ghost use Rattle.std.specs.Prelude.{◌≡◌, ◌≤◌, ◌<◌, ◌+◌, ◌-◌, ◌^◌, min, ℕ, List, None, IfErr, IsErrOf, IsTrue, MatchResult, OnOk, codes};
ghost use Rattle.ov_host.specs.Host.{Rose};
ghost use Rattle.ov_value.specs.Naming.{is_name};
ghost use Rattle.ov_core.specs.AtWorld.{IsAtWorld};
ghost use Rattle.ov_core.specs.Held.{IsByJournal};
ghost use Rattle.ov_model.specs.Act.{Session};
ghost use Rattle.ov_model.specs.Deed.{permitted};
ghost use Rattle.ov_model.specs.World.{World};
ghost use Rattle.ov_model.specs.declared.command.Command.TheVariants as asks;
ghost use Rattle.ov_model.specs.declared.reply.Reply.TheVariants as says;
ghost use Rattle.ov_store.specs.Kept.{MayCall};
ghost use Rattle.ov_store.specs.Refusals.{new_off};
ghost use Rattle.ov_store.specs.Scanning.{IsUndamaged};
ghost use Rattle.ov_store.specs.declared.errors.StoreErr.{StoreErr as StoreErrValue};
ghost use Rattle.law_runs.specs.Serving.{Does};
ghost use Rattle.ov_generate.specs.Making.{Ends, IsDamageOf, IsKnown, IsWanted};
ghost use Rattle.ov_generate.specs.Reads.{HasDamagedVersion, HasFetched};

use crate::tables::first_table;
use crate::version::add_version;
use ov_gen::{Gen, generate_schema};
use ov_host::Host;
use ov_store::{Store, StoreErr};
use ov_value::Txt;
use std::alloc::{AllocError, Global};

/// A dataset that is asked for.
#[derive(Drop)]
pub struct Wanted {
    /// Its name.
    pub cvd: Txt,
    /// What its rows are drawn from.
    pub seed: u64,
    /// How many rows its first version has, from 1 on. With the versions they are at most 1,000,000.
    pub rows: u32,
    /// How many versions it has, from 1 to 65,535.
    pub versions: u32,
}

/// A dataset that was made.
#[derive(Clone, Copy, PartialEq, Eq)]
pub struct Generated {
    /// How many versions it has.
    pub versions: u32,
    /// How many records its versions have, each counted once.
    pub records: u32,
    /// How many rows its versions have, together.
    pub members: u64,
}

// How many records a dataset has.
fn records_of(store: &Store, cvd: &str) -> u32
    requires known { IsKnown store.now.held.numbers cvd.now }
    ensures { (known : IsKnown store.now.held.numbers cvd.now) → result ≡ known.set.records }
{
    match store.catalog().cvd(cvd) {
        Some(d) => d.records,
        None => unreachable!(),
    }
}

fn message(alloc: Global) -> Result<Txt, AllocError>
    ensures { MatchResult result (λ made. made ≡ codes "gen") (λ e. 0 ≤ 1) }
{
    Txt::new(alloc, "gen")
}

/// Makes a dataset with its versions, each a move of its own: an Init, and then commits of one parent each.
///
/// `CvdExists`, `TooManyCvds` and `NoNumbers` come first, before anything is drawn or read. Then a move may find no room: `Full` or
/// `JournalFull`; `Damaged` where the rows of a parent, as they are read back, aren't those that were made; `Memory`; and `Host`. The
/// versions before stay. A version costs two reads of its parent, and a commit.
pub fn generate<H: Host>(
    alloc: Global,
    store: &mut Store,
    host: &mut H,
    wanted: &Wanted,
) -> Result<Generated, StoreErr>
    requires call { MayCall store.old (H.state host.old) }
    requires name { IsTrue (is_name wanted.now.cvd) }
    requires wanted { IsWanted wanted.now }
    ensures told { (H.state host.new).tells ≡ (H.state host.old).tells }
    ensures kept { (H.state host.new).keeps ≡ (H.state host.old).keeps }
    ensures faults { (H.state host.old).faults ≤ (H.state host.new).faults }
    ensures counted { min (H.state host.old).fetched (2 ^ 64 - 1) ≤ (H.state host.new).fetched }
    ensures fetched { HasFetched wanted.now.cvd wanted.now.seed wanted.now.rows wanted.now.versions store.old.held store.new.held
        (IsErrOf result StoreErr.Host) (H.state host.old) (H.state host.new) }
    ensures unread { (off : StoreErrValue) → new_off store.old.held.numbers wanted.now.cvd ≡ Some off → H.state host.new ≡ H.state host.old }
    ensures first { (off : StoreErrValue) → new_off store.old.held.numbers wanted.now.cvd ≡ Some off → IfErr result (λ e. e ≡ off) }
    ensures allowed { OnOk result (new_off store.old.held.numbers wanted.now.cvd ≡ None) }
    ensures cause { IsErrOf result StoreErr.Host → Rose (H.state host.old).faults (H.state host.new).faults }
    ensures damaged { IfErr result (IsDamageOf (HasDamagedVersion wanted.now.cvd wanted.now.seed wanted.now.rows wanted.now.versions store.old.held store.new.held
        (H.state host.new))) }
    ensures undamaged { (w : World) → IsAtWorld w store.old.held (H.state host.old) → IfErr result IsUndamaged }
    ensures usable { (IsErrOf result StoreErr.Host → ⊥) → MayCall store.new (H.state host.new) }
    ensures by_journal { IsByJournal store.old.held (H.state host.old) → (IsErrOf result StoreErr.Host → ⊥) → IsByJournal store.new.held (H.state host.new) }
    ensures acts { (w : World) (s : Session) → IsAtWorld w store.old.held (H.state host.old) → MatchResult result
        (λ made. Does (permitted w s (asks.Generate wanted.now.cvd wanted.now.seed wanted.now.rows wanted.now.versions)) s s w
        (says.Generate wanted.now.cvd made.versions made.records made.members)
        store.old.held store.new.held (H.state host.old) (H.state host.new))
        (Ends wanted.now.cvd (permitted w s (asks.Generate wanted.now.cvd wanted.now.seed wanted.now.rows wanted.now.versions)) s w
        store.old.held store.new.held (H.state host.old) (H.state host.new)) }
{
    let cvd = wanted.cvd.as_str();
    let count = wanted.rows;
    store.may_begin(cvd)?;
    let mut source = Gen::new(wanted.seed, count);
    let rows = first_table(alloc, &mut source)?;
    let message = message(alloc)?;
    let begun = store.init(host, &wanted.cvd, generate_schema(alloc)?, rows)?;
    let mut members = u64::from(begun.rows);
    for before in 1..wanted.versions {
        let made = add_version(
            alloc,
            store,
            host,
            &mut source,
            cvd,
            count,
            before + 1,
            &message,
        )?;
        members += u64::from(made.rows);
    }
    Ok(Generated {
        versions: wanted.versions,
        records: records_of(store, cvd),
        members,
    })
}
