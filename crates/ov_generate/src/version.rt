// One version more of a dataset that is generated.

ghost use Rattle.std.specs.Prelude.{◌≡◌, ◌≤◌, ◌<◌, ◌+◌, ◌-◌, ◌*◌, ◌^◌, min, ℕ, List, [], ◌∷◌, Some, IfOk, IfErr, IsErrOf, MatchResult, OnOk, codes, length};
ghost use Rattle.ov_host.specs.Host.{Rose};
ghost use Rattle.ov_core.specs.AtWorld.{IsAtWorld};
ghost use Rattle.ov_core.specs.Held.{IsByJournal};
ghost use Rattle.ov_model.specs.Generator.{child_of, parent_drawn};
ghost use Rattle.ov_model.specs.World.{World};
ghost use Rattle.ov_read.specs.Sizes.{bytes_for};
ghost use Rattle.ov_store.specs.Committing.{Set};
ghost use Rattle.ov_store.specs.Kept.{MayCall, Stays};
ghost use Rattle.ov_store.specs.Scanning.{set_in};
ghost use Rattle.law_generated.specs.Grown.{Grown, HasGrown, grown_more, move_next, rows_next};
ghost use Rattle.law_moves.specs.Doing.{IsMoved};
ghost use Rattle.ov_generate.specs.Making.{HasDamage, IsDamageOf, IsKnown, IsUnmoved};
ghost use Rattle.ov_generate.specs.Reads.{IsVersionMade, bytes_of};

use crate::parent::parent_rows;
use crate::tables::child_table;
use ov_gen::Gen;
use ov_host::Host;
use ov_store::{Committed, Store, StoreErr};
use ov_value::Txt;
use std::alloc::Global;

/// Makes a dataset's next version: the parent is drawn first, and then what becomes of its rows.
///
/// It costs two reads of the parent, one for its rows and one of the commit, and the commit.
pub(crate) fn add_version<H: Host>(
    alloc: Global,
    store: &mut Store,
    host: &mut H,
    source: &mut Gen,
    cvd: &str,
    count: u32,
    vid: u32,
    message: &Txt,
) -> Result<Committed, StoreErr>
    requires call { MayCall store.old (H.state host.old) }
    requires known { IsKnown store.old.held.numbers cvd.now }
    requires source { source.old.rows ≡ count }
    requires later { 2 ≤ vid }
    requires few { count + vid ≤ 1000000 }
    requires versions { vid ≤ 65535 }
    requires message { message.now ≡ codes "gen" }
    ensures told { (H.state host.new).tells ≡ (H.state host.old).tells }
    ensures kept { (H.state host.new).keeps ≡ (H.state host.old).keeps }
    ensures faults { (H.state host.old).faults ≤ (H.state host.new).faults }
    ensures counted { min (H.state host.old).fetched (2 ^ 64 - 1) ≤ (H.state host.new).fetched }
    ensures fetched { (H.state host.new).fetched ≤ (H.state host.old).fetched
        + 2 * bytes_of (set_in store.old.held.numbers cvd.now) (parent_drawn (vid - 1) source.old.state).is }
    ensures made { OnOk result (IsVersionMade cvd.now count vid (parent_drawn (vid - 1) source.old.state).is store.old.held store.new.held) }
    ensures known { IfOk result (λ made. IsKnown store.new.held.numbers cvd.now) }
    ensures source { IfOk result (λ made. source.new.rows ≡ count) }
    ensures drawn { OnOk result (source.new.state ≡ (child_of count vid (parent_drawn (vid - 1) source.old.state).state []).state) }
    ensures rows_few { IfOk result (λ made. made.rows ≤ 1000000) }
    ensures cause { IsErrOf result StoreErr.Host → Rose (H.state host.old).faults (H.state host.new).faults }
    ensures damaged { IfErr result (IsDamageOf (HasDamage store.old.held cvd.now source.old.state count vid (H.state host.new))) }
    ensures stays { IfErr result (λ off. Stays off store.old store.new (H.state host.old) (H.state host.new)) }
    ensures usable { OnOk result (MayCall store.new (H.state host.new)) }
    ensures by_journal { IsByJournal store.old.held (H.state host.old) → OnOk result (IsByJournal store.new.held (H.state host.new)) }
    ensures world { (w : World) (g : Grown) (number : ℕ) → IsAtWorld w store.old.held (H.state host.old) → HasGrown w cvd.now number count g
        → length g.done + 1 ≡ vid → source.old.state ≡ g.state → MatchResult result
        (λ made. IsMoved (move_next number count g) w store.old.held store.new.held (H.state host.old) (H.state host.new)
        × (source.new.state ≡ (grown_more count g).state) × (made.rows ≡ length (rows_next count g).is))
        (IsUnmoved (move_next number count g) w store.old.held (H.state host.old) (H.state host.new)) }
{
    let parent = source.parent(vid);
    let rows = parent_rows(alloc, store, host, cvd, parent, count, vid)?;
    let rows = child_table(alloc, source, vid, rows)?;
    let vids = [u64::from(parent)];
    store.commit(host, cvd, &vids, &[], rows, message)
}
