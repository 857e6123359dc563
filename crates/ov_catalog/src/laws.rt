//! Laws of what events and readings stand for, each the contract of a function that does nothing.

ghost use Rattle.std.specs.Prelude.{ℕ, ◌≡◌, ◌≢◌, true, List, [], ◌∷◌, ◌++◌, None, Some, is_some};
ghost use Rattle.ov_event.specs.declared.event.Event as raw;
ghost use Rattle.ov_host.specs.declared.area.Extent.{Extent};
ghost use Rattle.ov_model.specs.Moves.{Move, Checkpoint, moved};
ghost use Rattle.ov_model.specs.World.{World, empty_world};
ghost use Rattle.ov_catalog.specs.Events.{Event, applied, replayed};
ghost use Rattle.ov_catalog.specs.Extents.{live};
ghost use Rattle.ov_catalog.specs.Raw.{numbers_in};
ghost use Rattle.ov_catalog.specs.Numbers.{Numbers};
ghost use Rattle.ov_catalog.specs.Reached.{Fits, Reached};
ghost use Rattle.ov_catalog.specs.Shown.{Rids, Records, shown, event_of, snapshot_of};
ghost use Rattle.ov_catalog.specs.Snapshots.{IsSnapshot, events_of};
ghost use Rattle.ov_catalog.specs.Worked.{nowhere, empty_event, empty_move};
ghost use Rattle.ov_catalog.specs.Stands.{Readings, StandsFor, ReadSame, IsMove};

/// The event of a move makes of a World's numbers those of the World after it. Each move but a checkpoint has one.
pub fn events_are_moves()
    ensures moves { (m : Move) (w : World) (e : Event Rids Records) → Reached w → Fits m w → event_of m w ≡ Some e
        → shown (moved m w) ≡ applied e (shown w) }
    ensures one { (m : Move) (w : World) → m ≢ Checkpoint → Fits m w → is_some (event_of m w) ≡ true }
{}

/// The events of a checkpoint say the World's numbers, whatever came before.
pub fn a_snapshot_says_the_world()
    ensures numbers { (n before : Numbers Extent Extent) → replayed (events_of n) before ≡ n }
    ensures spelled { (events : List raw.Event) (n : Numbers Extent Extent) → IsSnapshot events n → numbers_in events ≡ n }
    ensures world { (w : World) (before : Numbers Rids Records) → replayed (snapshot_of w) before ≡ shown w }
{}

/// No event stands for the empty World, whatever the pages have.
pub fn nothing_stands_for_the_empty_world()
    ensures { (format : ℕ) (r : Readings) → StandsFor format [] r empty_world }
{}

/// The event of a dataset without rows stands for it, where an extent of no bytes is read as an empty list.
pub fn an_empty_dataset_stands()
    ensures { (format : ℕ) (r : Readings) → r.list nowhere ≡ Some [] → StandsFor format (empty_event ∷ []) r (moved empty_move empty_world) }
{}

/// Only what is read of the live extents counts.
pub fn only_live_extents_matter()
    ensures { (format : ℕ) (events : List raw.Event) (old new : Readings) (w : World) → StandsFor format events old w
        → ReadSame (live (numbers_in events)) old new → StandsFor format events new w }
{}

/// Events, with what is read, stand for one World at most: its datasets and the number of the next one. (Its epoch, number of
/// records and format number are those of the journal.)
pub fn at_most_one_world()
    ensures { (format : ℕ) (events : List raw.Event) (r : Readings) (w v : World) → StandsFor format events r w → StandsFor format events r v
        → (w.sets ≡ v.sets) × (w.next ≡ v.next) }
{}

/// One event more, that of a move, stands for the World after the move.
pub fn one_more_event()
    ensures { (format : ℕ) (events : List raw.Event) (r : Readings) (w : World) (e : raw.Event) (m : Move) → StandsFor format events r w
        → IsMove format e m w (numbers_in events) r → StandsFor format (events ++ e ∷ []) r (moved m w) }
{}
