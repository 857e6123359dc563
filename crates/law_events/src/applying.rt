// The event of a move that fits applies.
ghost use Rattle.std.specs.Prelude.{◌≡◌, ◌≤◌, ◌<◌, ◌+◌, ℕ, List, [], Some, None};
ghost use Rattle.ov_event.specs.declared.event.Event as raw;
ghost use Rattle.ov_host.specs.declared.area.Extent.{Extent};
ghost use Rattle.ov_model.specs.Moves.{Move};
ghost use Rattle.ov_model.specs.World.{World, empty_world};
ghost use Rattle.ov_catalog.specs.Applying.{first_off};
ghost use Rattle.ov_catalog.specs.Extents.{covers, brought, live};
ghost use Rattle.ov_catalog.specs.Numbers.{Numbers};
ghost use Rattle.ov_catalog.specs.Raw.{event_in, numbers_in};
ghost use Rattle.ov_catalog.specs.Reached.{Fits};
ghost use Rattle.ov_catalog.specs.Stands.{Readings, StandsFor, IsMove, seen, seen_event, asked_event};
ghost use Rattle.ov_catalog.specs.Worked.{nowhere, empty_event, empty_move};
ghost use Rattle.law_events.specs.Fitting.{IsSoundEvent};

/// Whether an event applies doesn't depend on what is read of lists and segments.
pub fn readings_do_not_matter()
    ensures { (format : ℕ) (r : Readings) (e : raw.Event) (n : Numbers Extent Extent) → first_off format e (seen r n) ≡ first_off format e n }
{}

/// Where events stand for a World, in a store of its format, and a move fits, the event that spells it applies. Beside what is read, that asks of the
/// event's own extents that they are those of so many rows and records.
pub fn the_event_of_a_move_applies()
    ensures { (events : List raw.Event) (r : Readings) (w : World) (e : raw.Event) (m : Move) → StandsFor w.format events r w → Fits m w → IsSoundEvent e
        → Some (seen_event r e) ≡ asked_event m w → first_off w.format e (numbers_in events) ≡ None }
{}

/// So an event that spells a move that fits is that of the move, where its new extents lie off the live ones and off each other.
pub fn an_event_that_spells_a_move_is_its_event()
    ensures { (events : List raw.Event) (r : Readings) (w : World) (e : raw.Event) (m : Move) → StandsFor w.format events r w → Fits m w → IsSoundEvent e
        → Some (seen_event r e) ≡ asked_event m w
        → ((page : ℕ) → covers (brought (event_in e)) page + covers (live (numbers_in events)) page ≤ 1)
        → ((page : ℕ) → 1 ≤ covers (brought (event_in e)) page → page < r.pages)
        → IsMove w.format e m w (numbers_in events) r }
{}

/// No less may be asked of an event's extents: they are those of so many rows and records in each event that applies.
pub fn an_event_that_applies_is_sound()
    ensures { (format : ℕ) (e : raw.Event) (n : Numbers Extent Extent) → first_off format e n ≡ None → IsSoundEvent e }
{}

/// What is asked can be met: by the event of a dataset without rows, where an extent of no bytes is read as an empty list.
pub fn an_empty_dataset_is_sound()
    ensures sound { IsSoundEvent empty_event }
    ensures spells { (r : Readings) → r.list nowhere ≡ Some [] → Some (seen_event r empty_event) ≡ asked_event empty_move empty_world }
{}
