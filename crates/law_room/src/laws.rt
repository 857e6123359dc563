// Laws of room.
ghost use Rattle.std.specs.Prelude.{◌≡◌, ◌≤◌, ◌+◌, ◌++◌, ◌∷◌, [], ℕ, List, length};
ghost use Rattle.ov_host.specs.Host.{State};
ghost use Rattle.ov_event.specs.Spelling.{spelling};
ghost use Rattle.ov_event.specs.declared.event.Event as raw;
ghost use Rattle.ov_event.specs.declared.event.Event.TheVariants as says;
ghost use Rattle.ov_model.specs.Moves.{Checkpoint, Move, Drop as DropMove};
ghost use Rattle.ov_model.specs.World.{World};
ghost use Rattle.ov_catalog.specs.Extents.{live};
ghost use Rattle.ov_core.specs.declared.brought.Brought.{Brought};
ghost use Rattle.ov_core.specs.Brought.{Asks, Brings, IsBare, IsUnplaced};
ghost use Rattle.ov_core.specs.AtWorld.{IsAtWorld};
ghost use Rattle.ov_core.specs.Held.{Held};
ghost use Rattle.ov_core.specs.Rooms.{HasNoPlace, IsDropped, IsFull, IsMade, IsRecorded, IsTaken, PassesJournal};
ghost use Rattle.ov_catalog.specs.Reached.{Fits};
ghost use Rattle.law_room.specs.Room.{Entry, Made, AllFit, IsWithin, LacksRecord, LacksRun, Take, Writes};

/// What a move that fits writes is one event, one list and one segment; a checkpoint writes a snapshot, which has one length. So
/// the pages and the bytes that moves take are numbers, and a move that writes no run, as a drop, is never refused one.
pub fn what_a_move_writes_is_one_thing()
    ensures one { (m : Move) (w : World) (a b : Writes m w) → Fits m w
        → (a.event ≡ b.event) × (a.list ≡ b.list) × (a.segment ≡ b.segment) }
    ensures taken { (before : List Made) (pages bytes others more : ℕ) → AllFit before → Take before pages bytes → Take before others more
        → (pages ≡ others) × (bytes ≡ more) }
    ensures drop { (entry : Entry) (before : List Made) (cvd : ℕ) (w : World) (pages : ℕ) → LacksRun entry before (DropMove cvd) w pages → ⊥ }
    ensures bare { (entry : Entry) (before : List Made) (m : Move) (w : World) (e : raw.Event) (pages : ℕ) → IsBare e → Asks m w e
        → LacksRun entry before m w pages → ⊥ }
{}

/// Where no run is free for a move's list or segment, or the journal has no room for its record, it may be so by what stood at
/// the entry and the moves since. So it is for a checkpoint that finds no place for its snapshot, or no later epoch.
pub fn room_is_wanting_only_so()
    ensures run { (entry : Entry) (before : List Made) (held : Held) (m : Move) (w : World) (b : Brought) (pages : ℕ)
        → IsWithin entry before held → IsUnplaced b → Brings m w b → IsFull (live held.numbers) b.list.items b.segment.items pages
        → LacksRun entry before m w pages }
    ensures record_ { (entry : Entry) (before : List Made) (held : Held) (m : Move) (w : World) (b : Brought)
        → IsWithin entry before held → IsUnplaced b → Brings m w b → PassesJournal held b.event → LacksRecord entry before m w }
    ensures drop { (entry : Entry) (before : List Made) (held : Held) (cvd : ℕ) (w : World)
        → IsWithin entry before held → PassesJournal held (says.Drop cvd) → LacksRecord entry before (DropMove cvd) w }
    ensures bare { (entry : Entry) (before : List Made) (held : Held) (m : Move) (w : World) (e : raw.Event)
        → IsWithin entry before held → IsBare e → Asks m w e → PassesJournal held e → LacksRecord entry before m w }
    ensures checkpoint { (entry : Entry) (before : List Made) (held : Held) (w : World) (s : State)
        → IsWithin entry before held → IsAtWorld w held s → HasNoPlace held → LacksRecord entry before Checkpoint w }
{}

/// After a move the highest page and the journal's first closed gate are no further on than by what the move wrote, and the epoch
/// is one more after a checkpoint alone.
pub fn what_is_kept_grows_by_what_is_written()
    ensures made { (entry : Entry) (before : List Made) (old new : Held) (m : Move) (w : World) (b : Brought)
        → IsWithin entry before old → IsUnplaced b → Brings m w b → IsMade old new b
        → new.journal.end ≤ old.journal.end + 6 + length (spelling b.event) → new.journal.epoch ≡ old.journal.epoch
        → IsWithin entry (before ++ record { move = m; world = w } ∷ []) new }
    ensures dropped { (entry : Entry) (before : List Made) (old new : Held) (cvd : ℕ) (w : World)
        → IsWithin entry before old → IsDropped old new cvd
        → new.journal.end ≤ old.journal.end + 6 + length (spelling (says.Drop cvd)) → new.journal.epoch ≡ old.journal.epoch
        → IsWithin entry (before ++ record { move = DropMove cvd; world = w } ∷ []) new }
    ensures recorded { (entry : Entry) (before : List Made) (old new : Held) (m : Move) (w : World) (e : raw.Event)
        → IsWithin entry before old → IsBare e → Asks m w e → IsRecorded old new e
        → new.journal.end ≤ old.journal.end + 6 + length (spelling e) → new.journal.epoch ≡ old.journal.epoch
        → IsWithin entry (before ++ record { move = m; world = w } ∷ []) new }
    ensures taken { (entry : Entry) (before : List Made) (old new : Held) (w : World) (s : State)
        → IsWithin entry before old → IsAtWorld w old s → IsTaken old new
        → IsWithin entry (before ++ record { move = Checkpoint; world = w } ∷ []) new }
{}
