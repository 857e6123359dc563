//! Laws of what images stand for, each the contract of a function that does nothing.

ghost use Rattle.std.specs.Prelude.{◌≡◌, ◌≢◌, ◌≤◌, ◌<◌, ◌+◌, ◌-◌, ◌/◌, ◌^◌, ℕ, List, [], ◌∷◌, ◌++◌, take, slice_index};
ghost use Rattle.ov_host.specs.declared.area.Extent.{Extent};
ghost use Rattle.ov_host.specs.Disk.{Image};
ghost use Rattle.ov_event.specs.declared.event.Event.{Event};
ghost use Rattle.ov_event.specs.Spelling.{IsEvent, spelling};
ghost use Rattle.ov_journal.specs.Journal.{
  AreaIs,
  DamagedAt,
  IsForeign,
  IsJournal,
  IsOfFormat,
  IsUnmade,
  Kept,
  and_one,
  end_of,
  new_kept,
};
ghost use Rattle.ov_model.specs.Moves.{Checkpoint, Move, moved};
ghost use Rattle.ov_model.specs.World.{World, empty_world};
ghost use Rattle.ov_catalog.specs.Extents.{covers, live};
ghost use Rattle.ov_catalog.specs.Raw.{numbers_in};
ghost use Rattle.ov_catalog.specs.Stands.{IsMove};
ghost use Rattle.ov_catalog.specs.Reached.{old_checkpoint};
ghost use Rattle.law_image.specs.Checkpoints.{IsCheckpointed, IsOldCheckpointed};
ghost use Rattle.law_image.specs.Images.{SaysSame, Spell, StandsAs, StandsBy};
ghost use Rattle.law_image.specs.Pages.{SameLive, pages_in, readings_of};
ghost use Rattle.law_image.specs.Worked.{the_image, the_world};

/// An image stands for at most one World.
pub fn at_most_one_world()
    ensures { (w v : World) (c : Image) → StandsAs w c → StandsAs v c → w ≡ v }
{}

/// Where an image stands for a World and has a journal whose payloads spell events, it does so by these.
pub fn stands_by_its_journal()
    ensures { (kept : Kept) (events : List Event) (w : World) (c : Image) → StandsAs w c → IsJournal kept c.journal
        → Spell events kept.payloads → StandsBy kept events w c }
{}

/// An image with the same payloads, epoch and format number, and the same bytes in the live extents, stands for the same World.
pub fn same_payloads_and_live_pages()
    ensures { (kept other : Kept) (events : List Event) (w : World) (old new : Image) → StandsBy kept events w old
        → IsJournal other new.journal → SaysSame kept other → SameLive (live (numbers_in events)) old.pages new.pages
        → StandsBy other events w new }
{}

/// The journal's bytes past its first closed gate don't matter, nor do the bytes of pages outside the live extents, nor what
/// was printed.
pub fn only_live_bytes_matter()
    ensures journal { (kept : Kept) (events : List Event) (w : World) (old new : Image) → StandsBy kept events w old
        → take (end_of kept + 1) new.journal ≡ take (end_of kept + 1) old.journal → new.pages ≡ old.pages
        → StandsBy kept events w new }
    ensures pages { (kept : Kept) (events : List Event) (w : World) (old new : Image) → StandsBy kept events w old
        → new.journal ≡ old.journal → SameLive (live (numbers_in events)) old.pages new.pages → StandsBy kept events w new }
{}

/// Where whole pages of extents are there and the same, so are the extents.
pub fn same_pages_have_the_same_extents()
    ensures { (es : List Extent) (old new : List ℕ) → ((page : ℕ) → 1 ≤ covers es page → page < pages_in new)
        → ((p : ℕ) → 1 ≤ covers es (p / 4096) → slice_index new p ≡ slice_index old p) → SameLive es old new }
{}

/// With one payload more, which spells the event of a move, an image stands for the World after the move.
pub fn one_more_payload()
    ensures { (kept : Kept) (events : List Event) (w : World) (old new : Image) (e : Event) (m : Move)
        → StandsBy kept events w old → IsEvent e → IsJournal (and_one kept (spelling e)) new.journal
        → SameLive (live (numbers_in events)) old.pages new.pages → IsMove kept.format e m w (numbers_in events) (readings_of new.pages)
        → StandsBy (and_one kept (spelling e)) (events ++ e ∷ []) (moved m w) new }
{}

/// Where an image stands for a World, one whose journal is of the next epoch and of format 2 and says the snapshot, with the same
/// bytes in the live extents, stands for the World after a checkpoint. So it is after a checkpoint that an earlier program took in a
/// store of format 1, which left that number.
pub fn a_checkpoint_stands()
    ensures next { (kept next : Kept) (events snapshot : List Event) (w : World) (old new : Image) → StandsBy kept events w old
        → IsCheckpointed kept events next snapshot old new → kept.epoch < 2 ^ 32 - 1 → StandsBy next snapshot (moved Checkpoint w) new }
    ensures old { (kept next : Kept) (events snapshot : List Event) (w : World) (old new : Image) → StandsBy kept events w old
        → IsOldCheckpointed kept events next snapshot old new → kept.epoch < 2 ^ 32 - 1 → StandsBy next snapshot (old_checkpoint w) new }
{}

/// An unmade journal beside no page, and a new journal without a payload beside any pages, stand for the empty World.
pub fn nothing_written_stands_for_the_empty_world()
    ensures unmade { (c : Image) → IsUnmade c.journal → c.pages ≡ [] → StandsAs empty_world c }
    ensures new { (c : Image) → IsJournal new_kept c.journal → StandsBy new_kept [] empty_world c }
{}

/// Pages beside an unmade journal stand for no World, nor do a foreign journal, one of an unknown format number, and a damaged
/// one.
pub fn other_bytes_stand_for_no_world()
    ensures unmade { (w : World) (c : Image) → StandsAs w c → IsUnmade c.journal → c.pages ≢ [] → ⊥ }
    ensures foreign { (w : World) (c : Image) → StandsAs w c → IsForeign c.journal → ⊥ }
    ensures format { (w : World) (c : Image) (found : ℕ) → StandsAs w c → IsOfFormat found c.journal → ⊥ }
    ensures damaged { (w : World) (c : Image) (place : ℕ) → StandsAs w c → AreaIs (DamagedAt place) c.journal → ⊥ }
{}

/// The bytes of a store in which one dataset was made stand for the World after that Init.
pub fn a_first_dataset_is_stood_for()
    ensures { StandsAs the_world the_image }
{}
