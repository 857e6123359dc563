//! A new version in its dataset's layout.

ghost use Rattle.std.specs.Prelude.{◌≡◌, ◌+◌, ◌-◌, ◌<◌, ◌≤◌, ◌^◌, ◌++◌, ◌∷◌, [], ℕ, true, false, Some, None, map};
ghost use Rattle.ov_layout.specs.declared.room.Room.TheVariants.{Joining, Placing};
ghost use Rattle.ov_layout.specs.declared.part.Part.{Part};
ghost use Rattle.ov_layout.specs.Changes.{IsNew, IsThere, extents_of};
ghost use Rattle.ov_layout.specs.Parts.{AreParts, is_number, is_placed, part_numbered, records_at};
ghost use Rattle.ov_model.specs.Moves.{next_with};
ghost use Rattle.ov_catalog.specs.Arriving.{FitsRecords, IsOther, part_asked};
ghost use Rattle.ov_catalog.specs.Events.{join_at, own_part, parts_with};
ghost use Rattle.ov_catalog.specs.Raw.{place_in};
ghost use Rattle.ov_catalog.specs.Ready.{layout_room};
ghost use Rattle.ov_catalog.specs.Sets.{part_in};

use crate::arrival::Arrival;
use ov_event::Placed;
use ov_layout::Layout;

/// The version gets its partition. Takes no memory.
pub fn place_version(layout: &mut Layout, new: &Arrival)
    requires room { layout.old.room ≡ layout_room (place_in new.now.place) }
    requires new { IsNew new.now.vid layout.old.parts }
    requires there { IsThere (part_asked (place_in new.now.place)) layout.old.parts }
    requires records { FitsRecords (place_in new.now.place) new.now.added layout.old.parts }
    requires next { layout.old.next < 2 ^ 32 - 1 }
    ensures parts { map part_in layout.new.parts ≡ parts_with (place_in new.now.place) layout.old.next new.now.vid new.now.added (extents_of new.now.segment) (map part_in layout.old.parts) }
    ensures next { layout.new.next ≡ next_with (place_in new.now.place) layout.old.next }
    ensures new { IsNew (new.now.vid + 1) layout.new.parts }
    ensures stay { (vid : ℕ) → is_placed layout.old.parts vid ≡ true → is_placed layout.new.parts vid ≡ true }
    ensures placed { is_placed layout.new.parts new.now.vid ≡ true }
    ensures others { (vid : ℕ) → (vid ≡ new.now.vid → ⊥) → is_placed layout.old.parts vid ≡ false → is_placed layout.new.parts vid ≡ false }
    ensures numbered { (id : ℕ) (part : Part) → IsOther (place_in new.now.place) id → part_numbered id layout.old.parts ≡ Some part → part_numbered id layout.new.parts ≡ Some part }
    ensures zero { part_numbered 0 layout.new.parts ≡ None }
    ensures sound { AreParts layout.old.parts layout.old.next }
{
    match new.place {
        Placed::Own => own(layout, new),
        Placed::Join(id) => join(layout, id, new),
    }
}

fn own(layout: &mut Layout, new: &Arrival)
    requires room { layout.old.room ≡ Placing 0 }
    requires new { IsNew new.now.vid layout.old.parts }
    requires next { layout.old.next < 2 ^ 32 - 1 }
    ensures parts { map part_in layout.new.parts ≡ map part_in layout.old.parts ++ own_part layout.old.next new.now.vid new.now.added (extents_of new.now.segment) ∷ [] }
    ensures next { layout.new.next ≡ layout.old.next + 1 }
    ensures new { IsNew (new.now.vid + 1) layout.new.parts }
    ensures stay { (vid : ℕ) → is_placed layout.old.parts vid ≡ true → is_placed layout.new.parts vid ≡ true }
    ensures placed { is_placed layout.new.parts new.now.vid ≡ true }
    ensures others { (vid : ℕ) → (vid ≡ new.now.vid → ⊥) → is_placed layout.old.parts vid ≡ false → is_placed layout.new.parts vid ≡ false }
    ensures numbered { (id : ℕ) (part : Part) → part_numbered id layout.old.parts ≡ Some part → part_numbered id layout.new.parts ≡ Some part }
    ensures zero { part_numbered 0 layout.new.parts ≡ None }
    ensures sound { AreParts layout.old.parts layout.old.next }
{
    let _ = layout.parts();
    layout.own(new.vid, new.added, new.segment);
}

fn join(layout: &mut Layout, id: u32, new: &Arrival)
    requires room { layout.old.room ≡ Joining id }
    requires new { IsNew new.now.vid layout.old.parts }
    requires there { is_number layout.old.parts id ≡ true }
    requires records { records_at id layout.old.parts + new.now.added ≤ 2 ^ 31 }
    ensures parts { map part_in layout.new.parts ≡ join_at id new.now.vid new.now.added (extents_of new.now.segment) (map part_in layout.old.parts) }
    ensures next { layout.new.next ≡ layout.old.next }
    ensures new { IsNew (new.now.vid + 1) layout.new.parts }
    ensures stay { (vid : ℕ) → is_placed layout.old.parts vid ≡ true → is_placed layout.new.parts vid ≡ true }
    ensures placed { is_placed layout.new.parts new.now.vid ≡ true }
    ensures others { (vid : ℕ) → (vid ≡ new.now.vid → ⊥) → is_placed layout.old.parts vid ≡ false → is_placed layout.new.parts vid ≡ false }
    ensures numbered { (other : ℕ) (part : Part) → (id ≡ other → ⊥) → part_numbered other layout.old.parts ≡ Some part → part_numbered other layout.new.parts ≡ Some part }
    ensures zero { part_numbered 0 layout.new.parts ≡ None }
    ensures sound { AreParts layout.old.parts layout.old.next }
{
    let _ = layout.parts();
    layout.join(new.vid, id, new.added, new.segment);
}
