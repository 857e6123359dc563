// Laws of a journal's bytes, each the contract of a function that does nothing.
ghost use Rattle.std.specs.Prelude.{◌≡◌, ◌≢◌, ◌<◌, ◌+◌, ℕ, List, Some, length, take, slice_index};
ghost use Rattle.ov_journal.specs.declared.header.Side.{Side};
ghost use Rattle.ov_journal.specs.Bytes.{AreSame, live_place, other_of, place_of};
ghost use Rattle.ov_journal.specs.Journal.{Kept, IsJournal, Standing, AreaIs, end_of};

/// The bytes past the first closed gate don't matter.
pub fn a_journal_ends_at_its_first_closed_gate()
    ensures { (kept : Kept) (b c : List ℕ) → IsJournal kept b → take (end_of kept + 1) c ≡ take (end_of kept + 1) b
        → IsJournal kept c }
{}

/// Of a journal whose other slot is closed, only the text, the live slot and the live half up to its first closed gate
/// matter. (The places of `AreSame` reach from the first one up to the second, which is left out.)
pub fn only_the_live_half_matters()
    ensures { (kept : Kept) (side : Side) (b c : List ℕ) → IsJournal kept b → live_place (take 38 b) ≡ Some (place_of side)
        → AreSame 0 12 b c → AreSame (place_of side) (place_of side + 13) b c → AreSame kept.start (end_of kept + 1) b c
        → end_of kept < length c → slice_index c (place_of (other_of side)) ≢ 165 → IsJournal kept c }
{}

/// The bytes of an area are one thing at most: unmade, foreign, of one unknown format number, damaged at one place, or a
/// journal of one epoch, start and format number with one list of payloads.
pub fn bytes_are_one_thing()
    ensures { (a b : Standing) (bytes : List ℕ) → AreaIs a bytes → AreaIs b bytes → a ≡ b }
{}
