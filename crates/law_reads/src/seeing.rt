// What the numbers of a catalog say of a dataset.
ghost use Rattle.std.specs.Prelude.{◌≡◌, ℕ, List, None, Some, codes};
ghost use Rattle.std.specs.List.{find};
ghost use Rattle.ov_host.specs.declared.area.Extent.{Extent};
ghost use Rattle.ov_model.specs.Moves as moves;
ghost use Rattle.ov_model.specs.World.{Dataset, World, first_set, set_named};
ghost use Rattle.ov_catalog.specs.Applying.{is_named};
ghost use Rattle.ov_catalog.specs.Events.{numbered};
ghost use Rattle.ov_catalog.specs.Numbers.{Numbers as Catalog};
ghost use Rattle.ov_catalog.specs.Reached.{Reached};
ghost use Rattle.ov_catalog.specs.Stands.{asked, seen};
ghost use Rattle.law_image.specs.Pages.{readings_of};
ghost use Rattle.law_image.specs.Worked.{the_pages, the_world};
ghost use Rattle.ov_read.specs.Agreement.{Numbers};
ghost use Rattle.law_reads.specs.Sights.{HasNumbers, IsFound};
ghost use Rattle.ov_read.specs.OfWorld.{IsSetOf};

/// Where the bytes of a store stand for a World, the dataset that its catalog finds by a name or by a number is the World's,
/// and where the catalog finds none, the World has none.
pub fn datasets_are_found()
    ensures named { (w : World) (n : Catalog Extent Extent) (area name : List ℕ) (s : Numbers) → Reached w
        → seen (readings_of area) n ≡ asked w → find (is_named name) n.sets ≡ Some s → IsFound w area s (set_named w name) }
    ensures not_named { (w : World) (n : Catalog Extent Extent) (area name : List ℕ)
        → seen (readings_of area) n ≡ asked w → find (is_named name) n.sets ≡ None → set_named w name ≡ None }
    ensures numbered { (w : World) (n : Catalog Extent Extent) (area : List ℕ) (k : ℕ) (s : Numbers) → Reached w
        → seen (readings_of area) n ≡ asked w → find (numbered k) n.sets ≡ Some s
        → IsFound w area s (first_set (moves.numbered k) w.sets) }
    ensures not_numbered { (w : World) (n : Catalog Extent Extent) (area : List ℕ) (k : ℕ)
        → seen (readings_of area) n ≡ asked w → find (numbered k) n.sets ≡ None
        → first_set (moves.numbered k) w.sets ≡ None }
{}

/// What these laws ask for can be met: a dataset is found in the bytes of a store in which it was made.
pub fn a_first_dataset_is_found()
    ensures { (s : Numbers) × IsFound the_world the_pages s (set_named the_world (codes "people")) }
{}

/// The numbers of a dataset count its versions, their rows, and its records.
pub fn numbers_are_seen()
    ensures { (w : World) (area : List ℕ) (s : Numbers) (d : Dataset) → IsSetOf w d area s → HasNumbers s d }
{}
