// What the numbers of a World show is what the World shows.
ghost use Rattle.std.specs.Prelude.{◌≡◌, ℕ, List, [], map, Some, None, find};
ghost use Rattle.ov_host.specs.declared.area.Extent.{Extent};
ghost use Rattle.ov_catalog.specs.Applying.{is_named};
ghost use Rattle.ov_catalog.specs.Numbers.{Numbers, SetNumbers};
ghost use Rattle.ov_catalog.specs.Reached.{Reached};
ghost use Rattle.ov_catalog.specs.Stands.{Readings, asked, seen};
ghost use Rattle.ov_model.specs.Act.{Session, layout_deed, log_lines, ls_line, tells};
ghost use Rattle.ov_model.specs.World.{Dataset, World, set_named};
ghost use Rattle.ov_listing.specs.Listed.{shown_cvds, shown_layout, shown_log};

/// Where the numbers, with what is read in their extents, are those of a World, the versions of each dataset that they name are
/// printed as the World's, a name that they don't have is none of the World's, and the datasets are printed as the World's. Of a
/// World that moves led to, the layout that the numbers of a dataset show is the one that the command `layout` tells of it.
pub fn what_is_shown_is_the_worlds()
    ensures log { (r : Readings) (n : Numbers Extent Extent) (w : World) (name : List ℕ) (s : SetNumbers Extent Extent)
        → seen r n ≡ asked w → find (is_named name) n.sets ≡ Some s
        → (d : Dataset) × (set_named w name ≡ Some d) × (shown_log s ≡ log_lines [] d.cvd.versions) }
    ensures none { (r : Readings) (n : Numbers Extent Extent) (w : World) (name : List ℕ)
        → seen r n ≡ asked w → find (is_named name) n.sets ≡ None → set_named w name ≡ None }
    ensures cvds { (r : Readings) (n : Numbers Extent Extent) (w : World)
        → seen r n ≡ asked w → shown_cvds n ≡ map ls_line w.sets }
    ensures layout { (r : Readings) (n : Numbers Extent Extent) (w : World) (name : List ℕ) (s : SetNumbers Extent Extent) (t : Session)
        → Reached w → seen r n ≡ asked w → find (is_named name) n.sets ≡ Some s
        → layout_deed t name (set_named w name) ≡ tells t (shown_layout s) }
{}
