// The parent that the tree keeps.

ghost use Rattle.std.specs.Prelude.{◌≡◌, ◌≢◌, ℕ, List, [], length, map};
ghost use Rattle.std.specs.List.{zip};
ghost use Rattle.ov_graph.specs.Versions.{heaviest};
ghost use Rattle.ov_host.specs.declared.area.Extent.{Extent};
ghost use Rattle.ov_model.specs.Lists.{IsIn};
ghost use Rattle.ov_catalog.specs.Applying.{part_serving};
ghost use Rattle.ov_catalog.specs.Numbers.{PartNumbers};

/// The parent of the heaviest edge is one of the parents, so the partition that serves it is one that serves a parent.
pub fn the_tree_parent_is_a_parent()
    ensures parent { (vids weights : List ℕ) → vids ≢ [] → length weights ≡ length vids → IsIn vids (heaviest (zip vids weights)).0 }
    ensures part { (parts : List (PartNumbers Extent)) (vids weights : List ℕ) → vids ≢ [] → length weights ≡ length vids
        → IsIn (map (part_serving parts) vids) (part_serving parts (heaviest (zip vids weights)).0) }
{}
