// Laws of the generator's moves.
ghost use Rattle.std.specs.Prelude.{◌≡◌, ◌+◌, ℕ, List, None, length};
ghost use Rattle.ov_gen.specs.Versions.{IsGrown};
ghost use Rattle.ov_model.specs.Generator.{fresh_rows, generated_schema};
ghost use Rattle.ov_model.specs.Moves.{Init, moved};
ghost use Rattle.ov_model.specs.World.{World, set_named};
ghost use Rattle.law_generated.specs.Grown.{Grown, HasGrown, begun, grown_more, move_next, rows_of_parent};

/// A dataset that is generated begins, where none has its name.
pub fn a_generated_dataset_begins()
    ensures { (w : World) (name : List ℕ) (count seed : ℕ) → set_named w name ≡ None
        → HasGrown (moved (Init name generated_schema (fresh_rows count 1 seed).is) w) name w.next count (begun seed count) }
{}

/// Each of its commits makes one version more, of rows that the next one can be made of.
pub fn a_generated_dataset_grows()
    ensures more { (w : World) (name : List ℕ) (number count : ℕ) (g : Grown) → HasGrown w name number count g
        → HasGrown (moved (move_next number count g) w) name number count (grown_more count g) }
    ensures parent { (w : World) (name : List ℕ) (number count : ℕ) (g : Grown) → HasGrown w name number count g
        → IsGrown count (length g.done + 1) (rows_of_parent g) }
{}
