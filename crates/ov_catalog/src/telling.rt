//! Laws of what tells a World from others: its numbers, with what its lists and segments have.

ghost use Rattle.std.specs.Prelude.{◌≡◌, ◌↔◌, List};
ghost use Rattle.std.specs.Ordering.{nat_cmp};
ghost use Rattle.ov_value.specs.Shapes.{Shape};
ghost use Rattle.ov_model.specs.Book.{Version};
ghost use Rattle.ov_model.specs.Holding.{MayFlip};
ghost use Rattle.ov_model.specs.Lists.{AreIn, Rises};
ghost use Rattle.ov_model.specs.Moves.{Move, moved};
ghost use Rattle.ov_model.specs.Ordered.{IsInOrder};
ghost use Rattle.ov_model.specs.Placed.{NamesParents};
ghost use Rattle.ov_model.specs.Records.{AllRise, Rec, order_of, rid_in};
ghost use Rattle.ov_model.specs.World.{World, empty_world};
ghost use Rattle.ov_catalog.specs.Shown.{shown};
ghost use Rattle.ov_catalog.specs.Told.{BringsRows, IsTold};

/// A piece is in the order of all records exactly where its records are some of them and their rids ascend.
pub fn order_is_by_rid()
    ensures { (schema : Shape) (versions : List Version) (piece : List Rec) → AllRise schema versions
        → IsInOrder (order_of versions) piece
        ↔ (AreIn piece (order_of versions) × Rises (λ a b. nat_cmp (rid_in (order_of versions) a) (rid_in (order_of versions) b)) piece) }
{}

/// A World's numbers, with what its lists and segments have, tell it from any other: so it is of all that moves make, those that
/// are built and those that add columns, where a commit's parents are there, a flip finds no record missing, and rows are rows
/// of their schema.
pub fn numbers_tell_worlds_apart()
    ensures start { IsTold empty_world }
    ensures kept { (m : Move) (w : World) → NamesParents m w → MayFlip m w → BringsRows m w → IsTold w → IsTold (moved m w) }
    ensures told { (w v : World) → IsTold w → IsTold v → shown w ≡ shown v → (w.sets ≡ v.sets) × (w.next ≡ v.next) }
{}
