// Laws of the pieces of partitions.
ghost use Rattle.std.specs.Prelude.{◌≡◌, length, Some};
ghost use Rattle.ov_model.specs.Holding.{AreHeld, MayFlip};
ghost use Rattle.ov_model.specs.Lists.{IsIn, joined};
ghost use Rattle.ov_model.specs.Moves.{Move, moved};
ghost use Rattle.ov_model.specs.Ordered.{HaveOrder};
ghost use Rattle.ov_model.specs.Placed.{ArePlaced};
ghost use Rattle.ov_model.specs.Plans.{kept_pieces};
ghost use Rattle.ov_model.specs.World.{Dataset, Plan, Target, World, empty_world, targets_from};
ghost use Rattle.law_partitions.specs.Pieces.{ArePieces, HasPieces, MayCopy, RowsRise};

/// A partition's pieces share no record, none is empty, and their records are those of the versions that it keeps, all of them
/// and no other. It stays so with every move: a new version's rows rise by their keys, a copy finds a record missing, and a
/// flip finds none missing. With it stays what that rests on: what a running plan keeps and has copied is of its targets'
/// versions and shares no record, and the sources of targets stand until their own flip.
pub fn pieces_are_disjoint_and_together_the_records()
    ensures start { ArePieces empty_world.sets }
    ensures kept { (m : Move) (w : World) → RowsRise m w → MayCopy m w → MayFlip m w → ArePlaced w.sets → AreHeld w.sets → ArePieces w.sets
        → ArePieces (moved m w).sets }
{}

/// Each piece, and each that was copied for a plan, has its records in the order of their rids, and stays so with every move:
/// with a version more, which gives no earlier rid anew, with columns more, with a copy and with a flip. Where pieces are
/// disjoint, which a copy rests on, no record stands twice among all.
pub fn pieces_stand_in_the_order_of_rids()
    ensures start { HaveOrder empty_world.sets }
    ensures kept { (m : Move) (w : World) → ArePieces w.sets → HaveOrder w.sets → HaveOrder (moved m w).sets }
{}

/// While a target waits, it says how many records its kept pieces have: what stands there since its plan began stays true.
pub fn a_waiting_target_says_how_many_records_it_keeps()
    ensures { (d : Dataset) (plan : Plan) (t : Target) → HasPieces d → d.plan ≡ Some plan → IsIn (targets_from plan.at plan.targets) t
        → t.kept_records ≡ length (joined (kept_pieces d t)) }
{}
