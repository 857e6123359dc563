// Laws of the steps that are left.
ghost use Rattle.std.specs.Prelude.{◌≡◌, ◌+◌, Some, None};
ghost use Rattle.ov_model.specs.Moves.{Move, moved};
ghost use Rattle.ov_model.specs.Steps.{next_step, steps_left};
ghost use Rattle.ov_model.specs.World.{World, AllBegun, empty_world};
ghost use Rattle.law_partitions.specs.Countdown.{AllRun, AreNumbered};
ghost use Rattle.law_partitions.specs.Pieces.{ArePieces};

/// There are steps left exactly where a plan runs. That rests on a running plan having a target left, which stays so with
/// every move where each dataset has a version.
pub fn a_running_plan_has_steps_left()
    ensures none { (w : World) → next_step w ≡ None → steps_left w ≡ 0 }
    ensures no_plan { (w : World) → AllRun w.sets → steps_left w ≡ 0 → next_step w ≡ None }
    ensures start { AllRun empty_world.sets }
    ensures kept { (m : Move) (w : World) → AllBegun w.sets → AllRun w.sets → AllRun (moved m w).sets }
{}

/// No two datasets have one number, and stay so with every move: a new one gets a number above all that were given.
pub fn numbers_of_datasets_are_given_once()
    ensures start { AreNumbered empty_world }
    ensures kept { (m : Move) (w : World) → AreNumbered w → AreNumbered (moved m w) }
{}

/// The step that is next, a copy or a flip, leaves one step less. A copy takes 256 missing records, or all that are left, and
/// leaves the others missing; a flip leaves missing what later targets lacked, since their sources stand until their own flip.
pub fn each_step_is_one_step_less()
    ensures { (w : World) (m : Move) → next_step w ≡ Some m → AreNumbered w → AllRun w.sets → ArePieces w.sets
        → steps_left (moved m w) + 1 ≡ steps_left w }
{}
