// Laws of the step that is next.
ghost use Rattle.std.specs.Prelude.{◌≡◌, ℕ, List, None, Some};
ghost use Rattle.ov_host.specs.declared.area.Extent.{Extent};
ghost use Rattle.ov_model.specs.Moves.{Copy, Move, numbered};
ghost use Rattle.ov_model.specs.Steps.{next_step};
ghost use Rattle.ov_model.specs.World.{Dataset, Plan, World, first_set};
ghost use Rattle.ov_catalog.specs.Numbers.{Numbers as Catalog};
ghost use Rattle.ov_catalog.specs.Reached.{Fits, IfRunning, IfThere, Reached};
ghost use Rattle.ov_catalog.specs.Shown.{copy_event, event_of};
ghost use Rattle.ov_catalog.specs.Stands.{asked, seen};
ghost use Rattle.law_image.specs.Pages.{readings_of};
ghost use Rattle.law_image.specs.Worked.{the_pages};
ghost use Rattle.ov_read.specs.Agreement.{Numbers};
ghost use Rattle.ov_read.specs.OfWorld.{IsSetOf};
ghost use Rattle.law_steps.specs.Turns.{IsNext, IsPlanSeen, IsSeenTurn, running};
ghost use Rattle.law_steps.specs.Worked.{the_planned};

/// The step that is next fits. It is of the first dataset in which a plan runs, which its number finds; and the event of a copy
/// is that of this dataset and its plan.
pub fn the_next_step_fits()
    ensures fits { (w : World) (m : Move) → Reached w → next_step w ≡ Some m → Fits m w }
    ensures turn { (w : World) (m : Move) → Reached w → next_step w ≡ Some m → IsNext w m }
    ensures copy { (w : World) (cvd : ℕ) → Reached w → next_step w ≡ Some (Copy cvd)
        → IfThere (λ d. IfRunning (λ plan. event_of (Copy cvd) w ≡ Some (copy_event cvd d plan)) d.plan) (first_set (numbered cvd) w.sets) }
{}

/// Where the bytes of a store stand for a World, the first dataset with a plan in its catalog is the one whose turn it is; its
/// numbers say what the plan is; and where the catalog has no plan, no step is next.
pub fn the_running_plan_is_found()
    ensures some { (w : World) (n : Catalog Extent Extent) (area : List ℕ) (s : Numbers) → Reached w → seen (readings_of area) n ≡ asked w
        → running n ≡ Some s → IsSeenTurn w area s }
    ensures none { (w : World) (n : Catalog Extent Extent) (area : List ℕ) → seen (readings_of area) n ≡ asked w
        → running n ≡ None → next_step w ≡ None }
    ensures numbers { (w : World) (area : List ℕ) (s : Numbers) (d : Dataset) (plan : Plan) → IsSetOf w d area s → d.plan ≡ Some plan
        → IsPlanSeen s d plan }
{}

/// What these laws ask for can be met: where a plan begins in a store with one dataset, its turn is seen in the store's bytes.
pub fn a_first_plan_is_found()
    ensures { (s : Numbers) × IsSeenTurn the_planned the_pages s }
{}
