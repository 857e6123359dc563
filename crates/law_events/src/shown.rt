// Laws of what the numbers of a World say of its plans.
ghost use Rattle.std.specs.Prelude.{◌≡◌, ◌-◌, [], length, Some};
ghost use Rattle.ov_model.specs.Lists.{IsIn};
ghost use Rattle.ov_model.specs.Plans.{current, missing, missing_of, plan_steps};
ghost use Rattle.ov_model.specs.Steps.{steps_left};
ghost use Rattle.ov_model.specs.World.{Dataset, Plan, World};
ghost use Rattle.ov_catalog.specs.Events as numbers;
ghost use Rattle.ov_catalog.specs.Numbers.{PlanNumbers};
ghost use Rattle.ov_catalog.specs.Planning as lacked;
ghost use Rattle.ov_catalog.specs.Reached.{Reached};
ghost use Rattle.ov_catalog.specs.Shown.{Records, shown, shown_plan};
ghost use Rattle.ov_catalog.specs.Steps as counted;

/// What the numbers say of a running plan is what the World says of it: how many records its current target misses, and how many
/// it had to be given when its turn came; and how many steps are left, of a plan and of all.
pub fn a_plan_is_shown_by_its_numbers()
    ensures missing { (w : World) (d : Dataset) (plan : Plan) (p : PlanNumbers Records) → Reached w → IsIn w.sets d → d.plan ≡ Some plan
        → shown_plan d d.plan ≡ Some p → lacked.missing p ≡ length (missing d plan) }
    ensures wanted { (w : World) (d : Dataset) (plan : Plan) (p : PlanNumbers Records) → Reached w → IsIn w.sets d → d.plan ≡ Some plan
        → shown_plan d d.plan ≡ Some p → (numbers.current p).size - (numbers.current p).kept_records ≡ length (missing_of d (current plan) []) }
    ensures steps { (w : World) (d : Dataset) → Reached w → IsIn w.sets d → counted.plan_steps (shown_plan d d.plan) ≡ plan_steps d }
    ensures all { (w : World) → Reached w → counted.steps_left (shown w) ≡ steps_left w }
{}
