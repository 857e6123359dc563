//! What is worked out on a chain of three versions, each the contract of a function that does nothing: a plan with its steps,
//! added columns and a checkpoint.

ghost use Rattle.std.specs.Prelude.{◌≡◌, [], ◌∷◌, None, Some, map};
ghost use Rattle.std.specs.Option.{option_map};
ghost use Rattle.ov_event.specs.declared.event.Event.TheVariants as says;
ghost use Rattle.ov_host.specs.declared.area.Extent.{Extent};
ghost use Rattle.ov_model.specs.Moves as moves;
ghost use Rattle.ov_model.specs.Moves.{moved};
ghost use Rattle.ov_catalog.specs.declared.field.Field.TheVariants as off;
ghost use Rattle.ov_catalog.specs.Applying.{AllFollow, off_at, start_of};
ghost use Rattle.ov_catalog.specs.Chains.{chain, planned_chain, copied_chain, flipped_chain, plan_said, plan_past, plan_short, copy_said, copy_short, first_target, second_target, wide_move, wide_said, chain_whole, chain_snapshot, two_of_three, chain_half, chain_end, ended_chain, bare_numbers, list_at, beyond, within};
ghost use Rattle.ov_catalog.specs.Events.{Plan, Flip, applied};
ghost use Rattle.ov_catalog.specs.Numbers.{nothing_yet};
ghost use Rattle.ov_catalog.specs.Extents.{given_up};
ghost use Rattle.ov_catalog.specs.Raw.{event_in, numbers_in};
ghost use Rattle.ov_catalog.specs.Shown.{shown, event_of, snapshot_of};
ghost use Rattle.ov_catalog.specs.Snapshots.{bare};

/// A plan at 3/4 has two targets: the first is built anew of 4 records, the second has 5, of which it keeps 4 in two segments. The
/// event doesn't apply where a place of a segment is past the source's, nor with one target too few.
pub fn a_plan_of_a_chain()
    ensures event { event_of (moves.BeginPlan 1 3 4) chain ≡ Some (Plan 1 3 4 (first_target ∷ second_target ∷ [])) }
    ensures applies { off_at (beyond 2) plan_said (shown chain) ≡ None }
    ensures past { off_at (beyond 2) plan_past (shown chain) ≡ Some off.Count }
    ensures short { off_at (beyond 2) plan_short (shown chain) ≡ Some off.Count }
    ensures numbers { applied (Plan 1 3 4 (first_target ∷ second_target ∷ [])) (shown chain) ≡ shown planned_chain }
{}

/// Its first step copies all 4 records that are missing, no fewer; then the target is flipped, and not before.
pub fn steps_of_a_chain()
    ensures copy { off_at (beyond 2) copy_said (shown planned_chain) ≡ None }
    ensures copy_short { off_at (beyond 2) copy_short (shown planned_chain) ≡ Some off.Count }
    ensures copied { option_map (λ e. applied e (shown planned_chain)) (event_of (moves.Copy 1) planned_chain) ≡ Some (shown copied_chain) }
    ensures flip { off_at (beyond 2) (says.Flip 1) (shown copied_chain) ≡ None }
    ensures flip_early { off_at (beyond 2) (says.Flip 1) (shown planned_chain) ≡ Some off.Count }
    ensures flipped { applied (Flip 1) (shown copied_chain) ≡ shown flipped_chain }
{}

/// A version with a column more applies in a store of format 2, and in none of format 1.
pub fn a_wider_version_of_a_chain()
    ensures format_one { off_at (beyond 1) wide_said (shown chain) ≡ Some off.Number }
    ensures applies { off_at (beyond 2) wide_said (shown chain) ≡ None }
    ensures numbers { option_map (λ e. applied e (shown chain)) (event_of wide_move chain) ≡ Some (shown (moved wide_move chain)) }
{}

/// The snapshot of a chain: a half may begin with it, and a Base comes first alone, a Whole in the order of the numbers. A Whole
/// doesn't apply with a record too many, without a version in its partitions, or with half a threshold.
pub fn a_snapshot_of_a_chain()
    ensures follows { AllFollow (start_of 2) chain_snapshot nothing_yet }
    ensures says { map (λ e. bare (event_in e)) chain_snapshot ≡ map bare (snapshot_of chain) }
    ensures records { (moved moves.Checkpoint chain).records ≡ 2 }
    ensures whole_late { off_at {L = Extent} {S = Extent} (within 2 1) (says.Whole chain_whole) nothing_yet ≡ Some off.Number }
    ensures whole_rows { off_at {L = Extent} {S = Extent} (within 2 0) (says.Whole (record chain_whole { records = 9 })) nothing_yet ≡ Some off.Rows }
    ensures whole_placing { off_at {L = Extent} {S = Extent} (within 2 0) (says.Whole (record chain_whole { parts = two_of_three ∷ [] })) nothing_yet ≡ Some off.Placing }
    ensures whole_plan { off_at {L = Extent} {S = Extent} (within 2 0) (says.Whole (record chain_whole { q = 5 })) nothing_yet ≡ Some off.Plan }
    ensures base_late { off_at {L = Extent} {S = Extent} (beyond 2) (says.Base 2) nothing_yet ≡ Some off.Number }
{}

/// A half that begins with a snapshot and in which a plan runs to its end: its events follow one another, and the numbers are then
/// those of the World. The last flip gives up the one segment that its target doesn't keep of the partition that it empties.
pub fn a_migration_of_a_chain()
    ensures follows { AllFollow (start_of 2) chain_end nothing_yet }
    ensures given { given_up (Flip 1) (numbers_in chain_half) ≡ list_at 1 96 ∷ [] }
    ensures numbers { bare_numbers (numbers_in chain_end) ≡ bare_numbers (shown ended_chain) }
{}
