//! Numbers that look random.

ghost use Rattle.std.specs.Prelude.{◌≡◌, ◌≤◌, ◌<◌};
ghost use Rattle.ov_model.specs.Generator.{draw as draw_of, parent_drawn};

/// A number below `bound`.
pub(crate) fn draw(state: &mut u64, bound: u64) -> u64
    requires some { 1 ≤ bound }
    ensures drawn { result ≡ (draw_of bound state.old).is }
    ensures below { result < bound }
    ensures state { state.new ≡ (draw_of bound state.old).state }
{
    *state = state
        .wrapping_mul(6_364_136_223_846_793_005)
        .wrapping_add(1_442_695_040_888_963_407);
    (*state >> 33) % bound
}

/// The parent of the version after `before`.
pub(crate) fn draw_parent(state: &mut u64, before: u32) -> u32
    requires some { 1 ≤ before }
    ensures drawn { result ≡ (parent_drawn before state.old).is }
    ensures least { 1 ≤ result }
    ensures greatest { result ≤ before }
    ensures state { state.new ≡ (parent_drawn before state.old).state }
{
    if draw(state, 4) == 0 {
        1 + draw(state, u64::from(before)) as u32
    } else {
        before
    }
}
