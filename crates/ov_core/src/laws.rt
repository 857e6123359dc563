// A law of the room for runs, the contract of a function that does nothing.
ghost use Rattle.std.specs.Prelude.{ℕ, List};
ghost use Rattle.ov_host.specs.declared.area.Extent.{Extent};
ghost use Rattle.ov_core.specs.Rooms.{HaveRuns, IsFull};

/// Where there are runs for both, neither the list nor the segment finds none: so a call that says that there are isn't `Full`.
pub fn runs_that_are_there_are_found()
    ensures { (live : List Extent) (list segment : List ℕ) (pages : ℕ) → HaveRuns live list segment → IsFull live list segment pages → ⊥ }
{}
