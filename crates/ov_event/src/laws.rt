//! Laws of the definitions: each is the contract of a function that does nothing.

ghost use Rattle.std.specs.Prelude.{◌≡◌};
ghost use Rattle.ov_event.specs.declared.event.Event.{Event as AnEvent};
ghost use Rattle.ov_event.specs.Spelling.{IsEvent, spelling};

/// No bytes spell two events.
pub fn one_event()
    ensures { (a b : AnEvent) → IsEvent a → IsEvent b → spelling a ≡ spelling b → a ≡ b }
{}
