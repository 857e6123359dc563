// A dataset's number of records counts all that its versions brought.

ghost use Rattle.std.specs.Prelude.{ℕ, List};
ghost use Rattle.ov_event.specs.declared.event.Event as raw;
ghost use Rattle.ov_model.specs.Lists.{IsIn};
ghost use Rattle.ov_catalog.specs.Applying.{AllFollow, start_of};
ghost use Rattle.ov_catalog.specs.Numbers.{nothing_yet};
ghost use Rattle.ov_catalog.specs.Raw.{numbers_in};
ghost use Rattle.ov_read.specs.Agreement.{Numbers};
ghost use Rattle.ov_parents.specs.Parents.{IsCounted};

/// After events that applied, each dataset has at least as many records as it had directly after any of its versions.
/// So what [`parents_of`](crate::parents_of) asks of a dataset holds of all that a catalog has.
pub fn records_are_counted()
    ensures { (format : ℕ) (events : List raw.Event) (s : Numbers) → AllFollow (start_of format) events nothing_yet → IsIn (numbers_in events).sets s → IsCounted s }
{}
