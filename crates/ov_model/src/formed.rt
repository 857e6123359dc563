// The law of what a line's command has.
ghost use Rattle.std.specs.Prelude.{ℕ, List};
ghost use Rattle.ov_model.specs.Formed.{AllAsk, AsksSo, IsAsked};
ghost use Rattle.ov_model.specs.Forms.{all_forms};
ghost use Rattle.ov_model.specs.Line.{line_of};

/// The command that a line asks for, of all commands of the product, has what its form reads.
pub fn lines_ask_what_forms_read()
    ensures line { (text : List ℕ) → AsksSo IsAsked (line_of all_forms text) }
    ensures lines { (lines : List (List ℕ)) → AllAsk IsAsked all_forms lines }
{}
