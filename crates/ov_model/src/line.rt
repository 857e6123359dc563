// The law of lines.
ghost use Rattle.std.specs.Prelude.{◌≡◌, ◌↔◌, ◌⊎◌, ℕ, true, List};
ghost use Rattle.ov_model.specs.declared.command.Command.{Command};
ghost use Rattle.ov_model.specs.declared.refusal.Refusal.{Refusal};
ghost use Rattle.ov_model.specs.Forms.{Form};
ghost use Rattle.ov_model.specs.Line.{Line, Comment, Asks, Refused, line_of};
ghost use Rattle.ov_model.specs.Words.{is_comment};

/// A line is one command, or a comment, or a refusal, and never two of them; it is a comment exactly where it has at most
/// 65,536 bytes which are blanks alone, or blanks and then `#` and anything.
pub fn a_line_is_one_thing()
    ensures comment { (forms : List Form) (text : List ℕ) → (line_of forms text ≡ Comment) ↔ (is_comment text ≡ true) }
    ensures some { (forms : List Form) (text : List ℕ)
        → (line_of forms text ≡ Comment) ⊎ (((c : Command) × (line_of forms text ≡ Asks c)) ⊎ ((r : Refusal) × (line_of forms text ≡ Refused r))) }
    ensures no_command_refused { (forms : List Form) (text : List ℕ) (c : Command) (r : Refusal) → line_of forms text ≡ Asks c → line_of forms text ≡ Refused r → ⊥ }
    ensures no_comment_asks { (forms : List Form) (text : List ℕ) (c : Command) → line_of forms text ≡ Comment → line_of forms text ≡ Asks c → ⊥ }
    ensures no_comment_refused { (forms : List Form) (text : List ℕ) (r : Refusal) → line_of forms text ≡ Comment → line_of forms text ≡ Refused r → ⊥ }
{}
