//! Laws about the words. Each is the contract of a function that does nothing.

ghost use Rattle.std.specs.Prelude.{◌≡◌, ◌↔◌, ℕ, List, Some};
ghost use Rattle.ov_args.specs.Words.{options_of};
ghost use Rattle.ov_args.specs.Forms.{HasForm};

/// What words ask for is what they are in one of the five forms, each of which is written out in `specs/Forms`.
pub fn five_forms()
    ensures { (words : List (List ℕ)) (folder : List ℕ) (steps : ℕ) → (options_of words ≡ Some (folder, steps)) ↔ HasForm words folder steps }
{}
