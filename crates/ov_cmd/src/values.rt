//! The values of a line's words and options.

ghost use Rattle.std.specs.Prelude.{◌≡◌};
ghost use Rattle.std.specs.Option.{option_copied};
ghost use Rattle.ov_model.specs.Forms.{option_in};
ghost use Rattle.ov_model.specs.Line.{has as has_of};

use crate::word::Word;
use ov_model::Given;

/// An option's letter, and its value.
pub(crate) type Chosen = (Word<'static>, Given);

/// The values of the words in order, and those of the options by their letters.
#[derive(Drop)]
pub(crate) struct Values {
    pub words: Vec<Given>,
    pub options: Vec<Chosen>,
}

/// The value of an option; None where it wasn't given.
pub(crate) fn option<'a>(options: &'a [Chosen], letter: &str) -> Option<&'a Given>
    ensures { option_copied result ≡ option_in options.now letter.now }
{
    for chosen in options {
        if chosen.0.as_str() == letter {
            return Some(&chosen.1);
        }
    }
    None
}

/// Whether an option was given.
pub(crate) fn has(options: &[Chosen], letter: &str) -> bool
    ensures { result ≡ has_of options.now letter.now }
{
    option(options, letter).is_some()
}
