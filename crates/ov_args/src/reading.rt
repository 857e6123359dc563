//! What the words ask for.

ghost use Rattle.std.specs.Prelude.{◌≡◌, ◌≤◌, Some, None, IfOk, IsErrOf};
ghost use Rattle.ov_args.specs.Words.{options_of};

use crate::answer::{Options, WordsErr};
use crate::compared::{has_dashes, steps_asked};
use crate::proposed::proposed;
use ov_value::Txt;
use std::alloc::Global;

/// What the words after the program's name ask for: a folder `F`, and a number of steps that is 0 where they name none. They are
/// accepted exactly as `F`, `F --steps N`, `--steps N F`, `F --steps=N` or `--steps=N F`, where `F` is not empty and does not
/// begin with `-`, and `N` is one digit to four, at most 1,000.
pub fn options(alloc: Global, words: &[Txt]) -> Result<Options, WordsErr>
    ensures ok { IfOk result (λ o. options_of words.now ≡ Some (o.folder, o.steps)) }
    ensures usage { IsErrOf result WordsErr.Usage → options_of words.now ≡ None }
    ensures bounded { IfOk result (λ o. o.steps ≤ 1000) }
{
    if has_dashes(words) {
        return Err(WordsErr::Usage);
    }
    let (folder, text) = proposed(alloc, words)?;
    match steps_asked(words, folder, text) {
        Some(steps) => made(alloc, folder, steps),
        None => Err(WordsErr::Usage),
    }
}

fn made(alloc: Global, folder: &str, steps: u32) -> Result<Options, WordsErr>
    ensures ok { IfOk result (λ o. (o.folder ≡ folder.now) × (o.steps ≡ steps)) }
    ensures memory { IsErrOf result WordsErr.Usage → ⊥ }
{
    match Txt::new(alloc, folder) {
        Ok(folder) => Ok(Options { folder, steps }),
        Err(_) => Err(WordsErr::Memory),
    }
}
