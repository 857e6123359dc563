//! The words in order.

ghost use Rattle.std.specs.Prelude.{◌≡◌, ◌+◌, ◌<◌, ◌^◌, IfOk, IfErr, Ok, map, length};
ghost use Rattle.ov_model.specs.Line.{read_words as read_words_of};
ghost use Rattle.ov_cmd.specs.Errors.{Refuses};
ghost use Rattle.ov_cmd.specs.Table.{choice_of, param_of};
ghost use Rattle.ov_cmd.specs.Gathered.{values_of};

use crate::form::{Choice, Param};
use crate::line_err::LineErr;
use crate::options::{missing_word, read_options};
use crate::read::read;
use crate::values::Values;
use crate::word::Word;
use ov_model::Given;
use std::alloc::Global;

/// The words in order from word `nth` on, and then the options. The calls are as deep as there are words in order.
pub(crate) fn read_words(
    alloc: Global,
    choices: &[Choice],
    params: &[Param],
    before: Vec<Given>,
    nth: u64,
    words: &[Word],
) -> Result<Values, LineErr>
    requires { nth + length words.now < 2 ^ 64 }
    ensures ok { IfOk result (λ v. read_words_of (map choice_of choices.now) (map param_of params.now) before.items nth words.now ≡ Ok (values_of v)) }
    ensures err { IfErr result (Refuses (read_words_of (map choice_of choices.now) (map param_of params.now) before.items nth words.now)) }
{
    match params {
        [] => read_options(alloc, choices, before, Vec::new(alloc), nth, words),
        [param, later @ ..] => match words {
            [] => Err(missing_word(alloc, param.what)),
            [word, rest @ ..] => {
                let given = read(alloc, param.reads, nth, before.as_slice(), word.as_str())?;
                let mut more = before;
                more.push(given)?;
                read_words(alloc, choices, later, more, nth + 1, rest)
            }
        },
    }
}
