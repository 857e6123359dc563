//! Options and their values.

ghost use Rattle.std.specs.Prelude.{◌≡◌, ◌≢◌, ◌+◌, ◌<◌, ◌^◌, [], ◌∷◌, ◌++◌, IfOk, IfErr, Ok, map, length};
ghost use Rattle.std.specs.Option.{option_map};
ghost use Rattle.ov_model.specs.Line.{choice_named as choice_named_of, may_follow as may_follow_of, option_at as option_at_of, one_option as one_option_of, read_options as read_options_of, missing as missing_of};
ghost use Rattle.ov_cmd.specs.Errors.{Refuses};
ghost use Rattle.ov_cmd.specs.Table.{choice_of};
ghost use Rattle.ov_cmd.specs.Gathered.{no_value, values_of};

use crate::form::Choice;
use crate::line_err::LineErr;
use crate::read::read;
use crate::values::{Chosen, Values, has};
use crate::word::Word;
use ov_model::Given;
use ov_value::Txt;
use std::alloc::Global;

fn choice_named(choices: &[Choice], letter: &str) -> Option<Choice>
    ensures { option_map choice_of result ≡ choice_named_of (map choice_of choices.now) letter.now }
{
    for choice in choices {
        if choice.letter == letter {
            return Some(*choice);
        }
    }
    None
}

/// Whether it is the first of its kind, and no rival of one that came before.
fn may_follow(options: &[Chosen], choice: &Choice) -> bool
    ensures { result ≡ may_follow_of options.now (choice_of choice.now) }
{
    !has(options, choice.letter) && !has(options, choice.rival)
}

/// The option that word `nth`, in an option's place, names.
fn option_at(
    choices: &[Choice],
    options: &[Chosen],
    nth: u64,
    letter: &str,
) -> Result<Choice, LineErr>
    ensures ok { IfOk result (λ c. option_at_of (map choice_of choices.now) options.now nth letter.now ≡ Ok (choice_of c)) }
    ensures err { IfErr result (Refuses (option_at_of (map choice_of choices.now) options.now nth letter.now)) }
{
    match choice_named(choices, letter) {
        Some(choice) => {
            if may_follow(options, &choice) {
                Ok(choice)
            } else {
                Err(LineErr::UnexpectedWord { nth })
            }
        }
        None => Err(LineErr::UnexpectedWord { nth }),
    }
}

/// The option that word `nth` names, and its value.
fn chosen_at(
    alloc: Global,
    choices: &[Choice],
    before: &[Given],
    options: &[Chosen],
    nth: u64,
    letter: &str,
    value: &str,
) -> Result<Chosen, LineErr>
    requires { nth + 1 < 2 ^ 64 }
    ensures ok { IfOk result (λ chosen. one_option_of (map choice_of choices.now) before.now options.now nth letter.now value.now ≡ Ok (options.now ++ chosen ∷ [])) }
    ensures err { IfErr result (Refuses (one_option_of (map choice_of choices.now) before.now options.now nth letter.now value.now)) }
{
    let choice = option_at(choices, options, nth, letter)?;
    let given = read(alloc, choice.reads, nth + 1, before, value)?;
    Ok((Word::slice(choice.letter), given))
}

/// The options with the one that word `nth` names and its value.
fn one_option(
    alloc: Global,
    choices: &[Choice],
    before: &[Given],
    options: Vec<Chosen>,
    nth: u64,
    letter: &str,
    value: &str,
) -> Result<Vec<Chosen>, LineErr>
    requires { nth + 1 < 2 ^ 64 }
    ensures ok { IfOk result (λ more. one_option_of (map choice_of choices.now) before.now options.entry.items nth letter.now value.now ≡ Ok more.items) }
    ensures err { IfErr result (Refuses (one_option_of (map choice_of choices.now) before.now options.entry.items nth letter.now value.now)) }
{
    let chosen = chosen_at(
        alloc,
        choices,
        before,
        options.as_slice(),
        nth,
        letter,
        value,
    )?;
    let mut more = options;
    more.push(chosen)?;
    Ok(more)
}

/// The last word of a line, in an option's place: it is the wrong one, or lacks its value.
fn last_option(
    alloc: Global,
    choices: &[Choice],
    options: &[Chosen],
    nth: u64,
    letter: &str,
) -> LineErr
    ensures { Refuses (no_value (map choice_of choices.now) options.now nth letter.now) result }
{
    match option_at(choices, options, nth, letter) {
        Ok(choice) => missing_word(alloc, choice.letter),
        Err(e) => e,
    }
}

/// That a word or an option is missing.
pub(crate) fn missing_word(alloc: Global, what: &str) -> LineErr
    ensures { result ≢ LineErr.Memory → result ≡ LineErr.Missing what.now }
{
    match Txt::new(alloc, what) {
        Ok(what) => LineErr::Missing { what },
        Err(_) => LineErr::Memory,
    }
}

/// Options and their values from word `nth` on. Each option is given once at most, so the calls are as deep as there are
/// options.
pub(crate) fn read_options(
    alloc: Global,
    choices: &[Choice],
    before: Vec<Given>,
    options: Vec<Chosen>,
    nth: u64,
    words: &[Word],
) -> Result<Values, LineErr>
    requires { nth + length words.now < 2 ^ 64 }
    ensures ok { IfOk result (λ v. read_options_of (map choice_of choices.now) before.items options.entry.items nth words.now ≡ Ok (values_of v)) }
    ensures err { IfErr result (Refuses (read_options_of (map choice_of choices.now) before.items options.entry.items nth words.now)) }
{
    match words {
        [] => Ok(Values {
            words: before,
            options,
        }),
        [letter] => Err(last_option(alloc, choices, options.as_slice(), nth, letter.as_str())),
        [letter, value, rest @ ..] => {
            let letter = letter.as_str();
            let value = value.as_str();
            let more = one_option(
                alloc,
                choices,
                before.as_slice(),
                options,
                nth,
                letter,
                value,
            )?;
            read_options(alloc, choices, before, more, nth + 2, rest)
        }
    }
}

/// The first option that is needed and neither given nor excluded by one that is.
pub(crate) fn missing(choices: &[Choice], options: &[Chosen]) -> Option<&'static str>
    ensures { option_map (λ letter. letter.now) result ≡ missing_of (map choice_of choices.now) options.now }
{
    for choice in choices {
        if choice.needed && !has(options, choice.letter) && !has(options, choice.rival) {
            return Some(choice.letter);
        }
    }
    None
}
