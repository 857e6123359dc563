//! Lines.

ghost use Rattle.std.specs.Prelude.{◌≡◌, ◌≢◌, IfOk, IfErr, Ok, [], ◌∷◌, map};
ghost use Rattle.std.specs.Option.{option_map};
ghost use Rattle.ov_model.specs.Forms.{all_forms};
ghost use Rattle.ov_model.specs.Line.{line_of, by_form, by_name, form_of as form_of_name, first_of, has_second as has_second_of, made_by, read_words as read_words_of, Asks};
ghost use Rattle.ov_model.specs.Words.{words_of as words_in_text, is_note as is_note_of, next_word as next_word_of, without_blanks as without_blanks_of};
ghost use Rattle.ov_cmd.specs.Asked.{AsksAny};
ghost use Rattle.ov_cmd.specs.Errors.{Refuses};
ghost use Rattle.ov_cmd.specs.Following.{next_of};
ghost use Rattle.ov_cmd.specs.Said.{said, RefusesLine};
ghost use Rattle.ov_cmd.specs.Table.{choice_of, form_of, param_of};
ghost use Rattle.ov_cmd.specs.Whole.{whole_of};

use crate::form::Form;
use crate::line_err::LineErr;
use crate::make::make;
use crate::next::{Next, blanks, next_word, without_blanks};
use crate::options::{missing, missing_word};
use crate::order::read_words;
use crate::table::all;
use crate::values::Values;
use crate::word::Word;
use crate::words::words_of;
use ov_model::{Command, Given};
use ov_value::Txt;
use std::alloc::Global;

/// The most bytes of a line.
const LINE_BYTES: usize = ov_model::LINE_BYTES;

/// The command of a line of this form, by the words behind its name.
fn read_by_words(alloc: Global, form: &Form, words: &[Word]) -> Result<Command, LineErr>
    ensures ok { IfOk result (λ command. made_by (form_of form.now) (read_words_of (map choice_of form.now.choices.now) (map param_of form.now.params.now) [] 2 words.now) ≡ Ok command) }
    ensures err { IfErr result (Refuses (made_by (form_of form.now) (read_words_of (map choice_of form.now.choices.now) (map param_of form.now.params.now) [] 2 words.now))) }
{
    let before = Vec::new(alloc);
    let values = read_words(alloc, form.choices, form.params, before, 2, words)?;
    match missing(form.choices, values.options.as_slice()) {
        Some(letter) => Err(missing_word(alloc, letter)),
        None => make(alloc, form.maker, &values),
    }
}

/// The command of a line of this form, all behind its name being one text.
fn read_whole(alloc: Global, form: &Form, text: &str) -> Result<Command, LineErr>
    ensures ok { IfOk result (λ command. whole_of (form_of form.now) text.now ≡ Ok command) }
    ensures err { IfErr result (Refuses (whole_of (form_of form.now) text.now)) }
{
    let mut words = Vec::new(alloc);
    words.push(Given::Text(Txt::new(alloc, text)?))?;
    let values = Values {
        words,
        options: Vec::new(alloc),
    };
    make(alloc, form.maker, &values)
}

fn has_second(second: Option<&str>, word: Option<&str>) -> bool
    ensures { result ≡ has_second_of (option_map (λ s. s.now) second.entry) (option_map (λ w. w.now) word.entry) }
{
    match (second, word) {
        (None, _) => true,
        (Some(second), Some(word)) => second == word,
        (Some(_), None) => false,
    }
}

fn form_named(forms: &[Form], name: &str, word: Option<&str>) -> Option<Form>
    ensures { option_map form_of result ≡ form_of_name (map form_of forms.now) name.now (option_map (λ w. w.now) word.entry) }
{
    for form in forms {
        if form.name == name && has_second(form.second, word) {
            return Some(*form);
        }
    }
    None
}

fn first_word<'a, 'l>(words: &'a Option<Vec<Word<'l>>>) -> Option<&'a str>
    ensures { option_map (λ w. w.now) result ≡ first_of (option_map (λ v. v.items) words.now) }
{
    match words {
        Some(words) => match words.as_slice() {
            [word, ..] => Some(word.as_str()),
            [] => None,
        },
        None => None,
    }
}

/// The command of a line with this first word.
fn read_named(alloc: Global, forms: &[Form], name: &str, behind: &str) -> Result<Command, LineErr>
    ensures ok { IfOk result (λ command. by_form behind.now (words_in_text behind.now) (form_of_name (map form_of forms.now) name.now (first_of (words_in_text behind.now))) ≡ Asks command) }
    ensures err { IfErr result (RefusesLine (by_form behind.now (words_in_text behind.now) (form_of_name (map form_of forms.now) name.now (first_of (words_in_text behind.now))))) }
{
    let words = words_of(alloc, behind)?;
    let form = form_named(forms, name, first_word(&words));
    read_formed(alloc, form, behind, words)
}

/// The command of a line of this form, or of none, by what stands behind its first word.
fn read_formed(
    alloc: Global,
    form: Option<Form>,
    behind: &str,
    words: Option<Vec<Word>>,
) -> Result<Command, LineErr>
    ensures ok { IfOk result (λ command. by_form behind.now (option_map (λ v. v.items) words.entry) (option_map form_of form) ≡ Asks command) }
    ensures err { IfErr result (RefusesLine (by_form behind.now (option_map (λ v. v.items) words.entry) (option_map form_of form))) }
{
    match (form, words) {
        (Some(form), words) => {
            if form.whole {
                return read_whole(alloc, &form, without_blanks(behind));
            }
            match words {
                Some(words) => read_by_words(alloc, &form, words.as_slice()),
                None => Err(LineErr::OpenQuote),
            }
        }
        (None, Some(_)) => Err(LineErr::UnknownCommand),
        (None, None) => Err(LineErr::OpenQuote),
    }
}

/// Whether a line of up to 65,536 bytes is a comment: blanks alone, or blanks and then `#`.
fn is_comment(line: &[u8]) -> bool
    ensures { result ≡ is_note_of (without_blanks_of line.now) }
{
    let start = blanks(line);
    is_note(&line[start..])
}

/// Whether a text without blanks in front is nothing, or a note.
fn is_note(text: &[u8]) -> bool
    ensures { result ≡ is_note_of text.now }
{
    match text {
        [first, ..] => *first == b'#',
        [] => true,
    }
}

/// What a text asks for.
fn read_text(alloc: Global, forms: &[Form], text: &str) -> Result<Option<Command>, LineErr>
    ensures ok { IfOk result (λ c. by_name (map form_of forms.now) (next_word_of text.now) ≡ said c) }
    ensures err { IfErr result (RefusesLine (by_name (map form_of forms.now) (next_word_of text.now))) }
{
    match next_word(alloc, text)? {
        Next::NoWord => Ok(None),
        Next::Word { word, behind } => {
            let command = read_named(alloc, forms, word.as_str(), behind)?;
            Ok(Some(command))
        }
        Next::Unclosed => Err(LineErr::OpenQuote),
    }
}

/// What a line asks for, of commands of these forms.
fn read_line_of(alloc: Global, forms: &[Form], line: &[u8]) -> Result<Option<Command>, LineErr>
    ensures ok { IfOk result (λ c. line_of (map form_of forms.now) line.now ≡ said c) }
    ensures err { IfErr result (RefusesLine (line_of (map form_of forms.now) line.now)) }
{
    if line.len() > LINE_BYTES {
        return Err(LineErr::LongLine);
    }
    if is_comment(line) {
        return Ok(None);
    }
    match str::from_utf8(line) {
        Ok(text) => read_text(alloc, forms, text),
        Err(_) => Err(LineErr::NotUtf8),
    }
}

/// What a line asks for, of all commands of the product: None exactly for a comment. Each error but want of memory is the
/// first refusal of the line. The time is linear in the line, which has over 65,536 bytes only where it is refused so.
///
/// A command has what its form reads: a name to begin under, at least one version, a message of up to 1,024 bytes, a query's text of
/// up to 65,536, a column where any are added, and of a `generate` numbers within their bounds.
pub fn read_line(alloc: Global, line: &[u8]) -> Result<Option<Command>, LineErr>
    ensures ok { IfOk result (λ c. line_of all_forms line.now ≡ said c) }
    ensures asked { IfOk result AsksAny }
    ensures err { IfErr result (RefusesLine (line_of all_forms line.now)) }
{
    read_line_of(alloc, all(), line)
}
