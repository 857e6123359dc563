//! A folder and a text for the number of steps, compared with the words.

ghost use Rattle.std.specs.Prelude.{◌≡◌, ◌↔◌, ◌++◌, IsTrue, IfSome, IsNone, Some, None, codes, option_map};
ghost use Rattle.std.specs.List.{list_all};
ghost use Rattle.std.specs.Char.{is_ascii_digit};
ghost use Rattle.ov_args.specs.Words.{folder_of, number_of, options_of};
ghost use Rattle.ov_args.specs.Proposed.{value_of as value_in, steps_of as steps_of_text, Spells, Proposes, has_dashes as are_dashes_in};

use ov_value::Txt;

/// Whether `--` is one of the words.
pub(crate) fn has_dashes(words: &[Txt]) -> bool
    ensures { result ≡ are_dashes_in words.now }
{
    words.iter().any(|word| word.as_str() == "--")
}

fn is_folder(text: &str) -> bool
    ensures { IsTrue result ↔ (folder_of text.now ≡ Some text.now) }
{
    match text.as_bytes() {
        [] => false,
        [first, ..] => *first != b'-',
    }
}

fn has_digits_alone(text: &str) -> bool
    ensures { result ≡ list_all is_ascii_digit text.now }
{
    text.as_bytes().iter().all(|b| b.is_ascii_digit())
}

// What one digit to four write.
fn value_of(text: &str) -> Option<u32>
    ensures { result ≡ value_in text.now }
{
    if text.is_empty() || text.len() > 4 || !has_digits_alone(text) {
        return None;
    }
    text.parse::<u32>().ok()
}

fn number_in(text: &str) -> Option<u32>
    ensures { result ≡ number_of text.now }
{
    let value = value_of(text)?;
    if value > 1000 { None } else { Some(value) }
}

fn steps_of(text: Option<&str>) -> Option<u32>
    ensures { result ≡ steps_of_text (option_map (λ t. t.now) text.entry) }
{
    match text {
        None => Some(0),
        Some(text) => number_in(text),
    }
}

// Whether the word is `--steps=` and then the text.
fn is_joined(word: &str, text: &str) -> bool
    ensures { IsTrue result ↔ (word.now ≡ codes "--steps=" ++ text.now) }
{
    match word.as_bytes().strip_prefix(b"--steps=") {
        Some(rest) => rest == text.as_bytes(),
        None => false,
    }
}

fn are_three(a: &Txt, b: &Txt, c: &Txt, first: &str, second: &str, third: &str) -> bool
    ensures { IsTrue result ↔ ((a.now ≡ first.now) × (b.now ≡ second.now) × (c.now ≡ third.now)) }
{
    a.as_str() == first && b.as_str() == second && c.as_str() == third
}

// Whether the words are this folder and this text, in one of the five forms.
fn spells(words: &[Txt], folder: &str, text: Option<&str>) -> bool
    ensures { IsTrue result ↔ Spells words.now folder.now (option_map (λ t. t.now) text.entry) }
{
    match (words, text) {
        ([a], None) => a.as_str() == folder,
        ([a, b], Some(n)) => {
            (a.as_str() == folder && is_joined(b.as_str(), n))
                || (is_joined(a.as_str(), n) && b.as_str() == folder)
        }
        ([a, b, c], Some(n)) => {
            are_three(a, b, c, folder, "--steps", n) || are_three(a, b, c, "--steps", n, folder)
        }
        _ => false,
    }
}

/// The number of steps that the words ask for, where they are this folder and this text in one of the five forms.
pub(crate) fn steps_asked(words: &[Txt], folder: &str, text: Option<&str>) -> Option<u32>
    ensures asked { IfSome result (λ n. options_of words.now ≡ Some (folder.now, n)) }
    ensures none { IsNone result → Proposes words.now folder.now (option_map (λ t. t.now) text.entry) → options_of words.now ≡ None }
{
    if !is_folder(folder) {
        return None;
    }
    if !spells(words, folder, text) {
        return None;
    }
    steps_of(text)
}
