//! Keywords and signs by their spelling.

ghost use Rattle.std.specs.Prelude.{◌≡◌, map};
ghost use Rattle.std.specs.Char.{to_ascii_lowercase};
ghost use Rattle.ov_model.specs.Grammar.{found_in, keyword_of, clause_words, order_words, value_words, relation_words, signs};

use ov_model::Fixed;

/// The keyword that a word spells, in any case of letters.
pub(crate) fn keyword(word: &str) -> Option<Fixed>
    ensures { result ≡ keyword_of word.now }
{
    if let Some(found) = of_clauses(word) {
        return Some(found);
    }
    if let Some(found) = of_orders(word) {
        return Some(found);
    }
    if let Some(found) = of_values(word) {
        return Some(found);
    }
    of_relations(word)
}

#[tactic(auto, unfolding(ov_model::specs::Grammar::found_in))]
fn of_clauses(word: &str) -> Option<Fixed>
    ensures { result ≡ found_in clause_words (map to_ascii_lowercase word.now) }
{
    if word.eq_ignore_ascii_case("select") {
        Some(Fixed::Select)
    } else if word.eq_ignore_ascii_case("from") {
        Some(Fixed::From)
    } else if word.eq_ignore_ascii_case("version") {
        Some(Fixed::Version)
    } else if word.eq_ignore_ascii_case("of") {
        Some(Fixed::Of)
    } else if word.eq_ignore_ascii_case("cvd") {
        Some(Fixed::Cvd)
    } else if word.eq_ignore_ascii_case("where") {
        Some(Fixed::Where)
    } else if word.eq_ignore_ascii_case("group") {
        Some(Fixed::Group)
    } else if word.eq_ignore_ascii_case("by") {
        Some(Fixed::By)
    } else {
        None
    }
}

#[tactic(auto, unfolding(ov_model::specs::Grammar::found_in))]
fn of_orders(word: &str) -> Option<Fixed>
    ensures { result ≡ found_in order_words (map to_ascii_lowercase word.now) }
{
    if word.eq_ignore_ascii_case("having") {
        Some(Fixed::Having)
    } else if word.eq_ignore_ascii_case("order") {
        Some(Fixed::Order)
    } else if word.eq_ignore_ascii_case("limit") {
        Some(Fixed::Limit)
    } else if word.eq_ignore_ascii_case("asc") {
        Some(Fixed::Asc)
    } else if word.eq_ignore_ascii_case("desc") {
        Some(Fixed::Desc)
    } else if word.eq_ignore_ascii_case("and") {
        Some(Fixed::And)
    } else if word.eq_ignore_ascii_case("or") {
        Some(Fixed::Or)
    } else if word.eq_ignore_ascii_case("not") {
        Some(Fixed::Not)
    } else {
        None
    }
}

#[tactic(auto, unfolding(ov_model::specs::Grammar::found_in))]
fn of_values(word: &str) -> Option<Fixed>
    ensures { result ≡ found_in value_words (map to_ascii_lowercase word.now) }
{
    if word.eq_ignore_ascii_case("count") {
        Some(Fixed::Count)
    } else if word.eq_ignore_ascii_case("sum") {
        Some(Fixed::Sum)
    } else if word.eq_ignore_ascii_case("min") {
        Some(Fixed::Min)
    } else if word.eq_ignore_ascii_case("max") {
        Some(Fixed::Max)
    } else if word.eq_ignore_ascii_case("true") {
        Some(Fixed::True)
    } else if word.eq_ignore_ascii_case("false") {
        Some(Fixed::False)
    } else if word.eq_ignore_ascii_case("vid") {
        Some(Fixed::Vid)
    } else if word.eq_ignore_ascii_case("is") {
        Some(Fixed::Is)
    } else if word.eq_ignore_ascii_case("null") {
        Some(Fixed::Null)
    } else {
        None
    }
}

#[tactic(auto, unfolding(ov_model::specs::Grammar::found_in))]
fn of_relations(word: &str) -> Option<Fixed>
    ensures { result ≡ found_in relation_words (map to_ascii_lowercase word.now) }
{
    if word.eq_ignore_ascii_case("join") {
        Some(Fixed::Join)
    } else if word.eq_ignore_ascii_case("on") {
        Some(Fixed::On)
    } else if word.eq_ignore_ascii_case("left") {
        Some(Fixed::Left)
    } else if word.eq_ignore_ascii_case("right") {
        Some(Fixed::Right)
    } else if word.eq_ignore_ascii_case("parents") {
        Some(Fixed::Parents)
    } else if word.eq_ignore_ascii_case("ancestors") {
        Some(Fixed::Ancestors)
    } else if word.eq_ignore_ascii_case("descendants") {
        Some(Fixed::Descendants)
    } else if word.eq_ignore_ascii_case("in") {
        Some(Fixed::In)
    } else {
        None
    }
}

/// The sign that is spelled so.
#[tactic(auto, unfolding(ov_model::specs::Grammar::found_in))]
pub(crate) fn sign(spelling: &str) -> Option<Fixed>
    ensures { result ≡ found_in signs spelling.now }
{
    match spelling {
        "*" => Some(Fixed::Star),
        "," => Some(Fixed::Comma),
        "(" => Some(Fixed::Open),
        ")" => Some(Fixed::Close),
        ";" => Some(Fixed::Semicolon),
        "." => Some(Fixed::Dot),
        "=" => Some(Fixed::Equal),
        "<>" => Some(Fixed::Unequal),
        "!=" => Some(Fixed::Unequal),
        "<" => Some(Fixed::Less),
        "<=" => Some(Fixed::LessOrEqual),
        ">" => Some(Fixed::Greater),
        ">=" => Some(Fixed::GreaterOrEqual),
        _ => None,
    }
}
