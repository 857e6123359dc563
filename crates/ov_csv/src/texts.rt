//! A record, each of whose fields is a text.

ghost use Rattle.std.specs.Prelude.{◌≡◌, [], true, false, slice_index_or};
ghost use Rattle.std.specs.Option.{MatchOption};
ghost use Rattle.std.specs.List.{list_all};
ghost use Rattle.std.specs.Str.{is_utf8};

use crate::line::Line;
use ov_value::is_text;
use std::marker::Model;
use std::str;

/// A record that was found to be texts. Contracts see it as the list of its fields.
#[derive(Drop)]
pub(crate) struct Texts<'a> {
    line: &'a Line<'a>,
}

impl<'a> Model for Texts<'a> {
    ghost use Rattle.std.specs.Prelude.{◌≡◌, List, ℕ, true};
    ghost use Rattle.std.specs.List.{list_all};
    ghost use Rattle.std.specs.Str.{is_utf8};

    ghost Value = { List (List ℕ) };

    ghost view = { λ t. t.line.now };

    ghost invariant = { λ t. list_all is_utf8 t.line.now ≡ true };
}

impl<'a> Texts<'a> {
    /// The record's fields as texts, or `None` where one of them is not UTF-8.
    pub(crate) fn of(line: &'a Line<'a>) -> Option<Texts<'a>>
        ensures { MatchOption result (list_all is_utf8 line.now ≡ false) (λ texts. (texts ≡ line.now) × (list_all is_utf8 line.now ≡ true)) }
    {
        if are_texts(line) {
            Some(Texts { line })
        } else {
            None
        }
    }

    /// The text at a place, or the empty text where there is none.
    pub(crate) fn at(&self, place: usize) -> &str
        ensures { result.now ≡ slice_index_or self.now place [] }
    {
        // SAFETY: each field of the record is UTF-8.
        unsafe { str::from_utf8_unchecked(self.line.at(place)) }
    }
}

// Whether each field is UTF-8. One test of all bytes of a record is faster than one of each field.
fn are_texts(line: &Line<'_>) -> bool
    ensures { result ≡ list_all is_utf8 line.now }
{
    line.has_texts() || are_each_text(line)
}

fn are_each_text(line: &Line<'_>) -> bool
    ensures { result ≡ list_all is_utf8 line.now }
{
    for place in 0..line.len() {
        if !is_utf8_field(line.at(place)) {
            return false;
        }
    }
    true
}

fn is_utf8_field(field: &[u8]) -> bool
    ensures { result ≡ is_utf8 field.now }
{
    is_text(field)
}
