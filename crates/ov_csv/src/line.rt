//! A record, as the list of its fields.

ghost use Rattle.std.specs.Prelude.{◌≡◌, [], IsTrue, IfOk, OnErr, length, true, slice_index_or};
ghost use Rattle.std.specs.List.{list_all};
ghost use Rattle.std.specs.Str.{is_utf8, IsAscii};
ghost use Rattle.csv.specs.Records.{fields_of};
ghost use Rattle.ov_csv.specs.Plain.{IsPlain, IsNext};
ghost use Rattle.ov_csv.specs.Taking.{Takes};

use crate::names::field;
use crate::plain::{cut_field, next_plain};
use crate::read_lines::ReadLines;
use csv::ByteRecord;
use std::alloc::{AllocError, Global};
use std::marker::Model;

/// A record. Contracts see it as the list of its fields. These lie in the text that they were cut from, or in a record of the
/// `csv` crate; another record goes into the same memory.
#[derive(Drop)]
pub(crate) struct Line<'a> {
    record: ByteRecord,
    cuts: Vec<&'a [u8]>,
    is_cut: bool,
    // Where it is set, each field is known to be UTF-8.
    are_texts: bool,
}

impl<'a> Model for Line<'a> {
    ghost use Rattle.std.specs.Prelude.{◌≡◌, List, ℕ, true};
    ghost use Rattle.std.specs.List.{list_all};
    ghost use Rattle.std.specs.Str.{is_utf8};
    ghost use Rattle.csv.specs.Records.{fields_of};
    ghost use Rattle.ov_csv.specs.Plain.{fields_in};

    ghost Value = { List (List ℕ) };

    ghost view = { λ l. fields_in l.is_cut l.cuts.items (fields_of l.record) };

    ghost invariant = { λ l. l.are_texts ≡ true → list_all is_utf8 (fields_in l.is_cut l.cuts.items (fields_of l.record)) ≡ true };
}

impl<'a> Line<'a> {
    /// A record without a field. It takes no memory.
    pub(crate) fn new(alloc: Global) -> Line<'a>
        ensures { result ≡ [] }
    {
        Line {
            record: ByteRecord::new(alloc),
            cuts: Vec::new(alloc),
            is_cut: true,
            are_texts: false,
        }
    }

    /// How many fields there are.
    pub(crate) fn len(&self) -> usize
        ensures { result ≡ length self.now }
    {
        if self.is_cut {
            self.cuts.len()
        } else {
            self.record.len()
        }
    }

    /// The field at a place, or no bytes where there is none.
    pub(crate) fn at(&self, place: usize) -> &[u8]
        ensures { result.now ≡ slice_index_or self.now place [] }
    {
        if self.is_cut {
            cut_field(&self.cuts, place)
        } else {
            field(&self.record, place)
        }
    }

    /// Whether each field is found to be UTF-8 at once, as it is where all bytes are ASCII.
    pub(crate) fn has_texts(&self) -> bool
        ensures { IsTrue result → list_all is_utf8 self.now ≡ true }
    {
        self.are_texts || (!self.is_cut && is_ascii(&self.record))
    }

    /// Takes the next record of a reader, as [`ReadLines::next`] gives it.
    pub(crate) fn read(&mut self, lines: &mut ReadLines<'_>) -> Result<bool, AllocError>
        ensures ok { IfOk result (λ found. Takes lines.old found self.new lines.new) }
        ensures err { OnErr result (lines.new ≡ []) }
    {
        self.is_cut = false;
        self.are_texts = false;
        lines.next(&mut self.record)
    }

    /// Takes the next record of a text without quotes and carriage returns, and gives the bytes behind it; `None` where no
    /// record is left.
    pub(crate) fn cut(
        &mut self,
        text: &'a [u8],
        ascii: bool,
    ) -> Result<Option<&'a [u8]>, AllocError>
        requires plain { IsPlain text.now }
        requires ascii { ascii ≡ true → IsAscii text.now }
        ensures { IfOk result (IsNext text.now self.new) }
    {
        self.is_cut = true;
        self.are_texts = false;
        let rest = next_plain(text, &mut self.cuts)?;
        self.are_texts = ascii && rest.is_some();
        Ok(rest)
    }
}

fn is_ascii(record: &ByteRecord) -> bool
    ensures { IsTrue result → list_all is_utf8 (fields_of record.now) ≡ true }
{
    record.as_slice().is_ascii()
}
