//! The records of a text, one after another.

ghost use Rattle.std.specs.Prelude.{◌≡◌, [], OnErr, IfOk};
ghost use Rattle.csv.specs.Reading.{default_config, strip_bom, records};
ghost use Rattle.ov_csv.specs.Taking.{Takes};

use crate::line::Line;
use crate::plain::is_plain;
use crate::read_lines::ReadLines;
use std::alloc::{AllocError, Global};
use std::marker::Model;

/// The records that are left of a text. Contracts see them as the list of the fields of each.
///
/// The `csv` crate reads a text in which a quote stands or a carriage return. Any other, as most are, is cut at its commas and
/// line feeds, which is what the `csv` crate makes of it.
#[derive(Drop)]
pub(crate) struct Lines<'a> {
    // What is left of a text that is cut.
    plain: Option<&'a [u8]>,
    // Whether that is ASCII.
    ascii: bool,
    read: ReadLines<'a>,
}

impl<'a> Model for Lines<'a> {
    ghost use Rattle.std.specs.Prelude.{List, ℕ};
    ghost use Rattle.ov_csv.specs.Plain.{all_left, CanCut};

    ghost Value = { List (List (List ℕ)) };

    ghost view = { λ l. all_left l.plain l.read };

    ghost invariant = { λ l. CanCut l.ascii l.plain };
}

impl<'a> Lines<'a> {
    /// All records of the text, without the mark of byte order that may stand in front.
    pub(crate) fn new(alloc: Global, text: &'a [u8]) -> Lines<'a>
        ensures { result ≡ records default_config (strip_bom text.now) }
    {
        let behind = without_mark(text);
        Lines {
            plain: if is_plain(behind) { Some(behind) } else { None },
            ascii: behind.is_ascii(),
            read: ReadLines::new(alloc, text),
        }
    }

    /// Puts the next record into `line`, and answers whether there was one. Bytes in memory are refused for want of memory
    /// alone; no record is left then.
    pub(crate) fn next(&mut self, line: &mut Line<'a>) -> Result<bool, AllocError>
        ensures ok { IfOk result (λ found. Takes self.old found line.new self.new) }
        ensures err { OnErr result (self.new ≡ []) }
    {
        let Some(rest) = self.plain else {
            return line.read(&mut self.read);
        };
        self.plain = Some(&[]);
        match line.cut(rest, self.ascii)? {
            Some(more) => {
                self.plain = Some(more);
                Ok(true)
            }
            None => Ok(false),
        }
    }
}

// The text behind the mark of byte order that may stand in front.
#[tactic(auto, unfolding(csv::specs::Reading::strip_bom))]
fn without_mark(text: &[u8]) -> &[u8]
    ensures { result.now ≡ strip_bom text.now }
{
    match text {
        [0xEF, 0xBB, 0xBF, rest @ ..] => rest,
        _ => text,
    }
}
