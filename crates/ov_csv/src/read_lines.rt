//! The records of a text, one after another.

ghost use Rattle.std.specs.Prelude.{◌≡◌, [], ◌∷◌, OnErr, IfOk, Ok};
ghost use Rattle.csv.specs.Reading.{default_config, strip_bom, records};
ghost use Rattle.csv.specs.Records.{fields_of};
ghost use Rattle.ov_csv.specs.Taking.{Takes};

use csv::{ByteRecord, Error, Reader, ReaderBuilder};
use std::alloc::{AllocError, Global};
use std::marker::Model;

/// The records that are left of a text. Contracts see them as the list of the fields of each.
#[derive(Drop)]
pub(crate) struct ReadLines<'a> {
    reader: Reader<&'a [u8]>,
    ended: bool,
}

impl<'a> Model for ReadLines<'a> {
    ghost use Rattle.std.specs.Prelude.{List, ℕ, Some};
    ghost use Rattle.csv.specs.Reading.{source_of, reader_state};
    ghost use Rattle.ov_csv.specs.Lines.{left_of, IsReading};

    ghost Value = { List (List (List ℕ)) };

    ghost view = { λ l. left_of l.ended (reader_state l.reader) (source_of (λ s. Some s.now) l.reader) };

    ghost invariant = { λ l. IsReading (λ s. Some s.now) l.ended l.reader };
}

impl ReadLines<'_> {
    /// All records of the text, without the mark of byte order that may stand in front.
    pub(crate) fn new(alloc: Global, text: &[u8]) -> ReadLines<'_>
        ensures { result ≡ records default_config (strip_bom text.now) }
    {
        ReadLines {
            reader: ReaderBuilder::new()
                .has_headers(false)
                .flexible(true)
                .from_reader(alloc, text),
            ended: false,
        }
    }

    /// Puts the next record into `line`, and answers whether there was one. Bytes in memory are refused for want of memory
    /// alone; no record is left then.
    pub(crate) fn next(&mut self, line: &mut ByteRecord) -> Result<bool, AllocError>
        ensures ok { IfOk result (λ found. Takes self.old found (fields_of line.new) self.new) }
        ensures err { OnErr result (self.new ≡ []) }
    {
        if self.ended {
            line.clear();
            return Ok(false);
        }
        self.ended = true;
        let found = found_of(self.reader.read_byte_record(line))?;
        self.ended = !found;
        Ok(found)
    }
}

// The answer of a read of bytes in memory, which has no error but want of memory.
fn found_of(read: Result<bool, Error>) -> Result<bool, AllocError>
    ensures { IfOk result (λ found. read ≡ Ok found) }
{
    match read {
        Ok(found) => Ok(found),
        Err(_) => Err(AllocError),
    }
}
