//! A row in the making.

ghost use Rattle.std.specs.Prelude.{◌≡◌, ◌≢◌, ◌<◌, ◌≤◌, ◌+◌, ◌/◌, ◌++◌, ◌∷◌, [], false, List, IfOk, OnOk, IsTrue, ◌↔◌, length, min, take};
ghost use Rattle.std.specs.Int.{w64, to_le_bytes};
ghost use Rattle.std.specs.List.{list_any};
ghost use Rattle.ov_value.specs.declared.value.Value.{Value as RowValue};
ghost use Rattle.ov_value.specs.Cells.{value_of};
ghost use Rattle.ov_value.specs.Rows.{is_null, value_at};
ghost use Rattle.ov_value.specs.Spelling.{row_spelling, value_bytes};
ghost use Rattle.ov_segment.specs.Drafts.{Holds, IsWhole, ArePartsOf};

use ov_value::{CellRef, LONGEST_ROW};
use std::alloc::{AllocError, Global};
use std::marker::Model;

/// A row in the making: its values come from the left, one after another, and `clear` begins another row in the same
/// memory. Beside the values' bytes it keeps which of them are NULL, so that a table takes the row as it is. Of a row with
/// more than 65,536 bytes only their number is kept.
#[derive(Drop)]
pub struct RowDraft {
    bytes: Vec<u8>,
    // The number of bytes of the values.
    size: usize,
    // How many values it has, and a bit for each, the first one's the least, set where it is NULL.
    count: usize,
    nulls: u64,
    // The same of the values up to the last that is not NULL.
    width: usize,
    marks: u64,
}

impl Model for RowDraft {
    ghost use Rattle.ov_segment.specs.Drafts.{Draft, IsInBounds};

    ghost Value = { Draft };

    ghost view = { λ d. record { count = d.count; nulls = d.nulls; width = d.width; marks = d.marks; size = d.size; bytes = d.bytes.items } };

    ghost invariant = { λ d. IsInBounds d.count d.nulls d.width };
}

impl RowDraft {
    /// A row without a value.
    pub fn new(alloc: Global) -> RowDraft
        ensures { Holds result [] }
    {
        RowDraft {
            bytes: Vec::new(alloc),
            size: 0,
            count: 0,
            nulls: 0,
            width: 0,
            marks: 0,
        }
    }

    /// Begins another row.
    pub fn clear(&mut self)
        ensures { Holds self.new [] }
    {
        self.bytes.clear();
        self.size = 0;
        self.count = 0;
        self.nulls = 0;
        self.width = 0;
        self.marks = 0;
    }

    /// Adds a value. After an error it is to be cleared.
    pub fn push(&mut self, cell: CellRef<'_>) -> Result<(), AllocError>
        requires { self.old.count < 64 }
        ensures { (values : List RowValue) → Holds self.old values → OnOk result (Holds self.new (values ++ value_of cell.entry ∷ [])) }
    {
        match cell {
            CellRef::Int(number) => self.push_bytes(&number.cast_unsigned().to_be_bytes()),
            CellRef::Text(text) => self.push_text(text.as_bytes()),
            CellRef::Flag(flag) => self.push_bytes(&[u8::from(flag)]),
            CellRef::Null => {
                self.push_null();
                Ok(())
            }
        }
    }

    /// The number of bytes of the row, or 2^64 - 1 where there are more.
    pub fn len(&self) -> usize
        ensures { (values : List RowValue) → Holds self.now values → result ≡ min (length (row_spelling values).bytes) usize.MAX }
    {
        if self.marks == 0 {
            self.size
        } else {
            self.size.saturating_add(1 + (self.width + 7) / 8)
        }
    }

    /// Whether one of the values is NULL.
    pub fn has_null(&self) -> bool
        ensures { (values : List RowValue) → Holds self.now values → result ≡ list_any is_null values }
    {
        self.nulls != 0
    }

    /// Whether the value at a position, counted from 0, is there and not NULL.
    pub fn has_value(&self, place: usize) -> bool
        ensures { (values : List RowValue) → Holds self.now values → IsTrue result ↔ (value_at values place ≢ RowValue.Null) }
    {
        place < self.width && (self.marks >> place) % 2 == 0
    }

    /// Appends the bytes of the row, and answers whether they begin with marks. After an error any bytes may stand behind
    /// the old ones.
    pub(crate) fn append_to(&self, bytes: &mut Vec<u8>) -> Result<bool, AllocError>
        ensures marked { (values : List RowValue) → IsWhole self.now values → IfOk result (λ marked. marked ≡ (row_spelling values).marked) }
        ensures bytes { (values : List RowValue) → IsWhole self.now values → OnOk result (bytes.new.items ≡ bytes.old.items ++ (row_spelling values).bytes) }
        ensures front { take (length bytes.old.items) bytes.new.items ≡ bytes.old.items }
    {
        if self.marks == 0 {
            bytes.extend_from_slice(&self.bytes)?;
            return Ok(false);
        }
        push_marks(bytes, self.width, self.marks)?;
        bytes.extend_from_slice(&self.bytes)?;
        Ok(true)
    }

    fn push_null(&mut self)
        requires { self.old.count < 64 }
        ensures { (values : List RowValue) → Holds self.old values → Holds self.new (values ++ RowValue.Null ∷ []) }
    {
        self.nulls += 1u64 << self.count;
        self.count += 1;
    }

    fn push_text(&mut self, text: &[u8]) -> Result<(), AllocError>
        requires { self.old.count < 64 }
        ensures { (values : List RowValue) → Holds self.old values → OnOk result (Holds self.new (values ++ RowValue.Text text.now ∷ [])) }
    {
        // The length of a longer text isn't kept.
        let len = text.len().min(LONGEST_ROW) as u32;
        self.push_parts(&len.to_be_bytes(), text)
    }

    // Adds the value that has these bytes, which are few.
    #[inline]
    fn push_bytes(&mut self, bytes: &[u8]) -> Result<(), AllocError>
        requires { self.old.count < 64 }
        ensures { (values : List RowValue) (value : RowValue) → Holds self.old values → is_null value ≡ false → value_bytes value ≡ bytes.now
            → OnOk result (Holds self.new (values ++ value ∷ [])) }
    {
        self.size = self.size.saturating_add(bytes.len());
        self.count += 1;
        self.width = self.count;
        self.marks = self.nulls;
        if self.size > LONGEST_ROW {
            return Ok(());
        }
        self.bytes.extend_from_slice(bytes)?;
        Ok(())
    }

    // Adds the value that has these bytes in front, and then those.
    fn push_parts(&mut self, front: &[u8], rest: &[u8]) -> Result<(), AllocError>
        requires { self.old.count < 64 }
        ensures { (values : List RowValue) (value : RowValue) → Holds self.old values → ArePartsOf value front.now rest.now
            → OnOk result (Holds self.new (values ++ value ∷ [])) }
    {
        self.size = self
            .size
            .saturating_add(front.len())
            .saturating_add(rest.len());
        self.count += 1;
        self.width = self.count;
        self.marks = self.nulls;
        if self.size > LONGEST_ROW {
            return Ok(());
        }
        self.bytes.extend_from_slice(front)?;
        self.bytes.extend_from_slice(rest)?;
        Ok(())
    }
}

// Appends the number of a row's values and their marks.
fn push_marks(bytes: &mut Vec<u8>, width: usize, marks: u64) -> Result<(), AllocError>
    requires { width ≤ 64 }
    ensures bytes { OnOk result (bytes.new.items ≡ bytes.old.items ++ width ∷ take ((width + 7) / 8) (to_le_bytes w64 marks)) }
    ensures front { take (length bytes.old.items) bytes.new.items ≡ bytes.old.items }
{
    bytes.push(width as u8)?;
    bytes.extend_from_slice(&marks.to_le_bytes()[..(width + 7) / 8])?;
    Ok(())
}
