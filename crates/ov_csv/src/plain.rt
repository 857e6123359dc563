//! Records of a text in which no quote stands and no carriage return: they are cut at commas and line feeds.

ghost use Rattle.std.specs.Prelude.{◌≡◌, [], IfOk, IsTrue, slice_index_or};
ghost use Rattle.ov_csv.specs.Plain.{IsPlain, Skips, Cuts, IsNext, field_end as field_end_of, slices};

use std::alloc::AllocError;

/// Whether no quote stands among these bytes and no carriage return.
pub(crate) fn is_plain(bytes: &[u8]) -> bool
    ensures { IsTrue result → IsPlain bytes.now }
{
    !bytes.contains(&b'"') && !bytes.contains(&b'\r')
}

/// Puts the fields of the next record into `fields`, in place of those that are there, and gives the bytes behind it; `None` where
/// no record is left.
pub(crate) fn next_plain<'a>(
    bytes: &'a [u8],
    fields: &mut Vec<&'a [u8]>,
) -> Result<Option<&'a [u8]>, AllocError>
    requires { IsPlain bytes.now }
    ensures { IfOk result (IsNext bytes.now (slices fields.new.items)) }
{
    fields.clear();
    let rest = skip_ends(bytes);
    if rest.is_empty() {
        return Ok(None);
    }
    let more = cut_record(rest, fields)?;
    Ok(Some(more))
}

/// The field at a place, or no bytes where there is none.
pub(crate) fn cut_field<'a>(fields: &[&'a [u8]], place: usize) -> &'a [u8]
    ensures { result.now ≡ slice_index_or (slices fields.now) place [] }
{
    if place < fields.len() {
        fields[place]
    } else {
        &[]
    }
}

// What stands behind the line feeds in front: a line without a byte is no record.
fn skip_ends(bytes: &[u8]) -> &[u8]
    requires { IsPlain bytes.now }
    ensures { Skips bytes.now result.now }
{
    let mut rest = bytes;
    while let Some((first, more)) = rest.split_first() {
        if *first != b'\n' {
            return rest;
        }
        rest = more;
    }
    rest
}

// Adds the fields up to the end of the line, and gives the bytes behind it.
fn cut_record<'a>(bytes: &'a [u8], fields: &mut Vec<&'a [u8]>) -> Result<&'a [u8], AllocError>
    requires plain { IsPlain bytes.now }
    requires none { fields.old.items ≡ [] }
    ensures { IfOk result (λ rest. Cuts bytes.now (slices fields.new.items) rest.now) }
{
    let mut rest = bytes;
    loop {
        let (field, behind) = rest.split_at(field_end(rest));
        fields.push(field)?;
        let Some((byte, more)) = behind.split_first() else {
            return Ok(behind);
        };
        if *byte == b'\n' {
            return Ok(more);
        }
        rest = more;
    }
}

// How many bytes stand before the first comma or line feed.
fn field_end(bytes: &[u8]) -> usize
    ensures { result ≡ field_end_of bytes.now }
{
    for (i, byte) in bytes.iter().enumerate() {
        // Most bytes are above both.
        if *byte <= b',' && (*byte == b',' || *byte == b'\n') {
            return i;
        }
    }
    bytes.len()
}
