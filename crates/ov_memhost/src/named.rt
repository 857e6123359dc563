// Files by their names.
ghost use Rattle.std.specs.Prelude.{◌≡◌, MatchOption, OnOk, OnErr, string_bytes, None, Some};
ghost use Rattle.std.specs.FinMap.{get, insert};
ghost use Rattle.ov_memhost.specs.Named.{entries_of, files_of, bytes_at, IsFirst, IsMissing};

use std::alloc::AllocError;

/// A file's name and its bytes.
pub type Named = (String, Vec<u8>);

/// Where the first file of a name stands.
pub fn place_of(files: &[Named], name: &str) -> Option<usize>
    ensures { MatchOption result (IsMissing name.now (entries_of files.now)) (λ place. IsFirst name.now (entries_of files.now) place) }
{
    for (place, file) in files.iter().enumerate() {
        if file.0.as_str() == name {
            return Some(place);
        }
    }
    None
}

/// The bytes of the file at a place; none where there is no such file.
pub fn bytes_of(files: &[Named], place: usize) -> &[u8]
    ensures { result.now ≡ bytes_at (entries_of files.now) place }
{
    if place < files.len() {
        files[place].1.as_slice()
    } else {
        &[]
    }
}

/// The bytes of the file of a name.
pub fn find<'a>(files: &'a [Named], name: &str) -> Option<&'a [u8]>
    ensures { MatchOption result (get (files_of files.entry.now) name.now ≡ None)
        (λ bytes. get (files_of files.entry.now) name.now ≡ Some bytes.now) }
{
    let place = place_of(files, name)?;
    Some(bytes_of(files, place))
}

/// Puts a file under its name, in place of one that was there.
pub fn put(files: &mut Vec<Named>, name: String, bytes: Vec<u8>) -> Result<(), AllocError>
    ensures ok { OnOk result (files_of files.new.items ≡ insert (files_of files.old.items) (string_bytes name) bytes.items) }
    ensures err { OnErr result (files.new.items ≡ files.old.items) }
{
    match place_of(files.as_slice(), name.as_str()) {
        Some(place) => files[place].1 = bytes,
        None => files.push((name, bytes))?,
    }
    Ok(())
}
