//! The bytes of a file that was found.

ghost use Rattle.std.specs.Prelude.{◌≡◌, ◌<◌, ◌≤◌, ◌+◌, ◌++◌, [], true, length, vec_len, OnOk, IfOk, IsErrOf};
ghost use Rattle.ov_host.specs.Host.{Rose};
ghost use Rattle.ov_files.specs.Files.{Looks, IsFront};

use crate::errors::FileErr;
use ov_host::Stage;
use std::alloc::Global;

/// The greatest number of bytes of a file.
const MOST_BYTES: usize = ov_model::FILE_BYTES;

/// The bytes of one piece.
const PIECE: usize = 65_536;

// Appends the next bytes of the file that is being read, so many at most, and says how many. They go through the piece.
fn read_more<T: Stage>(
    stage: &mut T,
    piece: &mut [u8],
    most: usize,
    out: &mut Vec<u8>,
) -> Result<usize, FileErr>
    requires some { 0 < most }
    requires room { most ≤ length piece.old }
    requires found { (T.staged stage.old).reading ≡ true }
    ensures looks { Looks (T.staged stage.old) (T.staged stage.new) }
    ensures cause { IsErrOf result FileErr.Stage → Rose (T.staged stage.old).faults (T.staged stage.new).faults }
    ensures reading { (T.staged stage.new).reading ≡ true }
    ensures more { IfOk result (λ n. vec_len out.new ≡ vec_len out.old + n) }
    ensures within { IfOk result (λ n. n ≤ most) }
    ensures read { (T.staged stage.old).tells ≡ true → OnOk result
        (out.old.items ++ (T.staged stage.old).left ≡ out.new.items ++ (T.staged stage.new).left) }
    ensures ended { (T.staged stage.old).tells ≡ true → IfOk result (λ n. n ≡ 0 → (T.staged stage.new).left ≡ []) }
{
    let taken = stage.read(&mut piece[..most])?;
    out.extend_from_slice(&piece[..taken])?;
    Ok(taken)
}

/// The bytes of the file that is being read, or its first 67,108,865 where it has so many.
pub(crate) fn read_front<T: Stage>(alloc: Global, stage: &mut T) -> Result<Vec<u8>, FileErr>
    requires { (T.staged stage.old).reading ≡ true }
    ensures looks { Looks (T.staged stage.old) (T.staged stage.new) }
    ensures cause { IsErrOf result FileErr.Stage → Rose (T.staged stage.old).faults (T.staged stage.new).faults }
    ensures front { (T.staged stage.old).tells ≡ true → IfOk result (λ bytes. IsFront (T.staged stage.old).left bytes.items) }
    ensures few { IfOk result (λ bytes. length bytes.items ≤ 67108865) }
{
    let mut piece = vec![in alloc; 0u8; PIECE]?;
    let mut out = Vec::new(alloc);
    'front: while out.len() <= MOST_BYTES {
        let most = (MOST_BYTES + 1 - out.len()).min(PIECE);
        if read_more(stage, piece.as_mut_slice(), most, &mut out)? == 0 {
            return Ok(out);
        }
    }
    Ok(out)
}
