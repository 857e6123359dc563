// Reads that go on over interruptions.
ghost use Rattle.std.specs.Prelude.{◌≤◌, IfOk, length};
ghost use Rattle.std.specs.Io.KnownBytes.{ReadConsumes};

use std::fs::File;
use std::io;
use std::io::{ErrorKind, Read};
use std::os::unix::fs::FileExt;

/// Reads the next bytes, and answers how many that were; 0 at the end.
#[tactic(auto, using(crate::proofs::Known::keeps_itself, crate::proofs::Known::keeps_on, crate::proofs::Known::reads_on))]
pub fn read_some<R: Read>(from: &mut R, buf: &mut [u8]) -> io::Result<usize>
    ensures within { IfOk result (λ n. n ≤ length buf.old) }
    ensures bytes { ReadConsumes (R.remaining from.old) (R.remaining from.new) result buf.new }
{
    for _ in 0..u64::MAX {
        match from.read(buf) {
            Err(e) if e.kind() == ErrorKind::Interrupted => {}
            outcome => return outcome,
        }
    }
    Err(io::Error::from(ErrorKind::Interrupted))
}

/// Reads from a place on until the buffer is full or the file ends, and answers how many bytes that were.
pub fn read_full_at(file: &File, at: u64, buf: &mut [u8]) -> io::Result<usize>
    ensures { IfOk result (λ n. n ≤ length buf.old) }
{
    let mut done = 0;
    for _ in 0..u64::MAX {
        if done == buf.len() {
            return Ok(done);
        }
        match file.read_at(&mut buf[done..], at.saturating_add(done as u64)) {
            Ok(0) => return Ok(done),
            Ok(n) => done += n,
            Err(e) if e.kind() == ErrorKind::Interrupted => {}
            Err(e) => return Err(e),
        }
    }
    Err(io::Error::from(ErrorKind::Interrupted))
}
