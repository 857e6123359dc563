// The host: two areas of bytes and an output.
ghost use Rattle.std.specs.Prelude.{◌≡◌, ◌≤◌, ◌^◌, true, length, is_ok, IfOk};
ghost use Rattle.ov_host.specs.Disk.{MayLeave, as_read};
ghost use Rattle.ov_host.specs.Tape.{Call, Looks, Writes, Syncs, Prints};
ghost use Rattle.ov_host.specs.Host.{State, Calls, fetched_by, gave, bytes_of, Reads};

use crate::{Area, Failed};

/// Two areas of bytes and an output. Nobody else writes them while a store is open.
///
/// Between two successful syncs of an area a stop may leave any bytes in each range written since, and any bytes past
/// the old end; the length may be any from the one at the last sync to the greatest since. After a successful sync a stop
/// leaves what a read gives. The two areas are independent. Printed bytes are never lost; a stop within a print leaves a
/// prefix of its bytes printed.
pub trait Host {
    /// All that contracts see of the host: whether it tells its bytes, whether it keeps to the model, its disk and the
    /// moments that led to it, and its counts of faults and of fetched bytes of pages.
    ghost state: { Self → State };

    /// The area's length in bytes.
    fn len(&mut self, area: Area) -> Result<u64, Failed>
        ensures call { Calls Looks (is_ok result) (state self.old) (state self.new) }
        ensures fetched { (state self.new).fetched ≡ (state self.old).fetched }
        ensures len { IfOk result (λ n. (state self.old).tells ≡ true → n ≡ length (bytes_of area (state self.old))) };

    /// Reads from a place on, up to the end of the buffer or of the area, and answers how many bytes that were.
    /// The buffer has at most 65,536 bytes.
    fn read(&mut self, area: Area, at: u64, buf: &mut [u8]) -> Result<usize, Failed>
        requires { length buf.old ≤ 65536 }
        ensures call { Calls Looks (is_ok result) (state self.old) (state self.new) }
        ensures fetched { (state self.new).fetched ≡ fetched_by area (is_ok result) (gave result) (state self.old).fetched }
        ensures within { IfOk result (λ n. n ≤ length buf.old) }
        ensures bytes { IfOk result (λ n. (state self.old).tells ≡ true → Reads area at n (state self.old) buf.old buf.new) };

    /// Writes over what is there, and past the end. The place isn't past the area's end.
    fn write(&mut self, area: Area, at: u64, bytes: &[u8]) -> Result<(), Failed>
        requires { (state self.old).tells ≡ true → at ≤ length (bytes_of area (state self.old)) }
        ensures call { Calls (Writes area at bytes.now) (is_ok result) (state self.old) (state self.new) }
        ensures fetched { (state self.new).fetched ≡ (state self.old).fetched };

    /// From an `Ok` on, a stop leaves the area as it reads.
    fn sync(&mut self, area: Area) -> Result<(), Failed>
        ensures call { Calls (Syncs area) (is_ok result) (state self.old) (state self.new) }
        ensures fetched { (state self.new).fetched ≡ (state self.old).fetched };

    /// Appends to the output. After `Failed`, a prefix of the bytes may be there.
    fn print(&mut self, bytes: &[u8]) -> Result<(), Failed>
        ensures call { Calls (Prints bytes.now) (is_ok result) (state self.old) (state self.new) }
        ensures fetched { (state self.new).fetched ≡ (state self.old).fetched };

    /// What reads now is among what a stop may leave.
    ghost reads: { (host : Self) → MayLeave (state host).tape.disk (as_read (state host).tape.disk) };
}
