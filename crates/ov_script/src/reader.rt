// The lines of a script, taken from its source by pieces.
ghost use Rattle.std.specs.Prelude.{◌≡◌, ◌<◌, ◌≤◌, ◌+◌, ◌-◌, ◌^◌, ◌++◌, ◌∷◌, [], true, length, take, IsErr, IsErrOf, IfErr, IfOk, OnOk, IfSome, IfNone, MatchBool, slice_index, false, is_ok, Ok};
ghost use Rattle.ov_host.specs.Source.{Asks, Gives};
ghost use Rattle.ov_host.specs.Host.{Rose};
ghost use Rattle.ov_script.specs.Reader.{Taken, left_of, Took, GivesLine, TakesLine, Fills, has_feed, IsAtEnd, IsCutOff, IsShorter, IsUnread, room_of};
ghost use Rattle.std.specs.Bool.{OnTrue};
ghost use Rattle.ov_script.specs.declared.reader.ReadErr.TheVariants as reading;

use ov_host::{Failed, Source};
use ov_model::LINE_BYTES;
use std::alloc::{AllocError, Global};
use std::marker::Model;

// The bytes of one piece.
const PIECE: usize = 65_536;

// A script has fewer bytes.
const SCRIPT_BYTES: u64 = 1 << 32;

// The bytes of a line that are kept: one more than a line may have, so that a longer one is known.
pub const KEPT: usize = LINE_BYTES + 1;

// Why a line wasn't read.
#[derive(Clone, Copy, PartialEq, Eq)]
pub enum ReadErr {
    // The source failed.
    Input,
    // There was no memory.
    Memory,
    // 2^32 bytes were taken, and the end wasn't seen.
    TooLong,
}

impl From<Failed> for ReadErr {
    ghost from_gives = { λ _ e. e ≡ reading.Input };

    fn from(_: Failed) -> Self {
        ReadErr::Input
    }
}

impl From<AllocError> for ReadErr {
    ghost from_gives = { λ _ e. e ≡ reading.Memory };

    fn from(_: AllocError) -> Self {
        ReadErr::Memory
    }
}

// The bytes that were taken and not given yet stand in the buffer from `at` up to `end`. Once the source has said that it is at
// its end, it isn't asked again: a fault of it then would come after a last line without a line feed.
#[derive(Drop)]
pub struct Reader {
    buffer: Vec<u8>,
    at: usize,
    end: usize,
    count: u64,
    ended: bool,
}

impl Model for Reader {
    ghost use Rattle.std.specs.Prelude.{◌≡◌, ◌<◌, ◌≤◌, ◌-◌, ◌^◌, true, take, drop, length};
    ghost use Rattle.ov_script.specs.Reader.{Taken};

    ghost Value = { Taken };

    ghost view = { λ r. record { unread = take (r.end - r.at) (drop r.at r.buffer.items); count = r.count; ended = r.ended } };

    ghost invariant = { λ r. (r.at ≤ r.end) × (r.end ≤ length r.buffer.items) × (length r.buffer.items ≡ 65536) × (r.count ≤ 2 ^ 32) × (r.ended ≡ true → r.count < 2 ^ 32) };
}

fn piece(alloc: Global) -> Result<Vec<u8>, AllocError>
    ensures { IfOk result (λ buffer. length buffer.items ≡ 65536) }
{
    vec![in alloc; 0u8; PIECE]
}

impl Reader {
    // A reader that has taken nothing.
    pub fn new(alloc: Global) -> Result<Reader, AllocError>
        ensures { IfOk result (λ reader. reader ≡ record { unread = []; count = 0; ended = false }) }
    {
        let buffer = piece(alloc)?;
        Ok(Reader {
            buffer,
            at: 0,
            end: 0,
            count: 0,
            ended: false,
        })
    }
}

impl Reader {
    // Takes more bytes from the source, and says whether there are any. At an error none were taken.
    fn fill<S: Source>(&mut self, source: &mut S) -> Result<bool, ReadErr>
        requires { self.old.unread ≡ [] }
        ensures took { Took self.old self.new (S.script source.old) (S.script source.new) }
        ensures cause { IsErrOf result ReadErr.Input → Rose (S.script source.old).faults (S.script source.new).faults }
        ensures memory { IsErrOf result ReadErr.Memory → ⊥ }
        ensures too_long { IsErrOf result ReadErr.TooLong → self.new.count ≡ 2 ^ 32 }
        ensures more { IfOk result (λ more. MatchBool more (self.old.count < self.new.count) (self.new.count ≡ self.old.count)) }
        ensures ended { IfOk result (λ more. MatchBool more ((self.old.ended ≡ false) × (self.new.ended ≡ false)) (self.new.ended ≡ true)) }
        ensures filled { (S.script source.old).tells ≡ true → IsAtEnd self.old (S.script source.old) → IfOk result (λ more.
            Fills more self.old (S.script source.old) self.new (S.script source.new)) }
        ensures unfilled { (S.script source.old).tells ≡ true → IsErr result → IsUnread self.old (S.script source.old) (S.script source.new) }
        ensures bounded { self.new.count ≤ 2 ^ 32 }
        ensures below { self.new.ended ≡ true → self.new.count < 2 ^ 32 }
        ensures unread { OnOk result (length self.new.unread + self.old.count ≡ self.new.count) }
    {
        if self.ended {
            return Ok(false);
        }
        let room = (SCRIPT_BYTES - self.count).min(PIECE as u64) as usize;
        if room == 0 {
            return Err(ReadErr::TooLong);
        }
        let taken = read_piece(source, self.buffer.as_mut_slice(), room)?;
        self.at = 0;
        self.end = taken;
        self.count += taken as u64;
        if taken == 0 {
            self.ended = true;
            return Ok(false);
        }
        Ok(true)
    }

    // Puts the unread bytes up to the first line feed to the line, and says whether there is one.
    fn take_line(&mut self, line: &mut Vec<u8>) -> Result<bool, AllocError>
        requires { length line.old.items ≤ 65537 }
        ensures counted { self.new.count ≡ self.old.count }
        ensures ended { self.new.ended ≡ self.old.ended }
        ensures within { OnOk result (length line.new.items ≤ 65537) }
        ensures taken { IfOk result (λ found. TakesLine found self.old.unread self.new.unread line.old.items line.new.items) }
        ensures fewer { IfOk result (λ found. IsShorter found self.old.unread self.new.unread line.old.items line.new.items) }
        ensures bounded { self.new.count ≤ 2 ^ 32 }
        ensures below { self.new.ended ≡ true → self.new.count < 2 ^ 32 }
    {
        let unread = &self.buffer[self.at..self.end];
        match feed_in(unread) {
            Some(place) => {
                keep(line, &unread[..place])?;
                self.at += place + 1;
                Ok(true)
            }
            None => {
                keep(line, unread)?;
                self.at = self.end;
                Ok(false)
            }
        }
    }
}

impl Reader {
    // Puts the next line, without its line feed, in the place of the last one, and says whether there is one. Of a line
    // of over 65,536 bytes its first 65,537 are kept.
    pub fn next_line<S: Source>(
        &mut self,
        source: &mut S,
        line: &mut Vec<u8>,
    ) -> Result<bool, ReadErr>
        ensures took { Took self.old self.new (S.script source.old) (S.script source.new) }
        ensures cause { IsErrOf result ReadErr.Input → Rose (S.script source.old).faults (S.script source.new).faults }
        ensures too_long { IsErrOf result ReadErr.TooLong → self.new.count ≡ 2 ^ 32 }
        ensures bounded { self.new.count ≤ 2 ^ 32 }
        ensures below { self.new.ended ≡ true → self.new.count < 2 ^ 32 }
        ensures seen { result ≡ Ok false → self.new.ended ≡ true }
        ensures given { (S.script source.old).tells ≡ true → IsAtEnd self.old (S.script source.old) → IfOk result (λ more.
            GivesLine self.new.ended more (left_of self.old (S.script source.old)) (left_of self.new (S.script source.new)) line.new.items) }
        ensures cut_off { (S.script source.old).tells ≡ true → IfErr result (λ e.
            IsCutOff e self.old (left_of self.old (S.script source.old)) (S.script source.new)) }
        ensures stays { OnOk result (self.old.ended ≡ true → self.new.ended ≡ true) }
        ensures at_end { (S.script source.old).tells ≡ true → IsAtEnd self.old (S.script source.old) → OnOk result (IsAtEnd self.new (S.script source.new)) }
        ensures fewer { IfOk result (λ more. OnTrue more (room_of self.new < room_of self.old)) }
    {
        line.clear();
        'pieces: loop {
            if self.take_line(line)? {
                return Ok(true);
            }
            if !self.fill(source)? {
                return Ok(!line.is_empty());
            }
        }
    }
}

// Reads into the front of the buffer.
fn read_piece<S: Source>(source: &mut S, buffer: &mut [u8], room: usize) -> Result<usize, Failed>
    requires some { 0 < room }
    requires fits { room ≤ length buffer.old }
    ensures call { Asks (is_ok result) (S.script source.old) (S.script source.new) }
    ensures within { IfOk result (λ n. n ≤ room) }
    ensures bytes { IfOk result (λ n. (S.script source.old).tells ≡ true
        → Gives n (S.script source.old).left (S.script source.new).left buffer.new) }
{
    let taken = source.read(&mut buffer[..room])?;
    Ok(taken)
}

// The place of the first line feed.
fn feed_in(bytes: &[u8]) -> Option<usize>
    ensures none { IfNone result (has_feed bytes.now ≡ false) }
    ensures within { IfSome result (λ place. place < length bytes.now) }
    ensures first { IfSome result (λ place. has_feed (take place bytes.now) ≡ false) }
    ensures there { IfSome result (λ place. slice_index bytes.now place ≡ 10) }
{
    for (place, b) in bytes.iter().enumerate() {
        if *b == b'\n' {
            return Some(place);
        }
    }
    None
}

// Puts bytes to the line, as far as they are kept.
fn keep(line: &mut Vec<u8>, bytes: &[u8]) -> Result<(), AllocError>
    requires { length line.old.items ≤ 65537 }
    ensures within { OnOk result (length line.new.items ≤ 65537) }
    ensures kept { OnOk result (line.new.items ≡ take 65537 (line.old.items ++ bytes.now)) }
{
    let room = KEPT - line.len();
    line.extend_from_slice(&bytes[..room.min(bytes.len())])?;
    Ok(())
}
