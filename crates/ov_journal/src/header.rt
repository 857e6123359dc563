// The header: which slot is live, and its fields.
ghost use Rattle.std.specs.Prelude.{◌≡◌, ◌≤◌, ◌+◌, length, take, drop, Some, None, MatchOption, MatchResult};
ghost use Rattle.std.specs.Int.{w32, to_be_bytes};
ghost use Rattle.ov_journal.specs.Bytes.{IsHeader, IsLive, fields_of, live_place, number_at, other_of, place_of};
ghost use Rattle.ov_journal.specs.Journal.{IsKnown};
ghost use Rattle.ov_journal.specs.Reading.{RefusesHeader};

use crate::errors::JournalErr;

// An open gate.
pub const OPEN: u8 = 0xA5;

// The bytes of the header: its gate, the text and two slots.
pub const HEADER_BYTES: usize = 38;

// The text behind the header's gate.
pub const TEXT: [u8; 11] = *b"orpheus-cvd";

/// One of the header's two slots.
#[derive(Clone, Copy)]
pub enum Side {
    First,
    Second,
}

impl Side {
    // The place of the slot's gate.
    pub fn place(self) -> usize
        ensures place { result ≡ place_of self }
        ensures low { result ≤ 25 }
    {
        match self {
            Side::First => 12,
            Side::Second => 25,
        }
    }

    // The other slot.
    pub fn other(self) -> Side
        ensures { result ≡ other_of self }
    {
        match self {
            Side::First => Side::Second,
            Side::Second => Side::First,
        }
    }
}

// The number of today's format.
pub const FORMAT: u32 = 2;

/// The live slot: which one it is, its fields, and whether the other slot's gate is open.
#[derive(Clone, Copy)]
pub struct Live {
    pub side: Side,
    pub epoch: u32,
    pub start: u32,
    pub format: u32,
    pub spare_open: bool,
}

impl Live {
    // The fields as they stand behind the slot's gate.
    pub fn fields(&self) -> [u8; 12]
        ensures { result ≡ fields_of (record { epoch = self.now.epoch; start = self.now.start; format = self.now.format }) }
    {
        let epoch = self.epoch.to_be_bytes();
        let start = self.start.to_be_bytes();
        let format = self.format.to_be_bytes();
        [
            epoch[0], epoch[1], epoch[2], epoch[3], start[0], start[1], start[2], start[3],
            format[0], format[1], format[2], format[3],
        ]
    }
}

// The number in the four bytes from a place on.
pub fn number_at(bytes: &[u8], place: usize) -> u32
    requires { place + 4 ≤ length bytes.now }
    ensures value { result ≡ number_at place bytes.now }
    ensures spelled { to_be_bytes w32 result ≡ take 4 (drop place bytes.now) }
{
    let (_, rest) = bytes.split_at(place);
    let (four, _) = rest.split_at(4);
    u32::from_be_bytes([four[0], four[1], four[2], four[3]])
}

// Which slot is live.
fn live_side(head: &[u8]) -> Option<Side>
    requires { length head.now ≡ 38 }
    ensures { MatchOption result (live_place head.now ≡ None) (λ side. live_place head.now ≡ Some (place_of side)) }
{
    if head[12] != OPEN {
        return if head[25] == OPEN {
            Some(Side::Second)
        } else {
            None
        };
    }
    if head[25] != OPEN {
        return Some(Side::First);
    }
    let first = number_at(head, 13);
    let second = number_at(head, 26);
    if first == second {
        None
    } else if second < first {
        Some(Side::First)
    } else {
        Some(Side::Second)
    }
}

// The live slot of an open header.
pub fn live_of(head: &[u8]) -> Result<Live, JournalErr>
    requires { length head.now ≡ 38 }
    ensures { MatchResult result
        (λ live. IsHeader (place_of live.side) (record { epoch = live.epoch; start = live.start; format = live.format }) head.now
        × IsKnown live.format × IsLive live.side live.spare_open head.now)
        (λ e. RefusesHeader e head.now) }
{
    let (_, text) = head.split_at(1);
    let (text, _) = text.split_at(11);
    if head[0] != OPEN || text != TEXT.as_slice() {
        return Err(JournalErr::NotAStore);
    }
    let side = live_side(head).ok_or(JournalErr::NotAStore)?;
    let at = side.place();
    let live = Live {
        side,
        epoch: number_at(head, at + 1),
        start: number_at(head, at + 5),
        format: number_at(head, at + 9),
        spare_open: head[side.other().place()] == OPEN,
    };
    if live.format != 1 && live.format != 2 {
        return Err(JournalErr::Format { found: live.format });
    }
    Ok(live)
}
