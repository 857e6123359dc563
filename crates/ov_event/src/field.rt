//! A field: how it is read and written.

ghost use Rattle.std.specs.Prelude.{◌≡◌, ◌++◌, ℕ, ◌<◌, ◌^◌, List, Option, length, OnOk};
ghost use Rattle.std.specs.Int.{w32};
ghost use Rattle.ov_event.specs.Fields.{u8, u16, u32, text, extent, IsU8, IsU32, IsText, IsExtent};
ghost use Rattle.ov_event.specs.Spelling.{parent};
ghost use Rattle.ov_event.specs.Records.{parent_at};
ghost use Rattle.ov_event.specs.Reading.{Gives, u8_at, u16_at, u32_at, text_at, front_at, extent_at};

use crate::stop::Stop;
use ov_host::Extent;
use ov_value::Txt;
use std::alloc::{AllocError, Global};
use std::str;

/// What stands in bytes as a field, or as fields one after the other.
pub(crate) trait Field: Drop {
    /// What reading gives at the front of bytes.
    ghost at: { List ℕ → Option (Self × List ℕ) };

    /// The bytes of a value.
    ghost spelled: { Self → List ℕ };

    /// Its lengths and numbers of items fit their fields.
    ghost fits: { Self → Type 0 };

    /// It has a spelling: its numbers fit too, and its texts are UTF-8.
    ghost is: { Self → Type 0 };

    /// The value at the front of the bytes, and the bytes after it.
    fn read(alloc: Global, bytes: &[u8]) -> Result<(Self, &[u8]), Stop>
        ensures { Gives (λ x. (x.0, x.1.now)) result (at bytes.now) };

    /// Writes it at the end.
    fn write(&self, out: &mut Vec<u8>) -> Result<(), AllocError>
        requires { fits self.now }
        ensures written { OnOk result (out.new.items ≡ out.old.items ++ spelled self.now) }
        ensures sound { OnOk result (is self.now) };
}

impl Field for u8 {
    ghost at = { u8_at };

    ghost spelled = { u8 };

    ghost fits = { λ _. Unit };

    ghost is = { IsU8 };

    fn read(alloc: Global, bytes: &[u8]) -> Result<(u8, &[u8]), Stop> {
        match bytes {
            [] => Err(Stop::Unspelled),
            [byte, rest @ ..] => Ok((*byte, rest)),
        }
    }

    fn write(&self, out: &mut Vec<u8>) -> Result<(), AllocError> {
        out.push(*self)?;
        Ok(())
    }
}

impl Field for u32 {
    ghost at = { u32_at };

    ghost spelled = { u32 };

    ghost fits = { λ _. Unit };

    ghost is = { IsU32 };

    #[tactic(auto, unfolding(crate::specs::Reading::u32_at))]
    fn read(alloc: Global, bytes: &[u8]) -> Result<(u32, &[u8]), Stop> {
        if bytes.len() < 4 {
            return Err(Stop::Unspelled);
        }
        let (front, rest) = bytes.split_at(4);
        let number = u32::from_be_bytes([front[0], front[1], front[2], front[3]]);
        Ok((number, rest))
    }

    #[tactic(auto, unfolding(crate::specs::Fields::u32))]
    fn write(&self, out: &mut Vec<u8>) -> Result<(), AllocError> {
        out.extend_from_slice(&self.to_be_bytes())
    }
}

impl Field for Extent {
    ghost at = { extent_at };

    ghost spelled = { extent };

    ghost fits = { λ _. Unit };

    ghost is = { IsExtent };

    #[tactic(auto, unfolding(crate::specs::Reading::extent_at))]
    fn read(alloc: Global, bytes: &[u8]) -> Result<(Extent, &[u8]), Stop> {
        let (page, rest) = u32::read(alloc, bytes)?;
        let (bytes, rest) = u32::read(alloc, rest)?;
        Ok((Extent { page, bytes }, rest))
    }

    #[tactic(auto, unfolding(crate::specs::Fields::extent))]
    fn write(&self, out: &mut Vec<u8>) -> Result<(), AllocError> {
        self.page.write(out)?;
        self.bytes.write(out)
    }
}

impl Field for Txt {
    ghost at = { text_at };

    ghost spelled = { text };

    ghost fits = { λ t. length t < 2 ^ 32 };

    ghost is = { IsText };

    #[tactic(auto, unfolding(crate::specs::Reading::text_at))]
    fn read(alloc: Global, bytes: &[u8]) -> Result<(Txt, &[u8]), Stop> {
        let (len, rest) = u32::read(alloc, bytes)?;
        let (text, rest) = front_of(len as usize, rest)?;
        match str::from_utf8(text) {
            Err(_) => Err(Stop::Unspelled),
            Ok(text) => Ok((Txt::new(alloc, text)?, rest)),
        }
    }

    #[tactic(auto, unfolding(crate::specs::Fields::text))]
    fn write(&self, out: &mut Vec<u8>) -> Result<(), AllocError> {
        (self.len() as u32).write(out)?;
        out.extend_from_slice(self.as_bytes())
    }
}

/// A version and the weight of the edge from it.
impl Field for (u32, u32) {
    ghost at = { parent_at };

    ghost spelled = { parent };

    ghost fits = { λ _. Unit };

    ghost is = { λ p. IsU32 p.0 × IsU32 p.1 };

    #[tactic(auto, unfolding(crate::specs::Records::parent_at))]
    fn read(alloc: Global, bytes: &[u8]) -> Result<((u32, u32), &[u8]), Stop> {
        let (vid, rest) = u32::read(alloc, bytes)?;
        let (weight, rest) = u32::read(alloc, rest)?;
        Ok(((vid, weight), rest))
    }

    #[tactic(auto, unfolding(crate::specs::Spelling::parent))]
    fn write(&self, out: &mut Vec<u8>) -> Result<(), AllocError> {
        self.0.write(out)?;
        self.1.write(out)
    }
}

/// The first bytes, so many, and those after them.
fn front_of(len: usize, bytes: &[u8]) -> Result<(&[u8], &[u8]), Stop>
    ensures { Gives (λ x. (x.0.now, x.1.now)) result (front_at len bytes.now) }
{
    if bytes.len() < len {
        return Err(Stop::Unspelled);
    }
    Ok(bytes.split_at(len))
}
