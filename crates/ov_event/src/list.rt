//! Lists with a number of items in front.

ghost use Rattle.std.specs.Prelude.{◌≡◌, ◌++◌, ◌<◌, ◌^◌, length, OnOk};
ghost use Rattle.std.specs.Int.{w16};
ghost use Rattle.ov_event.specs.Spelling.{parents, AreParents};
ghost use Rattle.ov_event.specs.Records.{parents_at};
ghost use Rattle.std.specs.List.{flat_map, All, AllByRecursion};
ghost use Rattle.ov_event.specs.Fields.{u8, u16, u32, counted, AreFew};
ghost use Rattle.ov_event.specs.Reading.{Gives, items_at, counted_at, u8_at, u16_at, u32_at};

use crate::field::Field;
use crate::stop::Stop;
use ov_items::Items;
use std::alloc::{AllocError, Global};

/// So many items. Memory is taken as they are read, so a number that passes the bytes takes none.
fn items_of<T: Field>(alloc: Global, count: usize, bytes: &[u8]) -> Result<(Items<T>, &[u8]), Stop>
    ensures { Gives (λ x. (x.0, x.1.now)) result (items_at T.at count bytes.now) }
{
    let mut items = Vec::new(alloc);
    let mut rest = bytes;
    for _ in 0..count {
        let (item, after) = T::read(alloc, rest)?;
        items.push(item)?;
        rest = after;
    }
    Ok((Items::new(items), rest))
}

fn write_items<T: Field>(items: &[T], out: &mut Vec<u8>) -> Result<(), AllocError>
    requires { All T.fits items.now }
    ensures written { OnOk result (out.new.items ≡ out.old.items ++ flat_map T.spelled items.now) }
    ensures sound { OnOk result (AllByRecursion T.is items.now) }
{
    for item in items {
        item.write(out)?;
    }
    Ok(())
}

impl<T: Field> Field for Items<T> {
    ghost at = { counted_at u32_at T.at };

    ghost spelled = { counted u32 T.spelled };

    ghost fits = { λ xs. (length xs < 2 ^ 32) × All T.fits xs };

    ghost is = { AreFew 32 T.is };

    #[tactic(auto, unfolding(crate::specs::Reading::counted_at))]
    fn read(alloc: Global, bytes: &[u8]) -> Result<(Items<T>, &[u8]), Stop> {
        let (count, rest) = u32::read(alloc, bytes)?;
        items_of(alloc, count as usize, rest)
    }

    #[tactic(auto, unfolding(crate::specs::Fields::counted))]
    fn write(&self, out: &mut Vec<u8>) -> Result<(), AllocError> {
        (self.as_slice().len() as u32).write(out)?;
        write_items(self.as_slice(), out)
    }
}

/// Items behind their number in one byte.
#[tactic(auto, unfolding(crate::specs::Reading::counted_at))]
pub(crate) fn few_of<T: Field>(alloc: Global, bytes: &[u8]) -> Result<(Items<T>, &[u8]), Stop>
    ensures { Gives (λ x. (x.0, x.1.now)) result (counted_at u8_at T.at bytes.now) }
{
    let (count, rest) = u8::read(alloc, bytes)?;
    items_of(alloc, count as usize, rest)
}

#[tactic(auto, unfolding(crate::specs::Fields::counted))]
pub(crate) fn write_few<T: Field>(items: &[T], out: &mut Vec<u8>) -> Result<(), AllocError>
    requires few { length items.now < 2 ^ 8 }
    requires each { All T.fits items.now }
    ensures written { OnOk result (out.new.items ≡ out.old.items ++ counted u8 T.spelled items.now) }
    ensures sound { OnOk result (AreFew 8 T.is items.now) }
{
    (items.len() as u8).write(out)?;
    write_items(items, out)
}

#[tactic(auto, unfolding(crate::specs::Reading::u16_at))]
fn u16_of(bytes: &[u8]) -> Result<(u16, &[u8]), Stop>
    ensures { Gives (λ x. (x.0, x.1.now)) result (u16_at bytes.now) }
{
    if bytes.len() < 2 {
        return Err(Stop::Unspelled);
    }
    let (front, rest) = bytes.split_at(2);
    Ok((u16::from_be_bytes([front[0], front[1]]), rest))
}

/// Parents and their weights, behind their number in two bytes.
#[tactic(auto, unfolding(crate::specs::Reading::counted_at))]
pub(crate) fn parents_of(alloc: Global, bytes: &[u8]) -> Result<(Items<(u32, u32)>, &[u8]), Stop>
    ensures { Gives (λ x. (x.0, x.1.now)) result (parents_at bytes.now) }
{
    let (count, rest) = u16_of(bytes)?;
    items_of(alloc, count as usize, rest)
}

#[tactic(auto, unfolding(crate::specs::Fields::counted, crate::specs::Fields::u16))]
pub(crate) fn write_parents(items: &[(u32, u32)], out: &mut Vec<u8>) -> Result<(), AllocError>
    requires { length items.now < 2 ^ 16 }
    ensures written { OnOk result (out.new.items ≡ out.old.items ++ parents items.now) }
    ensures sound { OnOk result (AreParents items.now) }
{
    out.extend_from_slice(&(items.len() as u16).to_be_bytes())?;
    write_items(items, out)
}
