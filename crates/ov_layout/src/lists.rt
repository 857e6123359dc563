//! Lists of versions and of extents.

ghost use Rattle.std.specs.Prelude.{◌≡◌, ◌<◌, ◌==◌, [], ◌∷◌, ◌++◌, not, filter, length, vec_capacity};
ghost use Rattle.ov_layout.specs.Parts.{has, Ascend};

use crate::search::is_among;
use ov_host::Extent;
use ov_items::Items;
use std::mem;

/// Vids in order.
pub type Vids = Items<u32>;

/// Extents in order.
pub type Extents = Items<Extent>;

/// Up to so many vids are searched and taken off one by one, so that those that stay are moved and not looked at.
const FEW: usize = 8;

/// Takes these vids off.
pub(crate) fn leave(vids: &mut Vids, leaving: &[u32])
    requires leaving { Ascend 0 leaving.now }
    requires vids { Ascend 0 vids.old }
    ensures { vids.new ≡ filter (λ vid. not (has leaving.now vid)) vids.old }
{
    let mut kept = vids.take();
    if leaving.len() <= FEW {
        take_each_off(&mut kept, leaving);
    } else {
        kept.retain(|vid| !is_among(leaving, *vid as usize));
    }
    *vids = Items::new(kept);
}

/// Takes these vids off, one after another.
fn take_each_off(list: &mut Vec<u32>, leaving: &[u32])
    requires { Ascend 0 list.old.items }
    ensures { list.new.items ≡ filter (λ vid. not (has leaving.now vid)) list.old.items }
{
    for vid in leaving {
        take_off(list, *vid);
    }
}

/// Takes a vid off, where it is there.
fn take_off(list: &mut Vec<u32>, vid: u32)
    requires { Ascend 0 list.old.items }
    ensures { list.new.items ≡ filter (λ v. not (v == vid)) list.old.items }
{
    let at = list.partition_point(|v| *v < vid);
    if at < list.len() && list[at] == vid {
        list.remove(at);
    }
}

/// Puts an item at the end. Takes no memory: see [`push_or_move`].
pub(crate) fn push_to<T: Copy + Drop>(items: &mut Items<T>, item: T, spare: &mut Vec<T>)
    requires empty { spare.old.items ≡ [] }
    requires room { length items.old < vec_capacity spare.old }
    ensures pushed { items.new ≡ items.old ++ item ∷ [] }
    ensures empty { spare.new.items ≡ [] }
{
    let mut list = items.take();
    push_or_move(&mut list, item, spare);
    *items = Items::new(list);
}

/// Puts an item at the end of a list. A list that is full moves to the spare one, which has room, and its own
/// memory becomes the spare one.
fn push_or_move<T: Copy>(list: &mut Vec<T>, item: T, spare: &mut Vec<T>)
    requires empty { spare.old.items ≡ [] }
    requires room { length list.old.items < vec_capacity spare.old }
    ensures pushed { list.new.items ≡ list.old.items ++ item ∷ [] }
    ensures empty { spare.new.items ≡ [] }
{
    if list.len() == list.capacity() {
        // There is room in the spare list, so this takes no memory.
        let _ = spare.extend_from_slice(list);
        mem::swap(list, spare);
        spare.clear();
    }
    // There is room, so this takes no memory.
    let _ = list.push(item);
}
