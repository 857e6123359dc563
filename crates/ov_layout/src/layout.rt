//! A layout.

ghost use Rattle.std.specs.Prelude.{◌≡◌, ◌+◌, ◌-◌, ◌*◌, ◌<◌, ◌≤◌, ◌^◌, true, [], ◌++◌, None, length, option_copied, vec_capacity, OnOk, OnErr, IfOk, IfSome};
ghost use Rattle.ov_layout.specs.declared.room.Room.TheVariants.{Nothing, Placing, Joining};
ghost use Rattle.ov_layout.specs.Parts.{AreParts, part_with, is_placed, records_at, stored_of, cost_of, pages_for, segments_for};
ghost use Rattle.ov_layout.specs.Changes.{IsNew, IsRoomFor, IsThere, room_for, with_own, with_joined};
ghost use Rattle.ov_layout.specs.Leaving.{led_by};
ghost use Rattle.ov_layout.specs.Flips.{Flip, MayFlip, flip_of, given_up, with_flipped};

use crate::index::{self, Entry, index_of};
use crate::lists::{Extents, Vids};
use crate::part::Part;
use crate::room::Room;
use crate::search::place_of;
use crate::spares::Spares;
use crate::{change, flips, sums};
use ov_host::Extent;
use std::alloc::{AllocError, Global};
use std::marker::Model;
use std::mem;

/// The partitions of a dataset, in the order of their numbers. Which partition a version is in is kept as a list
/// that is searched by halves.
#[derive(Drop)]
pub struct Layout {
    alloc: Global,
    parts: Vec<Part>,
    index: Vec<Entry>,
    next: u32,
    stored: u64,
    cost: u64,
    room: Room,
    /// The lists of the next partition.
    fresh: Spares,
    /// Lists to which those of a partition move where they are full.
    spare: Spares,
}

impl Model for Layout {
    ghost use Rattle.ov_layout.specs.Parts.{Partitions};

    ghost Value = { Partitions };

    ghost view = { λ l. record { parts = l.parts.items; next = l.next; room = l.room } };

    ghost use Rattle.ov_layout.specs.Kept.{AreNumbers, HasSpace};

    ghost invariant = { λ l. AreNumbers l.index.items l.parts.items l.next l.stored l.cost × HasSpace l.room l.parts l.index l.fresh l.spare };
}

impl Layout {
    /// A layout without partitions. The first one gets the number 1.
    pub fn new(alloc: Global) -> Layout
        ensures { result ≡ record { parts = []; next = 1; room = Nothing } }
    {
        Layout {
            alloc,
            parts: Vec::new(alloc),
            index: Vec::new(alloc),
            next: 1,
            stored: 0,
            cost: 0,
            room: Room::Nothing,
            fresh: Spares::new(alloc),
            spare: Spares::new(alloc),
        }
    }

    /// The layout of these partitions, where the next one gets the number `next`.
    pub fn of(alloc: Global, parts: Vec<Part>, next: u32) -> Result<Layout, AllocError>
        requires { AreParts parts.items next }
        ensures { IfOk result (λ layout. layout ≡ record { parts = parts.items; next = next; room = Nothing }) }
    {
        let index = index_of(alloc, &parts, next)?;
        let stored = sums::stored_in(&parts);
        let cost = sums::cost_in(&parts);
        Ok(Layout {
            alloc,
            parts,
            index,
            next,
            stored,
            cost,
            room: Room::Nothing,
            fresh: Spares::new(alloc),
            spare: Spares::new(alloc),
        })
    }

    /// The partitions, in the order of their numbers.
    pub fn parts(&self) -> &[Part]
        ensures parts { result.now ≡ self.now.parts }
        ensures sound { AreParts self.now.parts self.now.next }
    {
        self.parts.as_slice()
    }

    /// The partition that serves a version; `None` where the version isn't placed.
    pub fn part_of(&self, vid: u32) -> Option<&Part>
        ensures { option_copied result ≡ part_with vid self.now.parts }
    {
        let id = index::number_at(&self.index, vid);
        if id == 0 {
            None
        } else {
            Some(&self.parts[place_of(&self.parts, id)])
        }
    }

    /// How many records the partitions keep together; one that two of them keep counts twice.
    pub fn stored(&self) -> u64
        ensures sum { result ≡ stored_of self.now.parts }
        ensures few { result ≤ 2 ^ 64 - 2 ^ 32 }
    {
        self.stored
    }

    /// What checkouts of each version read: the sum over partitions of their versions times their records.
    pub fn cost(&self) -> u64
        ensures { result ≡ cost_of self.now.parts }
    {
        self.cost
    }

    /// The number that the next partition gets.
    pub fn next_id(&self) -> u32
        ensures { result ≡ self.now.next }
    {
        self.next
    }

    /// How many pages the partition that serves a version has in its segments.
    pub fn pages_of(&self, vid: u32) -> u64
        requires placed { is_placed self.now.parts vid ≡ true }
        requires few { length (segments_for vid self.now.parts) < 2 ^ 32 }
        ensures { result ≡ pages_for vid self.now.parts }
    {
        self.part_of(vid).map_or(0, change::pages_of)
    }

    /// Makes room for one change: to join the partition with the number `part`, or, without one, for a partition of
    /// its own or for a flip that places at most so many `versions`. It takes the place of the room that there was.
    /// After an error the layout is unchanged.
    pub fn reserve(&mut self, versions: u32, part: Option<u32>) -> Result<(), AllocError>
        requires { IsThere part self.old.parts }
        ensures made { OnOk result (self.new ≡ record self.old { room = room_for versions part }) }
        ensures err { OnErr result (self.new ≡ self.old) }
    {
        self.index.reserve(1)?;
        match part {
            None => {
                self.parts.reserve(1)?;
                self.fresh.make_room(1, 1.max(versions as usize), 1)?;
                self.room = Room::Placing(versions);
            }
            Some(id) => {
                let at = place_of(&self.parts, id);
                self.spare.make_room_beside(&self.parts[at])?;
                self.room = Room::Joining(id);
            }
        }
        Ok(())
    }

    /// A new version gets a partition of its own with so many records, in this segment. Vids are given in
    /// ascending order, so the vid is above all others. A segment of no bytes isn't listed. Uses the room up.
    pub fn own(&mut self, vid: u32, records: u32, segment: Extent)
        requires room { IsRoomFor 0 self.old.room }
        requires new { IsNew vid self.old.parts }
        requires next { self.old.next < 2 ^ 32 - 1 }
        ensures { self.new ≡ with_own vid records segment self.old }
    {
        let id = self.next;
        let part = change::own_part(self.alloc, id, vid, records, segment, &mut self.fresh);
        // There is room, so this takes no memory.
        let _ = self.parts.push(part);
        let _ = self.index.push(Entry { vid, part: id });
        self.next += 1;
        self.stored += u64::from(records);
        self.cost += u64::from(records);
        self.room = Room::Nothing;
    }

    /// A new version joins a partition, which lacked so many of its records; these are in this segment. Vids are
    /// given in ascending order, so the vid is above all others. A segment of no bytes isn't listed. Uses the room
    /// up.
    pub fn join(&mut self, vid: u32, part: u32, added: u32, segment: Extent)
        requires room { self.old.room ≡ Joining part }
        requires new { IsNew vid self.old.parts }
        requires records { records_at part self.old.parts + added ≤ 2 ^ 31 }
        ensures { self.new ≡ with_joined vid part added segment self.old }
    {
        let at = place_of(&self.parts, part);
        let joined = &mut self.parts[at];
        let before = change::cost_of(joined);
        change::join_part(joined, vid, added, segment, &mut self.spare);
        let after = change::cost_of(joined);
        // There is room, so this takes no memory.
        let _ = self.index.push(Entry { vid, part });
        self.stored += u64::from(added);
        self.cost = self.cost - before + after;
        self.room = Room::Nothing;
    }

    /// The number of segments of the partition that a version is the first of; 0 where it is the first of none.
    fn led_by(&self, vid: u32) -> usize
        ensures { result ≡ led_by vid (part_with vid self.now.parts) }
    {
        match self.part_of(vid) {
            None => 0,
            Some(part) => {
                if flips::is_first(part.versions.as_slice(), vid) {
                    part.segments.as_slice().len()
                } else {
                    0
                }
            }
        }
    }

    /// How many segments the partitions have whose first versions are among these: at least as many as a flip of them gives up.
    /// `None` past the greatest `usize`.
    pub fn segments_led(&self, versions: &[u32]) -> Option<usize>
        ensures { IfSome result (λ count. (flip : Flip) → flip.versions ≡ versions.now → length (given_up flip self.now.parts) ≤ count) }
    {
        // No partition is empty, and no version is in two.
        let _ = self.parts();
        let mut count = 0usize;
        for vid in versions {
            count = count.checked_add(self.led_by(*vid))?;
        }
        Some(count)
    }

    /// A target becomes a partition: it serves and holds these versions, which leave their partitions, and its
    /// segments are those of the partition `source` at the places `kept`, then the copied ones. A partition without
    /// versions goes, and its segments, but for the kept ones, are put behind `freed`. A `source` of 0 is none.
    /// Uses the room up.
    pub fn flip(
        &mut self,
        versions: Vec<u32>,
        records: u32,
        source: u32,
        kept: &[u32],
        copied: Vec<Extent>,
        freed: &mut Vec<Extent>,
    )
        requires room { IsRoomFor (length versions.items) self.old.room }
        requires flip { MayFlip (flip_of versions.items records source kept.now copied.items) self.old.parts }
        requires next { self.old.next < 2 ^ 32 - 1 }
        requires copied { length copied.items + length kept.now ≤ vec_capacity copied }
        requires freed { length freed.old.items + length (given_up (flip_of versions.items records source kept.now copied.items) self.old.parts) ≤ vec_capacity freed.old }
        ensures flipped { self.new ≡ with_flipped (flip_of versions.items records source kept.now copied.items) self.old }
        ensures freed { freed.new.items ≡ freed.old.items ++ given_up (flip_of versions.items records source kept.now copied.items) self.old.parts }
    {
        let id = self.next;
        let mut segments = copied;
        flips::with_kept(&self.parts, source, kept, &mut segments);
        let left = flips::leave(&mut self.parts, &self.index, &versions);
        let gone = flips::give_up(&mut self.parts, left.emptied, source, kept, freed);
        index::move_to(&mut self.index, &versions, id);
        self.cost = self.cost - left.saved + versions.len() as u64 * u64::from(records);
        self.stored = self.stored - gone + u64::from(records);
        let mut holds = mem::replace(&mut self.fresh.holds, Vec::new(self.alloc));
        // There is room, so this takes no memory.
        let _ = holds.extend_from_slice(&versions);
        let _ = self.parts.push(Part {
            id,
            versions: Vids::new(versions),
            holds: Vids::new(holds),
            records,
            segments: Extents::new(segments),
        });
        self.next += 1;
        self.room = Room::Nothing;
    }
}
