//! The catalog.

ghost use Rattle.std.specs.Prelude.{◌≡◌, ◌+◌, ◌-◌, ◌<◌, ◌≤◌, ◌^◌, ◌++◌, ◌∷◌, [], ℕ, List, None, All, length, find, vec_capacity, option_map, option_copied, OnOk, OnErr, IfOk, IfSome};
ghost use Rattle.std.specs.Option.{option_or};
ghost use Rattle.ov_layout.specs.Changes.{extents_of};
ghost use Rattle.ov_value.specs.declared.column.Column.{Column};
ghost use Rattle.ov_value.specs.Shapes.{Shape};
ghost use Rattle.ov_catalog.specs.Answers.{Answers};
ghost use Rattle.ov_catalog.specs.Applying.{AtStart, Beyond, InSnapshot, base_off, first_off, init_off, is_named, number_off, of_live, off_at, reach_after, reach_with, set_numbered};
ghost use Rattle.ov_catalog.specs.Arriving.{arrival_off, wide_arrival_off};
ghost use Rattle.ov_catalog.specs.Events.{Commit, Copy, Drop, Flip, Init, Plan, Wide, applied};
ghost use Rattle.ov_catalog.specs.Extents.{given_up};
ghost use Rattle.ov_catalog.specs.Numbers.{nothing_yet};
ghost use Rattle.ov_catalog.specs.Raw.{event_in, place_in, shape_in, whole_in};
ghost use Rattle.ov_catalog.specs.Planning.{copy_off, flip_off, of_running, plan_off};
ghost use Rattle.ov_catalog.specs.Ready.{Nothing, ForInit, ForCommit, ForWide, ForPlan, ForCopy, ForFlip, HasRoom, IsForInit, IsForWide, IsSet};
ghost use Rattle.ov_catalog.specs.Sets.{set_in, sets_in};
ghost use Rattle.ov_catalog.specs.Snapshots.{IsSnapshot};
ghost use Rattle.ov_catalog.specs.Sources.{IsApart};
ghost use Rattle.ov_catalog.specs.Steps.{steps_left as steps_left_in};
ghost use Rattle.ov_catalog.specs.Wholes.{whole_off};
ghost use Rattle.ov_event.specs.declared.event.PlanTarget.{PlanTarget};

use crate::arrival::Arrival;
use crate::commit::{commit_in, room_for_commit};
use crate::copies::{copy_in, room_for_copy};
use crate::cvd::Cvd;
use crate::error::ApplyErr;
use crate::field::Field;
use crate::flips::{flip_in, keeps_of_one, room_for_flip};
use crate::freeing::{drop_from, room_for_drop};
use crate::init::{begin, check_init, spare_of};
use crate::plans::{begin_plan, room_for_plan};
use crate::reach::{Reach, check_base, check_number};
use crate::room::Room;
use crate::snapshots::events_of;
use crate::steps::steps_left;
use crate::wholes::restored;
use crate::wide::{check_format, room_for_wide, wide_in};
use ov_event::{Event, Items, PlanTarget, RawSchema, Whole};
use ov_host::Extent;
use ov_value::{Column, Txt};
use std::alloc::{AllocError, Global};
use std::marker::Model;
use std::mem;

/// All that the journal's events say of the live datasets. Contracts see their numbers, for which event there is room, and how
/// far the half of the journal has come whose events were applied.
#[derive(Drop)]
pub struct Catalog {
    alloc: Global,
    /// The number that the next dataset gets.
    next: u32,
    /// The live datasets, in order of creation and so of their numbers.
    sets: Vec<Cvd>,
    room: Room,
    reach: Reach,
}

impl Model for Catalog {
    ghost use Rattle.ov_catalog.specs.Ready.{Kept};

    ghost Value = { Kept };

    ghost use Rattle.ov_catalog.specs.Ready.{reach_in, ready_in, AreSets, AreUpTo, HasSpace};
    ghost use Rattle.ov_catalog.specs.Sets.{numbers_of, sets_in};

    ghost view = { λ c. record { numbers = record { next = c.next; sets = sets_in c.sets.items }; ready = ready_in c.room; reach = reach_in c.next c.reach } };

    ghost invariant = { λ c. AreSets c.next c.sets.items × HasSpace c.room c.sets × AreUpTo c.reach (numbers_of c.sets.items) };
}

impl Catalog {
    /// A catalog without datasets, before any event. The first dataset gets the number 1.
    pub fn new(alloc: Global) -> Catalog
        ensures { result ≡ record { numbers = nothing_yet; ready = Nothing; reach = AtStart } }
    {
        Catalog {
            alloc,
            next: 1,
            sets: Vec::new(alloc),
            room: Room::Nothing,
            reach: Reach::AtStart,
        }
    }

    /// The live datasets in order of creation.
    pub fn cvds(&self) -> &[Cvd]
        ensures sets { sets_in result.now ≡ self.now.numbers.sets }
        ensures sound { All IsSet result.now }
    {
        self.sets.as_slice()
    }

    /// The number that the next dataset gets.
    pub fn next_number(&self) -> u32
        ensures { result ≡ self.now.numbers.next }
    {
        self.next
    }

    /// How many migration steps are left, over all plans.
    pub fn steps_left(&self) -> u64
        ensures { result ≡ steps_left_in self.now.numbers }
    {
        steps_left(self.sets.as_slice())
    }

    /// The live dataset with this name. Each of its versions is in a partition.
    pub fn cvd(&self, name: &str) -> Option<&Cvd>
        ensures found { option_map set_in (option_copied result) ≡ find (is_named name.now) self.now.numbers.sets }
        ensures sound { IfSome result (λ d. IsSet d.now) }
    {
        let sets = self.sets.as_slice();
        for d in sets {
            if d.name.as_str() == name {
                return Some(d);
            }
        }
        None
    }

    /// The events of its snapshot: they say the same numbers, with the same extents.
    pub fn events(&self) -> Result<Vec<Event>, AllocError>
        ensures { IfOk result (λ events. IsSnapshot events.items self.now.numbers) }
    {
        events_of(self.alloc, self.next, self.sets.as_slice())
    }

    /// Where the event is a flip, what its target keeps is of one partition, which goes with it. So what it gives up and what
    /// stays then are what was there. It changes nothing.
    pub fn is_apart(&self, event: &Event)
        ensures { IsApart event.now self.now.numbers }
    {
        if let Event::Flip { cvd } = event {
            keeps_of_one(self.sets.as_slice(), *cvd);
        }
    }

    /// Makes room for the event of a move in a store of this format, so that applying it takes no memory: here, and behind
    /// `freed` for the extents that it gives up. `NotNext` with the first part of the event that is off; none is made for the
    /// events of a snapshot, which [`Catalog::apply`] takes. It changes nothing else.
    pub fn room_for(
        &mut self,
        format: u32,
        event: &Event,
        freed: &mut Vec<Extent>,
    ) -> Result<(), ApplyErr>
        ensures answer { Answers result (first_off format event.now self.old.numbers) }
        ensures numbers { self.new.numbers ≡ self.old.numbers }
        ensures reach { self.new.reach ≡ self.old.reach }
        ensures ready { OnOk result (HasRoom event.now self.new.numbers self.new.ready) }
        ensures freed { freed.new.items ≡ freed.old.items }
        ensures room { OnOk result (length freed.new.items + length (given_up (event_in event.now) self.old.numbers) ≤ vec_capacity freed.new) }
    {
        match event {
            Event::Init {
                name,
                schema,
                rows,
                list,
                segment,
            } => self.room_for_init(name, schema, *rows, *list, *segment),
            Event::Commit {
                cvd,
                vid,
                message,
                parents,
                rows,
                fresh,
                place,
                added,
                list,
                segment,
            } => self.room_for_commit(
                *cvd,
                message,
                parents.as_slice(),
                &Arrival {
                    vid: *vid,
                    rows: *rows,
                    fresh: *fresh,
                    place: *place,
                    added: *added,
                    list: *list,
                    segment: *segment,
                },
            ),
            Event::Plan { cvd, p, q, targets } => {
                self.room_for_plan(*cvd, *p, *q, targets.as_slice())
            }
            Event::Copy {
                cvd,
                count,
                segment,
            } => self.room_for_copy(*cvd, *count, *segment),
            Event::Flip { cvd } => self.room_for_flip(*cvd, freed),
            Event::Drop { cvd } => room_for_drop(&self.sets, *cvd, freed),
            Event::Wide {
                cvd,
                vid,
                message,
                columns,
                parents,
                rows,
                fresh,
                place,
                added,
                list,
                segment,
            } => {
                check_format(format)?;
                self.room_for_wide(
                    *cvd,
                    message,
                    columns.as_slice(),
                    parents.as_slice(),
                    &Arrival {
                        vid: *vid,
                        rows: *rows,
                        fresh: *fresh,
                        place: *place,
                        added: *added,
                        list: *list,
                        segment: *segment,
                    },
                )
            }
            // A snapshot's events are for `apply` alone.
            Event::Base { .. } | Event::Whole(_) => Err(ApplyErr::NotNext {
                field: Field::Number,
            }),
        }
    }

    fn room_for_init(
        &mut self,
        name: &Txt,
        schema: &RawSchema,
        rows: u32,
        list: Extent,
        segment: Extent,
    ) -> Result<(), ApplyErr>
        ensures answer { Answers result (init_off name.now schema.now rows list segment self.old.numbers) }
        ensures numbers { self.new.numbers ≡ self.old.numbers }
        ensures reach { self.new.reach ≡ self.old.reach }
        ensures ready { OnOk result (self.new.ready ≡ ForInit (shape_in schema.now)) }
    {
        let sets = self.sets.as_slice();
        let made = check_init(
            self.alloc, self.next, sets, name, schema, rows, list, segment,
        )?;
        let spare = spare_of(self.alloc, made)?;
        self.sets.reserve(1)?;
        self.room = Room::Init(spare);
        Ok(())
    }

    fn room_for_commit(
        &mut self,
        cvd: u32,
        message: &Txt,
        parents: &[(u32, u32)],
        new: &Arrival,
    ) -> Result<(), ApplyErr>
        ensures answer { Answers result (of_live (arrival_off message.now parents.now new.now) (set_numbered cvd self.old.numbers)) }
        ensures numbers { self.new.numbers ≡ self.old.numbers }
        ensures reach { self.new.reach ≡ self.old.reach }
        ensures ready { OnOk result (self.new.ready ≡ ForCommit cvd (place_in new.now.place)) }
    {
        self.room = Room::Nothing;
        room_for_commit(self.alloc, &mut self.sets, cvd, message, parents, new)?;
        self.room = Room::Commit {
            cvd,
            place: new.place,
        };
        Ok(())
    }

    fn room_for_wide(
        &mut self,
        cvd: u32,
        message: &Txt,
        columns: &[Column],
        parents: &[(u32, u32)],
        new: &Arrival,
    ) -> Result<(), ApplyErr>
        ensures answer { Answers result (of_live (wide_arrival_off message.now columns.now parents.now new.now) (set_numbered cvd self.old.numbers)) }
        ensures numbers { self.new.numbers ≡ self.old.numbers }
        ensures reach { self.new.reach ≡ self.old.reach }
        ensures ready { OnOk result (IsForWide cvd (place_in new.now.place) columns.now (set_numbered cvd self.old.numbers) self.new.ready) }
    {
        self.room = Room::Nothing;
        let schema = room_for_wide(
            self.alloc,
            &mut self.sets,
            cvd,
            message,
            columns,
            parents,
            new,
        )?;
        self.room = Room::Wide {
            cvd,
            place: new.place,
            schema,
        };
        Ok(())
    }

    fn room_for_plan(
        &mut self,
        cvd: u32,
        p: u32,
        q: u32,
        targets: &[PlanTarget],
    ) -> Result<(), ApplyErr>
        ensures answer { Answers result (of_live (plan_off p q targets.now) (set_numbered cvd self.old.numbers)) }
        ensures numbers { self.new.numbers ≡ self.old.numbers }
        ensures reach { self.new.reach ≡ self.old.reach }
        ensures ready { OnOk result (self.new.ready ≡ ForPlan cvd p q targets.now) }
    {
        let sets = self.sets.as_slice();
        let plan = room_for_plan(self.alloc, sets, cvd, p, q, targets)?;
        self.room = Room::Plan { cvd, plan };
        Ok(())
    }

    fn room_for_copy(&mut self, cvd: u32, count: u32, segment: Extent) -> Result<(), ApplyErr>
        ensures answer { Answers result (of_live (λ d. of_running (copy_off count segment) d.plan) (set_numbered cvd self.old.numbers)) }
        ensures numbers { self.new.numbers ≡ self.old.numbers }
        ensures reach { self.new.reach ≡ self.old.reach }
        ensures ready { OnOk result (self.new.ready ≡ ForCopy cvd) }
    {
        self.room = Room::Nothing;
        room_for_copy(&mut self.sets, cvd, count, segment)?;
        self.room = Room::Copy { cvd };
        Ok(())
    }

    fn room_for_flip(&mut self, cvd: u32, freed: &mut Vec<Extent>) -> Result<(), ApplyErr>
        ensures answer { Answers result (of_live (λ d. of_running flip_off d.plan) (set_numbered cvd self.old.numbers)) }
        ensures numbers { self.new.numbers ≡ self.old.numbers }
        ensures reach { self.new.reach ≡ self.old.reach }
        ensures ready { OnOk result (self.new.ready ≡ ForFlip cvd) }
        ensures freed { freed.new.items ≡ freed.old.items }
        ensures room { OnOk result (length freed.new.items + length (given_up (Flip cvd) self.old.numbers) ≤ vec_capacity freed.new) }
    {
        self.room = Room::Nothing;
        let versions = room_for_flip(self.alloc, &mut self.sets, cvd, freed)?;
        self.room = Room::Flip { cvd, versions };
        Ok(())
    }

    /// Applies an event that there is room for. Takes no memory: the extents that the event gives up are put behind
    /// `freed`. Uses the room up.
    pub fn apply_reserved(&mut self, event: Event, freed: &mut Vec<Extent>)
        requires applies { (format : ℕ) × (first_off format event self.old.numbers ≡ None) }
        requires ready { HasRoom event self.old.numbers self.old.ready }
        requires room { length freed.old.items + length (given_up (event_in event) self.old.numbers) ≤ vec_capacity freed.old }
        ensures applied { self.new.numbers ≡ applied (event_in event) self.old.numbers }
        ensures reach { self.new.reach ≡ reach_after event self.old.reach }
        ensures freed { freed.new.items ≡ freed.old.items ++ given_up (event_in event) self.old.numbers }
    {
        match event {
            Event::Init {
                name,
                rows,
                list,
                segment,
                ..
            } => self.init(name, rows, list, segment),
            Event::Commit {
                cvd,
                vid,
                message,
                parents,
                rows,
                fresh,
                place,
                added,
                list,
                segment,
            } => self.commit(
                cvd,
                message,
                parents,
                &Arrival {
                    vid,
                    rows,
                    fresh,
                    place,
                    added,
                    list,
                    segment,
                },
            ),
            Event::Plan { .. } => self.begin_plan(),
            Event::Copy {
                cvd,
                count,
                segment,
            } => self.copy(cvd, count, segment),
            Event::Flip { cvd } => self.flip(cvd, freed),
            Event::Drop { cvd } => self.drop_set(cvd, freed),
            Event::Wide {
                cvd,
                vid,
                message,
                parents,
                rows,
                fresh,
                place,
                added,
                list,
                segment,
                ..
            } => self.widen(
                cvd,
                message,
                parents,
                &Arrival {
                    vid,
                    rows,
                    fresh,
                    place,
                    added,
                    list,
                    segment,
                },
            ),
            // There is room for none of these.
            Event::Base { .. } | Event::Whole(_) => {}
        }
    }

    fn init(&mut self, name: Txt, rows: u32, list: Extent, segment: Extent)
        requires ready { IsForInit self.old.ready }
        requires next { self.old.numbers.next < 2 ^ 32 - 1 }
        ensures begun { (schema : Shape) → self.old.ready ≡ ForInit schema → self.new.numbers ≡ applied (Init name schema rows list (extents_of segment)) self.old.numbers }
        ensures reach { self.new.reach ≡ Beyond }
    {
        self.reach = Reach::Beyond;
        if let Room::Init(spare) = mem::replace(&mut self.room, Room::Nothing) {
            let d = begin(self.alloc, spare, self.next, name, rows, list, segment);
            // There is room, so this takes no memory.
            let _ = self.sets.push(d);
            self.next += 1;
        }
    }

    fn commit(&mut self, cvd: u32, message: Txt, parents: Items<(u32, u32)>, new: &Arrival)
        requires ready { self.old.ready ≡ ForCommit cvd (place_in new.now.place) }
        requires applies { of_live (arrival_off message parents new.now) (set_numbered cvd self.old.numbers) ≡ None }
        ensures committed { self.new.numbers ≡ applied (Commit cvd new.now.vid message parents new.now.rows new.now.fresh (place_in new.now.place) new.now.added new.now.list (extents_of new.now.segment)) self.old.numbers }
        ensures reach { self.new.reach ≡ Beyond }
    {
        self.reach = Reach::Beyond;
        commit_in(&mut self.sets, cvd, message, parents, new);
        self.room = Room::Nothing;
    }

    fn widen(&mut self, cvd: u32, message: Txt, parents: Items<(u32, u32)>, new: &Arrival)
        requires ready { (schema : Shape) × (self.old.ready ≡ ForWide cvd (place_in new.now.place) schema) }
        requires applies { of_live (arrival_off message parents new.now) (set_numbered cvd self.old.numbers) ≡ None }
        ensures widened { (columns : List Column) → IsForWide cvd (place_in new.now.place) columns (set_numbered cvd self.old.numbers) self.old.ready → self.new.numbers ≡ applied (Wide cvd new.now.vid message columns parents new.now.rows new.now.fresh (place_in new.now.place) new.now.added new.now.list (extents_of new.now.segment)) self.old.numbers }
        ensures reach { self.new.reach ≡ Beyond }
    {
        self.reach = Reach::Beyond;
        if let Room::Wide { schema, .. } = mem::replace(&mut self.room, Room::Nothing) {
            wide_in(&mut self.sets, cvd, schema, message, parents, new);
        }
    }

    fn begin_plan(&mut self)
        ensures planned { (cvd p q : ℕ) (targets : List PlanTarget) → self.old.ready ≡ ForPlan cvd p q targets → self.new.numbers ≡ applied (Plan cvd p q targets) self.old.numbers }
        ensures reach { self.new.reach ≡ Beyond }
    {
        self.reach = Reach::Beyond;
        if let Room::Plan { cvd, plan } = mem::replace(&mut self.room, Room::Nothing) {
            begin_plan(&mut self.sets, cvd, plan);
        }
    }

    fn copy(&mut self, cvd: u32, count: u32, segment: Extent)
        requires ready { self.old.ready ≡ ForCopy cvd }
        requires applies { of_live (λ d. of_running (copy_off count segment) d.plan) (set_numbered cvd self.old.numbers) ≡ None }
        ensures copied { self.new.numbers ≡ applied (Copy cvd count (extents_of segment)) self.old.numbers }
        ensures reach { self.new.reach ≡ Beyond }
    {
        self.reach = Reach::Beyond;
        copy_in(&mut self.sets, cvd, count, segment);
        self.room = Room::Nothing;
    }

    fn flip(&mut self, cvd: u32, freed: &mut Vec<Extent>)
        requires ready { self.old.ready ≡ ForFlip cvd }
        requires applies { of_live (λ d. of_running flip_off d.plan) (set_numbered cvd self.old.numbers) ≡ None }
        requires room { length freed.old.items + length (given_up (Flip cvd) self.old.numbers) ≤ vec_capacity freed.old }
        ensures flipped { self.new.numbers ≡ applied (Flip cvd) self.old.numbers }
        ensures reach { self.new.reach ≡ Beyond }
        ensures freed { freed.new.items ≡ freed.old.items ++ given_up (Flip cvd) self.old.numbers }
    {
        self.reach = Reach::Beyond;
        if let Room::Flip { versions, .. } = mem::replace(&mut self.room, Room::Nothing) {
            flip_in(self.alloc, &mut self.sets, cvd, versions, freed);
        }
    }

    fn drop_set(&mut self, cvd: u32, freed: &mut Vec<Extent>)
        requires room { length freed.old.items + length (given_up (Drop cvd) self.old.numbers) ≤ vec_capacity freed.old }
        ensures dropped { self.new.numbers ≡ applied (Drop cvd) self.old.numbers }
        ensures reach { self.new.reach ≡ Beyond }
        ensures freed { freed.new.items ≡ freed.old.items ++ given_up (Drop cvd) self.old.numbers }
    {
        self.reach = Reach::Beyond;
        drop_from(&mut self.sets, cvd, freed);
        self.room = Room::Nothing;
    }

    /// Applies the event of a move or of a snapshot in a store of this format, and takes the memory that this needs. The extents
    /// that it gives up are forgotten. `NotNext` with the first part of the event that is off. An error changes nothing.
    pub fn apply(&mut self, format: u32, event: Event) -> Result<(), ApplyErr>
        ensures answer { Answers result (off_at (record { format = format; reach = self.old.reach }) event self.old.numbers) }
        ensures applied { OnOk result (self.new.numbers ≡ applied (event_in event) self.old.numbers) }
        ensures reach { OnOk result (self.new.reach ≡ reach_after event self.old.reach) }
        ensures err { OnErr result ((self.new.numbers ≡ self.old.numbers) × (self.new.reach ≡ self.old.reach)) }
    {
        match event {
            Event::Base { next } => self.based(next),
            Event::Whole(said) => self.restore(said),
            event => self.apply_move(format, event),
        }
    }

    // Makes room for the event of a move and applies it.
    fn apply_move(&mut self, format: u32, event: Event) -> Result<(), ApplyErr>
        ensures answer { Answers result (first_off format event self.old.numbers) }
        ensures applied { OnOk result (self.new.numbers ≡ applied (event_in event) self.old.numbers) }
        ensures reach { OnOk result (self.new.reach ≡ reach_after event self.old.reach) }
        ensures err { OnErr result ((self.new.numbers ≡ self.old.numbers) × (self.new.reach ≡ self.old.reach)) }
    {
        let mut freed = Vec::new(self.alloc);
        self.room_for(format, &event, &mut freed)?;
        self.apply_reserved(event, &mut freed);
        Ok(())
    }

    // A snapshot begins, which says the number that the next dataset gets.
    fn based(&mut self, next: u32) -> Result<(), ApplyErr>
        ensures answer { Answers result (base_off next self.old.reach) }
        ensures begun { OnOk result (self.new.numbers ≡ record { next = next; sets = [] }) }
        ensures reach { OnOk result (self.new.reach ≡ InSnapshot next 0) }
        ensures err { OnErr result ((self.new.numbers ≡ self.old.numbers) × (self.new.reach ≡ self.old.reach)) }
    {
        check_base(self.reach, next)?;
        self.next = next;
        self.sets = Vec::new(self.alloc);
        self.room = Room::Nothing;
        self.reach = Reach::InSnapshot { last: 0 };
        Ok(())
    }

    // A dataset that a snapshot says comes behind the others.
    fn restore(&mut self, said: Whole) -> Result<(), ApplyErr>
        ensures answer { Answers result (option_or (number_off said.number self.old.reach) (whole_off said (whole_in said) self.old.numbers)) }
        ensures added { OnOk result (self.new.numbers ≡ record { next = self.old.numbers.next; sets = self.old.numbers.sets ++ whole_in said ∷ [] }) }
        ensures reach { OnOk result (self.new.reach ≡ reach_with said.number self.old.reach) }
        ensures err { OnErr result ((self.new.numbers ≡ self.old.numbers) × (self.new.reach ≡ self.old.reach)) }
    {
        let number = said.number;
        check_number(self.reach, self.next, number)?;
        let d = restored(self.alloc, self.sets.as_slice(), said)?;
        self.sets.reserve(1)?;
        // There is room, so this takes no memory.
        let _ = self.sets.push(d);
        self.room = Room::Nothing;
        self.reach = Reach::InSnapshot { last: number };
        Ok(())
    }
}
