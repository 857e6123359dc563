// The store.

ghost use Rattle.std.specs.Prelude.{◌≡◌, ◌<◌, ◌≤◌, ◌+◌, ◌&&◌, ℕ, List, not, true, false, Some, None, IfOk, IfErr, IsTrue, is_some, OnOk, OnErr, IsErrOf, MatchResult, length, option_map, option_copied, find};
ghost use Rattle.std.specs.List.{All, list_any};
ghost use Rattle.ov_host.specs.Disk.{AllSettled, as_read};
ghost use Rattle.ov_host.specs.Host.{Rose, State};
ghost use Rattle.ov_host.specs.Stops.{Only};
ghost use Rattle.law_image.specs.Images.{StandsAs};
ghost use Rattle.ov_event.specs.Spelling.{spelling};
ghost use Rattle.ov_journal.specs.Held.{Passes};
ghost use Rattle.ov_journal.specs.Opened.{IsLeftByOpen};
ghost use Rattle.ov_open.specs.Opening.{IsOpened, IsOutside, IsWorld};
ghost use Rattle.ov_open.specs.Refusing.{Refuses};
ghost use Rattle.ov_value.specs.Naming.{is_name as is_a_name};
ghost use Rattle.ov_value.specs.Shapes.{IsSound};
ghost use Rattle.ov_value.specs.Spelling.{IsRow};
ghost use Rattle.ov_model.specs.Act.{init_refusal};
ghost use Rattle.ov_model.specs.Moves.{Move, Drop as DropMove, moved};
ghost use Rattle.ov_model.specs.World.{Dataset, World, set_named};
ghost use Rattle.ov_model.specs.declared.refusal.Refusal.{Refusal};
ghost use Rattle.law_room.specs.Room.{Entry, IsWithin, Made};
ghost use Rattle.ov_core.specs.AtWorld.{IsAtNext, IsAtWorld, IsEither};
ghost use Rattle.ov_core.specs.Brought.{Brings};
ghost use Rattle.ov_core.specs.Held.{IsByJournal};
ghost use Rattle.ov_store.specs.declared.errors.StoreErr.TheVariants as why;
ghost use Rattle.ov_store.specs.Beginning.{first_move, first_of, init_off, IsShort};
ghost use Rattle.ov_store.specs.Changes.{IsDone, IsReady, IsUnstored, IsWhy, bringing_of};
ghost use Rattle.ov_store.specs.Dropping.{IsDropped, IsKept, dropped, number_named};
ghost use Rattle.ov_store.specs.Errors.{is_host, of_change};
ghost use Rattle.ov_store.specs.Kept.{MayCall, Stays};
ghost use Rattle.ov_store.specs.Refusals.{new_off};
ghost use Rattle.ov_store.specs.Unready.{IfTooLong, IsFewPages, IsNoRoom, IsUnready};
ghost use Rattle.ov_store.specs.Worlds.{IsLack, IsRefusedAs, and_made, begin_refusal, drop_refusal};
ghost use Rattle.ov_store.specs.declared.errors.StoreErr.{StoreErr as StoreErrValue};
ghost use Rattle.ov_store.specs.declared.unready.Unready.TheVariants as unready;
ghost use Rattle.ov_version_bytes.specs.Written.{IsLong};
ghost use Rattle.ov_catalog.specs.Extents.{live};

use crate::errors::StoreErr;
use crate::unready::Unready;
use ov_catalog::Catalog;
use ov_core::{Brought, ChangeErr, Core};
use ov_host::Host;
use ov_model::MOST_CVDS;
use ov_open::{OpenErr, open as open_core};
use ov_rows::version_rows;
use ov_segment::RowTable;
use ov_value::{Schema, Txt};
use ov_version_bytes::first_version;
use std::alloc::Global;
use std::marker::Model;

/// A version that was made.
#[derive(Clone, Copy, PartialEq, Eq)]
pub struct Committed {
    /// Its number.
    pub vid: u32,
    /// How many rows it has.
    pub rows: u32,
    /// How many of its records no parent gave it.
    pub fresh: u32,
}

/// A team's datasets, in the page file and the journal of a host. Contracts see what the store keeps of them, and whether it
/// can be used: after a fault of the host in a call that writes it can't, and is opened again.
#[derive(Drop)]
pub struct Store {
    pub(crate) alloc: Global,
    pub(crate) core: Core,
    pub(crate) usable: bool,
}

impl Model for Store {
    ghost use Rattle.ov_store.specs.Kept.{Kept};

    ghost Value = { Kept };

    ghost view = { λ s. record { held = s.core; usable = s.usable } };
}

impl Store {
    /// Opens the store that a host keeps, or makes an empty one where there is none yet. No page is read.
    ///
    /// `NotAStore`, `Format` and `Damaged` by the bytes as they read, which stay as they were. Where the bytes stand for a World,
    /// the store is at it.
    pub fn open<H: Host>(alloc: Global, host: &mut H) -> Result<Store, OpenErr>
        ensures passes { Passes (H.state host.old) (H.state host.new) }
        ensures cause { IsErrOf result OpenErr.Host → Rose (H.state host.old).faults (H.state host.new).faults }
        ensures usable { IfOk result (λ store. MayCall store (H.state host.new)) }
        ensures answer { (H.state host.old).tells ≡ true → MatchResult result
            (λ store. IsOpened (H.state host.old).tape.disk store.held (H.state host.new))
            (λ why. Refuses why (H.state host.old).tape.disk (H.state host.new).tape.disk) }
        ensures world { (w : World) → (H.state host.old).tells ≡ true → StandsAs w (as_read (H.state host.old).tape.disk)
            → MatchResult result (λ store. IsAtWorld w store.held (H.state host.new)) IsOutside }
        ensures by_journal { (H.state host.old).tells ≡ true → IfOk result (λ store. IsByJournal store.held (H.state host.new)) }
        ensures left { (H.state host.old).tells ≡ true → Only (H.state host.old).tape (H.state host.new).tape
            (IsLeftByOpen (H.state host.old).tape.disk) }
        ensures stops { (w : World) → (H.state host.old).tells ≡ true → AllSettled (H.state host.old).tape.disk
            → StandsAs w (as_read (H.state host.old).tape.disk)
            → Only (H.state host.old).tape (H.state host.new).tape (IsWorld w (H.state host.old).tape.disk.printed) }
    {
        Ok(Store {
            alloc,
            core: open_core(alloc, host)?,
            usable: true,
        })
    }

    /// Whether the store can be used.
    pub fn usable(&self) -> bool
        ensures { result ≡ self.now.usable }
    {
        self.usable
    }

    /// The catalog of the live datasets.
    pub fn catalog(&self) -> &Catalog
        ensures { result.now.numbers ≡ self.now.held.numbers }
    {
        self.core.catalog()
    }

    /// Whether a dataset of this name may begin: `CvdExists`, `TooManyCvds`, `NoNumbers`.
    pub fn may_begin(&self, name: &str) -> Result<(), StoreErr>
        ensures answer { MatchResult result (λ done. new_off self.now.held.numbers name.now ≡ None) (λ off. new_off self.now.held.numbers name.now ≡ Some off) }
        ensures numbers { OnOk result (self.now.held.numbers.next < 4294967295) }
        ensures world { (w : World) (s : State) → IsAtWorld w self.now.held s → MatchResult result
            (λ done. init_refusal w name.now ≡ None) (IsRefusedAs name.now (init_refusal w name.now)) }
    {
        let catalog = self.core.catalog();
        if catalog.cvd(name).is_some() {
            return Err(StoreErr::CvdExists);
        }
        if catalog.cvds().len() >= MOST_CVDS {
            return Err(StoreErr::TooManyCvds);
        }
        if catalog.next_number() == u32::MAX {
            return Err(StoreErr::NoNumbers);
        }
        Ok(())
    }

    // What a change is refused for. After a fault of the host the store isn't used again.
    pub(crate) fn refusal(&mut self, off: ChangeErr) -> StoreErr
        ensures answer { result ≡ of_change off }
        ensures held { self.new.held ≡ self.old.held }
        ensures usable { self.new.usable ≡ (self.old.usable && not (is_host off)) }
    {
        if off == ChangeErr::Host {
            self.usable = false;
        }
        StoreErr::from(off)
    }

    // Stores what was brought.
    pub(crate) fn change<H: Host>(&mut self, host: &mut H, brought: Brought) -> Result<(), StoreErr>
        requires call { MayCall self.old (H.state host.old) }
        requires ready { IsReady brought self.old.held }
        ensures passes { Passes (H.state host.old) (H.state host.new) }
        ensures done { OnOk result (IsDone (bringing_of brought) self.old.held self.new.held) }
        ensures why { IfErr result (IsUnstored self.old.held (bringing_of brought) (H.state host.old) (H.state host.new)) }
        ensures stays { IfErr result (λ off. Stays off self.old self.new (H.state host.old) (H.state host.new)) }
        ensures usable { OnOk result (MayCall self.new (H.state host.new)) }
        ensures unusable { IsErrOf result StoreErr.Host → self.new.usable ≡ false }
        ensures stops { (w : World) (m : Move) → IsAtWorld w self.old.held (H.state host.old) → Brings m w brought
            → Only (H.state host.old).tape (H.state host.new).tape (IsEither w (moved m w) (H.state host.old).tape.disk.printed) }
        ensures moves { (w : World) (m : Move) → IsAtWorld w self.old.held (H.state host.old) → Brings m w brought
            → OnOk result (IsAtNext (moved m w) self.new.held (H.state host.old) (H.state host.new)) }
        ensures grows { (w : World) → IsAtWorld w self.old.held (H.state host.old)
            → OnOk result (self.new.held.journal.end ≤ self.old.held.journal.end + 6 + length (spelling brought.event)) }
        ensures by_journal { IsByJournal self.old.held (H.state host.old) → OnOk result (IsByJournal self.new.held (H.state host.new)) }
    {
        match self.core.add(self.alloc, host, brought) {
            Ok(()) => Ok(()),
            Err(off) => Err(self.refusal(off)),
        }
    }

    // Why a call isn't done whose version isn't ready.
    pub(crate) fn unready(&mut self, why: Unready) -> StoreErr
        requires long { IsFewPages why }
        ensures off { (refusal : StoreErrValue) → why ≡ unready.Off refusal → result ≡ refusal }
        ensures long { (list_pages segment_pages : ℕ) (list segment : List ℕ) → why ≡ unready.TooLong list_pages segment_pages
            → IsLong list_pages segment_pages list segment → IsNoRoom (live self.old.held.numbers) list segment result }
        ensures same { self.new ≡ self.old }
    {
        match why {
            Unready::Off(refusal) => refusal,
            Unready::TooLong {
                list_pages,
                segment_pages,
            } => StoreErr::from(self.core.refuse_long(list_pages, segment_pages)),
        }
    }

    // What a dataset of these rows brings.
    fn first(&self, name: &Txt, schema: &Schema, rows: RowTable) -> Result<Brought, Unready>
        requires name { IsTrue (is_a_name name.now) }
        requires sound { IsSound schema.now }
        requires fit { All (IsRow schema.now) rows }
        requires short { All IsShort rows }
        ensures ready { IfOk result (λ b. IsReady b self.now.held) }
        ensures allowed { OnOk result (init_off self.now.held name.now schema.now rows ≡ None) }
        ensures few { OnOk result (length rows ≤ 1000000) }
        ensures is { IfOk result (λ b. bringing_of b ≡ first_of name.now schema.now rows) }
        ensures why { IfErr result (IsUnready (init_off self.now.held name.now schema.now rows) (first_of name.now schema.now rows)) }
        ensures brings { (w : World) (s : State) → IsAtWorld w self.now.held s → IfOk result (Brings (first_move name.now schema.now rows) w) }
        ensures long { (w : World) → IfErr result (IfTooLong (first_move name.now schema.now rows) w) }
    {
        self.may_begin(name.as_str())?;
        let format = self.core.journal().format();
        let rows = version_rows(self.alloc, schema, format, false, rows)?;
        Ok(first_version(self.alloc, name, schema, &rows)?)
    }

    /// Makes a dataset with version 1, of these rows.
    ///
    /// Refusals in their order: `CvdExists`, `TooManyCvds`, `NoNumbers`, `TooManyRows`, `DuplicateKey`, `FormatOne`, `Full`,
    /// `JournalFull`. All memory is taken before the first write; an `init` costs the writes of its list, its segment and its
    /// record, and three syncs.
    pub fn init<H: Host>(
        &mut self,
        host: &mut H,
        name: &Txt,
        schema: Schema,
        rows: RowTable,
    ) -> Result<Committed, StoreErr>
        requires call { MayCall self.old (H.state host.old) }
        requires name { IsTrue (is_a_name name.now) }
        requires fit { All (IsRow schema) rows }
        requires short { All IsShort rows }
        ensures passes { Passes (H.state host.old) (H.state host.new) }
        ensures done { OnOk result (IsDone (first_of name.now schema rows) self.old.held self.new.held) }
        ensures allowed { OnOk result (init_off self.old.held name.now schema rows ≡ None) }
        ensures made { IfOk result (λ made. made ≡ record { vid = 1; rows = length rows; fresh = length rows }) }
        ensures why { IfErr result (IsWhy (init_off self.old.held name.now schema rows) (first_of name.now schema rows)
            self.old.held (H.state host.old) (H.state host.new)) }
        ensures stays { IfErr result (λ off. Stays off self.old self.new (H.state host.old) (H.state host.new)) }
        ensures usable { OnOk result (MayCall self.new (H.state host.new)) }
        ensures by_journal { IsByJournal self.old.held (H.state host.old) → OnOk result (IsByJournal self.new.held (H.state host.new)) }
        ensures unusable { IsErrOf result StoreErr.Host → self.new.usable ≡ false }
        ensures stops { (w : World) → IsAtWorld w self.old.held (H.state host.old)
            → Only (H.state host.old).tape (H.state host.new).tape
            (IsEither w (moved (first_move name.now schema rows) w) (H.state host.old).tape.disk.printed) }
        ensures moves { (w : World) → IsAtWorld w self.old.held (H.state host.old)
            → OnOk result (IsAtNext (moved (first_move name.now schema rows) w) self.new.held (H.state host.old) (H.state host.new)) }

        // Where the store is at a World: why not; a call that the World refuses begins nothing; and the room that is taken.
        ensures refused { (w : World) → IsAtWorld w self.old.held (H.state host.old) → MatchResult result
            (λ made. begin_refusal w name.now schema rows ≡ None) (IsRefusedAs name.now (begin_refusal w name.now schema rows)) }
        ensures still { (w : World) (refusal : Refusal) → IsAtWorld w self.old.held (H.state host.old)
            → begin_refusal w name.now schema rows ≡ Some refusal
            → Only (H.state host.old).tape (H.state host.new).tape (IsWorld w (H.state host.old).tape.disk.printed) }
        ensures room { (w : World) (entry : Entry) (past : List Made) → IsAtWorld w self.old.held (H.state host.old) → IsWithin entry past self.old.held
            → MatchResult result (λ made. IsWithin entry (and_made past (first_move name.now schema rows) w) self.new.held)
            (IsLack entry past (first_move name.now schema rows) w) }
    {
        let count = rows.len();
        let brought = match self.first(name, &schema, rows) {
            Ok(brought) => brought,
            Err(why) => return Err(self.unready(why)),
        };
        self.change(host, brought)?;
        let count = count as u32;
        Ok(Committed {
            vid: 1,
            rows: count,
            fresh: count,
        })
    }

    // The number of the live dataset with this name.
    fn number_of(&self, name: &str) -> Option<u32>
        ensures { result ≡ number_named self.now.held.numbers name.now }
    {
        self.core.catalog().cvd(name).map(|d| d.number)
    }

    /// Drops a dataset, with all its versions: `NoCvd` where no live one has the name, and `JournalFull`. Its pages are free
    /// once its record is settled. A drop costs the write of its record and two syncs.
    pub fn drop_cvd<H: Host>(&mut self, host: &mut H, name: &str) -> Result<(), StoreErr>
        requires call { MayCall self.old (H.state host.old) }
        ensures passes { Passes (H.state host.old) (H.state host.new) }
        ensures done { OnOk result (IsDropped name.now self.old.held self.new.held) }
        ensures why { IfErr result (IsKept name.now self.old.held (H.state host.old) (H.state host.new)) }
        ensures stays { IfErr result (λ off. Stays off self.old self.new (H.state host.old) (H.state host.new)) }
        ensures usable { OnOk result (MayCall self.new (H.state host.new)) }
        ensures by_journal { IsByJournal self.old.held (H.state host.old) → OnOk result (IsByJournal self.new.held (H.state host.new)) }
        ensures unusable { IsErrOf result StoreErr.Host → self.new.usable ≡ false }
        ensures stops { (w : World) → IsAtWorld w self.old.held (H.state host.old)
            → Only (H.state host.old).tape (H.state host.new).tape (IsEither w (dropped name.now w) (H.state host.old).tape.disk.printed) }
        ensures moves { (w : World) → IsAtWorld w self.old.held (H.state host.old)
            → OnOk result (IsAtNext (dropped name.now w) self.new.held (H.state host.old) (H.state host.new)) }
        ensures refused { (w : World) → IsAtWorld w self.old.held (H.state host.old) → MatchResult result
            (λ done. is_some (set_named w name.now) ≡ true) (IsRefusedAs name.now (drop_refusal w name.now)) }
        ensures room { (w : World) (d : Dataset) (entry : Entry) (past : List Made) → IsAtWorld w self.old.held (H.state host.old)
            → set_named w name.now ≡ Some d → IsWithin entry past self.old.held
            → MatchResult result (λ done. IsWithin entry (and_made past (DropMove d.cvd.number) w) self.new.held) (IsLack entry past (DropMove d.cvd.number) w) }
    {
        let Some(cvd) = self.number_of(name) else {
            return Err(StoreErr::NoCvd);
        };
        match self.core.drop_cvd(self.alloc, host, cvd) {
            Ok(()) => Ok(()),
            Err(off) => Err(self.refusal(off)),
        }
    }
}
