// Commits.

ghost use Rattle.std.specs.Prelude.{◌≡◌, ◌≢◌, ◌≤◌, ◌<◌, ◌+◌, ◌-◌, ◌^◌, min, ℕ, List, true, false, None, Some, Ok, Err, [], IfOk, IfErr, OnOk, IsErrOf, MatchResult, length, map, option_map};
ghost use Rattle.std.specs.List.{All};
ghost use Rattle.ov_host.specs.Stops.{Only};
ghost use Rattle.ov_model.specs.Act.{schema_with as schema_with_of};
ghost use Rattle.ov_model.specs.Merge.{in_key_order};
ghost use Rattle.ov_model.specs.Moves.{moved};
ghost use Rattle.ov_model.specs.World.{Dataset, World, set_named};
ghost use Rattle.ov_catalog.specs.Reached.{AreParents, AreRows};
ghost use Rattle.ov_catalog.specs.Ready.{IsSet};
ghost use Rattle.ov_catalog.specs.Sets.{set_in as numbers_of};
ghost use Rattle.ov_core.specs.AtWorld.{IsAtNext, IsAtWorld, IsEither};
ghost use Rattle.ov_core.specs.Brought.{Brings};
ghost use Rattle.ov_core.specs.Held.{IsByJournal};
ghost use Rattle.ov_fetch.specs.declared.errors.FetchErr.TheVariants as fetch;
ghost use Rattle.ov_fetch.specs.Extents.{Looked, page_bytes};
ghost use Rattle.ov_parents.specs.Parents.{RefusesParents};
ghost use Rattle.ov_read.specs.Sizes.{bytes_for};
ghost use Rattle.ov_store.specs.Beginning.{IsShort};
ghost use Rattle.ov_store.specs.Changes.{IsReady, bringing_of};
ghost use Rattle.ov_store.specs.Committing.{Set, IsCommitBy, IsCommitted, IsSparedBy, IsSparedOff, IsUncommitted, IsUnready, TakesRows, commit_move, commit_off, committed, fresh_in_world, parents_off_in};
ghost use Rattle.ov_store.specs.Kept.{MayCall, Stays};
ghost use Rattle.ov_store.specs.Listing.{IsListed};
ghost use Rattle.ov_store.specs.Scanning.{set_in};
ghost use Rattle.ov_store.specs.Unready.{IsFewPages, IsNoRoom, IsRefused};
ghost use Rattle.ov_store.specs.Worlds.{HasSchema, IsByNumbers, IsLack, IsRefusedAs, and_made, parents_refusal, version_refusal};
ghost use Rattle.ov_open.specs.Opening.{IsWorld};
ghost use Rattle.law_room.specs.Room.{Entry, IsWithin, Made};
ghost use Rattle.ov_host.specs.Host.{State};
ghost use Rattle.ov_model.specs.declared.refusal.Refusal.{Refusal};
ghost use Rattle.ov_store.specs.declared.errors.StoreErr.{StoreErr as StoreErrValue};
ghost use Rattle.ov_store.specs.declared.errors.StoreErr.TheVariants as off;
ghost use Rattle.ov_store.specs.declared.unready.Unready.TheVariants as unready;
ghost use Rattle.ov_catalog.specs.Extents.{live};
ghost use Rattle.ov_version_bytes.specs.Written.{IsLong};

use crate::errors::StoreErr;
use crate::listing::listed;
use crate::store::{Committed, Store};
use crate::unready::Unready;
use ov_catalog::Cvd;
use ov_core::Brought;
use ov_host::Host;
use ov_new_version::{Commit, Wanted, commit_of};
use ov_parents::{ParentsRead, parents_of, with_columns};
use ov_rows::version_rows;
use ov_segment::RowTable;
use ov_value::{Column, Schema, SchemaErr, Txt};
use std::alloc::Global;

/// How many versions a dataset may have.
const MOST_VERSIONS: usize = ov_model::MOST_VERSIONS as usize;

/// A dataset, and those of its versions that are to be the parents of its next one.
#[derive(Drop)]
struct Parents<'a> {
    d: &'a Cvd,
    vids: Vec<u32>,
}

/// What a commit asks: a dataset, its versions that are the parents, its schema with the added columns, and the rows in key
/// order.
struct Ask<'a> {
    d: &'a Cvd,
    vids: Vec<u32>,
    schema: Schema,
    rows: RowTable,
}

/// A version that is ready to be stored: what it brings, its number, and how many of its records are new.
#[derive(Drop)]
struct NextVersion {
    brought: Brought,
    vid: u32,
    fresh: u32,
}

/// The schema with these columns at the right; as it is where none are added. An error that isn't want of memory is why the schema
/// doesn't take them.
pub fn schema_with(alloc: Global, schema: &Schema, added: &[Column]) -> Result<Schema, SchemaErr>
    ensures ok { IfOk result (λ made. schema_with_of schema.now added.now ≡ Ok made) }
    ensures err { IfErr result (λ why. why ≢ SchemaErr.Memory → schema_with_of schema.now added.now ≡ Err why) }
{
    if added.is_empty() {
        return Ok(schema.copy(alloc)?);
    }
    schema.widen(alloc, added)
}

impl Store {
    // The dataset with this name and its versions that are listed, where it may have a version with these parents.
    fn parents_in(&self, name: &str, parents: &[u64]) -> Result<Parents<'_>, StoreErr>
        ensures found { IfOk result (λ p. set_in self.now.held.numbers name.now ≡ Some (numbers_of p.d.now)) }
        ensures sound { IfOk result (λ p. IsSet p.d.now) }
        ensures few { IfOk result (λ p. length p.d.now.versions.items < 65535) }
        ensures listed { IfOk result (λ p. IsListed (length p.d.now.versions.items) parents.now p.vids.items) }
        ensures why { IfErr result (IsRefused (parents_off_in (set_in self.now.held.numbers name.now) parents.now)) }
    {
        let Some(d) = self.core.catalog().cvd(name) else {
            return Err(StoreErr::NoCvd);
        };
        let vids = listed(self.alloc, d.versions.len(), parents)?;
        if d.versions.len() >= MOST_VERSIONS {
            return Err(StoreErr::TooManyVersions);
        }
        Ok(Parents { d, vids })
    }

    /// The dataset with this name, where it may have a version with these parents: `NoCvd`; for each parent as it is listed
    /// `NoVersion` and `RepeatedVersion`; `TooManyVersions`.
    pub fn may_commit(&self, name: &str, parents: &[u64]) -> Result<&Cvd, StoreErr>
        ensures found { IfOk result (λ d. set_in self.now.held.numbers name.now ≡ Some (numbers_of d.now)) }
        ensures world { (w : World) (s : State) → IsAtWorld w self.now.held s → MatchResult result
            (λ d. (parents_refusal w name.now parents.now ≡ None) × HasSchema d.now.schema (set_named w name.now))
            (IsRefusedAs name.now (parents_refusal w name.now parents.now)) }
        ensures why { IfErr result IsByNumbers }
    {
        let Parents { d, .. } = self.parents_in(name, parents)?;
        Ok(d)
    }

    // What a commit asks, where nothing of the catalog and its arguments refuses it.
    fn ask(
        &self,
        name: &str,
        parents: &[u64],
        added: &[Column],
        rows: RowTable,
    ) -> Result<Ask<'_>, StoreErr>
        requires fit { (s : Set) → set_in self.now.held.numbers name.now ≡ Some s → TakesRows s.schema added.now rows }
        requires short { All IsShort rows }
        requires some { parents.now ≢ [] }
        ensures allowed { OnOk result (commit_off self.now.held name.now parents.now added.now rows ≡ None) }
        ensures found { IfOk result (λ ask. set_in self.now.held.numbers name.now ≡ Some (numbers_of ask.d.now)) }
        ensures sound { IfOk result (λ ask. IsSet ask.d.now) }
        ensures few { IfOk result (λ ask. length ask.d.now.versions.items < 65535) }
        ensures vids { IfOk result (λ ask. ask.vids.items ≡ parents.now) }
        ensures parents { IfOk result (λ ask. AreParents (length ask.d.now.versions.items) ask.vids.items) }
        ensures schema { IfOk result (λ ask. schema_with_of ask.d.now.schema added.now ≡ Ok ask.schema) }
        ensures rows { IfOk result (λ ask. ask.rows ≡ in_key_order ask.schema rows) }
        ensures fit { IfOk result (λ ask. AreRows ask.schema ask.rows) }
        ensures count { IfOk result (λ ask. length ask.rows ≡ length rows) }
        ensures why { IfErr result (IsRefused (commit_off self.now.held name.now parents.now added.now rows)) }
    {
        let Parents { d, vids } = self.parents_in(name, parents)?;
        let Ok(schema) = schema_with(self.alloc, &d.schema, added) else {
            return Err(StoreErr::Memory);
        };
        let format = self.core.journal().format();
        let rows = version_rows(self.alloc, &schema, format, !added.is_empty(), rows)?;
        Ok(Ask {
            d,
            vids,
            schema,
            rows,
        })
    }

    // A dataset's next version, ready to be stored.
    fn next<H: Host>(
        &self,
        host: &mut H,
        name: &str,
        parents: &[u64],
        added: &[Column],
        rows: RowTable,
        message: &Txt,
    ) -> Result<NextVersion, Unready>
        requires fit { (s : Set) → set_in self.now.held.numbers name.now ≡ Some s → TakesRows s.schema added.now rows }
        requires short { All IsShort rows }
        requires some { parents.now ≢ [] }
        requires message { length message.now ≤ 1024 }
        ensures looked { Looked (H.state host.old) (H.state host.new) }
        ensures fetched { (s : Set) → set_in self.now.held.numbers name.now ≡ Some s
            → (H.state host.new).fetched ≤ (H.state host.old).fetched + bytes_for s parents.now }
        ensures unread { (off : StoreErrValue) → commit_off self.now.held name.now parents.now added.now rows ≡ Some off → H.state host.new ≡ H.state host.old }
        ensures ready { IfOk result (λ next. IsReady next.brought self.now.held) }
        ensures allowed { OnOk result (commit_off self.now.held name.now parents.now added.now rows ≡ None) }
        ensures by { (s : Set) → set_in self.now.held.numbers name.now ≡ Some s → IfOk result (λ next. IsCommitBy s
            (record { vids = parents.now; message = message.now; added = added.now; rows = rows }) (H.state host.old) (bringing_of next.brought) next.fresh) }
        ensures vid { (s : Set) → set_in self.now.held.numbers name.now ≡ Some s → IfOk result (λ next. next.vid ≡ length s.versions + 1) }
        ensures count { OnOk result (length rows ≤ 1000000) }
        ensures why { IfErr result (IsUnready self.now.held name.now (record { vids = parents.now; message = message.now; added = added.now; rows = rows })
            (H.state host.old) (H.state host.new)) }
        ensures brings { (w : World) (d : Dataset) → IsAtWorld w self.now.held (H.state host.old) → set_named w name.now ≡ Some d
            → IfOk result (λ next. Brings (commit_move d parents.now message.now added.now rows) w next.brought) }
        ensures fresh { (w : World) (d : Dataset) → IsAtWorld w self.now.held (H.state host.old) → set_named w name.now ≡ Some d
            → IfOk result (λ next. next.fresh ≡ fresh_in_world d (record { vids = parents.now; message = message.now; added = added.now; rows = rows })) }
        ensures spared { (w : World) (d : Dataset) → IsAtWorld w self.now.held (H.state host.old) → set_named w name.now ≡ Some d
            → IfErr result (IsSparedBy w d (record { vids = parents.now; message = message.now; added = added.now; rows = rows })) }
    {
        let Ask {
            d,
            vids,
            schema,
            rows,
        } = self.ask(name, parents, added, rows)?;
        self.core.is_replayed();
        self.core.journal().is_known();
        let _ = message.as_str();
        let _ = schema.columns();
        let ParentsRead { records, held } = parents_of(self.alloc, host, d, &vids)?;
        let wide = with_columns(self.alloc, records, added)?;
        let vid = d.versions.len() as u32 + 1;
        let wanted = Wanted {
            vids: &vids,
            parents: &wide,
            held: &held,
            message,
            added,
            schema: &schema,
            rows,
        };
        let Commit { brought, fresh } = commit_of(self.alloc, d, wanted)?;
        Ok(NextVersion {
            brought,
            vid,
            fresh,
        })
    }

    // Why a commit isn't done whose version isn't ready. After a fault of the host the store isn't used again.
    fn uncommitted(&mut self, why: Unready) -> StoreErr
        requires long { IsFewPages why }
        ensures off { (refusal : StoreErrValue) → why ≡ unready.Off refusal → result ≡ refusal }
        ensures long { (list_pages segment_pages : ℕ) (list segment : List ℕ) → why ≡ unready.TooLong list_pages segment_pages
            → IsLong list_pages segment_pages list segment → IsNoRoom (live self.old.held.numbers) list segment result }
        ensures unusable { result ≡ off.Host → self.new.usable ≡ false }
        ensures same { (result ≡ off.Host → ⊥) → self.new ≡ self.old }
    {
        let refusal = self.unready(why);
        if refusal == StoreErr::Host {
            self.usable = false;
        }
        refusal
    }

    /// Commits rows as a dataset's next version. Its parents are versions of the dataset, and the rows may come in any order.
    /// A row that some parent has takes that parent's record; the others get new records.
    ///
    /// Where columns are added, the dataset has them from here on, at the right, and the rows are of the wider schema. In all rows
    /// from before they are NULL: the parents are read by the schema as it was, and no stored record is written again.
    ///
    /// Refusals in their order: `NoCvd`; for each parent as it is listed `NoVersion` and `RepeatedVersion`; `TooManyVersions`,
    /// `TooManyRows`, `DuplicateKey`, `FormatOne`; `Damaged` where a scan of the parents is damaged or two of them have other rows
    /// for a rid; `TooManyRecords`; `Damaged` where the partition that the version joins doesn't bear out its numbers; `Full`,
    /// `JournalFull`. All memory is taken before the first write.
    ///
    /// A commit costs the pages of its parents' lists and of the segments of their partitions, each read once; the writes of its
    /// list, its segment and its record; and three syncs.
    pub fn commit<H: Host>(
        &mut self,
        host: &mut H,
        name: &str,
        parents: &[u64],
        added: &[Column],
        rows: RowTable,
        message: &Txt,
    ) -> Result<Committed, StoreErr>
        requires call { MayCall self.old (H.state host.old) }
        requires fit { (s : Set) → set_in self.old.held.numbers name.now ≡ Some s → TakesRows s.schema added.now rows }
        requires short { All IsShort rows }
        requires some { parents.now ≢ [] }
        requires message { length message.now ≤ 1024 }
        ensures told { (H.state host.new).tells ≡ (H.state host.old).tells }
        ensures kept { (H.state host.new).keeps ≡ (H.state host.old).keeps }
        ensures faults { (H.state host.old).faults ≤ (H.state host.new).faults }
        ensures fetched { (s : Set) → set_in self.old.held.numbers name.now ≡ Some s
            → (H.state host.new).fetched ≤ (H.state host.old).fetched + bytes_for s parents.now }
        ensures counted { min (H.state host.old).fetched (2 ^ 64 - 1) ≤ (H.state host.new).fetched }
        ensures unread { (off : StoreErrValue) → commit_off self.old.held name.now parents.now added.now rows ≡ Some off → H.state host.new ≡ H.state host.old }
        ensures done { (s : Set) → set_in self.old.held.numbers name.now ≡ Some s → IfOk result (IsCommitted s
            (record { vids = parents.now; message = message.now; added = added.now; rows = rows }) (H.state host.old) self.old.held self.new.held) }
        ensures allowed { OnOk result (commit_off self.old.held name.now parents.now added.now rows ≡ None) }
        ensures why { IfErr result (IsUncommitted self.old.held name.now (record { vids = parents.now; message = message.now; added = added.now; rows = rows })
            (H.state host.old) (H.state host.new)) }
        ensures undamaged { (s : Set) → (H.state host.old).tells ≡ true → set_in self.old.held.numbers name.now ≡ Some s
            → OnOk result ((page : ℕ) → RefusesParents (fetch.Damaged page) (page_bytes (H.state host.old)) s parents.now → ⊥) }
        ensures stays { IfErr result (λ off. Stays off self.old self.new (H.state host.old) (H.state host.new)) }
        ensures usable { OnOk result (MayCall self.new (H.state host.new)) }
        ensures by_journal { IsByJournal self.old.held (H.state host.old) → OnOk result (IsByJournal self.new.held (H.state host.new)) }
        ensures unusable { IsErrOf result StoreErr.Host → self.new.usable ≡ false }

        // Where the store is at a World: a stop at any moment, what was made, how many records are new, and why not.
        ensures stops { (w : World) → IsAtWorld w self.old.held (H.state host.old) → Only (H.state host.old).tape (H.state host.new).tape
            (IsEither w (committed name.now (record { vids = parents.now; message = message.now; added = added.now; rows = rows }) w) (H.state host.old).tape.disk.printed) }
        ensures moves { (w : World) → IsAtWorld w self.old.held (H.state host.old) → OnOk result
            (IsAtNext (committed name.now (record { vids = parents.now; message = message.now; added = added.now; rows = rows }) w) self.new.held (H.state host.old) (H.state host.new)) }
        ensures fresh { (w : World) (d : Dataset) → IsAtWorld w self.old.held (H.state host.old) → set_named w name.now ≡ Some d
            → IfOk result (λ made. made.fresh ≡ fresh_in_world d (record { vids = parents.now; message = message.now; added = added.now; rows = rows })) }
        ensures spared { (w : World) (d : Dataset) → IsAtWorld w self.old.held (H.state host.old) → set_named w name.now ≡ Some d
            → IfErr result (IsSparedOff d (record { vids = parents.now; message = message.now; added = added.now; rows = rows })) }

        // So a commit that the World refuses begins nothing, and is refused for that; and the room that is taken.
        ensures refused { (w : World) (d : Dataset) → IsAtWorld w self.old.held (H.state host.old) → set_named w name.now ≡ Some d → MatchResult result
            (λ made. version_refusal w d (record { vids = parents.now; message = message.now; added = added.now; rows = rows }) ≡ None)
            (IsRefusedAs name.now (version_refusal w d (record { vids = parents.now; message = message.now; added = added.now; rows = rows }))) }
        ensures still { (w : World) (d : Dataset) (refusal : Refusal) → IsAtWorld w self.old.held (H.state host.old) → set_named w name.now ≡ Some d
            → version_refusal w d (record { vids = parents.now; message = message.now; added = added.now; rows = rows }) ≡ Some refusal
            → Only (H.state host.old).tape (H.state host.new).tape (IsWorld w (H.state host.old).tape.disk.printed) }
        ensures room { (w : World) (d : Dataset) (entry : Entry) (past : List Made) → IsAtWorld w self.old.held (H.state host.old)
            → set_named w name.now ≡ Some d → IsWithin entry past self.old.held
            → MatchResult result (λ made. IsWithin entry (and_made past (commit_move d parents.now message.now added.now rows) w) self.new.held)
            (IsLack entry past (commit_move d parents.now message.now added.now rows) w) }
    {
        let count = rows.len();
        let next = match self.next(host, name, parents, added, rows, message) {
            Ok(next) => next,
            Err(why) => return Err(self.uncommitted(why)),
        };
        let NextVersion {
            brought,
            vid,
            fresh,
        } = next;
        self.change(host, brought)?;
        Ok(Committed {
            vid,
            rows: count as u32,
            fresh,
        })
    }
}
