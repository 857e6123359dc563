// A change of one of the two datasets.

ghost use Rattle.law_runs.specs.Serving.{Does};
ghost use Rattle.std.specs.Prelude.{◌≡◌, ◌≤◌, ◌+◌, ◌-◌, ◌^◌, min, ℕ, [], ◌∷◌, false, None, Some, IsTrue, IfOk, IfErr, IfSome, OnOk, IsErrOf, MatchResult, length, codes};
ghost use Rattle.std.specs.List.{All};
ghost use Rattle.std.specs.Option.{option_map};
ghost use Rattle.ov_core.specs.AtWorld.{IsAtWorld};
ghost use Rattle.ov_core.specs.Held.{IsByJournal};
ghost use Rattle.ov_host.specs.Host.{Rose, State};
ghost use Rattle.ov_model.specs.Act.{Session, repeated_key};
ghost use Rattle.ov_model.specs.Deed.{changes};
ghost use Rattle.ov_model.specs.Merge.{in_key_order};
ghost use Rattle.ov_model.specs.World.{World, set_named};
ghost use Rattle.ov_model.specs.declared.reply.Reply.{Reply};
ghost use Rattle.ov_store.specs.Beginning.{IsShort};
ghost use Rattle.ov_store.specs.Committing.{Set};
ghost use Rattle.ov_store.specs.Kept.{MayCall, Stays};
ghost use Rattle.ov_store.specs.Scanning.{IsUndamaged, set_in};
ghost use Rattle.ov_value.specs.Naming.{is_name};
ghost use Rattle.ov_value.specs.Shapes.{Shape};
ghost use Rattle.ov_value.specs.Spelling.{IsRow};
ghost use Rattle.ov_registry.specs.Changing.{Ends, IsChanged, IsMade, IsOrdered, IsUnchanged, IsUnmade, changes_to};
ghost use Rattle.ov_registry.specs.Last.{IsLiveTo, bytes_in, is_foreign_in, last_vid, name_of, schema_of};

use crate::reading::last_version;
use crate::registry::Registry;
use crate::tables::{in_order, table_of};
use ov_host::Host;
use ov_segment::RowTable;
use ov_store::{Store, StoreErr};
use ov_value::{Row, Schema, Txt};
use std::alloc::{AllocError, Global};

/// A change that is ready to be made.
#[derive(Drop)]
struct Wanted {
    name: Txt,
    schema: Schema,
    message: Txt,
    rows: RowTable,
}

// What a change to these rows asks for.
fn prepared(alloc: Global, which: Registry, rows: &[Row]) -> Result<Wanted, AllocError>
    requires once { repeated_key (schema_of which) [] 1 rows.now ≡ None }
    ensures name { IfOk result (λ change. change.name ≡ name_of which) }
    ensures schema { IfOk result (λ change. change.schema ≡ schema_of which) }
    ensures message { IfOk result (λ change. change.message ≡ codes "stage") }
    ensures ordered { IfOk result (λ change. IsOrdered (schema_of which) rows.now change.rows) }
    ensures fit { IfOk result (λ change. All (IsRow (schema_of which)) change.rows) }
    ensures short { IfOk result (λ change. All IsShort change.rows) }
{
    let name = Txt::new(alloc, which.name())?;
    let message = Txt::new(alloc, "stage")?;
    let schema = which.schema(alloc)?;
    let table = table_of(alloc, &schema, rows)?;
    let rows = in_order(alloc, &schema, table)?;
    Ok(Wanted {
        name,
        schema,
        message,
        rows,
    })
}

// The last version of a dataset; none where it isn't live.
fn last_of(store: &Store, name: &str) -> Option<u64>
    ensures last { result ≡ option_map (λ set. length set.versions) (set_in store.now.held.numbers name.now) }
    ensures some { IfSome result (λ vid. 1 ≤ vid) }
{
    match store.catalog().cvd(name) {
        Some(d) => Some(last_version(d)),
        None => None,
    }
}

// Makes the dataset of these rows.
fn begin<H: Host>(
    store: &mut Store,
    host: &mut H,
    name: &Txt,
    schema: Schema,
    rows: RowTable,
) -> Result<(), StoreErr>
    requires call { MayCall store.old (H.state host.old) }
    requires name { IsTrue (is_name name.now) }
    requires free { set_in store.old.held.numbers name.now ≡ None }
    requires fit { All (IsRow schema) rows }
    requires short { All IsShort rows }
    requires once { repeated_key schema [] 1 rows ≡ None }
    requires ordered { length rows ≤ 1000000 → in_key_order schema rows ≡ rows }
    ensures told { (H.state host.new).tells ≡ (H.state host.old).tells }
    ensures kept { (H.state host.new).keeps ≡ (H.state host.old).keeps }
    ensures faults { (H.state host.old).faults ≤ (H.state host.new).faults }
    ensures counted { min (H.state host.old).fetched (2 ^ 64 - 1) ≤ (H.state host.new).fetched }
    ensures fetched { (H.state host.new).fetched ≤ (H.state host.old).fetched }
    ensures done { OnOk result (IsMade None name.now schema rows (H.state host.old) store.old.held store.new.held) }
    ensures why { IfErr result (IsUnmade None name.now schema rows (H.state host.old) (H.state host.new) store.old.held) }
    ensures stays { IfErr result (λ off. Stays off store.old store.new (H.state host.old) (H.state host.new)) }
    ensures usable { OnOk result (MayCall store.new (H.state host.new)) }
    ensures unusable { IsErrOf result StoreErr.Host → store.new.usable ≡ false }
    ensures by_journal { IsByJournal store.old.held (H.state host.old) → OnOk result (IsByJournal store.new.held (H.state host.new)) }
    ensures undamaged { (w : World) → IsAtWorld w store.old.held (H.state host.old) → IfErr result IsUndamaged }
    ensures acts { (w : World) (s t : Session) (reply : Reply) → IsAtWorld w store.old.held (H.state host.old) → MatchResult result
        (λ done. Does (changes_to w s t name.now schema rows reply (set_named w name.now)) s t w reply store.old.held store.new.held (H.state host.old) (H.state host.new))
        (Ends name.now (changes_to w s t name.now schema rows reply (set_named w name.now)) s w store.old.held store.new.held (H.state host.old) (H.state host.new)) }
{
    match store.init(host, name, schema, rows) {
        Ok(_made) => Ok(()),
        Err(off) => Err(off),
    }
}

// Commits the next version of these rows, with the last one as its one parent.
fn add_version<H: Host>(
    store: &mut Store,
    host: &mut H,
    name: &Txt,
    last: u64,
    rows: RowTable,
    message: &Txt,
) -> Result<(), StoreErr>
    requires call { MayCall store.old (H.state host.old) }
    requires live { IsLiveTo store.old.held.numbers name.now last }
    requires fit { (set : Set) → set_in store.old.held.numbers name.now ≡ Some set → All (IsRow set.schema) rows }
    requires short { All IsShort rows }
    requires once { (set : Set) → set_in store.old.held.numbers name.now ≡ Some set → repeated_key set.schema [] 1 rows ≡ None }
    requires ordered { (set : Set) → set_in store.old.held.numbers name.now ≡ Some set → length rows ≤ 1000000 → in_key_order set.schema rows ≡ rows }
    requires message { message.now ≡ codes "stage" }
    ensures told { (H.state host.new).tells ≡ (H.state host.old).tells }
    ensures kept { (H.state host.new).keeps ≡ (H.state host.old).keeps }
    ensures faults { (H.state host.old).faults ≤ (H.state host.new).faults }
    ensures counted { min (H.state host.old).fetched (2 ^ 64 - 1) ≤ (H.state host.new).fetched }
    ensures fetched { (set : Set) → set_in store.old.held.numbers name.now ≡ Some set
        → (H.state host.new).fetched ≤ (H.state host.old).fetched + bytes_in (Some set) (last_vid (Some set)) }
    ensures done { (set : Set) → set_in store.old.held.numbers name.now ≡ Some set
        → OnOk result (IsMade (Some set) name.now set.schema rows (H.state host.old) store.old.held store.new.held) }
    ensures why { (set : Set) → set_in store.old.held.numbers name.now ≡ Some set
        → IfErr result (IsUnmade (Some set) name.now set.schema rows (H.state host.old) (H.state host.new) store.old.held) }
    ensures stays { IfErr result (λ off. Stays off store.old store.new (H.state host.old) (H.state host.new)) }
    ensures usable { OnOk result (MayCall store.new (H.state host.new)) }
    ensures unusable { IsErrOf result StoreErr.Host → store.new.usable ≡ false }
    ensures by_journal { IsByJournal store.old.held (H.state host.old) → OnOk result (IsByJournal store.new.held (H.state host.new)) }
    ensures undamaged { (w : World) → IsAtWorld w store.old.held (H.state host.old) → IfErr result IsUndamaged }
    ensures acts { (w : World) (s t : Session) (schema : Shape) (reply : Reply) → IsAtWorld w store.old.held (H.state host.old) → MatchResult result
        (λ done. Does (changes_to w s t name.now schema rows reply (set_named w name.now)) s t w reply store.old.held store.new.held (H.state host.old) (H.state host.new))
        (Ends name.now (changes_to w s t name.now schema rows reply (set_named w name.now)) s w store.old.held store.new.held (H.state host.old) (H.state host.new)) }
{
    let vids = [last];
    match store.commit(host, name.as_str(), &vids, &[], rows, message) {
        Ok(_made) => Ok(()),
        Err(off) => Err(off),
    }
}

/// Puts these rows in the place of those of the dataset's last version: by one Init where the dataset isn't there, and else by one
/// Commit whose one parent is that version.
///
/// Refusals in their order: `TooManyCvds`, `NoNumbers`, `TooManyVersions`, `TooManyRows`, `FormatOne`, `TooManyRecords`, `Full`,
/// `JournalFull`. A Commit reads the last version once more, and is `Damaged` where that is. All memory is taken before the first
/// write.
///
/// The rows may come in any order, no key twice. A row that no segment can have, as it doesn't fit the schema or has more than 65,536
/// bytes, is answered with `Memory`; `last_rows` gives none such where the host tells its bytes.
pub fn change<H: Host>(
    alloc: Global,
    store: &mut Store,
    host: &mut H,
    which: Registry,
    rows: &[Row],
) -> Result<(), StoreErr>
    requires call { MayCall store.old (H.state host.old) }
    requires own { is_foreign_in (schema_of which) (set_in store.old.held.numbers (name_of which)) ≡ false }
    requires once { repeated_key (schema_of which) [] 1 rows.now ≡ None }
    ensures told { (H.state host.new).tells ≡ (H.state host.old).tells }
    ensures kept { (H.state host.new).keeps ≡ (H.state host.old).keeps }
    ensures faults { (H.state host.old).faults ≤ (H.state host.new).faults }
    ensures counted { min (H.state host.old).fetched (2 ^ 64 - 1) ≤ (H.state host.new).fetched }
    ensures fetched { (H.state host.new).fetched ≤ (H.state host.old).fetched
        + bytes_in (set_in store.old.held.numbers (name_of which)) (last_vid (set_in store.old.held.numbers (name_of which))) }
    ensures done { OnOk result (IsChanged (set_in store.old.held.numbers (name_of which)) (name_of which) (schema_of which) rows.now
        (H.state host.old) store.old.held store.new.held) }
    ensures why { IfErr result (IsUnchanged (set_in store.old.held.numbers (name_of which)) (name_of which) (schema_of which) rows.now
        (H.state host.old) (H.state host.new) store.old.held) }
    ensures stays { IfErr result (λ off. Stays off store.old store.new (H.state host.old) (H.state host.new)) }
    ensures usable { OnOk result (MayCall store.new (H.state host.new)) }
    ensures unusable { IsErrOf result StoreErr.Host → store.new.usable ≡ false }
    ensures by_journal { IsByJournal store.old.held (H.state host.old) → OnOk result (IsByJournal store.new.held (H.state host.new)) }
    ensures undamaged { (w : World) → IsAtWorld w store.old.held (H.state host.old) → IfErr result IsUndamaged }
    ensures acts { (w : World) (s t : Session) (reply : Reply) → IsAtWorld w store.old.held (H.state host.old) → MatchResult result
        (λ done. Does (changes w s t (name_of which) (schema_of which) rows.now reply (set_named w (name_of which))) s t w reply
        store.old.held store.new.held (H.state host.old) (H.state host.new))
        (Ends (name_of which) (changes w s t (name_of which) (schema_of which) rows.now reply (set_named w (name_of which))) s w
        store.old.held store.new.held (H.state host.old) (H.state host.new)) }
{
    let Wanted {
        name,
        schema,
        message,
        rows,
    } = prepared(alloc, which, rows)?;
    match last_of(store, name.as_str()) {
        Some(last) => add_version(store, host, &name, last, rows, &message),
        None => begin(store, host, &name, schema, rows),
    }
}
