//! A Wide: a version more, with columns added at the right.

ghost use Rattle.std.specs.Prelude.{◌≡◌, None, find, All, List, IfOk, OnOk};
ghost use Rattle.ov_layout.specs.Changes.{extents_of};
ghost use Rattle.ov_layout.specs.Parts.{Ascend};
ghost use Rattle.ov_model.specs.Moves.{wide_schema};
ghost use Rattle.ov_value.specs.declared.column.Column.{Column};
ghost use Rattle.ov_catalog.specs.Answers.{Answers};
ghost use Rattle.ov_catalog.specs.Applying.{format_off, of_live};
ghost use Rattle.ov_catalog.specs.Arriving.{IsWidened, arrival_off, wide_arrival_off};
ghost use Rattle.ov_catalog.specs.Events.{change, numbered, version_of, with_columns, with_version};
ghost use Rattle.ov_catalog.specs.Raw.{place_in};
ghost use Rattle.ov_catalog.specs.Ready.{FitsNumbered, FitsVersion, IsSet};
ghost use Rattle.ov_catalog.specs.Sets.{numbers_of, set_in, sets_in};

use crate::arrival::Arrival;
use crate::commit::{check_message, check_version, check_vid, commit, make_room};
use crate::cvd::Cvd;
use crate::error::ApplyErr;
use crate::field::Field;
use crate::finding::place_of;
use crate::refusing::unless;
use crate::schemas::widened;
use ov_event::Items;
use ov_value::{Column, Schema, Txt};
use std::alloc::Global;

/// The format whose stores take added columns.
const WIDE_FORMAT: u32 = 2;

/// Whether a store of this format takes added columns.
pub fn check_format(format: u32) -> Result<(), ApplyErr>
    ensures { Answers result (format_off format) }
{
    unless(format == WIDE_FORMAT, Field::Number)
}

// Whether the version may be the next one of a dataset with these columns added, and then the schema that they leave.
fn check_wide(
    alloc: Global,
    d: &Cvd,
    message: &Txt,
    columns: &[Column],
    parents: &[(u32, u32)],
    new: &Arrival,
) -> Result<Schema, ApplyErr>
    requires { IsSet d.now }
    ensures answer { Answers result (wide_arrival_off message.now columns.now parents.now new.now (set_in d.now)) }
    ensures made { IfOk result (λ schema. schema ≡ wide_schema d.now.schema columns.now) }
{
    check_vid(d, new.vid)?;
    check_message(message)?;
    let schema = widened(alloc, &d.schema, columns)?;
    check_version(alloc, d, parents, new)?;
    Ok(schema)
}

// Makes room for a version more with these columns added, if it may follow. Answers with the schema that they leave.
fn room_in(
    alloc: Global,
    d: &mut Cvd,
    message: &Txt,
    columns: &[Column],
    parents: &[(u32, u32)],
    new: &Arrival,
) -> Result<Schema, ApplyErr>
    requires { IsSet d.old }
    ensures answer { Answers result (wide_arrival_off message.now columns.now parents.now new.now (set_in d.old)) }
    ensures same { set_in d.new ≡ set_in d.old }
    ensures set { IsSet d.new }
    ensures room { OnOk result (FitsVersion (place_in new.now.place) d.new) }
    ensures made { IfOk result (λ schema. schema ≡ wide_schema d.old.schema columns.now) }
{
    let schema = check_wide(alloc, d, message, columns, parents, new)?;
    make_room(d, new.place)?;
    Ok(schema)
}

/// Makes room for a version more of the dataset with this number, with these columns added, if it may follow. Answers with the
/// schema that they leave.
pub fn room_for_wide(
    alloc: Global,
    sets: &mut [Cvd],
    cvd: u32,
    message: &Txt,
    columns: &[Column],
    parents: &[(u32, u32)],
    new: &Arrival,
) -> Result<Schema, ApplyErr>
    requires ascend { Ascend 0 (numbers_of sets.old) }
    requires sound { All IsSet sets.old }
    ensures answer { Answers result (of_live (wide_arrival_off message.now columns.now parents.now new.now) (find (numbered cvd) (sets_in sets.old))) }
    ensures same { sets_in sets.new ≡ sets_in sets.old }
    ensures sound { All IsSet sets.new }
    ensures room { OnOk result (All (FitsNumbered cvd (place_in new.now.place)) sets.new) }
    ensures made { IfOk result (λ schema. IsWidened columns.now schema (find (numbered cvd) (sets_in sets.old))) }
{
    let Some(at) = place_of(sets, cvd) else {
        return Err(ApplyErr::NotNext {
            field: Field::Number,
        });
    };
    room_in(alloc, &mut sets[at], message, columns, parents, new)
}

// The dataset gets the schema, and the version becomes its next one.
#[tactic(auto, using(crate::proofs::WideLemmas::set_schema))]
fn widen(d: &mut Cvd, schema: Schema, message: Txt, parents: Items<(u32, u32)>, new: &Arrival)
    requires set { IsSet d.old }
    requires room { FitsVersion (place_in new.now.place) d.old }
    requires applies { arrival_off message parents new.now (set_in d.old) ≡ None }
    ensures committed { (columns : List Column) → schema ≡ wide_schema d.old.schema columns → set_in d.new ≡ with_version (version_of parents message new.now.rows new.now.fresh new.now.list) (place_in new.now.place) new.now.added (extents_of new.now.segment) (with_columns columns (set_in d.old)) }
    ensures number { d.new.number ≡ d.old.number }
    ensures set { IsSet d.new }
{
    d.schema = schema;
    commit(d, message, parents, new);
}

/// The dataset with this number gets the schema, and the version becomes its next one. Takes no memory.
pub fn wide_in(
    sets: &mut [Cvd],
    cvd: u32,
    schema: Schema,
    message: Txt,
    parents: Items<(u32, u32)>,
    new: &Arrival,
)
    requires ascend { Ascend 0 (numbers_of sets.old) }
    requires sound { All IsSet sets.old }
    requires room { All (FitsNumbered cvd (place_in new.now.place)) sets.old }
    requires applies { of_live (arrival_off message parents new.now) (find (numbered cvd) (sets_in sets.old)) ≡ None }
    ensures committed { (columns : List Column) → IsWidened columns schema (find (numbered cvd) (sets_in sets.old)) → sets_in sets.new ≡ change cvd (λ d. with_version (version_of parents message new.now.rows new.now.fresh new.now.list) (place_in new.now.place) new.now.added (extents_of new.now.segment) (with_columns columns d)) (sets_in sets.old) }
    ensures numbers { numbers_of sets.new ≡ numbers_of sets.old }
    ensures sound { All IsSet sets.new }
{
    if let Some(at) = place_of(sets, cvd) {
        widen(&mut sets[at], schema, message, parents, new);
    }
}
