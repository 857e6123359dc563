//! An Init.

ghost use Rattle.std.specs.Prelude.{◌≡◌, ◌&&◌, not, nat_lt, length, IfOk};
ghost use Rattle.std.specs.List.{list_any};
ghost use Rattle.ov_layout.specs.Changes.{extents_of};
ghost use Rattle.ov_catalog.specs.Answers.{Answers};
ghost use Rattle.ov_catalog.specs.Applying.{init_off, is_named};
ghost use Rattle.ov_catalog.specs.Events.{new_set};
ghost use Rattle.ov_catalog.specs.Raw.{shape_in};
ghost use Rattle.ov_catalog.specs.Ready.{IsSet, IsSpare};
ghost use Rattle.ov_catalog.specs.Sets.{set_in, sets_in};
ghost use Rattle.ov_value.specs.Naming.{is_name as is_name_by};

use crate::cvd::{Cvd, Version};
use crate::error::ApplyErr;
use crate::extents::{is_list, is_segment};
use crate::field::Field;
use crate::finding::has_name;
use crate::refusing::unless;
use crate::room::Spare;
use crate::schemas::schema_from;
use ov_event::{Items, RawSchema};
use ov_host::Extent;
use ov_layout::Layout;
use ov_model::{MOST_CVDS, MOST_ROWS};
use ov_value::{Schema, Txt, is_name};
use std::alloc::{AllocError, Global};

/// Whether one more dataset may have the name: it is one, none of these has it, and they aren't too many.
pub fn is_free(sets: &[Cvd], name: &Txt) -> bool
    ensures { result ≡ (is_name_by name.now && (not (list_any (is_named name.now) (sets_in sets.now)) && nat_lt (length (sets_in sets.now)) 1024)) }
{
    is_name(name.as_str()) && !has_name(sets, name) && sets.len() < MOST_CVDS
}

/// Whether a dataset may begin beside these, and then its schema.
pub fn check_init(
    alloc: Global,
    next: u32,
    sets: &[Cvd],
    name: &Txt,
    schema: &RawSchema,
    rows: u32,
    list: Extent,
    segment: Extent,
) -> Result<Schema, ApplyErr>
    ensures answer { Answers result (init_off name.now schema.now rows list segment (record { next = next; sets = sets_in sets.now })) }
    ensures made { IfOk result (λ made. made ≡ shape_in schema.now) }
{
    unless(next < u32::MAX, Field::Number)?;
    unless(is_free(sets, name), Field::Name)?;
    let made = schema_from(alloc, schema)?;
    unless(rows <= MOST_ROWS, Field::Rows)?;
    unless(
        is_list(rows, list) && is_segment(rows, segment),
        Field::Place,
    )?;
    Ok(made)
}

/// What a dataset with this schema begins with.
pub fn spare_of(alloc: Global, schema: Schema) -> Result<Spare, AllocError>
    ensures spare { IfOk result IsSpare }
    ensures schema { IfOk result (λ spare. spare.schema ≡ schema) }
{
    let message = Txt::new(alloc, "init")?;
    let mut versions = Vec::new(alloc);
    versions.reserve(1)?;
    let mut layout = Layout::new(alloc);
    layout.reserve(0, None)?;
    Ok(Spare {
        message,
        schema,
        versions,
        layout,
    })
}

/// The dataset begins. Takes no memory.
pub fn begin(
    alloc: Global,
    spare: Spare,
    number: u32,
    name: Txt,
    rows: u32,
    list: Extent,
    segment: Extent,
) -> Cvd
    requires { IsSpare spare }
    ensures made { set_in result ≡ new_set number name spare.schema rows list (extents_of segment) }
    ensures set { IsSet result }
{
    let Spare {
        message,
        schema,
        mut versions,
        mut layout,
    } = spare;
    layout.own(1, rows, segment);
    // There is room, so this takes no memory.
    let _ = versions.push(Version {
        parents: Items::new(Vec::new(alloc)),
        message,
        rows,
        fresh: rows,
        list,
    });
    Cvd {
        number,
        name,
        schema,
        versions,
        layout,
        threshold: None,
        plan: None,
        records: rows,
    }
}
