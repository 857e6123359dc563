//! From an event to its bytes.

ghost use Rattle.std.specs.Prelude.{◌≡◌, ◌++◌, IfOk, OnOk, ◌∷◌, []};
ghost use Rattle.ov_event.specs.Fields.{fields, u8, u32, text, extent, IsU32, IsText, IsExtent};
ghost use Rattle.ov_event.specs.Fitting.{Fits, Few, SchemaFits, ColumnsFit};
ghost use Rattle.ov_event.specs.Spelling.{spelling, schema as schema_bytes, IsSchema, IsEvent};

use crate::commit::{write_head, write_placed, write_rows};
use crate::event::{Event, RawSchema};
use crate::field::Field;
use crate::list::write_few;
use ov_host::Extent;
use ov_items::Items;
use ov_value::Txt;
use std::alloc::{AllocError, Global};

/// The one spelling of an event, of which each length and number of items fits its field. Its numbers fit and its
/// texts are UTF-8 by their types: so it is an event.
pub fn bytes_of(alloc: Global, event: &Event) -> Result<Items<u8>, AllocError>
    requires { Fits event.now }
    ensures written { IfOk result (λ bytes. bytes ≡ spelling event.now) }
    ensures event { OnOk result (IsEvent event.now) }
{
    let mut out = Vec::new(alloc);
    write_event(event, &mut out)?;
    Ok(Items::new(out))
}

#[tactic(auto, unfolding(crate::specs::Spelling::spelling, crate::specs::Spelling::IsEvent))]
fn write_event(event: &Event, out: &mut Vec<u8>) -> Result<(), AllocError>
    requires { Fits event.now }
    ensures written { OnOk result (out.new.items ≡ out.old.items ++ spelling event.now) }
    ensures sound { OnOk result (IsEvent event.now) }
{
    match event {
        Event::Init {
            name,
            schema,
            rows,
            list,
            segment,
        } => {
            1u8.write(out)?;
            write_init(name, schema, *rows, list, segment, out)
        }
        Event::Commit {
            cvd,
            vid,
            message,
            parents,
            rows,
            fresh,
            place,
            added,
            list,
            segment,
        } => {
            2u8.write(out)?;
            write_head(*cvd, *vid, message, out)?;
            write_rows(parents, *rows, *fresh, out)?;
            write_placed(*place, *added, list, segment, out)
        }
        Event::Plan { cvd, p, q, targets } => {
            3u8.write(out)?;
            cvd.write(out)?;
            p.write(out)?;
            q.write(out)?;
            targets.write(out)
        }
        Event::Copy {
            cvd,
            count,
            segment,
        } => {
            4u8.write(out)?;
            cvd.write(out)?;
            count.write(out)?;
            segment.write(out)
        }
        Event::Flip { cvd } => write_number(5, *cvd, out),
        Event::Drop { cvd } => write_number(6, *cvd, out),
        Event::Base { next } => write_number(7, *next, out),
        Event::Whole(whole) => {
            8u8.write(out)?;
            whole.write(out)
        }
        Event::Wide {
            cvd,
            vid,
            message,
            columns,
            parents,
            rows,
            fresh,
            place,
            added,
            list,
            segment,
        } => {
            9u8.write(out)?;
            write_head(*cvd, *vid, message, out)?;
            write_few(columns.as_slice(), out)?;
            write_rows(parents, *rows, *fresh, out)?;
            write_placed(*place, *added, list, segment, out)
        }
    }
}

fn write_number(tag: u8, number: u32, out: &mut Vec<u8>) -> Result<(), AllocError>
    ensures written { OnOk result (out.new.items ≡ out.old.items ++ fields (u8 tag ∷ u32 number ∷ [])) }
    ensures sound { OnOk result (IsU32 number) }
{
    tag.write(out)?;
    number.write(out)
}

fn write_init(
    name: &Txt,
    schema: &RawSchema,
    rows: u32,
    list: &Extent,
    segment: &Extent,
    out: &mut Vec<u8>,
) -> Result<(), AllocError>
    requires name { Few 32 name.now }
    requires schema { SchemaFits schema.now }
    ensures written { OnOk result (out.new.items ≡ out.old.items
        ++ fields (text name.now ∷ schema_bytes schema.now ∷ u32 rows ∷ extent list.now ∷ extent segment.now ∷ [])) }
    ensures sound { OnOk result (IsText name.now × IsSchema schema.now × IsU32 rows × IsExtent list.now × IsExtent segment.now) }
{
    name.write(out)?;
    schema.write(out)?;
    rows.write(out)?;
    list.write(out)?;
    segment.write(out)
}
