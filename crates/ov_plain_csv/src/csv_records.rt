//! The records of a text of CSV, a byte at a time.

ghost use Rattle.std.specs.Prelude.{◌≡◌, ◌+◌, ◌≤◌, ◌++◌, List, ℕ, length, option_map, IfOk, OnOk};
ghost use Rattle.csv.specs.Machine.{next_record, fields_after, field_after};
ghost use Rattle.csv.specs.Reading.{default_config, records, records_from};
ghost use Rattle.csv.specs.declared.parser.State.TheVariants as st;
ghost use Rattle.ov_plain_csv.specs.Splitting.{state_of, action_of};

use crate::csv_state::{Action, State, ends_at_end, step};
use sqlite_items::Items;
use std::alloc::{AllocError, Global};

/// A record that was read, with the state and the bytes after it.
#[derive(Drop)]
struct Read<'a> {
    fields: Items<Items<u8>>,
    state: State,
    rest: &'a [u8],
}

/// The fields before the one at hand, and that one, after an action that ends no record.
fn after(
    action: Action,
    byte: u8,
    mut fields: Items<Items<u8>>,
    mut field: Items<u8>,
    alloc: Global,
) -> Result<(Items<Items<u8>>, Items<u8>), AllocError>
    ensures fields { IfOk result (λ made. made.0 ≡ fields_after (action_of action) fields field) }
    ensures field { IfOk result (λ made. made.1 ≡ field_after (action_of action) byte field) }
{
    match action {
        Action::Skip => Ok((fields, field)),
        Action::Copy => {
            field.push(byte)?;
            Ok((fields, field))
        }
        Action::EndField | Action::EndRecord => {
            fields.push(field)?;
            Ok((fields, Items::new(alloc)))
        }
    }
}

/// The next record of a text from a state, with the fields before and the bytes of the field at hand.
#[tactic(auto, unfolding(csv::specs::Machine::next_record))]
fn next_record(
    alloc: Global,
    state: State,
    mut fields: Items<Items<u8>>,
    field: Items<u8>,
    bytes: &[u8],
) -> Result<Option<Read<'_>>, AllocError>
    ensures { IfOk result (λ read. option_map (λ r. (r.fields, state_of r.state, r.rest.now)) read ≡ next_record default_config (state_of state) fields field bytes.now) }
{
    match bytes {
        [] if ends_at_end(state) => {
            fields.push(field)?;
            Ok(Some(Read {
                fields,
                state: State::StartRecord,
                rest: &[],
            }))
        }
        [] => Ok(None),
        [byte, rest @ ..] => {
            let (state, action) = step(state, *byte);
            let (fields, field) = after(action, *byte, fields, field, alloc)?;
            match action {
                Action::EndRecord => Ok(Some(Read {
                    fields,
                    state,
                    rest,
                })),
                Action::Skip | Action::Copy | Action::EndField => {
                    next_record(alloc, state, fields, field, rest)
                }
            }
        }
    }
}

/// Adds the records of a text from a state, so many at most.
#[tactic(auto, unfolding(csv::specs::Reading::records_from))]
fn add_records(
    alloc: Global,
    most: usize,
    state: State,
    bytes: &[u8],
    found: &mut Items<Items<Items<u8>>>,
) -> Result<(), AllocError>
    ensures is { OnOk result (found.new ≡ found.old ++ records_from default_config most (state_of state) bytes.now) }
    ensures count { OnOk result (length found.new ≤ length found.old + most) }
{
    if most == 0 {
        return Ok(());
    }
    match next_record(alloc, state, Items::new(alloc), Items::new(alloc), bytes)? {
        None => Ok(()),
        Some(read) => {
            let Read {
                fields,
                state,
                rest,
            } = read;
            found.push(fields)?;
            add_records(alloc, most - 1, state, rest, found)
        }
    }
}

/// The records of a text, each the list of its fields, as the `csv` crate reads it by default.
pub fn records_in(alloc: Global, bytes: &[u8]) -> Result<Items<Items<Items<u8>>>, AllocError>
    ensures is { IfOk result (λ found. found ≡ records default_config bytes.now) }
    ensures count { IfOk result (λ found. length found ≤ length bytes.now + 1) }
{
    let mut found = Items::new(alloc);
    add_records(
        alloc,
        bytes.len() + 1,
        State::StartRecord,
        bytes,
        &mut found,
    )?;
    Ok(found)
}
