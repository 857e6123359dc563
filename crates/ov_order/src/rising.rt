//! Whether the keys at positions rise.

ghost use Rattle.std.specs.Prelude.{◌≡◌, IsTrue, length};
ghost use Rattle.ov_fetch.specs.Scans.{AllFit, AllStand};
ghost use Rattle.ov_order.specs.Keyed.{KeysRise, keyed_at as keyed_at_place};

use crate::keyed::{is_below, keyed_at};
use ov_segment::Table;
use ov_value::Schema;

/// Whether the key of each of these rows is below that of the next one, so that none stands twice. The numbers that keys
/// begin with tell it mostly. It takes no memory.
pub fn do_keys_rise(schema: &Schema, records: &Table, places: &[usize]) -> bool
    requires fit { AllFit schema.now records.now.records }
    requires stand { AllStand records.now.records places.now }
    ensures { IsTrue result → KeysRise schema.now records.now.records places.now }
{
    if places.is_empty() {
        return true;
    }
    let mut last = keyed_at(schema, records, places[0]);
    for i in 1..places.len() {
        let next = keyed_at(schema, records, places[i]);
        if !is_below(schema, records, last, next) {
            return false;
        }
        last = next;
    }
    true
}
