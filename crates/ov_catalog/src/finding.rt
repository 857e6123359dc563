//! Datasets by their names and numbers, partitions by their numbers, and numbers among others.

ghost use Rattle.std.specs.Prelude.{◌≡◌, ◌<◌, length, find, None, MatchOption, HoldsAt};
ghost use Rattle.std.specs.List.{list_any};
ghost use Rattle.ov_layout.specs.Index.{numbers_of as part_numbers};
ghost use Rattle.ov_layout.specs.Parts.{Ascend, has, part_numbered, records_at as records_at_of};
ghost use Rattle.ov_catalog.specs.Applying.{is_named};
ghost use Rattle.ov_catalog.specs.Events.{numbered};
ghost use Rattle.ov_catalog.specs.Sets.{numbers_of, sets_in};

use crate::cvd::Cvd;
use ov_layout::Part;
use ov_value::Txt;

/// Whether a dataset has the name.
pub fn has_name(sets: &[Cvd], name: &Txt) -> bool
    ensures { result ≡ list_any (is_named name.now) (sets_in sets.now) }
{
    for d in sets {
        if d.name.as_str() == name.as_str() {
            return true;
        }
    }
    false
}

/// The place of the dataset with a number.
pub fn place_of(sets: &[Cvd], number: u32) -> Option<usize>
    requires { Ascend 0 (numbers_of sets.now) }
    ensures { MatchOption result (find (numbered number) (sets_in sets.now) ≡ None) (λ at. (at < length sets.now) × HoldsAt (λ d. d.number ≡ number) sets.now at) }
{
    let at = sets.partition_point(|d| d.number < number);
    if at < sets.len() && sets[at].number == number {
        Some(at)
    } else {
        None
    }
}

/// How many records the partition with a number keeps; 0 where there is none.
pub fn records_at(parts: &[Part], id: u32) -> u32
    requires { Ascend 0 (part_numbers parts.now) }
    ensures { result ≡ records_at_of id parts.now }
{
    let at = parts.partition_point(|part| part.id < id);
    if at < parts.len() && parts[at].id == id {
        parts[at].records
    } else {
        0
    }
}

/// The place of the partition with a number.
pub fn part_at(parts: &[Part], id: u32) -> Option<usize>
    requires { Ascend 0 (part_numbers parts.now) }
    ensures { MatchOption result (part_numbered id parts.now ≡ None) (λ at. (at < length parts.now) × HoldsAt (λ part. part.id ≡ id) parts.now at) }
{
    let at = parts.partition_point(|part| part.id < id);
    if at < parts.len() && parts[at].id == id {
        Some(at)
    } else {
        None
    }
}

/// Whether a number is among ascending ones.
pub fn is_among(numbers: &[u32], number: u32) -> bool
    requires { Ascend 0 numbers.now }
    ensures { result ≡ has numbers.now number }
{
    let at = numbers.partition_point(|n| *n < number);
    at < numbers.len() && numbers[at] == number
}
