//! Searches by halves.

ghost use Rattle.std.specs.Prelude.{◌≡◌, true, ◌<◌, length, HoldsAt};
ghost use Rattle.ov_layout.specs.Parts.{has, Ascend};
ghost use Rattle.ov_layout.specs.Index.{numbers_of};

use crate::part::Part;

/// Whether a vid is among vids, or a place among places.
pub fn is_among(numbers: &[u32], number: usize) -> bool
    requires { Ascend 0 numbers.now }
    ensures { result ≡ has numbers.now number }
{
    let at = numbers.partition_point(|n| (*n as usize) < number);
    at < numbers.len() && numbers[at] as usize == number
}

/// The place of the partition with a number.
pub fn place_of(parts: &[Part], id: u32) -> usize
    requires ascend { Ascend 0 (numbers_of parts.now) }
    requires is_there { has (numbers_of parts.now) id ≡ true }
    ensures bound { result < length parts.now }
    ensures place { HoldsAt (λ part. part.id ≡ id) parts.now result }
{
    parts.partition_point(|part| part.id < id)
}
