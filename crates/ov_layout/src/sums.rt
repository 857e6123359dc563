//! The sums over partitions.

ghost use Rattle.std.specs.Prelude.{◌≡◌, ◌≤◌, ◌^◌, length, All};
ghost use Rattle.ov_layout.specs.Parts.{cost_of, stored_of};
ghost use Rattle.ov_layout.specs.Index.{versions_in};
ghost use Rattle.ov_layout.specs.Kept.{HasFewRecords};

use crate::part::Part;

/// The sum of the partitions' records.
pub fn stored_in(parts: &[Part]) -> u64
    requires { length parts.now ≤ 2 ^ 32 }
    ensures sum { result ≡ stored_of parts.now }
    ensures few { All HasFewRecords parts.now }
{
    let mut stored = 0;
    for part in parts {
        stored += u64::from(part.records);
    }
    stored
}

/// The sum over partitions of their versions times their records.
pub fn cost_in(parts: &[Part]) -> u64
    requires few { All HasFewRecords parts.now }
    requires versions { versions_in parts.now ≤ 2 ^ 32 }
    ensures { result ≡ cost_of parts.now }
{
    let mut cost = 0;
    for part in parts {
        cost += part.versions.as_slice().len() as u64 * u64::from(part.records);
    }
    cost
}
