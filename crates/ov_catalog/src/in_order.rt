//! Numbers that ascend.

ghost use Rattle.std.specs.Prelude.{◌≡◌, nat_le};
ghost use Rattle.std.specs.List.{list_all};
ghost use Rattle.ov_layout.specs.Index.{numbers_of};
ghost use Rattle.ov_catalog.specs.Planning.{ascend_from as ascend_from_by};
ghost use Rattle.ov_catalog.specs.Wholes.{are_there as are_there_by};

use ov_layout::Part;

/// Whether numbers ascend, from a least one on.
pub fn ascend_from(least: u32, numbers: &[u32]) -> bool
    ensures { result ≡ ascend_from_by least numbers.now }
{
    let mut low = u64::from(least);
    for number in numbers {
        if u64::from(*number) < low {
            return false;
        }
        low = u64::from(*number) + 1;
    }
    true
}

/// Whether the numbers of partitions ascend, from 1 on.
pub fn are_in_order(parts: &[Part]) -> bool
    ensures { result ≡ ascend_from_by 1 (numbers_of parts.now) }
{
    let mut low = 1u64;
    for part in parts {
        if u64::from(part.id) < low {
            return false;
        }
        low = u64::from(part.id) + 1;
    }
    true
}

// Whether no number is greater.
fn are_at_most(most: usize, numbers: &[u32]) -> bool
    ensures { result ≡ list_all (λ n. nat_le n most) numbers.now }
{
    numbers.iter().all(|number| *number as usize <= most)
}

/// Whether these are versions from 1 to a count, ascending.
pub fn are_there(count: usize, vids: &[u32]) -> bool
    ensures { result ≡ are_there_by count vids.now }
{
    ascend_from(1, vids) && are_at_most(count, vids)
}
