//! Parents whose records don't agree.

ghost use Rattle.std.specs.Prelude.{◌≡◌, ◌++◌, true, false, List, ℕ, [], None, IfOk};
ghost use Rattle.std.specs.List.{All};
ghost use Rattle.ov_value.specs.Shapes.{Shape};
ghost use Rattle.ov_model.specs.Assigned.{stored_parents};
ghost use Rattle.ov_model.specs.Book.{Row as ModelRow, Version};
ghost use Rattle.ov_model.specs.Records.{recs, order_of};
ghost use Rattle.ov_records.specs.Records.{pairs_of, lists_of, RowsFit};
ghost use Rattle.law_commits.specs.Differing.{HasNoRidTwice, Clash, IsFirstDisagreeing};
ghost use Rattle.ov_parents.specs.Seeing.{Maps, PairsFit};

use ov_segment::{RecordTable, RowRef};
use std::alloc::{AllocError, Global};
use std::collections::BTreeMap;

/// The first parent, counted from 0, that has a rid with another row than an earlier parent has it with. `None` where no
/// rid has different rows among all records of the parents; so it is where these are records of a dataset's versions.
///
/// One parent has each rid once, so nothing is looked at. For more it takes a time of n log n for n records.
pub fn first_disagreeing(
    alloc: Global,
    parents: &[RecordTable],
) -> Result<Option<usize>, AllocError>
    requires once { All HasNoRidTwice parents.now }
    requires fit { (schema : Shape) × All (RowsFit schema) parents.now }
    ensures exactly { IfOk result (IsFirstDisagreeing (lists_of parents.now)) }
    ensures versions { IfOk result (λ found. (versions : List Version) (vids : List ℕ)
        → lists_of parents.now ≡ stored_parents vids (recs versions []) (order_of versions) → found ≡ None) }
{
    if parents.len() < 2 {
        return Ok(None);
    }
    let mut seen = BTreeMap::new(alloc);
    for (place, parent) in parents.iter().enumerate() {
        if see(&mut seen, parent)? {
            return Ok(Some(place));
        }
    }
    Ok(None)
}

// Whether one of the records has a rid that was seen with another row. If not, all of them are seen now.
fn see<'a>(
    seen: &mut BTreeMap<u32, RowRef<'a>>,
    records: &'a RecordTable,
) -> Result<bool, AllocError>
    requires once { HasNoRidTwice records.now }
    ensures clash { IfOk result (λ other. (schema : Shape) (before : List (ℕ × ModelRow)) → Maps (λ r. r) seen.old before
        → PairsFit schema before → RowsFit schema records.now → other ≡ true → Clash before (pairs_of records.now)) }
    ensures seen { IfOk result (λ other. (schema : Shape) (before : List (ℕ × ModelRow)) → Maps (λ r. r) seen.old before
        → PairsFit schema before → RowsFit schema records.now → other ≡ false → Maps (λ r. r) seen.new (before ++ pairs_of records.now)) }
{
    for i in 0..records.len() {
        let row = records.row(i);
        if let Some(old) = seen.insert(records.rid(i), records.row(i))? {
            if !old.same(&row) {
                return Ok(true);
            }
        }
    }
    Ok(false)
}
