//! The aggregates: over the values of a column in a group that aren't NULL.

ghost use Rattle.std.specs.Prelude.{◌≡◌, ◌≤◌, ◌+◌, ◌-◌, ◌*◌, ◌^◌, ◌+ℤ◌, ◌≤ℤ◌, pos, length};
ghost use Rattle.ov_model.specs.Answers.{cell_order, sum_cell, first_by, least_from, greatest_from};
ghost use Rattle.ov_terms.specs.Best.{better};
ghost use Rattle.ov_terms.specs.Finding.{present_at};
ghost use Rattle.ov_terms.specs.Seeing.{cell_of};
ghost use Rattle.ov_terms.specs.Summing.{plus_cell};
ghost use Rattle.ov_terms.specs.Standing.{pairs_at};

use crate::lookup::Lookup;
use crate::order::is_below;
use crate::seen::Seen;
use crate::spot::Spot;
use crate::table::Table;
use ov_value::CellRef;

impl<'a> Table<'a> {
    /// How many values there are.
    pub(crate) fn count(&self, group: &[Spot], found: Lookup) -> usize
        ensures { result ≡ length (present_at (pairs_at self.now group.now) found) }
    {
        let mut count = 0;
        for spot in group {
            if !self.value_at(*spot, found).is_null() {
                count += 1;
            }
        }
        count
    }

    /// The sum of the values; nothing where there are none.
    pub(crate) fn sum(&self, group: &[Spot], found: Lookup) -> Seen<'a>
        ensures { cell_of result ≡ sum_cell (present_at (pairs_at self.now group.now) found) }
    {
        let mut sum = 0;
        let mut count: usize = 0;
        for spot in group {
            let value = self.value_at(*spot, found);
            sum = plus(sum, value);
            if !value.is_null() {
                count += 1;
            }
        }
        if count == 0 {
            Seen::Nothing
        } else {
            Seen::Sum(sum)
        }
    }

    /// The least of the values, the first one at a tie; nothing where there are none.
    pub(crate) fn least(&self, group: &[Spot], found: Lookup) -> Seen<'a>
        ensures { cell_of result ≡ first_by least_from (present_at (pairs_at self.now group.now) found) }
    {
        let mut least = Seen::Nothing;
        for spot in group {
            least = lesser(least, self.value_at(*spot, found));
        }
        least
    }

    /// The greatest of the values, the first one at a tie; nothing where there are none.
    pub(crate) fn greatest(&self, group: &[Spot], found: Lookup) -> Seen<'a>
        ensures { cell_of result ≡ first_by greatest_from (present_at (pairs_at self.now group.now) found) }
    {
        let mut greatest = Seen::Nothing;
        for spot in group {
            greatest = greater(greatest, self.value_at(*spot, found));
        }
        greatest
    }
}

// The sum of a number and a value, if it is an int.
fn plus(n: i128, value: Seen<'_>) -> i128
    requires low { pos 0 ≤ℤ (n +ℤ pos (2 ^ 127 - 2 ^ 63)) }
    requires high { n ≤ℤ pos (2 ^ 127 - 2 ^ 63) }
    ensures is { result ≡ plus_cell n (cell_of value.entry) }
    ensures low { n ≤ℤ (result +ℤ pos (2 ^ 63)) }
    ensures high { result ≤ℤ (n +ℤ pos (2 ^ 63)) }
{
    match value {
        Seen::Cell(CellRef::Int(m)) => n + i128::from(m),
        _ => n,
    }
}

// The least so far or a value, where that is less and isn't NULL.
fn lesser<'a>(least: Seen<'a>, value: Seen<'a>) -> Seen<'a>
    ensures { cell_of result ≡ better cell_order (cell_of least.entry) (cell_of value.entry) }
{
    if value.is_null() {
        least
    } else if least.is_null() || is_below(value, least) {
        value
    } else {
        least
    }
}

// The greatest so far or a value, where that is greater and isn't NULL.
fn greater<'a>(greatest: Seen<'a>, value: Seen<'a>) -> Seen<'a>
    ensures { cell_of result ≡ better (λ a b. cell_order b a) (cell_of greatest.entry) (cell_of value.entry) }
{
    if value.is_null() {
        greatest
    } else if greatest.is_null() || is_below(greatest, value) {
        value
    } else {
        greatest
    }
}
