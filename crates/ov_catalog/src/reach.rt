//! How far a half of the journal has come.

ghost use Rattle.std.specs.Prelude.{ℕ};
ghost use Rattle.ov_catalog.specs.Answers.{Answers};
ghost use Rattle.ov_catalog.specs.Applying.{base_off, number_off};
ghost use Rattle.ov_catalog.specs.Ready.{reach_in};

use crate::error::ApplyErr;
use crate::field::Field;
use crate::refusing::unless;

/// How far the half of the journal has come whose events were applied: whether a Base or a Whole may come next.
#[derive(Clone, Copy, PartialEq, Eq)]
pub enum Reach {
    /// None was applied yet: a Base may come.
    AtStart,
    /// They are a Base and Wholes, and a Whole may come. The last one's number; 0 where there is none yet.
    InSnapshot { last: u32 },
    /// Its snapshot has ended, or it has none.
    Beyond,
}

/// Whether a Base may come that says this number of the next dataset.
pub fn check_base(reach: Reach, next: u32) -> Result<(), ApplyErr>
    ensures { (was : ℕ) → Answers result (base_off next (reach_in was reach)) }
{
    match reach {
        Reach::AtStart => unless(1 <= next, Field::Number),
        Reach::InSnapshot { .. } | Reach::Beyond => unless(false, Field::Number),
    }
}

/// Whether a Whole of this number may come, where the next dataset gets `next`.
pub fn check_number(reach: Reach, next: u32, number: u32) -> Result<(), ApplyErr>
    ensures { Answers result (number_off number (reach_in next reach)) }
{
    match reach {
        Reach::InSnapshot { last } => unless(last < number && number < next, Field::Number),
        Reach::AtStart | Reach::Beyond => unless(false, Field::Number),
    }
}
