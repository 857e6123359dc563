//! Refusals.

ghost use Rattle.ov_catalog.specs.Answers.{Answers};
ghost use Rattle.ov_catalog.specs.Applying.{off_unless};

use crate::error::ApplyErr;
use crate::field::Field;

/// The part of an event is off, unless something holds.
pub fn unless(holds: bool, field: Field) -> Result<(), ApplyErr>
    ensures { Answers result (off_unless holds field) }
{
    if holds {
        Ok(())
    } else {
        Err(ApplyErr::NotNext { field })
    }
}
