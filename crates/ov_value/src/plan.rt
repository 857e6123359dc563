//! Where the values of a row stand in its bytes, where none of them is NULL.

ghost use Rattle.std.specs.Prelude.{◌≡◌, ◌≤◌, length, drop, IsTrue, IfOk, IfSome};
ghost use Rattle.ov_value.specs.Decoding.{front_rest};
ghost use Rattle.ov_value.specs.Plans.{StandsBehind, Walks, plan_of};

use crate::column::{Column, Kind};
use crate::walk::behind;
use std::alloc::{AllocError, Global};
use std::marker::Model;

/// A text or a flag, and how many bytes of ints stand between the one before it and it.
#[derive(Clone, Copy)]
pub(crate) struct Gap {
    pub before: usize,
    pub kind: Kind,
}

/// The texts and flags of a row's bytes, and how many bytes of ints stand behind the last. Ints are passed without a look.
#[derive(Drop)]
pub(crate) struct RowPlan {
    gaps: Vec<Gap>,
    tail: usize,
}

impl Model for RowPlan {
    ghost use Rattle.ov_value.specs.Plans.{Plan};

    ghost Value = { Plan };

    ghost view = { λ p. record { gaps = p.gaps.items; tail = p.tail } };
}

impl RowPlan {
    /// The plan of a row of these columns.
    pub(crate) fn of(alloc: Global, columns: &[Column]) -> Result<RowPlan, AllocError>
        requires { length columns.now ≤ 64 }
        ensures { IfOk result (λ made. made ≡ plan_of columns.now) }
    {
        let mut gaps = Vec::new(alloc);
        let mut before = 0usize;
        for column in columns {
            if column.kind == Kind::Int {
                before += 8;
            } else {
                gaps.push(Gap {
                    before,
                    kind: column.kind,
                })?;
                before = 0;
            }
        }
        Ok(RowPlan { gaps, tail: before })
    }

    /// Whether all of the bytes are so.
    pub(crate) fn fits(&self, bytes: &[u8]) -> bool
        ensures { IsTrue result → Walks self.now.gaps self.now.tail bytes.now }
    {
        let mut rest = bytes;
        for gap in &self.gaps {
            match behind_gap(*gap, rest) {
                None => return false,
                Some(after) => rest = after,
            }
        }
        rest.len() == self.tail
    }
}

// What stands behind the text or flag, where there is one.
#[inline(always)]
fn behind_gap(gap: Gap, bytes: &[u8]) -> Option<&[u8]>
    ensures stands { IfSome result (λ rest. StandsBehind gap bytes.now) }
    ensures rest { IfSome result (λ rest. rest.now ≡ front_rest gap.kind (drop gap.before bytes.now)) }
{
    if bytes.len() <= gap.before {
        return None;
    }
    behind(gap.kind, &bytes[gap.before..])
}
