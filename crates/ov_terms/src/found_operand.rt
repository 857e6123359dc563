//! A side of a comparison whose column was found.

ghost use Rattle.std.specs.Prelude.{◌≡◌, IfOk, IsTrue};
ghost use Rattle.ov_terms.specs.Finding.{IsFoundOperand, IsOperandOfRow, IsOperandOfVersion};

use crate::found_term::FoundTerm;
use ov_model::Operand;
use ov_typing::Shape;
use ov_value::Value;
use std::alloc::{AllocError, Global};

/// A side of a comparison, with where its column is found.
#[derive(Drop)]
pub enum FoundOperand {
    Term(FoundTerm),
    Literal(Value),
}

impl FoundOperand {
    /// A side of a comparison over rows of these columns. A literal is copied.
    pub fn of(
        alloc: Global,
        shape: &Shape<'_>,
        operand: &Operand,
    ) -> Result<FoundOperand, AllocError>
        ensures { IfOk result (IsFoundOperand shape.now operand.now) }
    {
        Ok(match operand {
            Operand::Term(term) => FoundOperand::Term(FoundTerm::of(shape, term)),
            Operand::Literal(value) => FoundOperand::Literal(value.copy(alloc)?),
        })
    }

    /// The same side, of its own.
    pub(crate) fn copy(&self, alloc: Global) -> Result<FoundOperand, AllocError>
        ensures { IfOk result (λ copy. copy ≡ self.now) }
    {
        Ok(match self {
            FoundOperand::Term(term) => FoundOperand::Term(*term),
            FoundOperand::Literal(value) => FoundOperand::Literal(value.copy(alloc)?),
        })
    }

    /// Whether it is the same of a row in every version.
    pub(crate) fn is_of_row(&self) -> bool
        ensures { IsTrue result → IsOperandOfRow self.now }
    {
        match self {
            FoundOperand::Term(term) => term.is_of_row(),
            FoundOperand::Literal(_) => true,
        }
    }

    /// Whether it is the same of all rows of a version.
    pub(crate) fn is_of_version(&self) -> bool
        ensures { IsTrue result → IsOperandOfVersion self.now }
    {
        match self {
            FoundOperand::Term(term) => term.is_of_version(),
            FoundOperand::Literal(_) => true,
        }
    }
}
