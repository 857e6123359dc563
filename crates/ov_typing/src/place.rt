//! Where a term stands, and the kinds of terms there.

ghost use Rattle.std.specs.Prelude.{◌≡◌, IfOk, IfSome};
ghost use Rattle.std.specs.List.{list_any};
ghost use Rattle.ov_model.specs.Kinds.{is_same_col, name_of, kind_named, col_kind, grouped_or, int_or, term_kind, literal_kind, operand_kind, plain_place};
ghost use Rattle.ov_model.specs.declared.refusal.Refusal.TheVariants.{UnknownColumn};
ghost use Rattle.ov_typing.specs.Refusing.{Gives, refusal_of};

use crate::grouping::is_same_col;
use crate::shape::Shape;
use crate::type_err::TypeErr;
use ov_model::{Col, Operand, Term};
use ov_value::{Column, Kind, Txt, Value};
use std::alloc::{AllocError, Global};
use std::marker::Model;

/// The columns of the rows, whether plain columns have to be grouped, and the columns that are.
#[derive(Drop)]
pub struct Place<'a> {
    pub(crate) shape: &'a Shape<'a>,
    pub(crate) grouped: bool,
    pub(crate) groups: &'a [Col],
}

impl<'a> Model for Place<'a> {
    ghost use Rattle.ov_model.specs.Kinds.{Place as Standing};

    ghost Value = { Standing };

    ghost view = { λ p. record { schema = p.shape.now; grouped = p.grouped; groups = p.groups.now } };
}

impl<'a> Place<'a> {
    /// Where no column has to be grouped, as in WHERE and anywhere in a join.
    pub fn plain(shape: &'a Shape<'a>) -> Place<'a>
        ensures { result ≡ plain_place shape.now }
    {
        Place {
            shape,
            grouped: false,
            groups: &[],
        }
    }

    /// The kind of a column.
    pub(crate) fn col_kind(&self, alloc: Global, col: &Col) -> Result<Kind, TypeErr>
        ensures { Gives result (col_kind self.now.schema col.now) }
    {
        match col {
            Col::Vid => Ok(Kind::Int),
            Col::Name(name) => match kind_named(self.shape.columns(), name) {
                Some(kind) => Ok(kind),
                None => Err(unknown(alloc, name)),
            },
            Col::Left(name) | Col::Right(name) => Err(unknown(alloc, name)),
        }
    }

    // The kind of a column that stands alone, which is refused where it has to be grouped and isn't.
    pub(crate) fn grouped_or(&self, alloc: Global, col: &Col, kind: Kind) -> Result<Kind, TypeErr>
        ensures { Gives result (grouped_or self.now col.now kind) }
    {
        if self.grouped && !is_one_of(col, self.groups) {
            return Err(TypeErr::NotGrouped {
                name: name_of(alloc, col)?,
            });
        }
        Ok(kind)
    }

    /// The kind of a term, or its first refusal.
    pub(crate) fn term_kind(&self, alloc: Global, term: &Term) -> Result<Kind, TypeErr>
        ensures { Gives result (term_kind self.now term.now) }
    {
        match term {
            Term::Plain(col) => {
                let kind = self.col_kind(alloc, col)?;
                self.grouped_or(alloc, col, kind)
            }
            Term::CountAll => Ok(Kind::Int),
            Term::Count(col) => {
                let _ = self.col_kind(alloc, col)?;
                Ok(Kind::Int)
            }
            Term::Sum(col) => int_or(alloc, col, self.col_kind(alloc, col)?),
            Term::Min(col) | Term::Max(col) => self.col_kind(alloc, col),
        }
    }

    /// The kind of a side of a comparison, or its first refusal.
    pub(crate) fn operand_kind(&self, alloc: Global, operand: &Operand) -> Result<Kind, TypeErr>
        ensures { Gives result (operand_kind self.now operand.now) }
    {
        match operand {
            Operand::Term(term) => self.term_kind(alloc, term),
            Operand::Literal(value) => Ok(literal_kind(value)),
        }
    }
}

// The kind of the column with this name.
fn kind_named(columns: &[Column], name: &Txt) -> Option<Kind>
    ensures { result ≡ kind_named columns.now name.now }
{
    for column in columns {
        if column.name == *name {
            return Some(column.kind);
        }
    }
    None
}

fn unknown(alloc: Global, name: &Txt) -> TypeErr
    ensures { IfSome (refusal_of result) (λ refusal. refusal ≡ UnknownColumn name.now) }
{
    match name.copy(alloc) {
        Ok(name) => TypeErr::UnknownColumn { name },
        Err(_) => TypeErr::Memory,
    }
}

fn is_one_of(col: &Col, cols: &[Col]) -> bool
    ensures { result ≡ list_any (is_same_col col.now) cols.now }
{
    cols.iter().any(|other| is_same_col(col, other))
}

fn name_of(alloc: Global, col: &Col) -> Result<Txt, AllocError>
    ensures { IfOk result (λ name. name ≡ name_of col.now) }
{
    match col {
        Col::Vid => Txt::new(alloc, "vid"),
        Col::Name(name) | Col::Left(name) | Col::Right(name) => name.copy(alloc),
    }
}

// A sum is of ints.
fn int_or(alloc: Global, col: &Col, kind: Kind) -> Result<Kind, TypeErr>
    ensures { Gives result (int_or col.now kind) }
{
    match kind {
        Kind::Int => Ok(kind),
        _ => Err(TypeErr::NeedsInt {
            name: name_of(alloc, col)?,
        }),
    }
}

// A literal is never NULL; that of NULL counts as an int.
fn literal_kind(value: &Value) -> Kind
    ensures { result ≡ literal_kind value.now }
{
    match value {
        Value::Int(_) | Value::Null => Kind::Int,
        Value::Text(_) => Kind::Text,
        Value::Flag(_) => Kind::Flag,
    }
}
