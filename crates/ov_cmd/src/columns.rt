//! Schema items.

ghost use Rattle.std.specs.Prelude.{◌≡◌, ◌≢◌, IfOk, IfErr, Ok, Some, None, map};
ghost use Rattle.ov_model.specs.Values.{kind_of as kind_named, column_of as column_in, columns_from, comma_items as comma_items_of};
ghost use Rattle.ov_cmd.specs.Errors.{Refuses};

use crate::line_err::LineErr;
use crate::split::comma_items;
use ov_model::Seq;
use ov_value::{Column, Kind, Txt};
use std::alloc::{AllocError, Global};

fn kind_of(text: &str) -> Option<Kind>
    ensures { result ≡ kind_named text.now }
{
    match text {
        "int" => Some(Kind::Int),
        "text" => Some(Kind::Text),
        "flag" => Some(Kind::Flag),
        _ => None,
    }
}

fn column_of(alloc: Global, item: &str) -> Result<Option<Column>, AllocError>
    ensures { IfOk result (λ column. column ≡ column_in item.now) }
{
    let Some((name, kind)) = item.split_once(':') else {
        return Ok(None);
    };
    let Some(kind) = kind_of(kind) else {
        return Ok(None);
    };
    let name = Txt::new(alloc, name)?;
    Ok(Some(Column { name, kind }))
}

/// The column of item `nth`.
fn column_at(alloc: Global, nth: u64, item: &str) -> Result<Column, LineErr>
    ensures ok { IfOk result (λ column. column_in item.now ≡ Some column) }
    ensures none { IfErr result (λ e. e ≢ LineErr.Memory → column_in item.now ≡ None) }
    ensures err { IfErr result (λ e. e ≢ LineErr.Memory → e ≡ LineErr.BadKind nth) }
{
    match column_of(alloc, item)? {
        Some(column) => Ok(column),
        None => Err(LineErr::BadKind { column: nth }),
    }
}

fn columns_in(alloc: Global, items: &[&str]) -> Result<Seq<Column>, LineErr>
    ensures ok { IfOk result (λ columns. columns_from 1 (map (λ x. x.now) items.now) ≡ Ok columns) }
    ensures err { IfErr result (Refuses (columns_from 1 (map (λ x. x.now) items.now))) }
{
    let mut columns = Vec::with_capacity(alloc, items.len())?;
    for (i, item) in items.iter().enumerate() {
        columns.push(column_at(alloc, i as u64 + 1, item)?)?;
    }
    Ok(Seq::from_vec(columns))
}

/// The columns of items joined by commas, or the number of the first item that is none.
pub(crate) fn columns_of(alloc: Global, word: &str) -> Result<Seq<Column>, LineErr>
    ensures ok { IfOk result (λ columns. columns_from 1 (comma_items_of word.now) ≡ Ok columns) }
    ensures err { IfErr result (Refuses (columns_from 1 (comma_items_of word.now))) }
{
    let items = comma_items(alloc, word)?;
    columns_in(alloc, items.as_slice())
}
