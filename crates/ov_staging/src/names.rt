//! The names of a staged table.

ghost use Rattle.std.specs.Prelude.{◌≡◌, IfOk};
ghost use Rattle.ov_model.specs.Deed.{file_of_table as file_of_table_of, table_named as table_named_of};

use ov_value::Txt;
use std::alloc::{AllocError, Global};

/// A table with its owner, as `owner.table`.
pub(crate) fn table_named(alloc: Global, owner: &str, table: &str) -> Result<Txt, AllocError>
    ensures { IfOk result (λ made. made ≡ table_named_of owner.now table.now) }
{
    let mut text = String::new(alloc);
    text.push_str(owner)?;
    text.push_str(".")?;
    text.push_str(table)?;
    Txt::from_string(text)
}

/// The name of a table's file: `owner.table.staged`.
pub fn file_of_table(alloc: Global, owner: &Txt, table: &Txt) -> Result<Txt, AllocError>
    ensures { IfOk result (λ made. made ≡ file_of_table_of owner.now table.now) }
{
    let named = table_named(alloc, owner.as_str(), table.as_str())?;
    let mut text = String::new(alloc);
    text.push_str(named.as_str())?;
    text.push_str(".staged")?;
    Txt::from_string(text)
}
