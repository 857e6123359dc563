//! Whether a user may do what a command asks, and the least rule that denies it.

ghost use Rattle.std.specs.Prelude.{◌≡◌};
ghost use Rattle.std.specs.List.{list_any};
ghost use Rattle.ov_model.specs.Users.{is_reserved as is_reserved_of, permit as permit_of, permit_names as permit_names_of};
ghost use Rattle.ov_users.specs.Denials.{denial_of};

use crate::rules::{
    is_admin, is_for_nobody, is_of_another, is_reserved, makes_user, names_reserved,
    names_staged_file,
};
use ov_model::Command;
use ov_value::Txt;

/// A command is denied by this rule, the least one that denies it. Rules are counted from 1.
#[derive(Clone, Copy, PartialEq, Eq)]
pub struct Denied {
    pub rule: u32,
}

/// Whether the user may do what the command asks. A `run` is denied by none of the rules here.
pub fn permit(user: &str, command: &Command) -> Result<(), Denied>
    ensures least { denial_of result ≡ permit_of user.now command.now }
{
    if makes_user(command) && !is_admin(user) {
        return Err(Denied { rule: 1 });
    }
    if is_of_another(user, command) {
        return Err(Denied { rule: 2 });
    }
    if names_staged_file(command) {
        return Err(Denied { rule: 3 });
    }
    if names_reserved(command) && (!is_admin(user) || is_for_nobody(command)) {
        return Err(Denied { rule: 4 });
    }
    Ok(())
}

/// Whether the user may ask a query or join that names these datasets.
pub fn permit_names(user: &str, names: &[Txt]) -> Result<(), Denied>
    ensures least { denial_of result ≡ permit_names_of user.now names.now }
{
    if !is_admin(user) && names_one_reserved(names) {
        return Err(Denied { rule: 4 });
    }
    Ok(())
}

// Whether one of them is the store's own.
fn names_one_reserved(names: &[Txt]) -> bool
    ensures { result ≡ list_any is_reserved_of names.now }
{
    for name in names {
        if is_reserved(name.as_str()) {
            return true;
        }
    }
    false
}
