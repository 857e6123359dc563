//! What the rules ask of a user, a name and a command.

ghost use Rattle.std.specs.Prelude.{◌≡◌, not};
ghost use Rattle.std.specs.Str.{bytes_eq};
ghost use Rattle.ov_model.specs.Users.{is_admin as is_admin_of, is_reserved as is_reserved_of, is_staged_file as is_staged_file_of, names, passes};

use ov_model::Command;

pub(crate) fn is_admin(user: &str) -> bool
    ensures { result ≡ is_admin_of user.now }
{
    user == "admin"
}

pub(crate) fn is_reserved(cvd: &str) -> bool
    ensures { result ≡ is_reserved_of cvd.now }
{
    cvd.as_bytes().starts_with(b"orpheus_")
}

fn is_staged_file(file: &str) -> bool
    ensures { result ≡ is_staged_file_of file.now }
{
    file.as_bytes().ends_with(b".staged")
}

pub(crate) fn makes_user(command: &Command) -> bool
    ensures { result ≡ (names command.now).makes_user }
{
    matches!(command, Command::CreateUser { .. })
}

// Whether it commits or takes off a staged table of another user.
pub(crate) fn is_of_another(user: &str, command: &Command) -> bool
    ensures { result ≡ passes (λ owner. not (bytes_eq owner user.now)) (names command.now).owner }
{
    match command {
        Command::CommitStaged { user: owner, .. } | Command::Unstage { user: owner, .. } => {
            owner.as_str() != user
        }
        _ => false,
    }
}

// Whether its `-f` names the file of a staged table.
pub(crate) fn names_staged_file(command: &Command) -> bool
    ensures { result ≡ passes is_staged_file_of (names command.now).file }
{
    match command {
        Command::Init { file, .. } | Command::Commit { file, .. } => is_staged_file(file.as_str()),
        Command::Checkout {
            file: Some(file),
            ..
        } => is_staged_file(file.as_str()),
        _ => false,
    }
}

// Whether its dataset is one of the store's own.
pub(crate) fn names_reserved(command: &Command) -> bool
    ensures { result ≡ passes is_reserved_of (names command.now).cvd }
{
    match command {
        Command::Init { cvd, .. }
        | Command::Checkout { cvd, .. }
        | Command::Commit { cvd, .. }
        | Command::Optimize { cvd, .. }
        | Command::OptimizeWithin { cvd, .. }
        | Command::Advise { cvd, .. }
        | Command::Layout { cvd }
        | Command::Log { cvd }
        | Command::DropCvd { cvd }
        | Command::Generate { cvd, .. } => is_reserved(cvd.as_str()),
        _ => false,
    }
}

// Whether nobody does this to such a dataset.
pub(crate) fn is_for_nobody(command: &Command) -> bool
    ensures { result ≡ (names command.now).for_nobody }
{
    match command {
        Command::Checkout { table, .. } => table.is_some(),
        Command::Init { .. }
        | Command::Commit { .. }
        | Command::DropCvd { .. }
        | Command::Generate { .. } => true,
        _ => false,
    }
}
