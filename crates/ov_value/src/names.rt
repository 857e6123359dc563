//! What may name a dataset, a user or a column.

ghost use Rattle.std.specs.Prelude.{◌≡◌, ◌↔◌, IsTrue};
ghost use Rattle.std.specs.List.{list_all};
ghost use Rattle.ov_value.specs.Naming.{is_name as is_name_of, is_column_name as is_column_name_of, may_begin as begins, may_follow as follows};

/// Whether it may name a dataset or a user: an ASCII letter or an underscore, then ASCII letters, digits or
/// underscores, 1 to 63 bytes in all.
#[tactic(auto, unfolding(crate::specs::Naming::is_name))]
pub fn is_name(name: &str) -> bool
    ensures { result ≡ is_name_of name.now }
{
    let bytes = name.as_bytes();
    match bytes.split_first() {
        None => false,
        Some((first, rest)) => { may_begin(*first) && all_may_follow(rest) && rest.len() <= 62 }
    }
}

fn may_begin(b: u8) -> bool
    ensures { result ≡ begins b }
{
    b.is_ascii_alphabetic() || b == b'_'
}

fn all_may_follow(bytes: &[u8]) -> bool
    ensures { result ≡ list_all follows bytes.now }
{
    bytes.iter().all(|b| may_follow(*b))
}

fn may_follow(b: u8) -> bool
    ensures { result ≡ follows b }
{
    b.is_ascii_alphanumeric() || b == b'_'
}

/// Whether it may name a column: a name that does not spell `vid` in any case of letters, since that names
/// a version's number in queries.
#[tactic(auto, unfolding(crate::specs::Naming::is_column_name, crate::specs::Naming::is_vid))]
pub fn is_column_name(name: &str) -> bool
    ensures { result ≡ is_column_name_of name.now }
{
    is_name(name) && !name.eq_ignore_ascii_case("vid")
}
