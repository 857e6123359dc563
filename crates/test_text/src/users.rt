//! Users and the datasets that they may ask of: every run is `admin`'s, so that no script shows another user's.

use ov_users::permit_names;
use ov_value::Txt;
use std::alloc::{AllocError, Global};
use std::test::Fail;

// The rule that denies a user to ask of two datasets; 0 where none does.
fn rule(alloc: Global, user: &str, one: &str, other: &str) -> Result<u32, AllocError> {
    let mut names = Vec::new(alloc);
    names.push(Txt::new(alloc, one)?)?;
    names.push(Txt::new(alloc, other)?)?;
    Ok(match permit_names(user, names.as_slice()) {
        Ok(()) => 0,
        Err(denied) => denied.rule,
    })
}

const ASKED: [(&str, &str, &str, u32); 6] = [
    ("ann", "orpheus_users", "people", 4),
    ("ann", "people", "orpheus_none", 4),
    ("ann", "people", "orpheus", 0),
    ("ann", "Orpheus_users", "x_orpheus_", 0),
    ("admin", "orpheus_users", "orpheus_none", 0),
    ("Admin", "orpheus_users", "orpheus_users", 4),
];

#[test]
fn the_stores_own_datasets_are_for_admin(rt: HostRuntime) -> Result<(), Fail> {
    for (user, one, other, number) in ASKED {
        assert!(rt; rule(rt.alloc(), user, one, other)? == number);
    }
    Ok(())
}
