//! Laws of users and staged tables: by whose commands a user's tables change.
//!
//! There is no code here: definitions in `specs/`, and laws that are contracts of functions that do nothing.
#![tactic(auto)]

mod owners;

pub use owners::only_the_owner_changes_his_tables;
