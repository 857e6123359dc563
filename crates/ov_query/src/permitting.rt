// What a user's text asks, before a dataset is looked at.

ghost use Rattle.std.specs.Prelude.{◌≡◌, ◌≤◌, [], ◌∷◌, IfOk, length};
ghost use Rattle.ov_model.specs.Asking.{name_read};
ghost use Rattle.ov_model.specs.QueryTexts.{asked_of};
ghost use Rattle.ov_model.specs.Users.{permit_names as permit_names_of};
ghost use Rattle.ov_model.specs.declared.refusal.Refusal.TheVariants as no;
ghost use Rattle.ov_users.specs.Denials.{denial_of};
ghost use Rattle.ov_query.specs.Answering.{IsPermittedBy};
ghost use Rattle.ov_query.specs.declared.permitting.Permitted.TheVariants as permitted;

use crate::asking::{Read, read_text};
use ov_model::{JoinQuery, Query, Refusal, Src};
use ov_users::{Denied, permit_names};
use ov_value::Txt;
use std::alloc::{AllocError, Global};
use std::slice;

/// What comes of a user's text before a dataset is looked at.
#[derive(Drop)]
pub(crate) enum Permitted {
    /// It is this query, and the user may ask it.
    Query(Query),
    /// It is this join, and the user may ask it.
    Join(JoinQuery),
    /// It is refused, whatever the store has.
    Refused(Refusal),
}

/// The dataset that a source names.
pub(crate) fn name_of(source: &Src) -> &Txt
    ensures { result.now ≡ name_read source.now }
{
    match source {
        Src::Listed { cvd, .. } => cvd,
        Src::Whole { cvd } => cvd,
        Src::Lineage { cvd, .. } => cvd,
    }
}

// Whether the user may ask a join.
fn permit_sides(user: &str, join: &JoinQuery) -> Result<(), Denied>
    ensures { denial_of result ≡ permit_names_of user.now (join.now.left.cvd ∷ join.now.right.cvd ∷ []) }
{
    permit_names(user, slice::from_ref(&join.left.cvd))?;
    permit_names(user, slice::from_ref(&join.right.cvd))
}

// The refusal by a rule.
fn refused_by(denied: Denied) -> Permitted
    ensures { result ≡ permitted.Refused (no.Denied denied.rule) }
{
    Permitted::Refused(Refusal::Denied {
        rule: u64::from(denied.rule),
    })
}

/// The query or join that a user's text is, or its refusal: 40, 41, and then 71.
pub(crate) fn asked_by(alloc: Global, user: &str, text: &str) -> Result<Permitted, AllocError>
    requires { length text.now ≤ 65536 }
    ensures { IfOk result (IsPermittedBy user.now (asked_of text.now)) }
{
    match read_text(alloc, text)? {
        Read::Query(query) => {
            match permit_names(user, slice::from_ref(name_of(&query.source))) {
                Ok(()) => Ok(Permitted::Query(query)),
                Err(denied) => Ok(refused_by(denied)),
            }
        }
        Read::Join(join) => match permit_sides(user, &join) {
            Ok(()) => Ok(Permitted::Join(join)),
            Err(denied) => Ok(refused_by(denied)),
        },
        Read::BadByte { at } => Ok(Permitted::Refused(Refusal::BadByte { at: u64::from(at) })),
        Read::NoQuery => Ok(Permitted::Refused(Refusal::NotAQuery)),
    }
}
