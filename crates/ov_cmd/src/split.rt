//! Texts cut at a character.

ghost use Rattle.std.specs.Prelude.{◌≡◌, ◌==◌, ◌<◌, map, IfOk};
ghost use Rattle.std.specs.List.{slice_split};
ghost use Rattle.ov_model.specs.Values.{comma_items as comma_items_of};

use ov_model::Seq;
use ov_value::Txt;
use std::alloc::{AllocError, Global};

/// The pieces of a text between the places of an ASCII character.
pub(crate) fn pieces<'a>(alloc: Global, text: &'a str, at: char) -> Result<Vec<&'a str>, AllocError>
    requires { at < 128 }
    ensures { IfOk result (λ v. map (λ x. x.now) v.items ≡ slice_split (λ b. b == at) text.now) }
{
    text.split(at).collect(alloc)
}

/// The items between commas; of an empty text none.
pub(crate) fn comma_items<'a>(alloc: Global, text: &'a str) -> Result<Vec<&'a str>, AllocError>
    ensures { IfOk result (λ v. map (λ x. x.now) v.items ≡ comma_items_of text.now) }
{
    if text.is_empty() {
        return Ok(Vec::new(alloc));
    }
    let items = pieces(alloc, text, ',')?;
    Ok(items)
}

/// A text of its own for each.
pub(crate) fn texts_of(alloc: Global, items: &[&str]) -> Result<Seq<Txt>, AllocError>
    ensures { IfOk result (λ texts. texts ≡ map (λ x. x.now) items.now) }
{
    let mut texts = Vec::with_capacity(alloc, items.len())?;
    for item in items {
        texts.push(Txt::new(alloc, item)?)?;
    }
    Ok(Seq::from_vec(texts))
}
