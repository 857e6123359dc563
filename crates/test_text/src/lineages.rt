//! Relatives of versions in a chain with merges.

ghost use Rattle.std.specs.Prelude.{◌≡◌, [], ◌∷◌, IfOk};
ghost use Rattle.ov_lineage.specs.Related.{lists_of};

use ov_lineage::Lineage;
use ov_model::LineageKind::{self, Ancestors, Descendants, Parents};
use std::alloc::{AllocError, Global};
use std::process::Abort;
use std::test::Fail;

/// The parents of five versions: a chain of three, a merge of its ends, whose parents are named in reverse, and a merge of that with
/// the root.
fn merges(alloc: Global) -> Result<Vec<Vec<u32>>, AllocError>
    ensures { IfOk result (λ made. lists_of made.items ≡ [] ∷ (1 ∷ []) ∷ (2 ∷ []) ∷ (3 ∷ 1 ∷ []) ∷ (4 ∷ 1 ∷ []) ∷ []) }
{
    let mut made = Vec::new(alloc);
    made.push(Vec::new(alloc))?;
    made.push(Vec::from_array(alloc, [1])?)?;
    made.push(Vec::from_array(alloc, [2])?)?;
    made.push(Vec::from_array(alloc, [3, 1])?)?;
    made.push(Vec::from_array(alloc, [4, 1])?)?;
    Ok(made)
}

#[test]
fn relatives_are_all_that_descend(rt: HostRuntime) -> Result<(), Fail> {
    let alloc = rt.alloc();
    let lineage = Lineage::of(alloc, &merges(alloc)?)?;
    assert_eq!(rt;
        lineage.versions(alloc, Parents, 1)?.as_slice(),
        [].as_slice()
    );
    assert_eq!(rt;
        lineage.versions(alloc, Parents, 4)?.as_slice(),
        [1, 3].as_slice()
    );
    assert_eq!(rt;
        lineage.versions(alloc, Ancestors, 4)?.as_slice(),
        [1, 2, 3].as_slice()
    );
    assert_eq!(rt;
        lineage.versions(alloc, Ancestors, 5)?.as_slice(),
        [1, 2, 3, 4].as_slice()
    );
    assert_eq!(rt;
        lineage.versions(alloc, Descendants, 2)?.as_slice(),
        [3, 4, 5].as_slice()
    );
    assert_eq!(rt;
        lineage.versions(alloc, Descendants, 5)?.as_slice(),
        [].as_slice()
    );
    Ok(())
}
