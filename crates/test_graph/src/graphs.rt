//! Who comes before and behind a version, which no command tells.

ghost use Rattle.std.specs.Prelude.{◌≡◌, length, IfOk};

use ov_graph::Graph;
use std::alloc::Global;
use std::process::Abort;
use std::test::Fail;

/// Four versions in a chain, but for the fourth one: its parents are the first two.
fn merged(rt: &impl Abort, alloc: Global) -> Result<Graph, Fail>
    ensures { IfOk result (λ graph. length graph ≡ 4) }
{
    let mut graph = Graph::new(alloc);
    assert_eq!(rt; graph.add(alloc, 2, &[])?, 1);
    assert_eq!(rt; graph.add(alloc, 3, &[(1, 1)])?, 2);
    assert_eq!(rt; graph.add(alloc, 2, &[(2, 1)])?, 3);
    assert_eq!(rt; graph.add(alloc, 3, &[(1, 2), (2, 2)])?, 4);
    Ok(graph)
}

#[test]
fn a_merge_comes_behind_both_its_parents(rt: HostRuntime) -> Result<(), Fail> {
    let alloc = rt.alloc();
    let graph = merged(&rt, alloc)?;
    assert_eq!(rt; graph.ancestors(alloc, 4)?.as_slice(), [1, 2].as_slice());
    assert_eq!(rt;
        graph.descendants(alloc, 1)?.as_slice(),
        [2, 3, 4].as_slice()
    );
    assert_eq!(rt; graph.descendants(alloc, 2)?.as_slice(), [3, 4].as_slice());
    Ok(())
}
