//! A run over fresh ends.
use crate::ends::files;
use crate::run_fresh;
use ov_top::Status;
use std::test::Fail;

const SCRIPT: &[u8] =
    b"init people -s id:int,name:text,score:int -k id -f a.csv\ncheckout people -v 1 -f out.csv\n";

#[test]
fn a_checkout_goes_into_a_file(rt: HostRuntime) -> Result<(), Fail> {
    let alloc = rt.alloc();
    let t = run_fresh(alloc, Vec::from_slice(alloc, SCRIPT)?, files(alloc)?)?;
    assert!(rt; t.status == Status::Done);
    assert!(rt; t.stage.file("out.csv") == t.stage.file("a.csv"));
    Ok(())
}
