//! The pages of extents, and ends that tell nothing or fail.

use ov_host::{Area, Extent, Failed, Found, Host, NullHost, NullSource, NullStage, Source, Stage};
use std::test::Fail;

// Bytes of an extent, and the pages that it covers.
const COVERED: [(u32, u32); 5] = [(0, 0), (1, 1), (4096, 1), (4097, 2), (u32::MAX, 1_048_576)];

#[test]
fn an_extent_covers_whole_pages(rt: HostRuntime) {
    for (bytes, pages) in COVERED {
        let extent = Extent { page: 3, bytes };
        assert!(rt; extent.pages() == pages);
    }
}

#[test]
fn an_end_that_tells_nothing_answers(rt: HostRuntime) -> Result<(), Fail> {
    let mut host = NullHost::new(false);
    assert!(rt; host.len(Area::Pages)? == 0);
    host.write(Area::Journal, 5, b"gone")?;
    host.sync(Area::Journal)?;
    host.print(b"gone")?;
    assert!(rt; host.read(Area::Journal, 0, &mut [1, 2])? == 0);
    assert!(rt; NullSource::new(false).read(&mut [1, 2])? == 0);
    let mut stage = NullStage::new(false);
    assert!(rt; stage.find("a.csv")? == Found::Yes);
    assert!(rt; stage.read(&mut [1, 2])? == 0);
    stage.create("b.csv")?;
    stage.write(b"gone")?;
    stage.finish()?;
    Ok(())
}

#[test]
fn an_end_that_fails_fails(rt: HostRuntime) {
    let mut host = NullHost::new(true);
    assert!(rt; host.len(Area::Pages).is_err());
    assert!(rt; host.write(Area::Pages, 0, b"x").is_err());
    assert!(rt; NullSource::new(true).read(&mut [1, 2]).is_err());
    assert!(rt; NullStage::new(true).find("a.csv").is_err());
}
