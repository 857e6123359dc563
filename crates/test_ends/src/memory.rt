//! Ends in memory: stops and failing calls as tables of cases, and a program over fresh ends.

ghost use Rattle.std.specs.Prelude.{◌≡◌, ◌++◌, true, OnOk, IfOk};
ghost use Rattle.ov_memhost.specs.Host.{state_of};

use ov_host::{Area, Failed, Found, Host, Source, Stage};
use ov_memhost::*;
use std::alloc::Global;
use std::test::Fail;

const GREETING: &[u8] = b"hello";

// A program over any host.
fn greet<H: Host>(host: &mut H) -> Result<(), Failed>
    ensures { OnOk result ((H.state host.old).tells ≡ true
        → (H.state host.new).tape.disk.printed ≡ (H.state host.old).tape.disk.printed ++ GREETING.now) }
{
    host.print(GREETING)?;
    Ok(())
}

// What the program does on a fresh host in memory.
fn greeted(alloc: Global) -> Result<MemHost, Failed>
    ensures { IfOk result (λ host. (state_of host).tape.disk.printed ≡ GREETING.now) }
{
    let mut host = MemHost::new(alloc, Vec::new(alloc), Vec::new(alloc), Vec::new(alloc));
    greet(&mut host)?;
    Ok(host)
}

// A stop in a call, a length that is asked for, the bytes to pick, and the pages that are left.
type Case = (u64, u64, &'static [u8], &'static [u8]);

// Pages 1 2 3 4; call 0 writes 9 9 9 9 at place 2, call 1 syncs, call 2 reads the length.
const ACROSS_THE_END: [Case; 14] = [
    (0, 0, &[0x00], &[1, 2, 0x00, 0x00]),
    (0, 0, &[0xa5], &[1, 2, 0xa5, 0xa5]),
    (0, 0, &[0x5a], &[1, 2, 0x5a, 0x5a]),
    (0, 5, &[0xa5], &[1, 2, 0xa5, 0xa5, 0xa5]),
    (0, u64::MAX, &[0x00], &[1, 2, 0x00, 0x00, 0x00, 0x00]),
    (0, u64::MAX, &[0xa5], &[1, 2, 0xa5, 0xa5, 0xa5, 0xa5]),
    (0, u64::MAX, &[0x5a], &[1, 2, 0x5a, 0x5a, 0x5a, 0x5a]),
    (1, 0, &[0x00], &[1, 2, 0x00, 0x00]),
    (1, 0, &[0xa5], &[1, 2, 0xa5, 0xa5]),
    (1, u64::MAX, &[0x5a], &[1, 2, 0x5a, 0x5a, 0x5a, 0x5a]),
    (
        1,
        u64::MAX,
        &[0xa5, 0x5a, 0x00],
        &[1, 2, 0xa5, 0x5a, 0x00, 0xa5],
    ),
    (2, 0, &[0x00], &[1, 2, 9, 9, 9, 9]),
    (2, u64::MAX, &[0xa5], &[1, 2, 9, 9, 9, 9]),
    (3, 0, &[0x5a], &[1, 2, 9, 9, 9, 9]),
];

#[test]
fn a_write_across_the_end_is_torn_until_its_sync(rt: HostRuntime) -> Result<(), Fail> {
    let alloc = rt.alloc();
    let mut host = MemHost::new(
        alloc,
        vec![in alloc; 1, 2, 3, 4]?,
        vec![in alloc; 7]?,
        Vec::new(alloc),
    );
    assert!(rt; host.bytes(Area::Pages).len() == 4);
    host.write(Area::Pages, 2, &[9, 9, 9, 9])?;
    host.sync(Area::Pages)?;
    assert!(rt; host.len(Area::Pages)? == 6);
    for (call, length, pick, left) in ACROSS_THE_END {
        assert!(rt; call <= host.calls() && !pick.is_empty());
        let after = host.crash_at(call, length, 0, pick)?;
        assert!(rt; after.bytes(Area::Pages) == left);
        assert!(rt; after.bytes(Area::Journal) == [7].as_slice());
        assert!(rt; after.calls() == 0);
    }
    Ok(())
}

#[test]
fn a_torn_byte_may_be_any_of_256(rt: HostRuntime) -> Result<(), Fail> {
    let alloc = rt.alloc();
    let mut host = MemHost::new(alloc, vec![in alloc; 7]?, Vec::new(alloc), Vec::new(alloc));
    host.write(Area::Pages, 0, &[9])?;
    host.write(Area::Journal, 0, &[9])?;
    for byte in 0..=255u8 {
        let after = host.crash_at(1, 0, 1, &[byte, !byte])?;
        assert!(rt; after.bytes(Area::Pages) == [byte].as_slice());
        assert!(rt; after.bytes(Area::Journal) == [!byte].as_slice());
    }
    Ok(())
}

// A stop in a call, the bytes to pick, and the bytes that are printed.
const PRINTED: [(u64, u8, &[u8]); 6] = [
    (0, 0, b""),
    (0, 2, b"he"),
    (0, 200, b"hello"),
    (1, 0, b"hello"),
    (1, 3, b"hellowor"),
    (2, 3, b"helloworld"),
];

#[test]
fn a_print_is_cut(rt: HostRuntime) -> Result<(), Fail> {
    let alloc = rt.alloc();
    let mut host = greeted(alloc)?;
    host.print(b"world")?;
    for (call, cut, printed) in PRINTED {
        assert!(rt; call <= host.calls());
        let mut after = host.crash_at(call, 0, 0, &[cut])?;
        assert!(rt; after.printed() == printed);
        after.print(b"!")?;
        assert!(rt; after.crash_at(0, 0, 0, &[0])?.printed() == printed);
    }
    Ok(())
}

#[test]
fn listed_calls_of_a_host_do_nothing(rt: HostRuntime) -> Result<(), Fail> {
    let alloc = rt.alloc();
    let mut host = MemHost::new(
        alloc,
        Vec::new(alloc),
        Vec::new(alloc),
        vec![in alloc; 1, 4, 3]?,
    );
    host.write(Area::Pages, 0, b"ab")?;
    assert!(rt; host.write(Area::Pages, 0, b"x").is_err());
    let mut buf = [0; 4];
    assert!(rt; host.read(Area::Pages, 1, &mut buf)? == 1);
    assert!(rt; host.sync(Area::Pages).is_err());
    assert!(rt; host.print(b"x").is_err());
    assert!(rt; (host.printed(), host.bytes(Area::Pages)) == (b"".as_slice(), b"ab".as_slice()));
    assert!(rt; host.crash_at(5, 0, 0, &[1])?.bytes(Area::Pages) == b"".as_slice());
    assert!(rt; (host.calls(), host.starved()) == (5, 0));
    Ok(())
}

#[test]
fn a_listed_read_of_a_source_fails(rt: HostRuntime) -> Result<(), Fail> {
    let alloc = rt.alloc();
    let mut buf = [0; 4];
    let mut source = MemSource::new(alloc, vec![in alloc; 7, 8]?, vec![in alloc; 0]?);
    assert!(rt; source.read(&mut buf).is_err());
    assert!(rt; source.read(&mut buf)? == 2);
    assert!(rt; source.read(&mut buf)? == 0);
    assert!(rt; source.starved() == 0);
    Ok(())
}

#[test]
fn a_stage_keeps_finished_files(rt: HostRuntime) -> Result<(), Fail> {
    let alloc = rt.alloc();
    let name = String::from_str(alloc, "a.csv")?;
    let again = String::from_str(alloc, "a.csv")?;
    let files = vec![in alloc; (name, vec![in alloc; 1, 2]?), (again, vec![in alloc; 3]?)]?;
    let mut stage = MemStage::new(alloc, files, vec![in alloc; 1]?);
    assert!(rt; stage.file("a.csv") == Some([1, 2].as_slice()));
    assert!(rt; stage.find("b.csv")? == Found::Missing);
    assert!(rt; stage.create("b.csv").is_err());
    stage.create("b.csv")?;
    stage.write(b"x,")?;
    stage.write(b"y")?;
    assert!(rt; stage.file("b.csv") == None);
    stage.finish()?;
    assert!(rt; stage.file("b.csv") == Some(b"x,y".as_slice()));
    assert!(rt; stage.starved() == 0);
    Ok(())
}

// How many small writes the test of time does.
const WRITES: u64 = 100_000;

#[test]
fn many_small_writes_are_played_again(rt: HostRuntime) -> Result<(), Fail> {
    let alloc = rt.alloc();
    let mut host = MemHost::new(alloc, Vec::new(alloc), Vec::new(alloc), Vec::new(alloc));
    for _ in 0..WRITES {
        let end = host.bytes(Area::Journal).len() as u64;
        host.write(Area::Journal, end, &[1])?;
    }
    let after = host.crash_at(host.calls(), 0, u64::MAX, &[2, 3])?;
    assert!(rt; after.bytes(Area::Journal).len() as u64 == WRITES);
    Ok(())
}
