//! Rows fetched from pages in memory, and the parts of a scan.

use ov_fetch::{FetchErr, Pick, Picks, Scan, Vids, list_of, rows_of};
use ov_host::Extent;
use ov_memhost::MemHost;
use ov_segment::{RecordTable, Table};
use ov_value::{Column, Kind, Schema, Txt};
use std::alloc::{AllocError, Global};
use std::test::Fail;

// Two versions of ints: the first has the records 1 and 2, the second the records 2 and 3. Lists are on the pages 0 and 2,
// segments on 1 and 3.
const PARTS: [&[u8]; 4] = [
    b"\0\0\0\x01\0\0\0\x02",
    b"\0\0\0\x01\0\0\0\x08\0\0\0\0\0\0\0\x0a\0\0\0\x02\0\0\0\x08\0\0\0\0\0\0\0\x14",
    b"\0\0\0\x02\0\0\0\x02",
    b"\0\0\0\x03\0\0\0\x08\0\0\0\0\0\0\0\x1e",
];

const LISTS: [Extent; 2] = [Extent { page: 0, bytes: 8 }, Extent { page: 2, bytes: 8 }];

const SEGMENTS: [Extent; 2] = [Extent { page: 1, bytes: 32 }, Extent { page: 3, bytes: 16 }];

// A host whose pages begin with these parts.
fn host_of(alloc: Global) -> Result<MemHost, AllocError> {
    let mut bytes = Vec::new(alloc);
    let mut end = 0usize;
    for part in PARTS {
        bytes.resize(end, 0)?;
        bytes.extend_from_slice(part)?;
        end = end.saturating_add(4096);
    }
    Ok(MemHost::new(alloc, bytes, Vec::new(alloc), Vec::new(alloc)))
}

fn schema_of(alloc: Global) -> Result<Schema, Fail> {
    let mut columns = Vec::new(alloc);
    let name = Txt::new(alloc, "id")?;
    columns.push(Column {
        name,
        kind: Kind::Int,
    })?;
    let mut key = Vec::new(alloc);
    key.push(Txt::new(alloc, "id")?)?;
    Ok(Schema::new(alloc, columns, key)?)
}

// The records of both.
fn fetched(alloc: Global, host: &mut MemHost, schema: &Schema) -> Result<RecordTable, FetchErr> {
    let members = [
        list_of(alloc, host, LISTS[0])?,
        list_of(alloc, host, LISTS[1])?,
    ];
    rows_of(alloc, host, schema, &SEGMENTS, &LISTS, &members)
}

fn rids(alloc: Global, records: &RecordTable) -> Result<Vec<u32>, AllocError> {
    let mut rids = Vec::new(alloc);
    for i in 0..records.len() {
        rids.push(records.rid(i))?;
    }
    Ok(rids)
}

#[test]
fn records_are_fetched_once_in_the_order_of_their_rids(rt: HostRuntime) -> Result<(), Fail> {
    let alloc = rt.alloc();
    let schema = schema_of(alloc)?;
    let mut host = host_of(alloc)?;
    let records = fetched(alloc, &mut host, &schema)?;
    assert_eq!(rt; rids(alloc, &records)?.as_slice(), [1, 2, 3].as_slice());
    // Each list and each segment is read once.
    assert_eq!(rt; host.calls(), 4);
    Ok(())
}

#[test]
fn the_lists_of_a_scan_are_given_back(rt: HostRuntime) -> Result<(), Fail> {
    let alloc = rt.alloc();
    let schema = schema_of(alloc)?;
    let mut vids = Vec::new(alloc);
    vids.push(2)?;
    let mut picks = Vec::new(alloc);
    picks.push(Pick::new(Vec::from_slice(alloc, &[4, 0])?))?;
    let scan = Scan {
        vids: Vids::new(vids),
        records: RecordTable::new(Table::new(alloc, &schema)?),
        picks: Picks::new(picks),
    };
    assert_eq!(rt; scan.vids.as_slice(), [2].as_slice());
    assert_eq!(rt; scan.picks.as_slice().len(), 1);
    let Scan {
        vids,
        records,
        picks,
    } = scan;
    assert_eq!(rt; vids.into_vec().len(), 1);
    assert_eq!(rt; records.len(), 0);
    for pick in picks.into_vec() {
        assert_eq!(rt; pick.as_slice(), [4, 0].as_slice());
        assert_eq!(rt; pick.into_vec().len(), 2);
    }
    Ok(())
}
