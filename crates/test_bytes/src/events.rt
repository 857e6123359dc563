//! Bytes that are an event, also where no event of a store can be that yet, and bytes that are none.

use ov_event::*;
use std::alloc::{AllocError, Global};
use std::test::Fail;

const WHOLE: &[u8] = b"\x08\0\0\0\x01\0\0\0\x01d\x01\0\0\0\x01k\x03\x01\0\
    \0\0\0\x09\0\0\0\x05\0\0\0\x02\0\0\0\x04\
    \0\0\0\x01\0\0\0\0\0\x01m\0\0\0\x02\0\0\0\x02\0\0\0\x06\0\0\0\x08\
    \0\0\0\x01\0\0\0\x03\0\0\0\x01\0\0\0\x01\0\0\0\0\0\0\0\x02\0\0\0\x01\0\0\0\x07\0\0\0\x2e\
    \x01\0\0\0\0\0\0\0\x02\0\0\0\x01\0\0\0\x01\0\0\0\x01\0\0\0\x02\0\0\0\x03\0\0\0\0\0\0\0\0\0\0\0\0";

const WIDE: &[u8] = b"\x09\0\0\0\x01\0\0\0\x02\0\0\0\0\
    \x01\0\0\0\x04team\x02\
    \0\x01\0\0\0\x01\0\0\0\x02\0\0\0\x03\0\0\0\x03\0\0\0\0\x02\
    \0\0\0\0\0\0\0\x08\0\0\0\x04\0\0\0\x40";

// Whether the bytes spell an event which has these bytes.
fn come_back(alloc: Global, bytes: &[u8]) -> Result<bool, AllocError> {
    match read_event(alloc, bytes)? {
        None => Ok(false),
        Some(event) => {
            let again = bytes_of(alloc, &event)?;
            Ok(again.as_slice() == bytes)
        }
    }
}

// Bytes, and whether they spell an event.
const EVENTS_OR_NOT: &[(&[u8], bool)] = &[
    (WHOLE, true),
    (WIDE, true),
    // a version with an added column, with a byte more and with one less
    (
        b"\x09\0\0\0\x01\0\0\0\x02\0\0\0\0\
    \x01\0\0\0\x04team\x02\
    \0\x01\0\0\0\x01\0\0\0\x02\0\0\0\x03\0\0\0\x03\0\0\0\0\x02\
    \0\0\0\0\0\0\0\x08\0\0\0\x04\0\0\0\x40\0",
        false,
    ),
    (
        b"\x09\0\0\0\x01\0\0\0\x02\0\0\0\0\
    \x01\0\0\0\x04team\x02\
    \0\x01\0\0\0\x01\0\0\0\x02\0\0\0\x03\0\0\0\x03\0\0\0\0\x02\
    \0\0\0\0\0\0\0\x08\0\0\0\x04\0\0\0",
        false,
    ),
    // nothing
    (b"", false),
    // tag 0
    (b"\0\0\0\0\x01", false),
    // tag 10
    (b"\x0a\0\0\0\x01", false),
    // no UTF-8
    (
        b"\x01\0\0\0\x01\xff\0\0\0\0\0\x02\0\0\0\0\0\0\0\x08\0\0\0\x01\0\0\0\x3e",
        false,
    ),
    // kind 0
    (
        b"\x01\0\0\0\x01a\x01\0\0\0\x01a\0\0\0\0\0\x02\0\0\0\0\0\0\0\x08\0\0\0\x01\0\0\0\x3e",
        false,
    ),
    // kind 4
    (
        b"\x01\0\0\0\x01a\x01\0\0\0\x01a\x04\0\0\0\0\x02\0\0\0\0\0\0\0\x08\0\0\0\x01\0\0\0\x3e",
        false,
    ),
    // place 2
    (
        b"\x02\0\0\0\x01\0\0\0\x02\0\0\0\0\0\0\0\0\0\x09\0\0\0\x03\x02\0\0\0\x04\0\0\0\x07\0\0\0\x02\0\0\0\x10\0\0\0\x03\0\0\0\x20",
        false,
    ),
    // a text past the end
    (b"\x01\xff\xff\xff\xffa", false),
    // targets past the end
    (b"\x03\0\0\0\x01\0\0\0\x05\0\0\0\x02\xff\xff\xff\xff", false),
];

#[test]
fn bytes_are_an_event_or_none(rt: HostRuntime) -> Result<(), Fail> {
    for (bytes, want) in EVENTS_OR_NOT {
        assert_eq!(rt; come_back(rt.alloc(), bytes)?, *want, "{bytes:?}");
    }
    Ok(())
}
