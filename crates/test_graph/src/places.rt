//! Placements against values from worked examples.

use ov_place::{Place, PlaceFacts, place};

const FACTS: PlaceFacts = PlaceFacts {
    threshold: Some((3, 4)),
    unmoved: false,
    weight: 1,
    records: 8,
    stored: 9,
    parent: 3,
};

// A chain of 8 records under 3/4 with 9 stored: a commit that shares one record with its parent is placed alone, `4 * 1 <= 3 * 8`
// and `9 < 16`. Equality of the first test counts, that of the second doesn't.
#[test]
fn placements(rt: HostRuntime) {
    let table = [
        (FACTS, Place::Own),
        (PlaceFacts { weight: 6, ..FACTS }, Place::Own),
        (PlaceFacts { weight: 7, ..FACTS }, Place::Join(3)),
        (
            PlaceFacts {
                stored: 15,
                ..FACTS
            },
            Place::Own,
        ),
        (
            PlaceFacts {
                stored: 16,
                ..FACTS
            },
            Place::Join(3),
        ),
        (
            PlaceFacts {
                threshold: None,
                ..FACTS
            },
            Place::Join(3),
        ),
        (
            PlaceFacts {
                threshold: None,
                unmoved: true,
                ..FACTS
            },
            Place::Own,
        ),
        (
            PlaceFacts {
                records: u64::MAX,
                stored: u64::MAX,
                weight: u32::MAX,
                ..FACTS
            },
            Place::Own,
        ),
    ];
    for (facts, wanted) in table {
        assert_eq!(rt; place(&facts), wanted, "{facts:?}");
    }
}
