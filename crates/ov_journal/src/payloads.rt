// The payloads of a journal's records.

use ov_items::Items;

/// The payload of one record.
pub type Payload = Items<u8>;

/// The payloads of a journal's records, in their order.
pub type Payloads = Items<Payload>;
