// The records of a snapshot, ready to be written.
ghost use Rattle.std.specs.Prelude.{◌≡◌, ◌≤◌, ◌^◌, length};

use std::marker::Model;

/// The records of a snapshot with open gates, and a closed gate behind them. Contracts see it as the list of its payloads.
#[derive(Drop)]
pub struct Snapshot {
    bytes: Vec<u8>,
}

impl Model for Snapshot {
    ghost use Rattle.std.specs.Prelude.{◌≡◌, ◌≤◌, ◌^◌, ℕ, List, length};
    ghost use Rattle.ov_journal.specs.Snapshots.{frames_of, payloads_in, size_of};

    ghost Value = { List (List ℕ) };

    ghost view = { λ s. payloads_in s.bytes.items };

    ghost invariant = { λ s. (s.bytes.items ≡ frames_of (payloads_in s.bytes.items)) × (length s.bytes.items ≤ 2 ^ 28) };
}

impl Snapshot {
    ghost use Rattle.ov_journal.specs.Snapshots.{frames_of, payloads_in, size_of};

    // The snapshot whose records these bytes are.
    pub(crate) fn of(bytes: Vec<u8>) -> Snapshot
        requires { (bytes.items ≡ frames_of (payloads_in bytes.items)) × (length bytes.items ≤ 2 ^ 28) }
        ensures { result ≡ payloads_in bytes.items }
    {
        Snapshot { bytes }
    }

    // What is written.
    pub(crate) fn as_bytes(&self) -> &[u8]
        ensures bytes { result.now ≡ frames_of self.now }
        ensures bound { size_of self.now ≤ 2 ^ 28 }
    {
        self.bytes.as_slice()
    }
}
