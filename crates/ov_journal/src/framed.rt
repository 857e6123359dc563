// Records, ready to be written.
ghost use Rattle.std.specs.Prelude.{◌≡◌, ◌≤◌, ◌<◌, ◌↔◌, ◌^◌, ◌++◌, length, IsTrue, IfOk, OnOk};
ghost use Rattle.ov_journal.specs.Bytes.{record_of};
ghost use Rattle.ov_journal.specs.Snapshots.{size_of};

use crate::header::OPEN;
use crate::journal::JOURNAL_BYTES;
use crate::payloads::Payload;
use crate::reading::FRONT_BYTES;
use crate::snapshots::Snapshot;
use std::alloc::{AllocError, Global};
use std::marker::Model;

/// A record behind its gate: its payload's length and its payload, and a closed gate. Contracts see it as its payload.
#[derive(Drop)]
pub struct Framed {
    bytes: Vec<u8>,
}

impl Model for Framed {
    ghost use Rattle.std.specs.Prelude.{◌≡◌, ◌≤◌, ◌+◌, ◌-◌, ◌^◌, ℕ, List, [], ◌∷◌, ◌++◌, length, take, drop};
    ghost use Rattle.ov_journal.specs.Bytes.{body};

    ghost Value = { List ℕ };

    ghost view = { λ f. take (length f.bytes.items - 5) (drop 4 f.bytes.items) };

    ghost invariant = { λ f. (f.bytes.items ≡ body (take (length f.bytes.items - 5) (drop 4 f.bytes.items)) ++ 0 ∷ [])
        × (length f.bytes.items ≤ 2 ^ 28 + 5) };
}

/// The record of a payload of at most 2^28 bytes.
pub fn frame(alloc: Global, payload: &[u8]) -> Result<Framed, AllocError>
    requires { length payload.now ≤ 2 ^ 28 }
    ensures { IfOk result (λ framed. framed ≡ payload.now) }
{
    let mut bytes = Vec::with_capacity(alloc, payload.len() + 5)?;
    let length = payload.len() as u32;
    bytes.extend_from_slice(&length.to_be_bytes())?;
    bytes.extend_from_slice(payload)?;
    bytes.push(0)?;
    Ok(Framed { bytes })
}

impl Framed {
    ghost use Rattle.std.specs.Prelude.{[], ◌∷◌, ◌++◌};
    ghost use Rattle.ov_journal.specs.Bytes.{body};

    // What is written behind the gate.
    pub(crate) fn as_bytes(&self) -> &[u8]
        ensures bytes { result.now ≡ body self.now ++ 0 ∷ [] }
        ensures bound { length self.now ≤ 2 ^ 28 }
    {
        self.bytes.as_slice()
    }
}

// Appends a record with its gate, open.
fn push_record(bytes: &mut Vec<u8>, payload: &[u8]) -> Result<(), AllocError>
    requires { length payload.now < 2 ^ 32 }
    ensures { OnOk result (bytes.new.items ≡ bytes.old.items ++ record_of payload.now) }
{
    let length = payload.len() as u32;
    bytes.push(OPEN)?;
    bytes.extend_from_slice(&length.to_be_bytes())?;
    bytes.extend_from_slice(payload)?;
    Ok(())
}

/// Whether a snapshot of these payloads takes at most 2^28 bytes: five for each beside its own, and one for the closed
/// gate.
pub fn can_snapshot(payloads: &[Payload]) -> bool
    ensures { IsTrue result ↔ (size_of payloads.now ≤ 2 ^ 28) }
{
    let mut left = JOURNAL_BYTES - 1;
    for payload in payloads {
        let size = payload.as_slice().len() as u64 + FRONT_BYTES;
        if left < size {
            return false;
        }
        left -= size;
    }
    true
}

/// The snapshot of these payloads, which `can_snapshot`.
pub fn snapshot(alloc: Global, payloads: &[Payload]) -> Result<Snapshot, AllocError>
    requires { size_of payloads.now ≤ 2 ^ 28 }
    ensures { IfOk result (λ snapshot. snapshot ≡ payloads.now) }
{
    let mut frames = Vec::new(alloc);
    for payload in payloads {
        push_record(&mut frames, payload.as_slice())?;
    }
    frames.push(0)?;
    Ok(Snapshot::of(frames))
}
