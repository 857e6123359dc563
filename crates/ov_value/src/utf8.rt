//! Whether bytes are text, quickly where they are ASCII.

ghost use Rattle.std.specs.Prelude.{◌<◌, ◌≤◌, ◌+◌, ◌↔◌, ◌∷◌, ℕ, [], length, slice_index_or, IsTrue, IsUtf8};
ghost use Rattle.std.specs.List.{All};

use std::str;

/// The highest bit of each of eight bytes.
const HIGH_BITS: u64 = 0x8080_8080_8080_8080;

/// Whether the bytes are UTF-8. Most texts are ASCII, which is tested eight bytes at a time.
pub fn is_text(bytes: &[u8]) -> bool
    ensures { IsTrue result ↔ IsUtf8 bytes.now }
{
    if are_ascii(bytes) {
        return true;
    }
    is_utf8(bytes)
}

#[inline(never)]
fn is_utf8(bytes: &[u8]) -> bool
    ensures { IsTrue result ↔ IsUtf8 bytes.now }
{
    str::from_utf8(bytes).is_ok()
}

fn are_ascii(bytes: &[u8]) -> bool
    ensures { IsTrue result → All (λ byte. byte < 128) bytes.now }
{
    let mut rest = bytes;
    while let [a, b, c, d, e, f, g, h, more @ ..] = rest {
        if !are_low(*a, *b, *c, *d, *e, *f, *g, *h) {
            return false;
        }
        rest = more;
    }
    // Fewer than eight are left, and they are among the last eight.
    if bytes.len() >= 8 {
        return are_last_low(bytes);
    }
    for byte in rest {
        if *byte >= 128 {
            return false;
        }
    }
    true
}

#[inline(always)]
fn are_last_low(bytes: &[u8]) -> bool
    requires { 8 ≤ length bytes.now }
    ensures { IsTrue result → (k : ℕ) → length bytes.now ≤ k + 8 → k < length bytes.now → slice_index_or bytes.now k 0 < 128 }
{
    let at = bytes.len() - 8;
    are_low(
        bytes[at],
        bytes[at + 1],
        bytes[at + 2],
        bytes[at + 3],
        bytes[at + 4],
        bytes[at + 5],
        bytes[at + 6],
        bytes[at + 7],
    )
}

// The eight bytes are one number, whose bits are tested together: the highest one of each byte.
#[inline(always)]
fn are_low(a: u8, b: u8, c: u8, d: u8, e: u8, f: u8, g: u8, h: u8) -> bool
    ensures { IsTrue result → All (λ byte. byte < 128) (a ∷ b ∷ c ∷ d ∷ e ∷ f ∷ g ∷ h ∷ []) }
{
    u64::from_le_bytes([a, b, c, d, e, f, g, h]) & HIGH_BITS == 0
}
