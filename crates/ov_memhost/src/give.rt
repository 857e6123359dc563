// Bytes for a buffer.
ghost use Rattle.std.specs.Prelude.{◌≡◌, min, take, length};

/// Copies the first bytes into a buffer, as many as both have, and answers how many.
pub fn give(bytes: &[u8], buf: &mut [u8]) -> usize
    ensures count { result ≡ min (length buf.old) (length bytes.now) }
    ensures bytes { take result buf.new ≡ take result bytes.now }
{
    let count = buf.len().min(bytes.len());
    buf[..count].copy_from_slice(&bytes[..count]);
    count
}
