//! Writes to the caller's buffer.

ghost use Rattle.std.specs.Prelude.{Ok};
ghost use Rattle.stun_c.specs.Answers.{WritesWithin};

use stun_numbers::buffer::fill;

/// Copies the bytes to the front of the buffer, and returns their number. If they do not fit,
/// returns the code of `BufferTooSmall` and leaves the buffer unchanged.
pub fn write(buffer: &mut [u8], bytes: &[u8]) -> i64
    ensures { WritesWithin (Ok bytes.now) buffer.old result buffer.new }
{
    match fill(buffer, bytes) {
        Ok(count) => count as i64,
        Err(refusal) => refusal.code(),
    }
}
