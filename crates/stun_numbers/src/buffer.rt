//! Writes to the buffer that a caller passes.

ghost use Rattle.std.specs.Prelude.{◌≡◌, ◌≤◌, ◌++◌, length, drop, Ok};
ghost use Rattle.stun_numbers.specs.Buffers.{buffer_after, length_of, within_room};

use crate::refusal::Refusal;

/// Copies bytes to the front of a buffer, which must have room for them. The rest of the buffer is
/// unchanged.
pub fn put(buffer: &mut [u8], bytes: &[u8])
    requires { length bytes.now ≤ length buffer.old }
    ensures { buffer.new ≡ bytes.now ++ drop (length bytes.now) buffer.old }
{
    buffer[..bytes.len()].copy_from_slice(bytes);
}

/// Copies bytes to the front of a buffer, and returns their number. The rest of the buffer is
/// unchanged.
///
/// # Errors
///
/// `BufferTooSmall`: the bytes do not fit into the buffer, which is then unchanged.
pub fn fill(buffer: &mut [u8], bytes: &[u8]) -> Result<usize, Refusal>
    ensures answer { result ≡ length_of (within_room (Ok bytes.now) (length buffer.old)) }
    ensures written { buffer.new ≡ buffer_after
        (within_room (Ok bytes.now) (length buffer.old)) buffer.old }
{
    if buffer.len() < bytes.len() {
        return Err(Refusal::BufferTooSmall);
    }
    put(buffer, bytes);
    Ok(bytes.len())
}
