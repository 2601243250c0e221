//! The writers of messages.

ghost use Rattle.std.specs.Prelude.{◌≡◌, ◌≤◌, ◌<◌, ◌+◌, ◌-◌, ◌↔◌, ℕ, List, ◌++◌};
ghost use Rattle.std.specs.Prelude.{length, IsErrOf, IsOk, OnOk, IsOkUnless};
ghost use Rattle.stun_base.specs.Header.{HEADER_LENGTH as header_length};
ghost use Rattle.stun_types.specs.Message.{with_length};

use stun_base::data::OwnedBytes;
use stun_base::error::StunWriteError;

pub(crate) mod append;
pub(crate) mod ext;
mod mut_slice;
mod vec;

pub use mut_slice::MessageWriteMutSlice;
pub use vec::MessageWriteVec;

/// A writer in which a message is built.
///
/// Bytes can be appended only if they were reserved before, so `reserve` is the only call that can
/// fail.
pub trait MessageWrite: Drop {
    /// The type that `finish` returns. It contains the bytes of the message.
    type Output: OwnedBytes;

    // The bytes that were written so far.
    ghost bytes: { Self → List ℕ };

    // A statement under which no allocation of the writer fails.
    ghost grants: { Type 0 };

    // The number of bytes that can still be written.
    ghost room: { Self → ℕ };

    // The number of bytes that can be appended without another call of `reserve`.
    ghost reserved: { Self → ℕ };

    /// Returns the bytes that were written so far.
    fn data(&self) -> &[u8]
        ensures { result.now ≡ bytes self.now };

    /// Returns the number of bytes that can still be written.
    fn room(&self) -> usize
        ensures value { result ≡ room self.now }
        ensures reserved { reserved self.now ≤ room self.now };

    /// Reserves `additional` bytes, so that at least this many bytes can be appended. If they are
    /// reserved already, the call succeeds. In every case, bytes that were reserved before stay
    /// reserved, and the bytes and the room of the writer are unchanged.
    ///
    /// # Errors
    ///
    /// The first of these that applies:
    ///
    /// - `TooSmall`: the writer has room for fewer than `additional` bytes.
    /// - `OutOfMemory`: an allocation failed.
    fn reserve(&mut self, additional: usize) -> Result<(), StunWriteError>
        ensures bytes { bytes self.new ≡ bytes self.old }
        ensures room { room self.new ≡ room self.old }
        ensures ok { OnOk result (additional ≤ reserved self.new) }
        ensures too_small { IsErrOf result StunWriteError.TooSmall ↔ (room self.old < additional) }
        ensures otherwise_memory { additional ≤ room self.old
            → IsOkUnless result StunWriteError.OutOfMemory }

        // If the writer has the room, the call fails only if an allocation fails.
        ensures granted { grants → additional ≤ room self.old → IsOk result }

        // If the bytes are reserved already, the call succeeds.
        ensures reserved { additional ≤ reserved self.old → IsOk result }
        ensures kept { reserved self.old ≤ reserved self.new };

    /// Appends bytes, which the caller must have reserved.
    fn append(&mut self, tail: &[u8])
        requires { length tail.now ≤ reserved self.old }
        ensures bytes { bytes self.new ≡ bytes self.old ++ tail.now }
        ensures room { room self.new + length tail.now ≡ room self.old }
        ensures reserved { reserved self.new + length tail.now ≡ reserved self.old };

    /// Sets the length field of the header, which the writer must contain already.
    fn set_length(&mut self, message_length: u16)
        requires { header_length ≤ length (bytes self.old) }
        ensures bytes { bytes self.new ≡ with_length (bytes self.old) message_length }
        ensures room { room self.new ≡ room self.old }
        ensures reserved { reserved self.new ≡ reserved self.old };

    /// Finishes the message, and returns it.
    fn finish(self) -> Self::Output
        ensures { Self.Output.contents result ≡ bytes self };
}
