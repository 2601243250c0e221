//! A writer into a borrowed slice.

ghost use Rattle.std.specs.Prelude.{◌≡◌, [], length};

use crate::write::MessageWrite;
use byteorder::{BigEndian, ByteOrder};
use std::marker::Model;
use stun_base::error::StunWriteError;

/// A writer that writes a message to a slice. It does not allocate.
///
/// After the bytes that were written, the slice may contain any bytes.
///
/// Contracts: the value is a record of the bytes that were written so far, and the number of bytes
/// that can still be written.
#[derive(Debug, Drop)]
pub struct MessageWriteMutSlice<'a> {
    buffer: &'a mut [u8],
    written: usize,
}

impl<'a> Model for MessageWriteMutSlice<'a> {
    ghost use Rattle.std.specs.Prelude.{◌-◌, ◌≤◌, length, take};
    ghost use Rattle.stun_types.specs.WriteMutSlice.{WrittenInSlice};

    ghost Value = { WrittenInSlice };

    ghost view = { λ writer. record {
      bytes = take writer.written writer.buffer.now;
      room = length writer.buffer.now - writer.written;
    } };

    ghost invariant = { λ writer. writer.written ≤ length writer.buffer.now };
}

impl<'a> MessageWriteMutSlice<'a> {
    /// Creates a writer that writes to this slice.
    pub fn new(buffer: &'a mut [u8]) -> Self
        ensures { result ≡ record { bytes = []; room = length buffer.old } }
    {
        MessageWriteMutSlice { buffer, written: 0 }
    }
}

impl<'a> MessageWrite for MessageWriteMutSlice<'a> {
    ghost use Rattle.std.specs.Prelude.{⊤};

    type Output = &'a [u8];

    ghost bytes = { λ writer. writer.bytes };

    // The writer needs no memory, so nothing can fail.
    ghost grants = { ⊤ };

    ghost room = { λ writer. writer.room };

    // All of the room is reserved.
    ghost reserved = { λ writer. writer.room };

    fn data(&self) -> &[u8] {
        &self.buffer[..self.written]
    }

    fn room(&self) -> usize {
        self.buffer.len() - self.written
    }

    fn reserve(&mut self, additional: usize) -> Result<(), StunWriteError> {
        if self.room() < additional {
            return Err(StunWriteError::TooSmall);
        }
        Ok(())
    }

    fn append(&mut self, tail: &[u8]) {
        let end = self.written + tail.len();
        self.buffer[self.written..end].copy_from_slice(tail);
        self.written = end;
    }

    fn set_length(&mut self, message_length: u16) {
        BigEndian::write_u16(&mut self.buffer[2..], message_length);
    }

    fn finish(self) -> &'a [u8] {
        let MessageWriteMutSlice { buffer, written } = self;
        &buffer[..written]
    }
}
