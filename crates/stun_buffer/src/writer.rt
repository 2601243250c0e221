//! A writer of messages that reuses the memory of a vector.

ghost use Rattle.std.specs.Prelude.{◌≡◌, []};
ghost use Rattle.stun_types.specs.WriteVec.{Written};

use byteorder::{BigEndian, ByteOrder};
use std::alloc::{Allocator, Global};
use std::marker::Model;
use std::mem;
use stun_base::error::StunWriteError;
use stun_base::memory::Memory;
use stun_types::limits::LENGTH_LIMIT;
use stun_types::prelude::*;

/// A writer that writes a message to the memory of a vector of the caller. It allocates only if the
/// message does not fit into that memory, which then grows.
///
/// Contracts: the value is that of a writer into a `Vec`.
#[derive(Drop)]
pub struct BufferWriter<A: Allocator = Global> {
    bytes: Vec<u8, A>,
    // The number of bytes that can be appended without another reservation.
    reserved: usize,
}

impl<A: Allocator> Model for BufferWriter<A> {
    ghost use Rattle.std.specs.Prelude.{vec_len, vec_capacity};
    ghost use Rattle.stun_types.specs.WriteVec.{Written};
    ghost use Rattle.stun_buffer.specs.code.Room.{FitsBuffer};

    ghost Value = { Written };

    ghost view = { λ writer. record { bytes = writer.bytes.items; reserved = writer.reserved } };

    ghost invariant = { λ writer.
        FitsBuffer (vec_len writer.bytes) writer.reserved (vec_capacity writer.bytes) };
}

impl<A: Allocator> BufferWriter<A> {
    /// Creates a writer that contains these bytes already, and appends to them.
    pub fn after(bytes: Vec<u8, A>) -> Self
        ensures { result ≡ record { bytes = bytes.items; reserved = 0 } }
    {
        BufferWriter { bytes, reserved: 0 }
    }
}

impl<A: Allocator + Copy> BufferWriter<A> {
    /// Creates an empty writer that takes over the memory of a vector, and leaves the vector empty
    /// and without memory. The vector that `finish` returns has this memory, unless the message
    /// needed more. This does not allocate.
    pub fn over(buffer: &mut Vec<u8, A>) -> Self
        ensures writer { result ≡ record { bytes = []; reserved = 0 } }
        ensures left { buffer.new.items ≡ [] }
    {
        let empty = Vec::new(*buffer.allocator());
        let mut bytes = mem::replace(buffer, empty);
        bytes.clear();
        BufferWriter::after(bytes)
    }
}

impl<A: Memory> MessageWrite for BufferWriter<A> {
    ghost use Rattle.std.specs.Prelude.{◌-◌, length};
    ghost use Rattle.stun_types.specs.Limits.{LENGTH_LIMIT};

    type Output = Vec<u8, A>;

    ghost bytes = { λ writer. writer.bytes };

    ghost grants = { A.grants };

    ghost room = { λ writer. LENGTH_LIMIT - length writer.bytes };

    ghost reserved = { λ writer. writer.reserved };

    fn data(&self) -> &[u8] {
        self.bytes.as_slice()
    }

    fn room(&self) -> usize {
        LENGTH_LIMIT.saturating_sub(self.bytes.len())
    }

    fn reserve(&mut self, additional: usize) -> Result<(), StunWriteError> {
        if self.room() < additional {
            return Err(StunWriteError::TooSmall);
        }
        if additional <= self.reserved {
            return Ok(());
        }
        A::reserve(&mut self.bytes, additional)?;
        self.reserved = additional;
        Ok(())
    }

    fn append(&mut self, tail: &[u8]) {
        self.bytes.extend_from_slice(tail).unwrap();
        self.reserved = self.reserved.saturating_sub(tail.len());
    }

    fn set_length(&mut self, message_length: u16) {
        let bytes = self.bytes.as_mut_slice();
        BigEndian::write_u16(&mut bytes[2..], message_length);
    }

    fn finish(self) -> Vec<u8, A> {
        self.bytes
    }
}
