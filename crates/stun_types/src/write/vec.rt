//! A writer into a `Vec`.

ghost use Rattle.std.specs.Prelude.{◌≡◌, []};
ghost use Rattle.stun_types.specs.WriteVec.{Written};

use crate::limits::LENGTH_LIMIT;
use crate::write::MessageWrite;
use byteorder::{BigEndian, ByteOrder};
use std::alloc::{Allocator, Global};
use std::marker::Model;
use stun_base::error::StunWriteError;
use stun_base::memory::Memory;

/// A writer that writes a message to a `Vec`, which grows as needed.
#[derive(Drop)]
#[derive_where(Debug)]
pub struct MessageWriteVec<A: Allocator = Global> {
    bytes: Vec<u8, A>,
    // The number of bytes that can be appended without another reservation.
    reserved: usize,
}

impl<A: Allocator> Model for MessageWriteVec<A> {
    ghost use Rattle.std.specs.Prelude.{vec_len, vec_capacity};
    ghost use Rattle.stun_types.specs.WriteVec.{Written};
    ghost use Rattle.stun_types.specs.code.WriteVec.{FitsCapacity};

    ghost Value = { Written };

    ghost view = { λ writer. record { bytes = writer.bytes.items; reserved = writer.reserved } };

    ghost invariant = { λ writer.
        FitsCapacity (vec_len writer.bytes) writer.reserved (vec_capacity writer.bytes) };
}

impl<A: Allocator> MessageWriteVec<A> {
    /// Creates an empty writer. This does not allocate.
    pub fn new(alloc: A) -> Self
        ensures { result ≡ record { bytes = []; reserved = 0 } }
    {
        MessageWriteVec {
            bytes: Vec::new(alloc),
            reserved: 0,
        }
    }
}

impl<A: Memory> MessageWrite for MessageWriteVec<A> {
    ghost use Rattle.std.specs.Prelude.{◌-◌, length};
    ghost use Rattle.stun_types.specs.Limits.{LENGTH_LIMIT};

    type Output = Vec<u8, A>;

    ghost bytes = { λ writer. writer.bytes };

    ghost grants = { A.grants };

    ghost room = { λ writer. LENGTH_LIMIT - length writer.bytes };

    ghost reserved = { λ writer. writer.reserved };

    fn data(&self) -> &[u8] {
        self.bytes.as_slice()
    }

    fn room(&self) -> usize {
        LENGTH_LIMIT - self.bytes.len()
    }

    fn reserve(&mut self, additional: usize) -> Result<(), StunWriteError> {
        if self.room() < additional {
            return Err(StunWriteError::TooSmall);
        }
        if additional <= self.reserved {
            return Ok(());
        }
        A::reserve(&mut self.bytes, additional)?;
        self.reserved = additional;
        Ok(())
    }

    fn append(&mut self, tail: &[u8]) {
        self.bytes.extend_from_slice(tail).unwrap();
        self.reserved = self.reserved.saturating_sub(tail.len());
    }

    fn set_length(&mut self, message_length: u16) {
        let bytes = self.bytes.as_mut_slice();
        BigEndian::write_u16(&mut bytes[2..], message_length);
    }

    fn finish(self) -> Vec<u8, A> {
        self.bytes
    }
}
