//! The body of a request: the attributes that the caller of a client adds to it.
ghost use Rattle.std.specs.Prelude.{◌≡◌, ◌≤◌, ◌++◌, ◌∷◌, ◌⊎◌, ⊤, [], Err, IfErr, IfOk};
ghost use Rattle.std.specs.Prelude.{IsOk, IsOkUnless, MatchOption, None, Ok, OnErr, OnOk, length, true};
ghost use Rattle.stun_judging.specs.Additions.{UnlessMemory};
ghost use Rattle.stun_types.specs.Attribute.{attribute_length};
ghost use Rattle.stun_client_endpoint.specs.Bodies.{body_refusal, fits, is_reserved, of_peer};
ghost use Rattle.stun_client_endpoint.specs.Bodies.{BODY_LIMIT as limit, body_length};
ghost use Rattle.stun_client_endpoint.specs.Bodies.{body_size_refusal, piece_length};
ghost use Rattle.stun_client_endpoint.specs.Bodies.{with_value};
ghost use Rattle.stun_client_endpoint.specs.Written.{with_body};

use crate::piece::Piece;
use std::alloc::{AllocError, Allocator, Global};
use std::marker::Model;
use std::net::SocketAddr;
use stun_base::memory::Memory;
use stun_types::attribute::{AttributeType, attribute_length};
use stun_types::message::{MessageWriteVec, StunWriteError, TransactionId};
use stun_types::prelude::*;
use thiserror::Error;

/// The largest number of bytes that the attributes of a body may have, if each XOR-PEER-ADDRESS
/// counts as 24. The attributes that a client adds to a request still fit after them, unless the
/// server's list of algorithms is very long.
pub const BODY_LIMIT: usize = 60_000;

/// Why an attribute is not added to a body. The body is then unchanged.
#[derive(Clone, Copy, Debug, PartialEq, Eq, Error)]
pub enum BodyError {
    /// The client itself writes attributes of this type, or the value depends on the transaction
    /// ID, or the attribute is ERROR-CODE, which no request has.
    #[error("a body cannot have this attribute")]
    NotAllowed,
    /// The attributes would have more than `BODY_LIMIT` bytes, where each XOR-PEER-ADDRESS counts
    /// as 24.
    #[error("the body is too large")]
    TooLarge,
    /// An allocation failed.
    #[error("an allocation failed")]
    OutOfMemory,
}

/// The types that a body cannot have: the types that a client writes itself, the types whose values
/// depend on the transaction ID, and ERROR-CODE, which no request has.
const RESERVED: [u16; 14] = [
    0x0006, 0x0008, 0x0012, 0x0014, 0x0015, 0x0016, 0x001C, 0x001D, 0x001E, 0x0020, 0x8002, 0x8022,
    0x8028, 0x0009,
];

/// Returns whether a body cannot have attributes of this type, because the client itself writes
/// such attributes, because the value depends on the transaction ID, or because the type is
/// ERROR-CODE, which no request has.
pub fn is_reserved(kind: AttributeType) -> bool
    ensures { result ≡ is_reserved kind.0 }
{
    RESERVED.contains(&kind.value())
}

/// The attributes of a request, in the order in which they were added. The client stores them,
/// because it writes a request again, with another transaction ID, when the server challenges it.
///
/// Contracts: the value is the list of the attributes.
#[derive(Drop)]
pub struct Body<A: Allocator = Global> {
    alloc: A,
    pieces: Vec<Piece<A>, A>,
    length: usize,
}

impl<A: Allocator> Model for Body<A> {
    ghost use Rattle.std.specs.Prelude.{◌≡◌, ◌≤◌};
    ghost use Rattle.stun_client_endpoint.specs.Bodies.{BODY_LIMIT as limit, Body as BodySeen};
    ghost use Rattle.stun_client_endpoint.specs.Bodies.{body_length};

    ghost Value = { BodySeen };

    ghost view = { λ b. b.pieces.items };

    ghost invariant = { λ b. (b.length ≡ body_length b.pieces.items) × (b.length ≤ limit) };
}

impl<A: Memory> Body<A> {
    /// Creates a body without attributes. It does not allocate.
    pub fn new(alloc: A) -> Body<A>
        ensures { result ≡ [] }
    {
        Body {
            alloc,
            pieces: Vec::new(alloc),
            length: 0,
        }
    }

    /// Adds an attribute by its type and its value. Several attributes may have the same type.
    ///
    /// # Errors
    ///
    /// Fails with the first of these that applies. The body is then unchanged.
    ///
    /// - `NotAllowed`: the client itself writes attributes of this type, or the value depends on
    ///   the transaction ID (for XOR-PEER-ADDRESS call `add_xor_peer_address`), or the attribute is
    ///   ERROR-CODE, which no request has.
    /// - `TooLarge`: the attributes would have more than `BODY_LIMIT` bytes.
    /// - `OutOfMemory`: an allocation failed.
    pub fn add(&mut self, kind: AttributeType, value: &[u8]) -> Result<(), BodyError>
        ensures refused { MatchOption (body_refusal self.old kind.0 (length value.now))
            (IsOkUnless result BodyError.OutOfMemory) (λ why. result ≡ Err why) }
        ensures granted { A.grants → body_refusal self.old kind.0 (length value.now) ≡ None
            → IsOk result }
        ensures after { OnOk result (self.new
            ≡ self.old ++ with_value (record { kind = kind.0; value = value.now }) ∷ []) }
        ensures same { OnErr result (self.new ≡ self.old) }
    {
        if is_reserved(kind) {
            return Err(BodyError::NotAllowed);
        }
        if !self.has_room(value.len()) {
            return Err(BodyError::TooLarge);
        }
        match Piece::new(self.alloc, kind, value) {
            Ok(piece) => self.push(piece, value.len()),
            Err(_) => Err(BodyError::OutOfMemory),
        }
    }

    /// Adds XOR-PEER-ADDRESS with this address (RFC 8656, section 18.3).
    ///
    /// # Errors
    ///
    /// Fails with the first of these that applies. The body is then unchanged.
    ///
    /// - `TooLarge`: the attributes would have more than `BODY_LIMIT` bytes.
    /// - `OutOfMemory`: an allocation failed.
    pub fn add_xor_peer_address(&mut self, address: SocketAddr) -> Result<(), BodyError>
        ensures refused { MatchOption (body_size_refusal self.old 20)
            (IsOkUnless result BodyError.OutOfMemory) (λ why. result ≡ Err why) }
        ensures granted { A.grants → body_size_refusal self.old 20 ≡ None → IsOk result }
        ensures after { OnOk result (self.new ≡ self.old ++ of_peer address ∷ []) }
        ensures same { OnErr result (self.new ≡ self.old) }
    {
        if !self.has_room(20) {
            return Err(BodyError::TooLarge);
        }
        match Piece::of(self.alloc, address) {
            Ok(piece) => self.push(piece, 20),
            Err(_) => Err(BodyError::OutOfMemory),
        }
    }

    /// Returns whether an attribute whose value has `length` bytes still fits.
    pub fn has_room(&self, length: usize) -> bool
        ensures { result ≡ fits self.now length }
    {
        self.length.saturating_add(attribute_length(length)) <= BODY_LIMIT
    }

    /// Returns the number of bytes of the attributes, where each XOR-PEER-ADDRESS counts as 24.
    pub(crate) fn length(&self) -> usize
        ensures length { result ≡ body_length self.now }
        ensures limit { result ≤ limit }
    {
        self.length
    }

    /// Adds an attribute that fits. `length` is the number of bytes of its value, or 20 for
    /// XOR-PEER-ADDRESS.
    fn push(&mut self, piece: Piece<A>, length: usize) -> Result<(), BodyError>
        requires fits { fits self.old length ≡ true }
        requires length { piece_length piece ≡ attribute_length length }
        ensures refused { IsOkUnless result BodyError.OutOfMemory }
        ensures granted { A.grants → IsOk result }
        ensures after { OnOk result (self.new ≡ self.old ++ piece ∷ []) }
        ensures same { OnErr result (self.new ≡ self.old) }
    {
        if A::push(&mut self.pieces, piece).is_err() {
            return Err(BodyError::OutOfMemory);
        }
        self.length += attribute_length(length);
        Ok(())
    }

    /// Copies the body. Fails if an allocation fails. A body without attributes takes no memory.
    pub fn cloned(&self) -> Result<Body<A>, AllocError>
        ensures copied { IfOk result (λ copy. copy ≡ self.now) }
        ensures no_memory { self.now ≡ [] → IsOk result }
        ensures granted { A.grants → IsOk result }
    {
        let mut pieces = Vec::new(self.alloc);
        for piece in &self.pieces {
            A::push(&mut pieces, piece.copy(self.alloc)?)?;
        }
        Ok(Body {
            alloc: self.alloc,
            pieces,
            length: self.length,
        })
    }

    /// Adds the attributes to a message with this transaction ID.
    pub(crate) fn write(
        &self,
        id: TransactionId,
        page: &mut MessageWriteVec<A>,
    ) -> Result<(), StunWriteError>
        requires { 20 ≤ length page.old.bytes }
        ensures header { OnOk result (20 ≤ length page.new.bytes) }
        ensures ok { OnOk result (with_body id self.now page.old.bytes ≡ Ok page.new.bytes) }
        ensures refused { IfErr result (λ why. (why ≡ StunWriteError.OutOfMemory)
            ⊎ (with_body id self.now page.old.bytes ≡ Err why)) }
        ensures granted { A.grants → UnlessMemory result ⊤ ⊥ }
    {
        for piece in &self.pieces {
            piece.write(id, page)?;
        }
        Ok(())
    }
}
