//! One attribute in the body of a request.
ghost use Rattle.std.specs.Option.{option_map};
ghost use Rattle.std.specs.Prelude.{◌≡◌, ◌≤◌, ◌⊎◌, ⊤, Err, IfErr, IfOk, IsOk, Ok, OnErr, OnOk, length};
ghost use Rattle.stun_judging.specs.Additions.{UnlessMemory};
ghost use Rattle.stun_client_endpoint.specs.Bodies.{attribute_for};
ghost use Rattle.stun_client_endpoint.specs.Written.{with_another};

use std::alloc::{AllocError, Allocator};
use std::marker::Model;
use std::net::SocketAddr;
use stun_base::memory::Memory;
use stun_extra::attribute::XorPeerAddress;
use stun_types::attribute::{AttributeType, RawAttribute};
use stun_types::message::{MessageWriteVec, StunWriteError, TransactionId};
use stun_types::prelude::*;

/// An attribute with its type and its value, or XOR-PEER-ADDRESS with its address.
#[derive(Drop)]
pub(crate) struct Piece<A: Allocator> {
    kind: AttributeType,
    value: Vec<u8, A>,
    /// The address is in a box, because it is long and only XOR-PEER-ADDRESS has an address.
    peer: Option<Box<SocketAddr, A>>,
}

impl<A: Allocator> Model for Piece<A> {
    ghost use Rattle.std.specs.Option.{option_map};
    ghost use Rattle.stun_client_endpoint.specs.Bodies.{Piece as PieceSeen};
    ghost use Rattle.stun_client_endpoint.specs.code.Pieces.{piece_of};

    ghost Value = { PieceSeen };

    ghost view = { λ p. piece_of p.kind.0 p.value.items (option_map (λ b. b.value) p.peer) };
}

impl<A: Memory> Piece<A> {
    ghost use Rattle.stun_client_endpoint.specs.Bodies.{of_peer, with_value};

    /// Creates an attribute with a copy of its value. Fails if an allocation fails.
    pub(crate) fn new(alloc: A, kind: AttributeType, value: &[u8]) -> Result<Piece<A>, AllocError>
        ensures piece { IfOk result (λ piece. piece
            ≡ with_value (record { kind = kind.0; value = value.now })) }
        ensures granted { A.grants → IsOk result }
    {
        let value = A::copied(alloc, value)?;
        let peer = None;
        Ok(Piece { kind, value, peer })
    }

    /// Creates XOR-PEER-ADDRESS with its address. Fails if an allocation fails.
    pub(crate) fn of(alloc: A, address: SocketAddr) -> Result<Piece<A>, AllocError>
        ensures piece { IfOk result (λ piece. piece ≡ of_peer address) }
        ensures granted { A.grants → IsOk result }
    {
        let peer = A::boxed(alloc, address)?;
        Ok(Piece {
            kind: AttributeType(0x0012),
            value: Vec::new(alloc),
            peer: Some(peer),
        })
    }

    /// Copies the attribute. Fails if an allocation fails.
    pub(crate) fn copy(&self, alloc: A) -> Result<Piece<A>, AllocError>
        ensures copied { IfOk result (λ copy. copy ≡ self.now) }
        ensures granted { A.grants → IsOk result }
    {
        if let Some(peer) = &self.peer {
            return Piece::of(alloc, **peer);
        }
        Piece::new(alloc, self.kind, &self.value)
    }

    /// Adds the attribute to a message with this transaction ID. After an error the message is
    /// unchanged.
    pub(crate) fn write(
        &self,
        id: TransactionId,
        page: &mut MessageWriteVec<A>,
    ) -> Result<(), StunWriteError>
        requires { 20 ≤ length page.old.bytes }
        ensures header { OnOk result (20 ≤ length page.new.bytes) }
        ensures ok { OnOk result (with_another (attribute_for id self.now) page.old.bytes
            ≡ Ok page.new.bytes) }
        ensures refused { IfErr result (λ why. (why ≡ StunWriteError.OutOfMemory)
            ⊎ (with_another (attribute_for id self.now) page.old.bytes ≡ Err why)) }
        ensures err { OnErr result (page.new.bytes ≡ page.old.bytes) }
        ensures kept { OnErr result (page.old.reserved ≤ page.new.reserved) }
        ensures granted { A.grants → UnlessMemory result ⊤ ⊥ }
    {
        match &self.peer {
            Some(address) => add_another(page, &XorPeerAddress::new(**address, id)),
            None => add_another(page, &RawAttribute::new(self.kind, &self.value)),
        }
    }
}

/// Adds an attribute whose type may be in the message already. After an error the message is
/// unchanged.
fn add_another<A: Memory, M: Attribute>(
    page: &mut MessageWriteVec<A>,
    attribute: &M,
) -> Result<(), StunWriteError>
    requires { 20 ≤ length page.old.bytes }
    ensures header { OnOk result (20 ≤ length page.new.bytes) }
    ensures ok { OnOk result (with_another
        (record { kind = M.kind attribute.now; value = M.value attribute.now }) page.old.bytes
        ≡ Ok page.new.bytes) }
    ensures refused { IfErr result (λ why. (why ≡ StunWriteError.OutOfMemory)
        ⊎ (with_another
        (record { kind = M.kind attribute.now; value = M.value attribute.now }) page.old.bytes
        ≡ Err why)) }
    ensures err { OnErr result (page.new.bytes ≡ page.old.bytes) }
    ensures kept { OnErr result (page.old.reserved ≤ page.new.reserved) }
    ensures granted { A.grants → UnlessMemory result ⊤ ⊥ }
{
    page.add_another_attribute(attribute)
}
