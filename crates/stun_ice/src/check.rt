//! A connectivity check that has been written. The caller stores it with its candidate pair.

ghost use Rattle.std.specs.Prelude.{◌≡◌, []};

use crate::role::Role;
use std::alloc::{AllocError, Allocator, Global};
use std::marker::Model;
use std::net::SocketAddr;
use stun_base::memory::Memory;
use stun_base::transaction_id::TransactionId;

/// A connectivity check: the bytes to send, and the values that are needed to judge the answer.
/// Store it until its answer arrives or it times out.
///
/// Contracts: a check is a record of all fields.
#[derive(Debug, Drop)]
pub struct Check<A: Allocator = Global> {
    id: TransactionId,
    to: SocketAddr,
    role: Role,
    nominates: bool,
    bytes: Vec<u8, A>,
}

impl<A: Allocator> Model for Check<A> {
    ghost use Rattle.stun_ice.specs.Agent.{SentCheck};

    ghost Value = { SentCheck };

    ghost view = { λ check. record {
      id = check.id;
      to = check.to;
      role = check.role;
      nominates = check.nominates;
      bytes = check.bytes.items;
    } };
}

impl<A: Allocator> Check<A> {
    pub(crate) fn new(
        id: TransactionId,
        to: SocketAddr,
        role: Role,
        nominates: bool,
        bytes: Vec<u8, A>,
    ) -> Check<A>
        ensures { result ≡ record {
          id = id;
          to = to;
          role = role;
          nominates = nominates;
          bytes = bytes.items;
        } }
    {
        Check {
            id,
            to,
            role,
            nominates,
            bytes,
        }
    }

    /// Creates a check without its bytes, for a program that stores only the other values. Such a
    /// check is enough to judge the answer.
    pub fn without_bytes(
        alloc: A,
        id: TransactionId,
        to: SocketAddr,
        role: Role,
        nominates: bool,
    ) -> Check<A>
        ensures { result ≡ record {
          id = id;
          to = to;
          role = role;
          nominates = nominates;
          bytes = [];
        } }
    {
        Check::new(id, to, role, nominates, Vec::new(alloc))
    }

    /// Returns the transaction ID. The answer has the same ID.
    pub fn id(&self) -> TransactionId
        ensures { result ≡ self.now.id }
    {
        self.id
    }

    /// Returns the address to send the check to, as it was passed to `Checker::check`.
    pub fn to(&self) -> SocketAddr
        ensures { result ≡ self.now.to }
    {
        self.to
    }

    /// Returns the role that the check states for its sender.
    pub fn role(&self) -> Role
        ensures { result ≡ self.now.role }
    {
        self.role
    }

    /// Returns `true` if the check nominates its pair.
    pub fn nominates(&self) -> bool
        ensures { result ≡ self.now.nominates }
    {
        self.nominates
    }

    /// Returns the bytes to send.
    pub fn bytes(&self) -> &[u8]
        ensures { result.now ≡ self.now.bytes }
    {
        self.bytes.as_slice()
    }
}

/// Copies the check, and its bytes with the allocator of the original.
impl<A: Memory> Clone for Check<A> {
    ghost is_clone = { λ check copy. copy ≡ check };

    ghost is_infallible = { λ _. A.grants };

    fn clone(&self) -> Result<Self, AllocError> {
        let bytes = A::copied(*self.bytes.allocator(), self.bytes.as_slice())?;
        Ok(Check {
            id: self.id,
            to: self.to,
            role: self.role,
            nominates: self.nominates,
            bytes,
        })
    }
}
