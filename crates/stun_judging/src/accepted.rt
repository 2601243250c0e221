//! The user from whom a message was accepted.

ghost use Rattle.std.specs.Prelude.{◌≡◌, Some, codes};
ghost use Rattle.std.specs.Fmt.{WritesOnOk, WritesStyledOnOk};

use std::alloc::{Allocator, Global};
use std::fmt;
use std::marker::Model;
use stun_base::algorithm::IntegrityAlgorithm;
use stun_base::prepared_key::PreparedKey;

/// The user from whom a request or an indication was accepted, with the algorithm that both sides
/// agreed on and the user's key for it.
///
/// The value borrows from the message, and from the realm or the user who was passed. Sign the
/// response with `key` and `algorithm` (`add_message_integrity_with_prepared_key`). To sign it
/// later, or on another thread, clone the key: the clone borrows nothing.
///
/// The value contains a key, so `Debug` shows nothing of its contents.
///
/// Contracts: the value is a record of the client, which is the name and the algorithm, and of the
/// bytes of the key.
#[derive(Drop)]
pub struct Accepted<'a, A: Allocator = Global> {
    name: &'a str,
    algorithm: IntegrityAlgorithm,
    key: &'a PreparedKey<A>,
}

impl<'a, A: Allocator> Model for Accepted<'a, A> {
    ghost use Rattle.stun_judging.specs.Judged.{AcceptedSeen};

    ghost Value = { AcceptedSeen };

    ghost view = { λ accepted. record {
      client = record { name = accepted.name.now; algorithm = accepted.algorithm };
      key = accepted.key.now;
    } };
}

impl<'a, A: Allocator> fmt::Debug for Accepted<'a, A> {
    ghost debug_output = { λ _. Some (codes "Accepted { .. }") };

    fn fmt<W: fmt::Write>(&self, f: &mut fmt::Formatter<W>) -> fmt::Result
        ensures writes { WritesOnOk W.write_str_gives f.old result
            (codes "Accepted { .. }") f.new }

        // The options of the formatter, such as the width, do not change the text.
        ensures styled { WritesStyledOnOk W.write_str_gives f.old result
            (codes "Accepted { .. }") f.new }
    {
        f.write_str("Accepted { .. }")
    }
}

impl<'a, A: Allocator> Accepted<'a, A> {
    /// Creates the value from its parts. The key must be the user's key for this algorithm.
    pub(crate) fn new(name: &'a str, algorithm: IntegrityAlgorithm, key: &'a PreparedKey<A>) -> Self
        ensures client { result.client
            ≡ record { name = name.entry.now; algorithm = algorithm } }
        ensures key { result.key ≡ key.entry.now }
    {
        Accepted {
            name,
            algorithm,
            key,
        }
    }

    /// Returns the user's name, even if the message named the user by a hash.
    pub fn name(&self) -> &'a str
        ensures { result.now ≡ self.now.client.name }
    {
        self.name
    }

    /// Returns the algorithm that both sides agreed on, and that the key is for. The message itself
    /// may be signed with the other algorithm (RFC 8489, section 9.2.4).
    pub fn algorithm(&self) -> IntegrityAlgorithm
        ensures { result ≡ self.now.client.algorithm }
    {
        self.algorithm
    }

    /// Returns the user's key, prepared to sign the response. `clone` copies it without an
    /// allocation, because it has at most 32 bytes.
    pub fn key(&self) -> &'a PreparedKey<A>
        ensures { result.now ≡ self.now.key }
    {
        self.key
    }
}
