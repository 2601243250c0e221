//! A request whose user must be looked up.

ghost use Rattle.std.specs.Prelude.{◌≡◌};
ghost use Rattle.stun_judging.specs.Named.{named_seen};
ghost use Rattle.stun_base.specs.Header.{transaction_id_field};
ghost use Rattle.stun_endpoint.specs.Answers.{is_fingerprinted};
ghost use Rattle.stun_endpoint.specs.code.Waiting.{IsWaiting};
ghost use Rattle.stun_extra.specs.CanonicalAddress.{IsCanonical};

use crate::received::Received;
use crate::unix_time::UnixTime;
use std::alloc::{Allocator, Global};
use std::marker::Model;
use std::net::SocketAddr;
use stun_extra::canonical_address::canonical;
use stun_judging::named_user::NamedUser;
use stun_types::message::{Message, TransactionId};

/// The result of `Server::identify` for a datagram.
#[derive(Debug, Drop)]
pub enum Identified<'a, A: Allocator = Global> {
    /// The outcome of the datagram, which does not depend on the user.
    Done(Received<'a, A>),
    /// The request waits for its user. Look that user up, and pass both to `Server::resume`.
    Lookup(Lookup<'a>),
}

/// A request that waits until you have looked up its user. It has a nonce that the server accepts
/// for its source address.
///
/// Only such requests reach your database. An attacker who invents a nonce causes no look-up. An
/// attacker who forges a source address must be on the path to cause look-ups, because he needs to
/// see a nonce that is still accepted for that address. The request is judged at the time at which
/// it arrived, so a slow database does not make its nonce stale. A client that retransmits its
/// request causes another look-up, so merge look-ups that have the same `transaction_id`.
///
/// Contracts: a look-up is a record of the message, its source address, the time at which it
/// arrived, and the user whom it names.
#[derive(Debug, Drop)]
pub struct Lookup<'a> {
    message: Message<'a>,
    from: SocketAddr,
    arrived: UnixTime,
    user: NamedUser<'a>,
    has_fingerprint: bool,
}

impl<'a> Model for Lookup<'a> {
    ghost use Rattle.std.specs.Prelude.{◌≡◌};
    ghost use Rattle.stun_judging.specs.Named.{named_seen};
    ghost use Rattle.stun_endpoint.specs.Answers.{is_fingerprinted};
    ghost use Rattle.stun_endpoint.specs.Lookups.{LookupSeen};
    ghost use Rattle.stun_endpoint.specs.code.Waiting.{IsWaiting};

    ghost Value = { LookupSeen };

    ghost view = { λ lookup. record {
      message = lookup.message;
      from = lookup.from;
      arrived = lookup.arrived;
      user = named_seen lookup.user;
    } };

    ghost invariant = { λ lookup. IsWaiting lookup.message
        × (lookup.has_fingerprint ≡ is_fingerprinted lookup.message) };
}

impl<'a> Lookup<'a> {
    /// Creates the look-up for a request that waits for `user`.
    pub(crate) fn new(
        message: Message<'a>,
        from: SocketAddr,
        arrived: UnixTime,
        user: NamedUser<'a>,
        has_fingerprint: bool,
    ) -> Self
        requires request { IsWaiting message }
        requires fingerprint { has_fingerprint ≡ is_fingerprinted message }
        ensures { result ≡ record {
          message = message.entry;
          from = from;
          arrived = arrived;
          user = named_seen user.entry;
        } }
    {
        Lookup {
            message,
            from,
            arrived,
            user,
            has_fingerprint,
        }
    }

    /// Returns the user whom the request names, by name or by the hash of the name at the server's
    /// realm. The signature is not checked yet, so anybody who has a nonce can name any user.
    pub fn user_id(&self) -> NamedUser<'a>
        ensures { named_seen result ≡ self.now.user }
    {
        self.user
    }

    /// Returns the transaction ID of the request. A client that retransmits the request uses the
    /// same transaction ID.
    pub fn transaction_id(&self) -> TransactionId
        ensures { result ≡ transaction_id_field self.now.message }
    {
        self.message.transaction_id()
    }

    /// Returns the address that the request came from. An IPv4 address is returned as `a.b.c.d`,
    /// even if it came as `::ffff:a.b.c.d`.
    pub fn from(&self) -> SocketAddr
        ensures { IsCanonical self.now.from result }
    {
        canonical(self.from)
    }

    /// Returns the source address as it was passed to `identify`.
    pub(crate) fn source(&self) -> SocketAddr
        ensures { result ≡ self.now.from }
    {
        self.from
    }

    /// Returns the time at which the request arrived, as it was passed to `identify`.
    pub fn arrived(&self) -> UnixTime
        ensures { result ≡ self.now.arrived }
    {
        self.arrived
    }

    /// Returns the request.
    pub fn message(&self) -> &Message<'a>
        ensures { result.now ≡ self.now.message }
    {
        &self.message
    }

    /// Returns whether the request has a valid FINGERPRINT.
    pub(crate) fn has_fingerprint(&self) -> bool
        ensures { result ≡ is_fingerprinted self.now.message }
    {
        self.has_fingerprint
    }

    /// Returns the request, and drops the rest.
    pub(crate) fn into_message(self) -> Message<'a>
        ensures message { result ≡ self.entry.message }
        ensures waits { IsWaiting self.entry.message }
    {
        self.message
    }
}
