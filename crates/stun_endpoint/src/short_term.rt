//! A server with short-term credentials (RFC 8489, section 9.1.3): each request and each indication
//! has the name of a user and is signed with the user's password.
//!
//! This server is a type of its own, and not a mode of `Server`, because it has no realm: it needs
//! no nonces, and so no secret and no clock, and it protects indications too. Both types write
//! their responses with the same `Responder`.

ghost use Rattle.std.specs.Fmt.{WritesOnOk, WritesStyledOnOk};
ghost use Rattle.std.specs.Option.{option_map};
ghost use Rattle.std.specs.Prelude.{◌≡◌, ◌++◌, [], Err, IfOk, IsOk, IsOkUnless, MatchOption};
ghost use Rattle.std.specs.Prelude.{None, OnErr, Some, codes, false};
ghost use Rattle.std.specs.String.{string_bytes};
ghost use Rattle.stun_base.specs.MessageType.{class_in};
ghost use Rattle.stun_endpoint.specs.Answers.{is_fingerprinted};
ghost use Rattle.stun_endpoint.specs.Buffered.{LeavesNothing, outcome_in};
ghost use Rattle.stun_endpoint.specs.Built.{software_refusal};
ghost use Rattle.stun_endpoint.specs.Outcomes.{outcome_of};
ghost use Rattle.stun_endpoint.specs.Responding.{is_undropped_request, own_answer};
ghost use Rattle.stun_endpoint.specs.ShortTerm.{by_signer, indicated_by, or_handed};
ghost use Rattle.stun_endpoint.specs.ShortTerm.{received_signed, signature_of, signer_of};

use crate::arrived::Arrived;
use crate::buffered::ShortTermReceivedInto;
use crate::received::{DropReason, Received, Request};
use crate::responder::{Responder, ResponseSettings};
use crate::server::{BuildError, STUN_ATTRIBUTES};
use std::alloc::{AllocError, Allocator, Global};
use std::fmt;
use std::marker::Model;
use std::net::SocketAddr;
use stun_base::memory::Memory;
use stun_types::message::{IntegrityAlgorithm, Message, MessageClass};

mod signer;
mod users;

use signer::{Signer, find_signer};
pub use users::ShortTermUsers;

/// A STUN server with short-term credentials (RFC 8489, section 9.1). It stores nothing about its
/// clients, and no call changes it, so threads can share it without a lock. The users are an
/// argument of each call.
///
/// Contracts: a server is a record of the attribute types that it understands, and of its settings
/// for responses and FINGERPRINT.
#[derive(Drop)]
pub struct ShortTermServer<A: Allocator = Global> {
    responder: Responder<A>,
}

impl<A: Allocator> Model for ShortTermServer<A> {
    ghost use Rattle.stun_endpoint.specs.Responding.{Responding};

    ghost Value = { Responding };

    ghost view = { λ server. server.responder };
}

impl<A: Allocator> fmt::Debug for ShortTermServer<A> {
    ghost debug_output = { λ _. Some (codes "ShortTermServer { .. }") };

    fn fmt<W: fmt::Write>(&self, f: &mut fmt::Formatter<W>) -> fmt::Result
        ensures writes { WritesOnOk W.write_str_gives f.old result
            (codes "ShortTermServer { .. }") f.new }

        // The text does not depend on the width, the precision or any other option.
        ensures styled { WritesStyledOnOk W.write_str_gives f.old result
            (codes "ShortTermServer { .. }") f.new }
    {
        f.write_str("ShortTermServer { .. }")
    }
}

/// The outcome of a datagram at a server with short-term credentials, whose requests and
/// indications its users have signed.
pub type ShortTermReceived<'a, A> = Received<'a, A, Request<'a, A>, ShortTermIndication<'a>>;

/// An indication that a user has signed.
///
/// Contracts: an indication is a record of its message, and of its user with the algorithm.
#[derive(Debug, Drop)]
pub struct ShortTermIndication<'a> {
    message: Message<'a>,
    user: &'a str,
    algorithm: IntegrityAlgorithm,
}

impl<'a> Model for ShortTermIndication<'a> {
    ghost use Rattle.stun_endpoint.specs.ShortTerm.{SignedIndication};

    ghost Value = { SignedIndication };

    ghost view = { λ indication. record {
      message = indication.message;
      client = record { name = indication.user.now; algorithm = indication.algorithm };
    } };
}

impl<'a> ShortTermIndication<'a> {
    /// Returns the message.
    pub fn message(&self) -> &Message<'a>
        ensures { result.now ≡ self.now.message }
    {
        &self.message
    }

    /// Returns the name of the user who has signed the indication.
    pub fn user(&self) -> &'a str
        ensures { result.now ≡ self.now.client.name }
    {
        self.user
    }

    /// Returns the algorithm of the signature.
    pub fn algorithm(&self) -> IntegrityAlgorithm
        ensures { result ≡ self.now.client.algorithm }
    {
        self.algorithm
    }
}

impl<A: Memory> ShortTermServer<A> {
    /// Builds a server. Fails with the first of these errors that applies:
    ///
    /// - `SoftwareTooLong`: the text of SOFTWARE has more than 763 bytes.
    /// - `OutOfMemory`: an allocation failed.
    pub fn new(alloc: A, settings: ResponseSettings<A>) -> Result<ShortTermServer<A>, BuildError>
        ensures refused { MatchOption (software_refusal (option_map string_bytes settings.software))
            (IsOkUnless result BuildError.OutOfMemory) (λ refusal. result ≡ Err refusal) }
        ensures built { IfOk result (λ server. server ≡ record {
          known = settings.understood.items ++ STUN_ATTRIBUTES;
          software = option_map string_bytes settings.software;
          answers_binding = settings.answers_binding;
          requires_fingerprint = settings.requires_fingerprint;
        }) }
        ensures granted { A.grants
            → software_refusal (option_map string_bytes settings.software) ≡ None → IsOk result }
    {
        let responder = Responder::new(alloc, settings)?;
        Ok(ShortTermServer { responder })
    }
}

impl<A: Memory> ShortTermServer<A> {
    /// Judges a datagram, and writes the response if the server itself responds.
    ///
    /// `from` is the address that the datagram came from. The two forms of an IPv4 address,
    /// `a.b.c.d` and `::ffff:a.b.c.d`, count as the same address. `users` are the users at this
    /// time.
    ///
    /// - Bytes that are not a message are dropped. So are messages whose FINGERPRINT is wrong, is
    ///   not the last attribute or does not have 4 bytes, and messages without FINGERPRINT if the
    ///   settings require one.
    /// - A request gets the response of the first of these lines that applies. All other requests
    ///   are returned to you.
    ///   - 400: it has neither MESSAGE-INTEGRITY nor MESSAGE-INTEGRITY-SHA256, or no USERNAME
    ///     before the integrity attribute.
    ///   - 401: USERNAME is not the name of one of these users, or the signature is not made with
    ///     the user's password.
    ///   - 420, which is signed: it has an attribute that is not understood.
    ///   - Success: it is a Binding request, and `answers_binding` is set.
    /// - A 400 and a 401 are not signed, because the server does not know the client's key then
    ///   (section 9.1.3). Other responses have the integrity attribute that the request has.
    /// - An indication is dropped if a request with the same attributes gets a 400 or a 401
    ///   (`NotSigned`), or if it has an attribute that is not understood. Other indications, and
    ///   responses, are returned to you.
    ///
    /// Fails if an allocation fails, which can happen only for a request. Over UDP nothing is lost
    /// then, because the client retransmits its request.
    pub fn receive<'a>(
        &self,
        bytes: &'a [u8],
        from: SocketAddr,
        users: &'a ShortTermUsers<A>,
    ) -> Result<ShortTermReceived<'a, A>, AllocError>
        ensures received { IfOk result (λ received. outcome_of received
            ≡ received_signed self.now users.now from bytes.now) }
        ensures no_memory { is_undropped_request self.now.requires_fingerprint bytes.now
            ≡ false → IsOk result }
        ensures granted { A.grants → IsOk result }
    {
        let mut buffer = self.responder.make_buffer();
        self.judge_datagram(bytes, from, users, &mut buffer)
    }

    /// Judges a datagram like `receive`, and writes the response into a buffer, replacing its
    /// contents. If the buffer has the capacity for the response, no memory is allocated for it.
    /// The buffer is empty afterwards if there is no response, or if the call fails.
    ///
    /// Fails if an allocation fails, which can happen only for a request. Over UDP nothing is lost
    /// then, because the client retransmits its request.
    pub fn receive_into<'a>(
        &self,
        bytes: &'a [u8],
        from: SocketAddr,
        users: &'a ShortTermUsers<A>,
        buffer: &mut Vec<u8, A>,
    ) -> Result<ShortTermReceivedInto<'a, A>, AllocError>
        // With the bytes in the buffer, the result is what `receive` returns.
        ensures received { IfOk result (λ received. outcome_in received buffer.new.items
            ≡ received_signed self.now users.now from bytes.now) }
        ensures rest { IfOk result (λ received.
            LeavesNothing received buffer.new.items) }
        ensures no_memory { is_undropped_request self.now.requires_fingerprint bytes.now
            ≡ false → IsOk result }
        ensures granted { A.grants → IsOk result }
        ensures err { OnErr result (buffer.new.items ≡ []) }
    {
        match self.judge_datagram(bytes, from, users, buffer) {
            Ok(received) => Ok(received.into_buffer(buffer)),
            Err(_) => {
                buffer.clear();
                Err(AllocError)
            }
        }
    }

    /// Returns the outcome of a datagram. A response takes over the memory of the buffer.
    fn judge_datagram<'a>(
        &self,
        bytes: &'a [u8],
        from: SocketAddr,
        users: &'a ShortTermUsers<A>,
        buffer: &mut Vec<u8, A>,
    ) -> Result<ShortTermReceived<'a, A>, AllocError>
        ensures received { IfOk result (λ received. outcome_of received
            ≡ received_signed self.now users.now from bytes.now) }
        ensures no_memory { is_undropped_request self.now.requires_fingerprint bytes.now
            ≡ false → IsOk result }
        ensures granted { A.grants → IsOk result }
    {
        match self.responder.read(bytes) {
            Arrived::Request(message, has_fingerprint) => {
                self.judge_request(message, from, users, has_fingerprint, buffer)
            }
            Arrived::Indication(message) => Ok(self.judge_indication(message, users)),
            Arrived::Response(message) => Ok(Received::Response(message)),
            Arrived::Dropped(reason) => Ok(Received::Dropped(reason)),
        }
    }

    /// Returns the outcome of a request.
    fn judge_request<'a>(
        &self,
        message: Message<'a>,
        from: SocketAddr,
        users: &'a ShortTermUsers<A>,
        has_fingerprint: bool,
        buffer: &mut Vec<u8, A>,
    ) -> Result<ShortTermReceived<'a, A>, AllocError>
        requires fingerprint { has_fingerprint ≡ is_fingerprinted message }
        requires request { class_in message ≡ MessageClass.Request }
        ensures received { IfOk result (λ received. outcome_of received
            ≡ by_signer self.now from message.entry (signer_of users.now message.entry)) }
        ensures granted { A.grants → IsOk result }
    {
        match find_signer(users, &message) {
            Ok(signer) => self.accept(message, from, signer, has_fingerprint, buffer),
            Err(refusal) => {
                let answer = self
                    .responder
                    .write_refusal(&message, from, refusal, has_fingerprint, buffer)?;
                Ok(Received::Answer(answer))
            }
        }
    }

    /// Returns the outcome of a request that `signer` has signed.
    fn accept<'a>(
        &self,
        message: Message<'a>,
        from: SocketAddr,
        signer: Signer<'a, A>,
        has_fingerprint: bool,
        buffer: &mut Vec<u8, A>,
    ) -> Result<ShortTermReceived<'a, A>, AllocError>
        requires fingerprint { has_fingerprint ≡ is_fingerprinted message }
        requires request { class_in message ≡ MessageClass.Request }
        ensures received { IfOk result (λ received. outcome_of received
            ≡ or_handed self.now from message.entry signer.entry
            (own_answer self.now (Some (signature_of signer.entry)) from message.entry)) }
        ensures granted { A.grants → IsOk result }
    {
        let signature = signer.make_signature()?;
        match self
            .responder
            .write_own_answer(&message, from, &signature, has_fingerprint, buffer)?
        {
            Some(answer) => Ok(Received::Answer(answer)),
            None => {
                let reply = self
                    .responder
                    .make_reply(&message, from, signature, has_fingerprint)?;
                let request = Request::new(message, signer.name(), signer.algorithm(), reply);
                Ok(Received::Request(request))
            }
        }
    }

    /// Returns the outcome of an indication.
    fn judge_indication<'a>(
        &self,
        message: Message<'a>,
        users: &'a ShortTermUsers<A>,
    ) -> ShortTermReceived<'a, A>
        ensures { outcome_of result
            ≡ indicated_by self.now message.entry (signer_of users.now message.entry) }
    {
        match find_signer(users, &message) {
            Ok(signer) => {
                if self.responder.understands(&message) {
                    Received::Indication(ShortTermIndication {
                        message,
                        user: signer.name(),
                        algorithm: signer.algorithm(),
                    })
                } else {
                    Received::Dropped(DropReason::UnknownAttribute)
                }
            }
            Err(refusal) => Received::Dropped(DropReason::NotSigned(refusal)),
        }
    }
}
