//! A server without credentials (RFC 8489, section 6.3), which answers everybody and signs nothing.
//!
//! This server is a type of its own, and not a mode of `Server`, because it has no realm: its calls
//! take neither users nor a time, and an accepted request has no user. Both types write their
//! responses with the same `Responder`.

ghost use Rattle.std.specs.Fmt.{WritesOnOk, WritesStyledOnOk};
ghost use Rattle.std.specs.Option.{option_map};
ghost use Rattle.std.specs.Prelude.{◌≡◌, ◌++◌, [], Err, IfOk, IsOk, IsOkUnless, MatchOption, None};
ghost use Rattle.std.specs.Prelude.{OnErr, Some, codes, false, if◌then◌else◌};
ghost use Rattle.std.specs.String.{string_bytes};
ghost use Rattle.stun_base.specs.Header.{type_field};
ghost use Rattle.stun_base.specs.MessageType.{class_in, method_of};
ghost use Rattle.stun_endpoint.specs.Answers.{is_fingerprinted};
ghost use Rattle.stun_endpoint.specs.Buffered.{LeavesNothing, outcome_in};
ghost use Rattle.stun_endpoint.specs.Built.{software_refusal};
ghost use Rattle.stun_endpoint.specs.Open.{or_requested, received_openly};
ghost use Rattle.stun_endpoint.specs.Outcomes.{outcome_of};
ghost use Rattle.stun_endpoint.specs.Responding.{dropped, indicated, is_empty};
ghost use Rattle.stun_endpoint.specs.Responding.{is_undropped_request, own_answer};
ghost use Rattle.stun_extra.specs.CanonicalAddress.{IsCanonical};
ghost use Rattle.stun_extra.specs.Unknown.{unknown_types};

use crate::arrived::Arrived;
use crate::buffered::OpenReceivedInto;
use crate::received::{DropReason, Received};
use crate::reply::Reply;
use crate::responder::{Responder, ResponseSettings};
use crate::server::{BuildError, STUN_ATTRIBUTES};
use std::alloc::{AllocError, Allocator, Global};
use std::fmt;
use std::marker::Model;
use std::net::SocketAddr;
use stun_base::memory::Memory;
use stun_extra::canonical_address::canonical;
use stun_types::message::{Message, MessageClass, Method};

/// A STUN server without credentials, which answers everybody and signs nothing. It stores nothing
/// about its clients, and no call changes it, so threads can share it without a lock.
///
/// Contracts: a server is a record of the attribute types that it understands, and of its settings
/// for responses and FINGERPRINT.
#[derive(Drop)]
pub struct OpenServer<A: Allocator = Global> {
    responder: Responder<A>,
}

impl<A: Allocator> Model for OpenServer<A> {
    ghost use Rattle.stun_endpoint.specs.Responding.{Responding};

    ghost Value = { Responding };

    ghost view = { λ server. server.responder };
}

impl<A: Allocator> fmt::Debug for OpenServer<A> {
    ghost debug_output = { λ _. Some (codes "OpenServer { .. }") };

    fn fmt<W: fmt::Write>(&self, f: &mut fmt::Formatter<W>) -> fmt::Result
        ensures writes { WritesOnOk W.write_str_gives f.old result
            (codes "OpenServer { .. }") f.new }

        // The text does not depend on the width, the precision or any other option.
        ensures styled { WritesStyledOnOk W.write_str_gives f.old result
            (codes "OpenServer { .. }") f.new }
    {
        f.write_str("OpenServer { .. }")
    }
}

/// The outcome of a datagram at a server without credentials, whose requests and indications
/// anybody may have sent.
pub type OpenReceived<'a, A = Global> = Received<'a, A, OpenRequest<'a, A>>;

/// A request to a server without credentials. Anybody may have sent it.
///
/// Contracts: a request is a record of its message and its reply.
#[derive(Debug, Drop)]
pub struct OpenRequest<'a, A: Allocator = Global> {
    message: Message<'a>,
    reply: Reply<A>,
}

impl<'a, A: Allocator> Model for OpenRequest<'a, A> {
    ghost use Rattle.stun_endpoint.specs.Open.{OpenRequest as OpenRequestSeen};

    ghost Value = { OpenRequestSeen };

    ghost view = { λ request. record { message = request.message; reply = request.reply } };
}

impl<'a, A: Allocator> OpenRequest<'a, A> {
    /// Creates a request from its message and the handle with which you respond.
    fn new(message: Message<'a>, reply: Reply<A>) -> Self
        ensures { result ≡ record { message = message.entry; reply = reply } }
    {
        OpenRequest { message, reply }
    }

    /// Returns the message.
    pub fn message(&self) -> &Message<'a>
        ensures { result.now ≡ self.now.message }
    {
        &self.message
    }

    /// Returns the method of the request.
    pub fn method(&self) -> Method
        ensures { result ≡ method_of (type_field self.now.message) }
    {
        self.message.method()
    }

    /// Returns the address that the request came from. An IPv4 address is returned as `a.b.c.d`,
    /// even if it came as `::ffff:a.b.c.d`. Send the response to `reply().to()`, which is the
    /// address as it was passed to `receive`.
    pub fn from(&self) -> SocketAddr
        ensures { IsCanonical self.now.reply.to result }
    {
        canonical(self.reply.to())
    }

    /// Returns the handle with which you respond. Responses are not signed.
    pub fn reply(&self) -> &Reply<A>
        ensures { result.now ≡ self.now.reply }
    {
        &self.reply
    }

    /// Returns the handle with which you respond, and drops the rest. Keep it to respond later.
    pub fn into_reply(self) -> Reply<A>
        ensures { result ≡ self.entry.reply }
    {
        self.reply
    }
}

impl<A: Memory> OpenServer<A> {
    /// Builds a server. Fails with the first of these errors that applies:
    ///
    /// - `SoftwareTooLong`: the text of SOFTWARE has more than 763 bytes.
    /// - `OutOfMemory`: an allocation failed.
    pub fn new(alloc: A, settings: ResponseSettings<A>) -> Result<OpenServer<A>, BuildError>
        ensures refused { MatchOption (software_refusal (option_map string_bytes settings.software))
            (IsOkUnless result BuildError.OutOfMemory) (λ refusal. result ≡ Err refusal) }
        ensures built { IfOk result (λ server. server ≡ record {
          known = settings.understood.items ++ STUN_ATTRIBUTES;
          software = option_map string_bytes settings.software;
          answers_binding = settings.answers_binding;
          requires_fingerprint = settings.requires_fingerprint;
        }) }
        ensures granted { A.grants
            → software_refusal (option_map string_bytes settings.software) ≡ None → IsOk result }
    {
        let responder = Responder::new(alloc, settings)?;
        Ok(OpenServer { responder })
    }
}

impl<A: Memory> OpenServer<A> {
    /// Judges a datagram, and writes the response if the server itself responds.
    ///
    /// `from` is the address that the datagram came from. The two forms of an IPv4 address,
    /// `a.b.c.d` and `::ffff:a.b.c.d`, count as the same address.
    ///
    /// - Bytes that are not a message are dropped. So are messages whose FINGERPRINT is wrong, is
    ///   not the last attribute or does not have 4 bytes, and messages without FINGERPRINT if the
    ///   settings require one.
    /// - A request gets a 420 if it has an attribute that is not understood, and a success if it is
    ///   a Binding request and `answers_binding` is set. All other requests are returned to you.
    ///   Signatures are not checked.
    /// - An indication with an attribute that is not understood is dropped. Other indications, and
    ///   responses, are returned to you.
    ///
    /// Fails if an allocation fails, which can happen only for a request. Over UDP nothing is lost
    /// then, because the client retransmits its request.
    pub fn receive<'a>(
        &self,
        bytes: &'a [u8],
        from: SocketAddr,
    ) -> Result<OpenReceived<'a, A>, AllocError>
        ensures received { IfOk result (λ received. outcome_of received
            ≡ received_openly self.now from bytes.now) }
        ensures no_memory { is_undropped_request self.now.requires_fingerprint bytes.now
            ≡ false → IsOk result }
        ensures granted { A.grants → IsOk result }
    {
        let mut buffer = self.responder.make_buffer();
        self.judge_datagram(bytes, from, &mut buffer)
    }

    /// Judges a datagram like `receive`, and writes the response into a buffer, replacing its
    /// contents. If the buffer has the capacity for the response, no memory is allocated for it.
    /// The buffer is empty afterwards if there is no response, or if the call fails.
    ///
    /// Fails if an allocation fails, which can happen only for a request. Over UDP nothing is lost
    /// then, because the client retransmits its request.
    pub fn receive_into<'a>(
        &self,
        bytes: &'a [u8],
        from: SocketAddr,
        buffer: &mut Vec<u8, A>,
    ) -> Result<OpenReceivedInto<'a, A>, AllocError>
        // With the bytes in the buffer, the result is what `receive` returns.
        ensures received { IfOk result (λ received. outcome_in received buffer.new.items
            ≡ received_openly self.now from bytes.now) }
        ensures rest { IfOk result (λ received.
            LeavesNothing received buffer.new.items) }
        ensures no_memory { is_undropped_request self.now.requires_fingerprint bytes.now
            ≡ false → IsOk result }
        ensures granted { A.grants → IsOk result }
        ensures err { OnErr result (buffer.new.items ≡ []) }
    {
        match self.judge_datagram(bytes, from, buffer) {
            Ok(received) => Ok(received.into_buffer(buffer)),
            Err(_) => {
                buffer.clear();
                Err(AllocError)
            }
        }
    }

    /// Returns the outcome of a datagram. A response takes over the memory of the buffer.
    fn judge_datagram<'a>(
        &self,
        bytes: &'a [u8],
        from: SocketAddr,
        buffer: &mut Vec<u8, A>,
    ) -> Result<OpenReceived<'a, A>, AllocError>
        ensures received { IfOk result (λ received. outcome_of received
            ≡ received_openly self.now from bytes.now) }
        ensures no_memory { is_undropped_request self.now.requires_fingerprint bytes.now
            ≡ false → IsOk result }
        ensures granted { A.grants → IsOk result }
    {
        match self.responder.read(bytes) {
            Arrived::Request(message, has_fingerprint) => {
                self.judge_request(message, from, has_fingerprint, buffer)
            }
            Arrived::Indication(message) => Ok(self.judge_indication(message)),
            Arrived::Response(message) => Ok(Received::Response(message)),
            Arrived::Dropped(reason) => Ok(Received::Dropped(reason)),
        }
    }

    /// Returns the outcome of a request.
    fn judge_request<'a>(
        &self,
        message: Message<'a>,
        from: SocketAddr,
        has_fingerprint: bool,
        buffer: &mut Vec<u8, A>,
    ) -> Result<OpenReceived<'a, A>, AllocError>
        requires fingerprint { has_fingerprint ≡ is_fingerprinted message }
        requires request { class_in message ≡ MessageClass.Request }
        ensures received { IfOk result (λ received. outcome_of received
            ≡ or_requested self.now from message.entry
            (own_answer self.now None from message.entry)) }
        ensures granted { A.grants → IsOk result }
    {
        match self
            .responder
            .write_own_answer(&message, from, &None, has_fingerprint, buffer)?
        {
            Some(answer) => Ok(Received::Answer(answer)),
            None => {
                let reply = self
                    .responder
                    .make_reply(&message, from, None, has_fingerprint)?;
                Ok(Received::Request(OpenRequest::new(message, reply)))
            }
        }
    }

    /// Returns the outcome of an indication.
    fn judge_indication<'a>(&self, message: Message<'a>) -> OpenReceived<'a, A>
        ensures { outcome_of result
            ≡ (if is_empty (unknown_types self.now.known message.entry)
            then indicated message.entry else dropped DropReason.UnknownAttribute) }
    {
        if self.responder.understands(&message) {
            Received::Indication(message)
        } else {
            Received::Dropped(DropReason::UnknownAttribute)
        }
    }
}
