//! The outcome of a datagram.

ghost use Rattle.std.specs.Prelude.{◌≡◌, Some, codes};
ghost use Rattle.std.specs.Fmt.{WritesOnOk, WritesStyledOnOk};
ghost use Rattle.stun_base.specs.Header.{type_field};
ghost use Rattle.stun_base.specs.MessageType.{method_of};
ghost use Rattle.stun_endpoint.specs.Refusals.{code_of, phrase_of};
ghost use Rattle.stun_extra.specs.CanonicalAddress.{IsCanonical};

use crate::reply::Reply;
use std::alloc::{Allocator, Global};
use std::fmt;
use std::marker::Model;
use std::net::SocketAddr;
use stun_base::algorithm::IntegrityAlgorithm;
use stun_extra::canonical_address::canonical;
use stun_types::message::{Message, Method};

/// The outcome of a datagram. `R` is the type of an accepted request and `I` that of an accepted
/// indication. They depend on the kind of server: the defaults are those of `Server`, and
/// `OpenReceived` and `ShortTermReceived` name the types of the two other kinds.
#[derive(Debug, Drop)]
pub enum Received<'a, A: Allocator = Global, R = Request<'a, A>, I = Message<'a>> {
    /// Send this response.
    Answer(Answer<A>),
    /// The request is accepted. Respond to it, now or later.
    Request(R),
    /// An indication whose attributes are understood. Only a server with short-term credentials
    /// checks who signed it. At any other server, decide by the source address whether to act on
    /// it, because long-term credentials do not protect it (RFC 8489, section 9.2).
    Indication(I),
    /// A response, for a client on the same socket.
    Response(Message<'a>),
    /// The datagram is dropped, for this reason.
    Dropped(DropReason),
}

/// Why a datagram is dropped.
#[derive(Clone, Copy, Debug, PartialEq, Eq)]
pub enum DropReason {
    /// The datagram does not begin with the header of a STUN message.
    NotStun,
    /// The datagram begins with the header of a STUN message, but its length is not the length in
    /// the header, or an attribute extends past its end.
    Malformed,
    /// The datagram has a FINGERPRINT whose value is wrong or does not have 4 bytes, or that is not
    /// the last attribute. So the datagram is damaged, or belongs to another protocol (RFC 8489,
    /// section 14.7).
    WrongFingerprint,
    /// The datagram has no FINGERPRINT, although the settings require one (RFC 8489, section 7.3).
    MissingFingerprint,
    /// The datagram is an indication with an attribute that the server must understand, but does
    /// not.
    UnknownAttribute,
    /// The users that the call was passed are of a realm with another name than the server's. Their
    /// keys depend on that name, so the server would refuse each of them. Whatever the datagram is,
    /// the call drops it with this reason, so that you notice the mistake.
    OtherRealm,
    /// The datagram is an indication that no user has signed, at a server with short-term
    /// credentials. A request with the same attributes would get this refusal.
    NotSigned(Refusal),
}

/// The error with which a response refuses a request.
#[derive(Clone, Copy, Debug, PartialEq, Eq)]
pub enum Refusal {
    /// 400: with long-term credentials, the realm, the nonce or the user name is missing, or the
    /// request has the current nonce, but not the algorithms that were offered with it. With
    /// short-term credentials, the signature or the user name is missing.
    BadRequest,
    /// 401: the request is not signed by one of the users. With long-term credentials, a signed
    /// request also gets a 401 if the security bits of its nonce differ from those of the server's
    /// nonces (RFC 8489, section 9.2), and its algorithms agree with its nonce.
    Unauthenticated,
    /// 420: the user is accepted, but the request has an attribute that the server must understand,
    /// and does not.
    UnknownAttribute,
    /// 438: the nonce is not accepted, or it is an earlier one that is still accepted, but the
    /// algorithms or the credentials are wrong. If the security bits of the nonce differ from those
    /// of the server's nonces, and the algorithms agree with the nonce, the code is 401 instead.
    /// Only a server with long-term credentials sends this code.
    StaleNonce,
}

impl Refusal {
    /// Returns the code of the error response.
    pub fn code(self) -> u16
        ensures { result ≡ code_of self }
    {
        match self {
            Refusal::BadRequest => 400,
            Refusal::Unauthenticated => 401,
            Refusal::UnknownAttribute => 420,
            Refusal::StaleNonce => 438,
        }
    }

    /// Returns the reason phrase of the error response.
    pub(crate) fn phrase(self) -> &'static str
        ensures { result.now ≡ phrase_of self }
    {
        match self {
            Refusal::BadRequest => "Bad Request",
            Refusal::Unauthenticated => "Unauthenticated",
            Refusal::UnknownAttribute => "Unknown Attribute",
            Refusal::StaleNonce => "Stale Nonce",
        }
    }
}

/// A response to send.
///
/// Contracts: an answer is a record of its destination, its refusal and its bytes.
#[derive(Debug, Drop)]
pub struct Answer<A: Allocator = Global> {
    to: SocketAddr,
    refusal: Option<Refusal>,
    bytes: Vec<u8, A>,
}

impl<A: Allocator> Model for Answer<A> {
    ghost use Rattle.stun_endpoint.specs.Received.{Answer as AnswerSeen};

    ghost Value = { AnswerSeen };

    ghost view = { λ answer.
        record { to = answer.to; refusal = answer.refusal; bytes = answer.bytes.items } };
}

impl<A: Allocator> Answer<A> {
    pub(crate) fn new(to: SocketAddr, refusal: Option<Refusal>, bytes: Vec<u8, A>) -> Self
        ensures { result ≡ record { to = to; refusal = refusal; bytes = bytes.items } }
    {
        Answer { to, refusal, bytes }
    }

    /// Returns the address to send the response to: the source address that was passed to
    /// `receive`.
    pub fn to(&self) -> SocketAddr
        ensures { result ≡ self.now.to }
    {
        self.to
    }

    /// Returns the error with which the response refuses the request, or `None` if the response is
    /// a success.
    pub fn refusal(&self) -> Option<Refusal>
        ensures { result ≡ self.now.refusal }
    {
        self.refusal
    }

    /// Returns the bytes to send.
    pub fn bytes(&self) -> &[u8]
        ensures { result.now ≡ self.now.bytes }
    {
        self.bytes.as_slice()
    }

    /// Returns the bytes to send, and drops the rest.
    pub fn into_bytes(self) -> Vec<u8, A>
        ensures { result.items ≡ self.bytes }
    {
        self.bytes
    }
}

/// An accepted request.
///
/// Contracts: a request is a record of its message, its user with the algorithm, and its reply.
/// `Debug` shows none of them.
#[derive(Drop)]
pub struct Request<'a, A: Allocator = Global> {
    message: Message<'a>,
    user: &'a str,
    algorithm: IntegrityAlgorithm,
    reply: Reply<A>,
}

impl<'a, A: Allocator> Model for Request<'a, A> {
    ghost use Rattle.stun_endpoint.specs.Received.{AcceptedRequest};

    ghost Value = { AcceptedRequest };

    ghost view = { λ request. record {
      message = request.message;
      client = record { name = request.user.now; algorithm = request.algorithm };
      reply = request.reply;
    } };
}

impl<'a, A: Allocator> fmt::Debug for Request<'a, A> {
    ghost debug_output = { λ _. Some (codes "Request { .. }") };

    fn fmt<W: fmt::Write>(&self, f: &mut fmt::Formatter<W>) -> fmt::Result
        ensures writes { WritesOnOk W.write_str_gives f.old result
            (codes "Request { .. }") f.new }

        // The text does not depend on the width, the precision or any other option.
        ensures styled { WritesStyledOnOk W.write_str_gives f.old result
            (codes "Request { .. }") f.new }
    {
        f.write_str("Request { .. }")
    }
}

impl<'a, A: Allocator> Request<'a, A> {
    pub(crate) fn new(
        message: Message<'a>,
        user: &'a str,
        algorithm: IntegrityAlgorithm,
        reply: Reply<A>,
    ) -> Self
        ensures message { result.message ≡ message.entry }
        ensures client { result.client ≡ record { name = user.entry.now; algorithm = algorithm } }
        ensures reply { result.reply ≡ reply }
    {
        Request {
            message,
            user,
            algorithm,
            reply,
        }
    }

    /// Returns the message.
    pub fn message(&self) -> &Message<'a>
        ensures { result.now ≡ self.now.message }
    {
        &self.message
    }

    /// Returns the method of the request.
    pub fn method(&self) -> Method
        ensures { result ≡ method_of (type_field self.now.message) }
    {
        self.message.method()
    }

    /// Returns the address that the request came from. An IPv4 address is returned as `a.b.c.d`,
    /// even if it came as `::ffff:a.b.c.d`. Send the response to `reply().to()`, which is the
    /// address as it was passed to `receive`.
    pub fn from(&self) -> SocketAddr
        ensures { IsCanonical self.now.reply.to result }
    {
        canonical(self.reply.to())
    }

    /// Returns the name of the user who sent the request, even if the request has only a hash of
    /// the name.
    pub fn user(&self) -> &'a str
        ensures { result.now ≡ self.now.client.name }
    {
        self.user
    }

    /// Returns the algorithm that both sides agreed on. With short-term credentials, this is the
    /// algorithm of the signature.
    pub fn algorithm(&self) -> IntegrityAlgorithm
        ensures { result ≡ self.now.client.algorithm }
    {
        self.algorithm
    }

    /// Returns the handle with which you respond.
    pub fn reply(&self) -> &Reply<A>
        ensures { result.now ≡ self.now.reply }
    {
        &self.reply
    }

    /// Returns the handle with which you respond, and drops the rest. Keep it to respond later.
    pub fn into_reply(self) -> Reply<A>
        ensures { result ≡ self.entry.reply }
    {
        self.reply
    }
}
