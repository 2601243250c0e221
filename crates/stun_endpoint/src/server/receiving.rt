//! Judges datagrams (RFC 8489, sections 6.3 and 9.2.4).

ghost use Rattle.std.specs.Option.{option_copied};
ghost use Rattle.std.specs.Prelude.{◌≡◌, ◌≤◌, [], IfOk, IsOk, OnErr, Some, false};
ghost use Rattle.std.specs.Prelude.{if◌then◌else◌, length};
ghost use Rattle.stun_judging.specs.Algorithms.{contains};
ghost use Rattle.stun_judging.specs.Nonces.{asks_for_algorithms};
ghost use Rattle.stun_judging.specs.Reading.{reading_of};
ghost use Rattle.stun_base.specs.MessageType.{class_in};
ghost use Rattle.stun_base.specs.declared.keys.algorithm.IntegrityAlgorithm.TheVariants.{Sha256};
ghost use Rattle.stun_endpoint.specs.Answers.{is_fingerprinted};
ghost use Rattle.stun_endpoint.specs.Buffered.{LeavesNothing, outcome_in};
ghost use Rattle.stun_endpoint.specs.Judged.{judged};
ghost use Rattle.stun_endpoint.specs.Nonces.{epoch_of};
ghost use Rattle.stun_endpoint.specs.Outcomes.{outcome_of};
ghost use Rattle.stun_endpoint.specs.Received.{by_verdict, dropped, indicated};
ghost use Rattle.stun_endpoint.specs.Received.{is_empty, outcome_of_accepted, received_by};
ghost use Rattle.stun_endpoint.specs.Received.{received_for};
ghost use Rattle.stun_endpoint.specs.Received.{responding_of, signature_for};
ghost use Rattle.stun_endpoint.specs.Responding.{drop_reason, is_undropped_request, own_answer};
ghost use Rattle.stun_endpoint.specs.Responding.{reply_by};
ghost use Rattle.stun_endpoint.specs.code.Arriving.{IsByClass, dropped_in};
ghost use Rattle.stun_endpoint.specs.code.Judgements.{by_judgement};
ghost use Rattle.stun_endpoint.specs.code.Judges.{realm_of, users_of};
ghost use Rattle.stun_extra.specs.Unknown.{unknown_types};
ghost use Rattle.stun_types.specs.Limits.{TEXT_LIMIT};

use crate::arrived::Arrived;
use crate::buffered::ReceivedInto;
use crate::ending::Signature;
use crate::received::{Answer, DropReason, Received, Request};
use crate::reply::Reply;
use crate::server::Server;
use crate::server::judges::Judges;
use crate::unix_time::UnixTime;
use crate::users::Users;
use std::alloc::AllocError;
use std::net::SocketAddr;
use stun_base::algorithm::IntegrityAlgorithm;
use stun_base::memory::Memory;
use stun_base::prepared_key::PreparedKey;
use stun_judging::accepted::Accepted;
use stun_judging::read_message::ReadMessage;
use stun_judging::refusal::VerdictRefusal;
use stun_judging::user::LongTermServerUser;
use stun_types::message::{Message, MessageClass};

impl<A: Memory> Server<A> {
    /// Judges a datagram, and writes the response if the server itself responds.
    ///
    /// `from` is the address that the datagram came from. The two forms of an IPv4 address,
    /// `a.b.c.d` and `::ffff:a.b.c.d`, count as the same address. `users` are the users at this
    /// time.
    ///
    /// Of the table only the users count: the algorithms, the list that is offered and the use of
    /// hashed names are those of this server. If the table is of a realm with another name, every
    /// datagram is dropped with `OtherRealm`.
    ///
    /// - Bytes that are not a message are dropped. So are messages whose FINGERPRINT is wrong, is
    ///   not the last attribute or does not have 4 bytes, and messages without FINGERPRINT if the
    ///   settings require one.
    /// - A request gets the response of the first of these lines that applies. All other requests
    ///   are returned to you.
    ///   - 401: it is not signed.
    ///   - 400: it has no REALM, NONCE or user name, or it has the current nonce, but not the
    ///     algorithms that were offered with it. A server that supports only HMAC-SHA1 offers none.
    ///   - 438: its nonce is not accepted, or it has an earlier nonce that is still accepted, but
    ///     wrong algorithms or credentials. The code is 401 instead if the security bits of the
    ///     nonce differ from those of the server's nonces, and the algorithms agree with the nonce.
    ///   - 401: it is not signed by one of these users.
    ///   - 420, which is signed: it has an attribute that is not understood.
    ///   - Success: it is a Binding request, and `answers_binding` is set.
    /// - An indication with an attribute that is not understood is dropped. Other indications, and
    ///   responses, are returned to you.
    ///
    /// Fails if an allocation fails, which can happen only for a request. Over UDP nothing is lost
    /// then, because the client retransmits its request.
    pub fn receive<'a>(
        &self,
        bytes: &'a [u8],
        from: SocketAddr,
        now: UnixTime,
        users: &'a Users<A>,
    ) -> Result<Received<'a, A>, AllocError>
        ensures received { IfOk result (λ received. outcome_of received
            ≡ received_for self.now (Some users.now.registered) from now bytes.now) }
        ensures no_memory { is_undropped_request self.now.requires_fingerprint bytes.now
            ≡ false → IsOk result }
        ensures granted { A.grants → IsOk result }
    {
        let mut buffer = Vec::new(self.alloc);
        self.judge_datagram(bytes, from, now, &Judges::Table(&users.realm), &mut buffer)
    }

    /// Judges a datagram like `receive`, with the one user that you looked up, or with no user if
    /// there is none. If the request names this user, the result is what `receive` returns with a
    /// table of all users. If the user is of a realm with another name, every datagram is dropped
    /// with `OtherRealm`.
    ///
    /// Fails if an allocation fails, which can happen only for a request. Over UDP nothing is lost
    /// then, because the client retransmits its request.
    pub fn receive_for<'a>(
        &'a self,
        bytes: &'a [u8],
        from: SocketAddr,
        now: UnixTime,
        user: Option<&'a LongTermServerUser<A>>,
    ) -> Result<Received<'a, A>, AllocError>
        ensures received { IfOk result (λ received. outcome_of received
            ≡ received_for self.now (option_copied user.entry) from now bytes.now) }
        ensures no_memory { is_undropped_request self.now.requires_fingerprint bytes.now
            ≡ false → IsOk result }
        ensures granted { A.grants → IsOk result }
    {
        let mut buffer = Vec::new(self.alloc);
        self.judge_datagram(bytes, from, now, &Judges::from_user(user), &mut buffer)
    }

    /// Judges a datagram like `receive`, and writes the response into a buffer, replacing its
    /// contents. If the buffer has the capacity for the response, no memory is allocated for it.
    /// The buffer is empty afterwards if there is no response, or if the call fails.
    ///
    /// Fails if an allocation fails, which can happen only for a request. Over UDP nothing is lost
    /// then, because the client retransmits its request.
    pub fn receive_into<'a>(
        &self,
        bytes: &'a [u8],
        from: SocketAddr,
        now: UnixTime,
        users: &'a Users<A>,
        buffer: &mut Vec<u8, A>,
    ) -> Result<ReceivedInto<'a, Request<'a, A>>, AllocError>
        // With the bytes in the buffer, the result is what `receive` returns.
        ensures received { IfOk result (λ received. outcome_in received buffer.new.items
            ≡ received_for self.now (Some users.now.registered) from now bytes.now) }
        ensures rest { IfOk result (λ received. LeavesNothing received buffer.new.items) }
        ensures no_memory { is_undropped_request self.now.requires_fingerprint bytes.now
            ≡ false → IsOk result }
        ensures granted { A.grants → IsOk result }
        ensures err { OnErr result (buffer.new.items ≡ []) }
    {
        self.judge_datagram_into(bytes, from, now, &Judges::Table(&users.realm), buffer)
    }

    /// Judges a datagram like `receive_for`, and writes the response into a buffer, replacing its
    /// contents. If the buffer has the capacity for the response, no memory is allocated for it.
    /// The buffer is empty afterwards if there is no response, or if the call fails.
    ///
    /// Fails if an allocation fails, which can happen only for a request. Over UDP nothing is lost
    /// then, because the client retransmits its request.
    pub fn receive_for_into<'a>(
        &'a self,
        bytes: &'a [u8],
        from: SocketAddr,
        now: UnixTime,
        user: Option<&'a LongTermServerUser<A>>,
        buffer: &mut Vec<u8, A>,
    ) -> Result<ReceivedInto<'a, Request<'a, A>>, AllocError>
        // With the bytes in the buffer, the result is what `receive_for` returns.
        ensures received { IfOk result (λ received. outcome_in received buffer.new.items
            ≡ received_for self.now (option_copied user.entry) from now bytes.now) }
        ensures rest { IfOk result (λ received. LeavesNothing received buffer.new.items) }
        ensures no_memory { is_undropped_request self.now.requires_fingerprint bytes.now
            ≡ false → IsOk result }
        ensures granted { A.grants → IsOk result }
        ensures err { OnErr result (buffer.new.items ≡ []) }
    {
        self.judge_datagram_into(bytes, from, now, &Judges::from_user(user), buffer)
    }

    /// Returns the outcome of a datagram, and writes the bytes of a response into the buffer.
    fn judge_datagram_into<'a>(
        &self,
        bytes: &'a [u8],
        from: SocketAddr,
        now: UnixTime,
        judges: &Judges<'a, A>,
        buffer: &mut Vec<u8, A>,
    ) -> Result<ReceivedInto<'a, Request<'a, A>>, AllocError>
        ensures received { IfOk result (λ received. outcome_in received buffer.new.items
            ≡ received_for self.now (users_of judges.now) from now bytes.now) }
        ensures rest { IfOk result (λ received. LeavesNothing received buffer.new.items) }
        ensures no_memory { is_undropped_request self.now.requires_fingerprint bytes.now
            ≡ false → IsOk result }
        ensures granted { A.grants → IsOk result }
        ensures err { OnErr result (buffer.new.items ≡ []) }
    {
        match self.judge_datagram(bytes, from, now, judges, buffer) {
            Ok(received) => Ok(received.into_buffer(buffer)),
            Err(_) => {
                buffer.clear();
                Err(AllocError)
            }
        }
    }

    /// Reads a datagram. If the settings require a FINGERPRINT, a datagram without one is dropped.
    pub(super) fn read<'a>(&self, bytes: &'a [u8]) -> Arrived<'a>
        ensures dropped { drop_reason self.now.requires_fingerprint bytes.now
            ≡ dropped_in result }
        ensures class { IsByClass bytes.now result }
    {
        self.responder.read(bytes)
    }

    /// Returns the outcome of a datagram. A response takes over the memory of the buffer.
    fn judge_datagram<'a>(
        &self,
        bytes: &'a [u8],
        from: SocketAddr,
        now: UnixTime,
        judges: &Judges<'a, A>,
        buffer: &mut Vec<u8, A>,
    ) -> Result<Received<'a, A>, AllocError>
        ensures received { IfOk result (λ received. outcome_of received
            ≡ received_for self.now (users_of judges.now) from now bytes.now) }
        ensures no_memory { is_undropped_request self.now.requires_fingerprint bytes.now
            ≡ false → IsOk result }
        ensures granted { A.grants → IsOk result }
    {
        if self.has_other_realm(judges) {
            return Ok(Received::Dropped(DropReason::OtherRealm));
        }
        self.judge_at_realm(bytes, from, now, judges, buffer)
    }

    /// Returns the outcome of a datagram with users of the server's realm. A response takes over
    /// the memory of the buffer.
    fn judge_at_realm<'a>(
        &self,
        bytes: &'a [u8],
        from: SocketAddr,
        now: UnixTime,
        judges: &Judges<'a, A>,
        buffer: &mut Vec<u8, A>,
    ) -> Result<Received<'a, A>, AllocError>
        ensures received { IfOk result (λ received. outcome_of received
            ≡ received_by self.now (realm_of self.now judges.now) from now bytes.now) }
        ensures no_memory { is_undropped_request self.now.requires_fingerprint bytes.now
            ≡ false → IsOk result }
        ensures granted { A.grants → IsOk result }
    {
        match self.read(bytes) {
            Arrived::Request(message, has_fingerprint) => {
                let read = ReadMessage::of(&message);
                self.judge_request(&read, from, now, judges, has_fingerprint, buffer)
            }
            Arrived::Indication(message) => Ok(self.judge_indication(message)),
            Arrived::Response(message) => Ok(Received::Response(message)),
            Arrived::Dropped(reason) => Ok(Received::Dropped(reason)),
        }
    }

    /// Returns the outcome of an indication.
    pub(super) fn judge_indication<'a>(&self, message: Message<'a>) -> Received<'a, A>
        ensures { outcome_of result
            ≡ (if is_empty (unknown_types self.now.known message.entry)
            then indicated message.entry else dropped DropReason.UnknownAttribute) }
    {
        if self.responder.understands(&message) {
            Received::Indication(message)
        } else {
            Received::Dropped(DropReason::UnknownAttribute)
        }
    }

    /// Returns the outcome of a request. A response takes over the memory of the buffer.
    pub(super) fn judge_request<'a>(
        &self,
        read: &ReadMessage<'a, '_>,
        from: SocketAddr,
        now: UnixTime,
        judges: &Judges<'a, A>,
        has_fingerprint: bool,
        buffer: &mut Vec<u8, A>,
    ) -> Result<Received<'a, A>, AllocError>
        requires fingerprint { has_fingerprint ≡ is_fingerprinted read.now }
        requires request { class_in read.now ≡ MessageClass.Request }
        ensures received { IfOk result (λ received. outcome_of received
            ≡ by_verdict self.now (realm_of self.now judges.now) from now read.now
            (judged self.now (realm_of self.now judges.now) from now (reading_of read.now))) }
        ensures granted { A.grants → IsOk result }
    {
        let epoch = self.compute_epoch(now);
        let nonce = self.make_nonce(&self.secret, from, epoch)?;
        let verdict = self.judge_in(judges, read, from, epoch, &nonce)?;
        self.apply_verdict(read, from, &nonce, verdict, has_fingerprint, buffer)
    }

    /// Returns the outcome of a request with this verdict. A 401 or a 438 has the nonce `nonce`. A
    /// response takes over the memory of the buffer.
    pub(super) fn apply_verdict<'a>(
        &self,
        read: &ReadMessage<'a, '_>,
        from: SocketAddr,
        nonce: &str,
        verdict: Result<Accepted<'a, A>, VerdictRefusal>,
        has_fingerprint: bool,
        buffer: &mut Vec<u8, A>,
    ) -> Result<Received<'a, A>, AllocError>
        requires fingerprint { has_fingerprint ≡ is_fingerprinted read.now }
        requires request { class_in read.now ≡ MessageClass.Request }
        requires offer { asks_for_algorithms nonce.now ≡ contains Sha256 self.now.algorithms }
        requires short { length nonce.now ≤ TEXT_LIMIT }
        ensures received { IfOk result (λ received. outcome_of received
            ≡ by_judgement self.now nonce.now from read.now verdict.entry) }
        ensures granted { A.grants → IsOk result }
    {
        match verdict {
            Ok(accepted) => self.accept(read, from, accepted, has_fingerprint, buffer),
            Err(refusal) => self.refuse(read, from, nonce, refusal, has_fingerprint, buffer),
        }
    }

    /// Returns the epoch of a time: the number of whole nonce lifetimes since the beginning of
    /// 1970.
    pub(super) fn compute_epoch(&self, now: UnixTime) -> u64
        ensures { result ≡ epoch_of self.now now }
    {
        now.epoch(self.lifetime)
    }

    /// Returns the outcome of an accepted request.
    pub(super) fn accept<'a>(
        &self,
        read: &ReadMessage<'a, '_>,
        from: SocketAddr,
        accepted: Accepted<'a, A>,
        has_fingerprint: bool,
        buffer: &mut Vec<u8, A>,
    ) -> Result<Received<'a, A>, AllocError>
        requires fingerprint { has_fingerprint ≡ is_fingerprinted read.now }
        requires request { class_in read.now ≡ MessageClass.Request }
        ensures received { IfOk result (λ received. outcome_of received
            ≡ outcome_of_accepted self.now accepted.entry.key from read.now
            accepted.entry.client) }
        ensures granted { A.grants → IsOk result }
    {
        let key = accepted.key().clone()?;
        let name = accepted.name();
        let algorithm = accepted.algorithm();
        self.accept_from(read, from, name, algorithm, key, has_fingerprint, buffer)
    }

    /// Returns the outcome of a request that is accepted from the user with this name and this key.
    /// A response takes over the memory of the buffer.
    pub(super) fn accept_from<'a>(
        &self,
        read: &ReadMessage<'a, '_>,
        from: SocketAddr,
        name: &'a str,
        algorithm: IntegrityAlgorithm,
        key: PreparedKey<A>,
        has_fingerprint: bool,
        buffer: &mut Vec<u8, A>,
    ) -> Result<Received<'a, A>, AllocError>
        requires fingerprint { has_fingerprint ≡ is_fingerprinted read.now }
        requires request { class_in read.now ≡ MessageClass.Request }
        ensures received { IfOk result (λ received. outcome_of received
            ≡ outcome_of_accepted self.now key from read.now
            (record { name = name.entry.now; algorithm = algorithm })) }
        ensures granted { A.grants → IsOk result }
    {
        let signature = make_signature(read, key);
        let message = read.message();
        match self.write_own_answer(message, from, &signature, has_fingerprint, buffer)? {
            Some(answer) => Ok(Received::Answer(answer)),
            None => {
                let reply = self.make_reply(message, from, signature, has_fingerprint)?;
                let message = message.clone()?;
                let request = Request::new(message, name, algorithm, reply);
                Ok(Received::Request(request))
            }
        }
    }

    /// Writes the response to an accepted request if the server itself responds, and returns `None`
    /// if the caller has to respond.
    fn write_own_answer(
        &self,
        request: &Message<'_>,
        from: SocketAddr,
        signature: &Option<Signature<A>>,
        has_fingerprint: bool,
        buffer: &mut Vec<u8, A>,
    ) -> Result<Option<Answer<A>>, AllocError>
        requires fingerprint { has_fingerprint ≡ is_fingerprinted request.now }
        requires request { class_in request.now ≡ MessageClass.Request }
        ensures answer { IfOk result (λ answer. answer
            ≡ own_answer (responding_of self.now) signature.now from request.now) }
        ensures granted { A.grants → IsOk result }
    {
        self.responder
            .write_own_answer(request, from, signature, has_fingerprint, buffer)
    }

    /// Returns the handle with which you respond to an accepted request.
    fn make_reply(
        &self,
        request: &Message<'_>,
        from: SocketAddr,
        signature: Option<Signature<A>>,
        has_fingerprint: bool,
    ) -> Result<Reply<A>, AllocError>
        requires { has_fingerprint ≡ is_fingerprinted request.now }
        ensures reply { IfOk result (λ reply. reply
            ≡ reply_by (responding_of self.now) signature from request.now) }
        ensures granted { A.grants → IsOk result }
    {
        self.responder
            .make_reply(request, from, signature, has_fingerprint)
    }
}

/// Returns the signature for the responses to an accepted request: the algorithm of its integrity
/// attribute, and the key of its user. Returns `None` if the request has no integrity attribute.
fn make_signature<A: Memory>(
    read: &ReadMessage<'_, '_>,
    key: PreparedKey<A>,
) -> Option<Signature<A>>
    ensures { result ≡ signature_for key read.now }
{
    match read.deciding_algorithm() {
        Some(algorithm) => Some(Signature::new(algorithm, key)),
        None => None,
    }
}
