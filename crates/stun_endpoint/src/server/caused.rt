//! The calls that return the outcome of a datagram together with the cause of its refusal.

ghost use Rattle.std.specs.Option.{option_copied};
ghost use Rattle.std.specs.Prelude.{◌≡◌, ◌≤◌, IfOk, IsOk, Some, false, length};
ghost use Rattle.stun_judging.specs.Algorithms.{contains};
ghost use Rattle.stun_judging.specs.Nonces.{asks_for_algorithms};
ghost use Rattle.stun_judging.specs.Reading.{reading_of};
ghost use Rattle.stun_base.specs.MessageType.{class_in};
ghost use Rattle.stun_base.specs.declared.keys.algorithm.IntegrityAlgorithm.TheVariants.{Sha256};
ghost use Rattle.stun_endpoint.specs.Answers.{is_fingerprinted};
ghost use Rattle.stun_endpoint.specs.Causes.{cause_for, cause_of, credential_cause, or_unknown};
ghost use Rattle.stun_endpoint.specs.Judged.{judged};
ghost use Rattle.stun_endpoint.specs.Outcomes.{outcome_of};
ghost use Rattle.stun_endpoint.specs.Received.{by_verdict, outcome_of_accepted, received_by};
ghost use Rattle.stun_endpoint.specs.Received.{received_for, refused_with};
ghost use Rattle.stun_endpoint.specs.Responding.{is_undropped_request};
ghost use Rattle.stun_endpoint.specs.code.Judges.{realm_of, users_of};
ghost use Rattle.stun_endpoint.specs.code.Refusing.{cause_by_refusal, unknown_in};
ghost use Rattle.stun_types.specs.Limits.{TEXT_LIMIT};

use crate::arrived::Arrived;
use crate::received::{DropReason, Received, Refusal};
use crate::server::Server;
use crate::server::causes::Cause;
use crate::server::judges::Judges;
use crate::unix_time::UnixTime;
use crate::users::Users;
use std::alloc::{AllocError, Allocator};
use std::net::SocketAddr;
use stun_base::memory::Memory;
use stun_judging::accepted::Accepted;
use stun_judging::read_message::ReadMessage;
use stun_judging::refusal::VerdictRefusal;
use stun_judging::user::LongTermServerUser;
use stun_types::message::MessageClass;

impl<A: Memory> Server<A> {
    /// Judges a datagram like `receive`, and also returns why it is refused, as `cause` does, or
    /// `None` if it is not refused. The datagram is judged only once, so a server that counts or
    /// logs each refusal needs no second call.
    ///
    /// Fails if an allocation fails, which can happen only for a request. Over UDP nothing is lost
    /// then, because the client retransmits its request.
    ///
    /// Contracts: law `causes_have_their_codes`.
    pub fn receive_with_cause<'a>(
        &'a self,
        bytes: &'a [u8],
        from: SocketAddr,
        now: UnixTime,
        users: &'a Users<A>,
    ) -> Result<(Received<'a, A>, Option<Cause>), AllocError>
        ensures received { IfOk result (λ both. outcome_of both.0
            ≡ received_for self.now (Some users.now.registered) from now bytes.now) }
        ensures cause { IfOk result (λ both. both.1
            ≡ cause_for self.now (Some users.now.registered) from now bytes.now) }
        ensures no_memory { is_undropped_request self.now.requires_fingerprint bytes.now
            ≡ false → IsOk result }
        ensures granted { A.grants → IsOk result }
    {
        self.judge_datagram_with_cause(bytes, from, now, &Judges::Table(&users.realm))
    }

    /// Judges a datagram like `receive_for`, and also returns why it is refused, as `cause_for`
    /// does, or `None` if it is not refused. The datagram is judged only once.
    ///
    /// Fails if an allocation fails, which can happen only for a request. Over UDP nothing is lost
    /// then, because the client retransmits its request.
    ///
    /// Contracts: law `causes_have_their_codes`.
    pub fn receive_for_with_cause<'a>(
        &'a self,
        bytes: &'a [u8],
        from: SocketAddr,
        now: UnixTime,
        user: Option<&'a LongTermServerUser<A>>,
    ) -> Result<(Received<'a, A>, Option<Cause>), AllocError>
        ensures received { IfOk result (λ both. outcome_of both.0
            ≡ received_for self.now (option_copied user.entry) from now bytes.now) }
        ensures cause { IfOk result (λ both. both.1
            ≡ cause_for self.now (option_copied user.entry) from now bytes.now) }
        ensures no_memory { is_undropped_request self.now.requires_fingerprint bytes.now
            ≡ false → IsOk result }
        ensures granted { A.grants → IsOk result }
    {
        self.judge_datagram_with_cause(bytes, from, now, &Judges::from_user(user))
    }

    /// Returns the outcome of a datagram, and the cause of its refusal, or `None` if it is not
    /// refused.
    fn judge_datagram_with_cause<'a>(
        &'a self,
        bytes: &'a [u8],
        from: SocketAddr,
        now: UnixTime,
        judges: &Judges<'a, A>,
    ) -> Result<(Received<'a, A>, Option<Cause>), AllocError>
        ensures received { IfOk result (λ both. outcome_of both.0
            ≡ received_for self.now (users_of judges.now) from now bytes.now) }
        ensures cause { IfOk result (λ both. both.1
            ≡ cause_for self.now (users_of judges.now) from now bytes.now) }
        ensures no_memory { is_undropped_request self.now.requires_fingerprint bytes.now
            ≡ false → IsOk result }
        ensures granted { A.grants → IsOk result }
    {
        if self.has_other_realm(judges) {
            return Ok((Received::Dropped(DropReason::OtherRealm), None));
        }
        self.judge_at_realm_with_cause(bytes, from, now, judges)
    }

    /// Returns the outcome of a datagram with users of the server's realm, and the cause of its
    /// refusal, or `None` if it is not refused.
    fn judge_at_realm_with_cause<'a>(
        &'a self,
        bytes: &'a [u8],
        from: SocketAddr,
        now: UnixTime,
        judges: &Judges<'a, A>,
    ) -> Result<(Received<'a, A>, Option<Cause>), AllocError>
        ensures received { IfOk result (λ both. outcome_of both.0
            ≡ received_by self.now (realm_of self.now judges.now) from now bytes.now) }
        ensures cause { IfOk result (λ both. both.1
            ≡ cause_of self.now (realm_of self.now judges.now) from now bytes.now) }
        ensures no_memory { is_undropped_request self.now.requires_fingerprint bytes.now
            ≡ false → IsOk result }
        ensures granted { A.grants → IsOk result }
    {
        match self.read(bytes) {
            Arrived::Request(message, has_fingerprint) => {
                let read = ReadMessage::of(&message);
                self.judge_request_with_cause(&read, from, now, judges, has_fingerprint)
            }
            Arrived::Indication(message) => Ok((self.judge_indication(message), None)),
            Arrived::Response(message) => Ok((Received::Response(message), None)),
            Arrived::Dropped(reason) => Ok((Received::Dropped(reason), None)),
        }
    }

    /// Returns the outcome of a request, and the cause of its refusal, or `None` if it is not
    /// refused.
    fn judge_request_with_cause<'a>(
        &'a self,
        read: &ReadMessage<'a, '_>,
        from: SocketAddr,
        now: UnixTime,
        judges: &Judges<'a, A>,
        has_fingerprint: bool,
    ) -> Result<(Received<'a, A>, Option<Cause>), AllocError>
        requires fingerprint { has_fingerprint ≡ is_fingerprinted read.now }
        requires request { class_in read.now ≡ MessageClass.Request }
        ensures received { IfOk result (λ both. outcome_of both.0
            ≡ by_verdict self.now (realm_of self.now judges.now) from now read.now
            (judged self.now (realm_of self.now judges.now) from now (reading_of read.now))) }
        ensures cause { IfOk result (λ both. both.1
            ≡ or_unknown self.now read.now
            (credential_cause self.now (realm_of self.now judges.now) from now (reading_of read.now))) }
        ensures granted { A.grants → IsOk result }
    {
        let mut buffer = self.responder.make_buffer();
        let epoch = self.compute_epoch(now);
        let nonce = self.make_nonce(&self.secret, from, epoch)?;
        match self.judge_in(judges, read, from, epoch, &nonce)? {
            Ok(accepted) => {
                self.accept_with_cause(read, from, accepted, has_fingerprint, &mut buffer)
            }
            Err(refusal) => {
                let text = nonce.as_str();
                self.refuse_with_cause(read, from, text, refusal, has_fingerprint, &mut buffer)
            }
        }
    }

    /// Returns the outcome of a request whose user is accepted. The cause is `UnknownAttribute` if
    /// the outcome is a 420, and `None` otherwise.
    fn accept_with_cause<'a>(
        &self,
        read: &ReadMessage<'a, '_>,
        from: SocketAddr,
        accepted: Accepted<'a, A>,
        has_fingerprint: bool,
        buffer: &mut Vec<u8, A>,
    ) -> Result<(Received<'a, A>, Option<Cause>), AllocError>
        requires fingerprint { has_fingerprint ≡ is_fingerprinted read.now }
        requires request { class_in read.now ≡ MessageClass.Request }
        ensures received { IfOk result (λ both. outcome_of both.0
            ≡ outcome_of_accepted self.now accepted.entry.key from read.now
            accepted.entry.client) }
        ensures cause { IfOk result (λ both. both.1
            ≡ unknown_in (outcome_of_accepted self.now accepted.entry.key from read.now
            accepted.entry.client)) }
        ensures granted { A.grants → IsOk result }
    {
        let received = self.accept(read, from, accepted, has_fingerprint, buffer)?;
        let cause = find_unknown_cause_in(&received);
        Ok((received, cause))
    }

    /// Returns the outcome of a refused request, and the cause of the refusal.
    fn refuse_with_cause<'a>(
        &'a self,
        read: &ReadMessage<'a, '_>,
        from: SocketAddr,
        nonce: &str,
        refusal: VerdictRefusal,
        has_fingerprint: bool,
        buffer: &mut Vec<u8, A>,
    ) -> Result<(Received<'a, A>, Option<Cause>), AllocError>
        requires fingerprint { has_fingerprint ≡ is_fingerprinted read.now }
        requires offer { asks_for_algorithms nonce.now ≡ contains Sha256 self.now.algorithms }
        requires short { length nonce.now ≤ TEXT_LIMIT }
        ensures received { IfOk result (λ both. outcome_of both.0
            ≡ refused_with self.now nonce.now from read.now refusal) }
        ensures cause { IfOk result (λ both. both.1
            ≡ Some (cause_by_refusal self.now nonce.now (reading_of read.now) refusal)) }
        ensures granted { A.grants → IsOk result }
    {
        let cause = self.find_refusal_cause(read, nonce, refusal);
        let received = self.refuse(read, from, nonce, refusal, has_fingerprint, buffer)?;
        Ok((received, Some(cause)))
    }
}

/// Returns `UnknownAttribute` if this outcome is a 420, and `None` otherwise.
fn find_unknown_cause_in<A: Allocator>(received: &Received<'_, A>) -> Option<Cause>
    ensures { result ≡ unknown_in (outcome_of received.now) }
{
    match received {
        Received::Answer(answer) => match answer.refusal() {
            Some(Refusal::UnknownAttribute) => Some(Cause::UnknownAttribute),
            Some(Refusal::BadRequest) => None,
            Some(Refusal::Unauthenticated) => None,
            Some(Refusal::StaleNonce) => None,
            None => None,
        },
        Received::Request(_) => None,
        Received::Indication(_) => None,
        Received::Response(_) => None,
        Received::Dropped(_) => None,
    }
}
