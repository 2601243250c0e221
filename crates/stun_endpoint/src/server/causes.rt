//! The reasons why a server refuses a request, for counters and logs (RFC 8489, sections 6.3.1 and
//! 9.2.4).

ghost use Rattle.std.specs.Option.{option_copied};
ghost use Rattle.std.specs.Prelude.{◌≡◌, IfOk, IsOk, None, Some, false, if◌then◌else◌};
ghost use Rattle.stun_judging.specs.Reading.{reading_of};
ghost use Rattle.stun_endpoint.specs.Causes.{cause_for, cause_of, code_of_cause};
ghost use Rattle.stun_endpoint.specs.Causes.{credential_cause};
ghost use Rattle.stun_endpoint.specs.Causes.{or_unknown};
ghost use Rattle.stun_endpoint.specs.Responding.{is_empty, is_undropped_request};
ghost use Rattle.stun_endpoint.specs.code.Judges.{realm_of, users_of};
ghost use Rattle.stun_endpoint.specs.code.Refusing.{bad_cause, cause_by_refusal, is_unauthorized};
ghost use Rattle.stun_endpoint.specs.code.Refusing.{unauthorized_cause, verdict_under_none};
ghost use Rattle.stun_extra.specs.Unknown.{unknown_types};

use crate::arrived::Arrived;
use crate::server::Server;
use crate::server::judges::Judges;
use crate::unix_time::UnixTime;
use crate::users::Users;
use std::alloc::AllocError;
use std::net::SocketAddr;
use stun_base::memory::Memory;
use stun_judging::read_message::ReadMessage;
use stun_judging::refusal::VerdictRefusal;
use stun_judging::told::{has_nonce, told_refusal};
use stun_judging::user::LongTermServerUser;
use stun_types::message::Message;

/// Why a server with long-term credentials refuses a request: the first check that the request
/// fails. The nonce is checked before the user.
#[derive(Clone, Copy, Debug, PartialEq, Eq)]
pub enum Cause {
    /// 401: the request has no well-formed MESSAGE-INTEGRITY or MESSAGE-INTEGRITY-SHA256. The first
    /// request of a client is not signed, so this says nothing against the client.
    NoSignature,
    /// 400: the request is signed, but has no well-formed REALM, NONCE, or name of a user (USERNAME
    /// or USERHASH).
    Incomplete,
    /// 400: the request has the current nonce, but not the algorithms that were offered with it.
    /// PASSWORD-ALGORITHMS is not the list that was offered, PASSWORD-ALGORITHM is not in the list,
    /// or the request has only one of the two attributes. A server that supports only HMAC-SHA1
    /// offers no list, so there the request has one of the attributes. An attacker in between may
    /// have changed the list.
    OtherAlgorithms,
    /// 401: the security bits of the nonce differ from those of the server's nonces (RFC 8489,
    /// section 9.2), and the algorithms of the request agree with the nonce. An attacker may have
    /// changed the bits, or the nonce was sent before a change of settings. A nonce without
    /// security bits counts as `StaleNonce`, so this cause does not reveal every attempt to
    /// downgrade a client.
    OtherFeatures,
    /// 438: the nonce is no longer valid, was sent to another address, was made with another secret
    /// or other settings, or was never made by this server. If the nonce is of the epoch before, or
    /// was made with the previous secret, this is also the cause for wrong algorithms or
    /// credentials. The client then repeats the request with the nonce of the 438. If the
    /// algorithms or the credentials are still wrong, that request is refused for `OtherAlgorithms`
    /// or `WrongCredentials`.
    StaleNonce,
    /// 401: the nonce is the current one, but the request names no registered user, the user has no
    /// key for the algorithm, or the signature is not valid under the user's key.
    WrongCredentials,
    /// 420: a user has signed the request, but it has an attribute that the server must understand,
    /// and does not.
    UnknownAttribute,
}

impl Cause {
    /// Returns the code of the error response.
    pub fn code(self) -> u16
        ensures { result ≡ code_of_cause self }
    {
        match self {
            Cause::NoSignature => 401,
            Cause::Incomplete => 400,
            Cause::OtherAlgorithms => 400,
            Cause::OtherFeatures => 401,
            Cause::StaleNonce => 438,
            Cause::WrongCredentials => 401,
            Cause::UnknownAttribute => 420,
        }
    }
}

impl<A: Memory> Server<A> {
    /// Returns why `receive` refuses a datagram. Pass the arguments of `receive`, with the same
    /// time and the same users. Returns `None` if `receive` does not refuse the datagram: it is
    /// dropped, is not a request, or is accepted.
    ///
    /// This call judges the request again, so make it only for an answer that refuses the request,
    /// or call `receive_with_cause` in place of `receive`. The cause is never sent: the client
    /// learns only the code of the response.
    ///
    /// Fails if an allocation fails. Memory is allocated only for requests.
    ///
    /// Contracts: law `causes_have_their_codes`.
    pub fn cause<'a>(
        &'a self,
        bytes: &'a [u8],
        from: SocketAddr,
        now: UnixTime,
        users: &'a Users<A>,
    ) -> Result<Option<Cause>, AllocError>
        ensures cause { IfOk result (λ cause. cause
            ≡ cause_for self.now (Some users.now.registered) from now bytes.now) }
        ensures no_memory { is_undropped_request self.now.requires_fingerprint bytes.now
            ≡ false → IsOk result }
        ensures granted { A.grants → IsOk result }
    {
        self.find_cause(bytes, from, now, &Judges::Table(&users.realm))
    }

    /// Returns why `receive_for` refuses a datagram, or `None` if `receive_for` does not refuse it.
    /// For a request that `resume` refuses, pass the time at which the request arrived.
    ///
    /// Fails if an allocation fails. Memory is allocated only for requests.
    ///
    /// Contracts: law `causes_have_their_codes`.
    pub fn cause_for<'a>(
        &'a self,
        bytes: &'a [u8],
        from: SocketAddr,
        now: UnixTime,
        user: Option<&'a LongTermServerUser<A>>,
    ) -> Result<Option<Cause>, AllocError>
        ensures cause { IfOk result (λ cause. cause
            ≡ cause_for self.now (option_copied user.entry) from now bytes.now) }
        ensures no_memory { is_undropped_request self.now.requires_fingerprint bytes.now
            ≡ false → IsOk result }
        ensures granted { A.grants → IsOk result }
    {
        self.find_cause(bytes, from, now, &Judges::from_user(user))
    }

    /// Returns why a datagram is refused, or `None` if it is not refused.
    fn find_cause<'a>(
        &'a self,
        bytes: &'a [u8],
        from: SocketAddr,
        now: UnixTime,
        judges: &Judges<'a, A>,
    ) -> Result<Option<Cause>, AllocError>
        ensures cause { IfOk result (λ cause. cause
            ≡ cause_for self.now (users_of judges.now) from now bytes.now) }
        ensures no_memory { is_undropped_request self.now.requires_fingerprint bytes.now
            ≡ false → IsOk result }
        ensures granted { A.grants → IsOk result }
    {
        if self.has_other_realm(judges) {
            return Ok(None);
        }
        self.find_cause_at_realm(bytes, from, now, judges)
    }

    /// Returns why a datagram is refused with users of the server's realm, or `None` if it is not
    /// refused.
    fn find_cause_at_realm<'a>(
        &'a self,
        bytes: &'a [u8],
        from: SocketAddr,
        now: UnixTime,
        judges: &Judges<'a, A>,
    ) -> Result<Option<Cause>, AllocError>
        ensures cause { IfOk result (λ cause. cause
            ≡ cause_of self.now (realm_of self.now judges.now) from now bytes.now) }
        ensures no_memory { is_undropped_request self.now.requires_fingerprint bytes.now
            ≡ false → IsOk result }
        ensures granted { A.grants → IsOk result }
    {
        let Arrived::Request(message, _) = self.read(bytes) else {
            return Ok(None);
        };
        self.find_request_cause(&ReadMessage::of(&message), from, now, judges)
    }

    /// Returns why a request is refused, or `None` if it is accepted.
    fn find_request_cause<'a>(
        &'a self,
        read: &ReadMessage<'a, '_>,
        from: SocketAddr,
        now: UnixTime,
        judges: &Judges<'a, A>,
    ) -> Result<Option<Cause>, AllocError>
        ensures cause { IfOk result (λ cause. cause
            ≡ or_unknown self.now read.now
            (credential_cause self.now (realm_of self.now judges.now) from now
            (reading_of read.now))) }
        ensures granted { A.grants → IsOk result }
    {
        let epoch = self.compute_epoch(now);
        let nonce = self.make_nonce(&self.secret, from, epoch)?;
        match self.judge_in(judges, read, from, epoch, &nonce)? {
            Ok(_) => Ok(self.find_unknown_cause(read.message())),
            Err(refusal) => Ok(Some(self.find_refusal_cause(read, &nonce, refusal))),
        }
    }

    /// Returns `UnknownAttribute` if a request whose user is accepted has an attribute that must be
    /// understood but is not, and `None` otherwise.
    fn find_unknown_cause(&self, request: &Message<'_>) -> Option<Cause>
        ensures { result ≡ (if is_empty (unknown_types self.now.known request.now) then None
            else Some Cause.UnknownAttribute) }
    {
        if self.responder.understands(request) {
            None
        } else {
            Some(Cause::UnknownAttribute)
        }
    }

    /// Returns the cause of the verdict `refusal` on a request. `nonce` is the current nonce of the
    /// request's source.
    pub(super) fn find_refusal_cause<'a>(
        &'a self,
        read: &ReadMessage<'a, '_>,
        nonce: &str,
        refusal: VerdictRefusal,
    ) -> Cause
        ensures { result
            ≡ cause_by_refusal self.now nonce.now (reading_of read.now) refusal }
    {
        match told_refusal(refusal, read, nonce) {
            VerdictRefusal::Unauthorized => self.find_unauthorized_cause(read, nonce),
            VerdictRefusal::StaleNonce => Cause::StaleNonce,
            VerdictRefusal::BadRequest => find_bad_cause(read),
        }
    }

    /// Returns why a request is unauthorized. To find out whether the request is signed, judges it
    /// under the empty nonce too. An unsigned request is unauthorized under every nonce. A signed
    /// request that is judged here has a nonce that is not empty, so under the empty nonce it is
    /// refused for another reason.
    fn find_unauthorized_cause<'a>(&'a self, read: &ReadMessage<'a, '_>, nonce: &str) -> Cause
        ensures { result ≡ unauthorized_cause self.now nonce.now (reading_of read.now) }
    {
        if self.is_unauthorized(read) {
            Cause::NoSignature
        } else if has_nonce(read, nonce) {
            Cause::WrongCredentials
        } else {
            Cause::OtherFeatures
        }
    }

    /// Returns whether a request is unauthorized under the empty nonce.
    fn is_unauthorized<'a>(&'a self, read: &ReadMessage<'a, '_>) -> bool
        ensures { result
            ≡ is_unauthorized (verdict_under_none self.now (reading_of read.now)) }
    {
        match self.judge_by_nobody(read, "") {
            Ok(_) => false,
            Err(VerdictRefusal::Unauthorized) => true,
            Err(VerdictRefusal::BadRequest) => false,
            Err(VerdictRefusal::StaleNonce) => false,
        }
    }
}

/// Returns why a request gets a 400. Under the empty nonce, only a malformed request gets a 400,
/// because a request that is refused for its algorithms has a nonce that is not empty.
fn find_bad_cause(read: &ReadMessage<'_, '_>) -> Cause
    ensures { result ≡ bad_cause (reading_of read.now) }
{
    match told_refusal(VerdictRefusal::BadRequest, read, "") {
        VerdictRefusal::BadRequest => Cause::Incomplete,
        VerdictRefusal::StaleNonce => Cause::OtherAlgorithms,
        VerdictRefusal::Unauthorized => Cause::OtherAlgorithms,
    }
}
