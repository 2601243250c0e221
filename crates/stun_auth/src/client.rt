//! The client side of long-term authentication (RFC 8489, section 9.2).
//!
//! For each request, a client does the following:
//!
//! 1. It calls `sign_outgoing_message`, which adds nothing before the first challenge, and sends
//!    the request.
//! 2. It calls `validate_incoming_message` with the response that answers the request.
//! 3. On `ResendRequest` it makes the request again with a new transaction ID, and continues with
//!    step 1. On `Validated` it accepts the response. On `IntegrityFailed` it drops the response
//!    and keeps waiting, and on any other refusal it gives up.
ghost use Rattle.std.specs.Prelude.{◌≡◌, ◌∷◌, [], ⊤, Some, OnErr, codes, option_copied};
ghost use Rattle.std.specs.Prelude.{string_bytes};
ghost use Rattle.std.specs.Fmt.{WritesOnOk, WritesStyledOnOk};
ghost use Rattle.stun_judging.specs.Reading.{reading_of, is_code};
ghost use Rattle.stun_auth.specs.Client.{new_client};
ghost use Rattle.stun_auth.specs.ClientStep.{IsResend, ClientUnlessMemory, after_challenge};
ghost use Rattle.stun_auth.specs.ClientStep.{after_digest, after_stale, client_step};
ghost use Rattle.stun_auth.specs.ClientStep.{is_authenticated, is_repeated, client_reason};
ghost use Rattle.stun_auth.specs.ClientStep.{verified_under_kept, taken_up};
ghost use Rattle.stun_auth.specs.code.ClientKept.{offer_seen, state_seen};
ghost use Rattle.stun_auth.specs.Supported.{with_supported};
ghost use Rattle.stun_auth.specs.code.Supported.{in_order};

pub(crate) mod answer;
pub(crate) mod challenge;
mod signing;

use crate::client::answer::{
    LongTermClientAuthError, LongTermClientAuthErrorReason, LongTermClientValidation,
};
use crate::client::challenge::{ChallengeRefusal, KeptChallenge, Offer, choose};
use crate::supported::Supported;
use std::alloc::{Allocator, Global};
use std::marker::Model;
use std::{fmt, mem};
use stun_base::memory::Memory;
use stun_judging::feature::Feature;
use stun_judging::limited_text::LimitedText;
use stun_judging::read_message::ReadMessage;
use stun_types::attribute::ErrorCode;
use stun_types::message::{IntegrityAlgorithm, LongTermCredentials, Message};

/// The state of a client: it has no key, a key that no success response has confirmed yet, or a
/// confirmed key.
#[derive(Drop)]
enum State<A: Allocator> {
    Initial,
    Authenticating(KeptChallenge<A>),
    Authenticated(KeptChallenge<A>),
}

impl<A: Allocator> State<A> {
    ghost use Rattle.stun_auth.specs.ClientStep.{after_confirmation, with_realm_and_nonce};

    /// Replaces the stored realm and nonce, if a challenge is stored. The key is unchanged.
    fn renew(&mut self, realm: LimitedText<A>, nonce: LimitedText<A>)
        ensures { state_seen self.new ≡ with_realm_and_nonce (state_seen self.old)
            (string_bytes realm.text) (string_bytes nonce.text) }
    {
        match self {
            State::Initial => {}
            State::Authenticating(kept) => {
                kept.realm = realm;
                kept.nonce = nonce;
            }
            State::Authenticated(kept) => {
                kept.realm = realm;
                kept.nonce = nonce;
            }
        }
    }

    /// Marks the stored key, if any, as confirmed by the server.
    fn confirm(&mut self)
        ensures { state_seen self.new ≡ after_confirmation (state_seen self.old) }
    {
        match mem::replace(self, State::Initial) {
            State::Initial => {}
            State::Authenticating(kept) => *self = State::Authenticated(kept),
            State::Authenticated(kept) => *self = State::Authenticated(kept),
        }
    }
}

/// Returns whether `error` is `Some` with this code.
fn is_code(code: u16, error: Option<u16>) -> bool
    ensures { result ≡ is_code code error }
{
    match error {
        Some(other) => other == code,
        None => false,
    }
}

/// The client side of long-term authentication: answers a server's challenges, signs requests and
/// verifies responses (RFC 8489, section 9.2).
///
/// A client starts without a key, so its first request goes out unsigned. The server answers with a
/// 401 that has a realm and a nonce. The client accepts this challenge: it derives its key from
/// user name, realm and password, and its next request is signed. A success response with a valid
/// signature confirms the key. After that, a 401 is no longer treated as a challenge, because an
/// attacker could have sent it.
///
/// Until the key is confirmed, an attacker who can forge a response chooses the realm, from which
/// the key is derived, and the algorithm. If client and server both support HMAC-SHA256 and
/// HMAC-SHA1, one forged message is enough to make both use HMAC-SHA1 under an MD5 key. For this,
/// the attacker has to see a request, and to answer it from the server's address before the server
/// does. The attack has four steps:
///
/// 1. The attacker answers the first request with a 401 that has the server's realm and the nonce
///    `x`. This nonce has no security bits, so the client assumes an older server: it derives the
///    MD5 key, stores no list of algorithms, and from now on sends its user name in clear.
/// 2. The server answers the next request, signed under the nonce `x`, with a true 438: its own
///    nonce, whose security bits ask for password algorithms, and its list.
/// 3. The client takes only the realm and the nonce from a 438. The key, the algorithm, the list
///    and the form of the user name are still those of the forged 401.
/// 4. The third request has the current nonce, but neither PASSWORD-ALGORITHMS nor
///    PASSWORD-ALGORITHM. By section 9.2.4 that means MD5, so the server validates it. Client and
///    server both return `Validated` with HMAC-SHA1.
///
/// A client that supports only HMAC-SHA256 refuses the nonce `x`. But two forged messages are
/// enough to downgrade it: a 401 whose nonce has security bits that ask for no password algorithms,
/// such as `obMatJos2QAAAx`, and a 438 with the nonce of the server.
///
/// The attacker learns no key and cannot sign. But the stronger algorithm, which both sides have,
/// does not protect the session. To notice a downgrade, call `signing_algorithm` after every
/// `ResendRequest`, before you sign, and give up if it does not return the algorithm that you want.
/// SECURITY.md lists further measures for clients and servers.
///
/// Use one client for each server and user. To change the user after a success, create a new
/// client. `Debug` shows nothing of the contents.
///
/// Contracts: the value is a record of the settings and the state.
#[derive(Drop)]
pub struct LongTermClientAuth<A: Allocator = Global> {
    alloc: A,
    supported: Supported,
    feature: Feature,
    credentials: Option<LongTermCredentials<A>>,
    state: State<A>,
}

impl<A: Allocator> Model for LongTermClientAuth<A> {
    ghost use Rattle.stun_auth.specs.Client.{ClientSide};
    ghost use Rattle.stun_auth.specs.code.Client.{coded_client_side};

    ghost Value = { ClientSide };

    ghost coded = { coded_client_side };

    ghost use Rattle.stun_auth.specs.code.Supported.{in_order};
    ghost use Rattle.stun_auth.specs.code.ClientKept.{state_seen};

    ghost view = { λ client. record {
      settings = record {
        supported = in_order client.supported;
        feature = client.feature;
        credentials = client.credentials;
      };
      state = state_seen client.state;
    } };
}

impl<A: Allocator> fmt::Debug for LongTermClientAuth<A> {
    ghost debug_output = { λ _. Some (codes "LongTermClientAuth { .. }") };

    fn fmt<W: fmt::Write>(&self, f: &mut fmt::Formatter<W>) -> fmt::Result
        ensures writes { WritesOnOk W.write_str_gives f.old result
            (codes "LongTermClientAuth { .. }") f.new }

        // The options of the formatter, such as the width, do not change the text.
        ensures styled { WritesStyledOnOk W.write_str_gives f.old result
            (codes "LongTermClientAuth { .. }") f.new }
    {
        f.write_str("LongTermClientAuth { .. }")
    }
}

impl<A: Allocator> LongTermClientAuth<A> {
    /// Creates a client without credentials. It supports HMAC-SHA1 only, and sends the user name as
    /// a hash if the server allows it (`Feature::Auto`).
    ///
    /// The call does not allocate. The client's later allocations use `alloc`.
    pub fn new(alloc: A) -> Self
        ensures { result ≡ new_client }
    {
        LongTermClientAuth {
            alloc,
            supported: Supported::only(IntegrityAlgorithm::Sha1),
            feature: Feature::Auto,
            credentials: None,
            state: State::Initial,
        }
    }

    /// Sets the user name and password. They take effect with the next challenge: if the client has
    /// already accepted a challenge, it keeps the key that it made then.
    ///
    /// A name longer than 513 bytes is accepted here, but a request that must carry it as USERNAME
    /// cannot be signed (RFC 8489, section 14.3).
    pub fn set_credentials(&mut self, credentials: LongTermCredentials<A>)
        ensures { self.new ≡ record self.old {
          settings = record self.old.settings { credentials = Some credentials };
        } }
    {
        self.credentials = Some(credentials);
    }

    /// Returns the user name and password, if they were set.
    pub fn credentials(&self) -> Option<&LongTermCredentials<A>>
        ensures { option_copied result ≡ self.now.settings.credentials }
    {
        self.credentials.as_ref()
    }

    /// Returns the supported algorithms, each of them once, in the order in which they were added.
    pub fn supported_integrity(&self) -> &[IntegrityAlgorithm]
        ensures { result.now ≡ self.now.settings.supported }
    {
        self.supported.as_slice()
    }

    /// Adds a supported algorithm. It changes nothing if the algorithm is supported already.
    ///
    /// If the server offers a list of algorithms, the client uses the first algorithm in that list
    /// that it supports.
    pub fn add_supported_integrity(&mut self, algorithm: IntegrityAlgorithm)
        ensures { self.new ≡ record self.old {
          settings = record self.old.settings {
            supported = with_supported algorithm self.old.settings.supported;
          };
        } }
    {
        self.supported = self.supported.with(algorithm);
    }

    /// Makes this the only supported algorithm.
    ///
    /// This does not protect a client that supports only HMAC-SHA256 from being downgraded by a
    /// forged challenge. Call `signing_algorithm` after each `ResendRequest`, before you sign, and
    /// give up if it does not return the algorithm that you want.
    ///
    /// A client that supports only HMAC-SHA256 handles a challenge as follows:
    ///
    /// - If the nonce has no security bits, the challenge is refused with `UnsupportedFeature`.
    /// - If the challenge has a list of algorithms without HMAC-SHA256, it is refused with
    ///   `UnsupportedFeature`.
    /// - If the challenge has no list, but its security bits ask for password algorithms, it is
    ///   refused with `Unauthorized`.
    /// - If the challenge has no list, and its security bits ask for no password algorithms, the
    ///   client uses HMAC-SHA1, although it does not support this algorithm.
    pub fn set_supported_integrity(&mut self, algorithm: IntegrityAlgorithm)
        ensures { self.new ≡ record self.old {
          settings = record self.old.settings { supported = algorithm ∷ [] };
        } }
    {
        self.supported = Supported::only(algorithm);
    }

    /// Returns whether the user name is sent as a hash (USERHASH, RFC 8489, section 14.4): never,
    /// if the server allows it, or always.
    pub fn anonymous_username(&self) -> Feature
        ensures { result ≡ self.now.settings.feature }
    {
        self.feature
    }

    /// Sets whether the user name is sent as a hash (USERHASH, RFC 8489, section 14.4). It takes
    /// effect with the next challenge.
    pub fn set_anonymous_username(&mut self, feature: Feature)
        ensures { self.new ≡ record self.old {
          settings = record self.old.settings { feature = feature };
        } }
    {
        self.feature = feature;
    }

    /// Returns whether a success response has confirmed the stored key.
    fn is_authenticated(&self) -> bool
        ensures { result ≡ is_authenticated self.now.state }
    {
        matches!(&self.state, State::Authenticated(_))
    }

    /// Returns the algorithm of a message's signature if the signature is valid under the stored
    /// key, and `None` otherwise.
    fn verify_under_kept(&self, read: &ReadMessage<'_, '_>) -> Option<IntegrityAlgorithm>
        ensures { result ≡ verified_under_kept self.now.state (reading_of read.now) }
    {
        match &self.state {
            State::Initial => None,
            State::Authenticating(kept) => read.verified_under(&kept.key),
            State::Authenticated(kept) => read.verified_under(&kept.key),
        }
    }

    /// Returns whether a challenge has the same realm and the same nonce as the challenge that the
    /// client is answering.
    fn is_repeated(&self, realm: &str, nonce: &str) -> bool
        ensures { result ≡ is_repeated self.now.state realm.now nonce.now }
    {
        match &self.state {
            State::Initial => false,
            State::Authenticating(kept) => {
                realm == kept.realm.as_str() && nonce == kept.nonce.as_str()
            }
            State::Authenticated(_) => false,
        }
    }

    /// Reads the challenge in a message, and returns it with the algorithm that the client chose,
    /// or fails with the reason to refuse it.
    fn read_offer<'a, 'm>(
        &'a self,
        read: ReadMessage<'m, '_>,
    ) -> Result<Offer<'a, 'm>, ChallengeRefusal>
        ensures { let r = reading_of read.entry in
            offer_seen self.now.settings.feature result
            ≡ taken_up self.now.settings self.now.state self.now.settings.credentials r.realm
            r.nonce r.algorithms }
    {
        let Some(user) = &self.credentials else {
            return Err(ChallengeRefusal::Unauthorized);
        };
        let Some(realm) = read.realm() else {
            return Err(ChallengeRefusal::Unauthorized);
        };
        let Some(nonce) = read.nonce() else {
            return Err(ChallengeRefusal::Unauthorized);
        };
        if self.is_repeated(realm, nonce) {
            return Err(ChallengeRefusal::Unauthorized);
        }
        let list = read.into_password_algorithms();
        match choose(self.supported, self.feature, nonce, &list) {
            Err(refusal) => Err(refusal),
            Ok(algorithm) => Ok(Offer {
                username: user.username(),
                password: user.password(),
                realm,
                nonce,
                list,
                algorithm,
            }),
        }
    }

    /// Judges a message by its signature alone. `digest` is the algorithm of the signature, or
    /// `None` if the signature is missing or invalid.
    fn settle(
        &mut self,
        is_success: bool,
        digest: Option<IntegrityAlgorithm>,
    ) -> Result<LongTermClientValidation, LongTermClientAuthError>
        ensures answer { result ≡ (after_digest self.old.state is_success digest).answer }
        ensures state { self.new ≡ record self.old {
          state =
              (after_digest self.old.state is_success digest).state;
        } }
        ensures refused { OnErr result (self.new ≡ self.old) }
    {
        match digest {
            None => Err(LongTermClientAuthError::new(
                LongTermClientAuthErrorReason::IntegrityFailed,
            )),
            Some(algorithm) => {
                if is_success {
                    self.state.confirm();
                }
                Ok(LongTermClientValidation::Validated(algorithm))
            }
        }
    }
}

impl<A: Memory> LongTermClientAuth<A> {
    /// Judges a response from the server (RFC 8489, section 9.2.5).
    ///
    /// - A **401** is a challenge until the first success has been validated. After that it is
    ///   judged by its signature, like any other response. If the client can answer the challenge,
    ///   it stores realm and nonce, makes its key, and returns `ResendRequest`.
    /// - If a **438** has REALM and NONCE, the client replaces its stored realm and nonce, whether
    ///   the response is signed or not, and also returns `ResendRequest`. It keeps its key, and
    ///   with it the algorithm. If it has not accepted a challenge yet, it stores nothing.
    /// - **Any other response** is `Validated` if its signature is valid under the client's key. A
    ///   validated success response confirms the key.
    ///
    /// After `ResendRequest` send the request again with a new transaction ID, signed by
    /// `sign_outgoing_message`.
    ///
    /// This call checks neither the transaction ID nor the source address. Pass it only responses
    /// to an outstanding request of yours, from the address that the request went to. Limit the
    /// number of requests that you send again, because a server, or an attacker who sees a
    /// transaction ID, could otherwise make you resend forever.
    ///
    /// An error leaves the client unchanged. For a 401 that is a challenge, the first of these that
    /// applies is returned:
    ///
    /// - `Unauthorized`: no credentials are set, REALM or NONCE is missing, or the client has
    ///   already answered this challenge, which usually means a wrong password. Give up.
    /// - `UnsupportedFeature`: client and server have no algorithm in common. If the nonce
    ///   announces a list of algorithms and the message has none, the error is `Unauthorized`
    ///   instead. Give up.
    /// - `UnsupportedFeature`: the user name must be hashed (`Feature::Required`), and the nonce
    ///   does not allow it. Give up.
    ///
    /// For every other response:
    ///
    /// - `IntegrityFailed`: the signature is missing or invalid. Drop the response, which may be
    ///   forged, and keep waiting.
    ///
    /// `OutOfMemory` means that an allocation failed. Only a call that would otherwise have
    /// returned `ResendRequest` can fail with it.
    pub fn validate_incoming_message(
        &mut self,
        message: &Message,
    ) -> Result<LongTermClientValidation, LongTermClientAuthError>
        ensures answer { let step = client_step self.old.settings self.old.state
            (reading_of message.now) in
            ClientUnlessMemory result (result ≡ step.answer) (IsResend step.answer) }
        ensures state { ClientUnlessMemory result
            (self.new ≡ record self.old {
              state =
                  (client_step self.old.settings self.old.state (reading_of message.now)).state;
            })
            (self.new ≡ self.old) }
        ensures refused { OnErr result (self.new ≡ self.old) }
        ensures granted { A.grants → ClientUnlessMemory result ⊤ ⊥ }
    {
        let read = ReadMessage::of(message);
        let digest = self.verify_under_kept(&read);
        if is_code(ErrorCode::UNAUTHORIZED, read.error_code()) && !self.is_authenticated() {
            return self.take_up(read, digest);
        }
        if is_code(ErrorCode::STALE_NONCE, read.error_code()) {
            return self.renew(&read, digest);
        }
        self.settle(read.is_success(), digest)
    }

    /// Accepts the challenge in a message and returns `ResendRequest`, or fails with the reason to
    /// refuse it.
    fn take_up(
        &mut self,
        read: ReadMessage<'_, '_>,
        digest: Option<IntegrityAlgorithm>,
    ) -> Result<LongTermClientValidation, LongTermClientAuthError>
        ensures answer { let r = reading_of read.entry in
            let step = after_challenge self.old.state digest
            (taken_up self.old.settings self.old.state self.old.settings.credentials r.realm
            r.nonce r.algorithms) in
            ClientUnlessMemory result (result ≡ step.answer) (IsResend step.answer) }
        ensures state { let r = reading_of read.entry in
            let step = after_challenge self.old.state digest
            (taken_up self.old.settings self.old.state self.old.settings.credentials r.realm
            r.nonce r.algorithms) in
            ClientUnlessMemory result (self.new ≡ record self.old { state = step.state })
            (self.new ≡ self.old) }
        ensures refused { OnErr result (self.new ≡ self.old) }
        ensures granted { A.grants → ClientUnlessMemory result ⊤ ⊥ }
    {
        let kept = match self.read_offer(read) {
            Err(refusal) => return Err(to_error(refusal)),
            Ok(offer) => offer.to_kept_challenge(self.alloc, self.feature),
        };
        match kept {
            Err(_) => Err(LongTermClientAuthError::new(LongTermClientAuthErrorReason::OutOfMemory)),
            Ok(kept) => {
                self.state = State::Authenticating(kept);
                Ok(LongTermClientValidation::ResendRequest(digest))
            }
        }
    }

    /// Stores the realm and nonce of a 438 and returns `ResendRequest`. If the 438 lacks REALM or
    /// NONCE, judges it by its signature.
    fn renew(
        &mut self,
        read: &ReadMessage<'_, '_>,
        digest: Option<IntegrityAlgorithm>,
    ) -> Result<LongTermClientValidation, LongTermClientAuthError>
        ensures answer { let step = after_stale self.old.state digest
            (reading_of read.now).realm (reading_of read.now).nonce in
            ClientUnlessMemory result (result ≡ step.answer) (IsResend step.answer) }
        ensures state { let step = after_stale self.old.state digest
            (reading_of read.now).realm (reading_of read.now).nonce in
            ClientUnlessMemory result (self.new ≡ record self.old { state = step.state })
            (self.new ≡ self.old) }
        ensures refused { OnErr result (self.new ≡ self.old) }
        ensures granted { A.grants → ClientUnlessMemory result ⊤ ⊥ }
    {
        let Some(realm) = read.realm() else {
            return self.settle(false, digest);
        };
        let Some(nonce) = read.nonce() else {
            return self.settle(false, digest);
        };
        let Ok(realm) = LimitedText::copied(self.alloc, realm) else {
            return Err(LongTermClientAuthError::new(LongTermClientAuthErrorReason::OutOfMemory));
        };
        let Ok(nonce) = LimitedText::copied(self.alloc, nonce) else {
            return Err(LongTermClientAuthError::new(LongTermClientAuthErrorReason::OutOfMemory));
        };
        self.state.renew(realm, nonce);
        Ok(LongTermClientValidation::ResendRequest(digest))
    }
}

/// Returns the error with which the client refuses a challenge.
fn to_error(refusal: ChallengeRefusal) -> LongTermClientAuthError
    ensures { result ≡ client_reason refusal }
{
    match refusal {
        ChallengeRefusal::Unauthorized => {
            LongTermClientAuthError::new(LongTermClientAuthErrorReason::Unauthorized)
        }
        ChallengeRefusal::UnsupportedFeature => {
            LongTermClientAuthError::new(LongTermClientAuthErrorReason::UnsupportedFeature)
        }
    }
}
