//! The credentials of a client, and the judgement of responses by them (RFC 8489, sections 9.1.4
//! and 9.2.5).
ghost use Rattle.std.specs.Prelude.{◌≡◌, false, IfOk, IsOk, None, Some};
ghost use Rattle.std.specs.String.{string_bytes};
ghost use Rattle.stun_types.specs.Integrity.{verified_algorithm};
ghost use Rattle.stun_client.specs.Challenging.{code_in};
ghost use Rattle.stun_client.specs.Judging.{answered_in, by_key, by_own_key, by_signature};
ghost use Rattle.stun_client.specs.Judging.{by_sole_algorithm, fault_in, identity_of, is_doubt};
ghost use Rattle.stun_client.specs.Judging.{is_refusal, judged, judged_by_long_term};
ghost use Rattle.stun_client.specs.Judging.{judged_challenge, judged_earlier, needs_memory};
ghost use Rattle.stun_client.specs.Judging.{short_term, unbelieved, verdict_of};

use crate::challenge::Challenge;
use crate::challenge::reading::{is_challenge, read_code};
use crate::judged::{Distrust, Judged};
use crate::preferences::Preferences;
use crate::standing::Standing;
use std::alloc::{AllocError, Allocator, Global};
use stun_base::key::IntegrityKey;
use stun_base::memory::Memory;
use stun_extra::fingerprint::{Fingerprint, check_fingerprint};
use stun_types::attribute::ErrorCode;
use stun_types::message::{IntegrityAlgorithm, LongTermCredentials, Message, PreparedKey};

/// The error code Allocation Mismatch (RFC 8656, section 19). A response with this code that has no
/// valid signature casts doubt on the message that it answers.
const ALLOCATION_MISMATCH: u16 = 437;

/// The error code Wrong Credentials (RFC 8656, section 19). A response with this code that has no
/// valid signature casts doubt on a signed message that it answers.
const WRONG_CREDENTIALS: u16 = 441;

/// A name and a password that client and server have agreed on for one session (RFC 8489, section
/// 9.1).
#[derive(Drop)]
pub struct ShortTerm<A: Allocator = Global> {
    /// The user name.
    pub name: String<A>,
    /// The password, as a key that is prepared for the algorithm.
    pub password: PreparedKey<A>,
    /// The algorithm that requests are signed with.
    pub algorithm: IntegrityAlgorithm,
}

/// The name and the password of a user of a realm (RFC 8489, section 9.2).
#[derive(Drop)]
pub struct LongTerm<A: Allocator = Global> {
    /// The name and the password.
    pub user: LongTermCredentials<A>,
    /// The supported algorithms, and whether the user name is sent as a hash.
    pub preferences: Preferences,
    /// Whether the client believes responses to requests that were not signed.
    pub accepts_unsigned: bool,
}

/// The credentials with which a client signs its requests, or none.
#[derive(Drop)]
pub enum Credentials<A: Allocator = Global> {
    /// Requests are not signed.
    Unsigned,
    /// Each request is signed.
    ShortTerm(ShortTerm<A>),
    /// Requests are signed once the server has sent a challenge.
    LongTerm(LongTerm<A>),
}

/// Returns the reason to drop a message because of its FINGERPRINT, or `None` if there is no such
/// reason. A missing FINGERPRINT is a reason only if `is_required` is true.
fn find_fault(message: &Message<'_>, is_required: bool) -> Option<Distrust>
    ensures { result ≡ fault_in is_required message.now }
{
    match check_fingerprint(message) {
        Fingerprint::Right => None,
        Fingerprint::Wrong => Some(Distrust::WrongFingerprint),
        Fingerprint::Misplaced => Some(Distrust::WrongFingerprint),
        Fingerprint::Absent if is_required => Some(Distrust::MissingFingerprint),
        Fingerprint::Absent => None,
    }
}

impl<A: Memory> Credentials<A> {
    /// Creates short-term credentials: each request is signed with this password, which is the key,
    /// and this algorithm (RFC 8489, section 9.1). Fails if an allocation fails.
    pub fn short_term(
        alloc: A,
        name: String<A>,
        password: &str,
        algorithm: IntegrityAlgorithm,
    ) -> Result<Credentials<A>, AllocError>
        ensures identity { IfOk result (λ made. identity_of made
            ≡ short_term (string_bytes name) password.now algorithm) }
        ensures granted { A.grants → IsOk result }
    {
        let key = IntegrityKey::from_bytes(alloc, password.as_bytes())?;
        Ok(Credentials::ShortTerm(ShortTerm {
            name,
            password: PreparedKey::new(key, algorithm),
            algorithm,
        }))
    }

    /// Judges a response to a message of an outstanding request. `signed_for` is the challenge that
    /// this message was signed for, or `None` if it was not signed. `is_current` is true if the
    /// message is the current one of the request, and false if it is an earlier one. `standing` has
    /// the challenge that a success has confirmed.
    ///
    /// A response is dropped if its FINGERPRINT is wrong, is not the last attribute or does not
    /// have 4 bytes, or if it has no FINGERPRINT and `requires_fingerprint` is true. Any other
    /// response to the current message is judged by the credentials:
    ///
    /// - Without credentials, it is believed.
    /// - With short-term credentials, it is believed if it is signed with the password and the
    ///   algorithm of the request (RFC 8489, section 9.1.4). Otherwise it is dropped.
    /// - With long-term credentials, a 401 or a 438 is a challenge, unless the rule ignores it (see
    ///   `Challenge`), and the request is sent again for it. But if it is the challenge that the
    ///   message was signed for, or a 401 with the same realm and security bits, it is a refusal. A
    ///   challenge that is weaker than the challenge that a success has confirmed is dropped.
    /// - With long-term credentials, a response that is not such a challenge is believed if it is
    ///   signed with the key of the message (section 9.2.5), or if the message was not signed and
    ///   unsigned responses are accepted. Otherwise a 400, a 437 or a 441 casts doubt on a signed
    ///   message, and a 437 on an unsigned message. Every other response is dropped.
    ///
    /// A response to an earlier message is believed if it is signed with the key of that message
    /// and, with long-term credentials, is neither a 401 nor a 438. Otherwise it is dropped.
    ///
    /// Fails if an allocation fails. It allocates only with long-term credentials, and only if the
    /// response is a challenge to the current message that is neither dropped because of its
    /// FINGERPRINT nor ignored by the rule.
    pub fn judge(
        &self,
        alloc: A,
        requires_fingerprint: bool,
        is_current: bool,
        standing: &Standing<A>,
        signed_for: &Option<Challenge<A>>,
        response: &Message<'_>,
    ) -> Result<Judged<A>, AllocError>
        ensures judged { IfOk result (λ verdict. verdict_of verdict
            ≡ judged requires_fingerprint is_current (identity_of self.now) standing.now
            signed_for.now response.now) }
        ensures no_memory { needs_memory requires_fingerprint (identity_of self.now) signed_for.now
            response.now ≡ false → IsOk result }
        ensures no_memory_earlier { is_current ≡ false → IsOk result }
        ensures granted { A.grants → IsOk result }
    {
        if let Some(why) = find_fault(response, requires_fingerprint) {
            return Ok(Judged::Dropped(why));
        }
        if !is_current {
            return Ok(self.judge_earlier(signed_for, response));
        }
        match self {
            Credentials::Unsigned => Ok(Judged::Believed(None)),
            Credentials::ShortTerm(short) => Ok(short.judge(response)),
            Credentials::LongTerm(long) => long.judge(alloc, standing, signed_for, response),
        }
    }

    /// Judges a response to an earlier message of a request.
    fn judge_earlier(&self, signed_for: &Option<Challenge<A>>, response: &Message<'_>) -> Judged<A>
        ensures { verdict_of result
            ≡ judged_earlier (identity_of self.now) signed_for.now response.now }
    {
        match self {
            Credentials::Unsigned => Judged::Dropped(Distrust::NotVerified),
            Credentials::ShortTerm(short) => short.judge(response),
            // The request was sent again after that message, so answering another challenge could
            // alternate between two messages without end.
            Credentials::LongTerm(_) if is_challenge(response) => {
                Judged::Dropped(Distrust::NotVerified)
            }
            Credentials::LongTerm(_) => by_own_key(signed_for, response),
        }
    }
}

impl<A: Allocator> ShortTerm<A> {
    /// Judges a response by its signature alone.
    fn judge(&self, response: &Message<'_>) -> Judged<A>
        ensures { verdict_of result ≡ by_sole_algorithm self.now.algorithm
            (verified_algorithm response.now self.now.password) }
    {
        match response.validate_integrity_with_prepared_key(&self.password) {
            Ok(algorithm) => by_sole_algorithm(self.algorithm, algorithm),
            Err(_) => Judged::Dropped(Distrust::NotVerified),
        }
    }
}

/// Judges a response that has a valid signature with the algorithm `signed`. It is believed if this
/// is the algorithm `asked`, with which the request was signed, and dropped otherwise.
fn by_sole_algorithm<A: Allocator>(
    asked: IntegrityAlgorithm,
    signed: IntegrityAlgorithm,
) -> Judged<A>
    ensures { verdict_of result ≡ by_sole_algorithm asked (Some signed) }
{
    match (asked, signed) {
        (IntegrityAlgorithm::Sha1, IntegrityAlgorithm::Sha1) => Judged::Believed(Some(signed)),
        (IntegrityAlgorithm::Sha256, IntegrityAlgorithm::Sha256) => Judged::Believed(Some(signed)),
        (IntegrityAlgorithm::Sha1, IntegrityAlgorithm::Sha256) => {
            Judged::Dropped(Distrust::NotVerified)
        }
        (IntegrityAlgorithm::Sha256, IntegrityAlgorithm::Sha1) => {
            Judged::Dropped(Distrust::NotVerified)
        }
    }
}

impl<A: Memory> LongTerm<A> {
    /// Judges a response to a message that was signed for the challenge `signed_for`, or was not
    /// signed if this is `None`.
    fn judge(
        &self,
        alloc: A,
        standing: &Standing<A>,
        signed_for: &Option<Challenge<A>>,
        response: &Message<'_>,
    ) -> Result<Judged<A>, AllocError>
        ensures judged { IfOk result (λ verdict. verdict_of verdict
            ≡ judged_by_long_term self.now.accepts_unsigned self.now.preferences self.now.user
            standing.now signed_for.now response.now) }
        ensures no_memory { answered_in self.now.preferences self.now.user signed_for.now
            response.now ≡ None → IsOk result }
        ensures granted { A.grants → IsOk result }
    {
        if !is_challenge(response) {
            return Ok(self.by_signature(signed_for, response, Distrust::NotVerified));
        }
        match self.read_challenge(alloc, signed_for, response)? {
            Some(challenge) => Ok(judge_challenge(standing, signed_for, challenge, response)),
            None => Ok(self.by_signature(signed_for, response, Distrust::UnanswerableChallenge)),
        }
    }

    /// Reads the challenge in a message. Returns `None` if the message is not a challenge, or if
    /// the rule ignores it. Fails if an allocation fails.
    #[tactic(auto, using(crate::proofs::JudgingLemmas::answered))]
    fn read_challenge(
        &self,
        alloc: A,
        signed_for: &Option<Challenge<A>>,
        message: &Message<'_>,
    ) -> Result<Option<Challenge<A>>, AllocError>
        ensures read { IfOk result (λ read. read
            ≡ answered_in self.now.preferences self.now.user signed_for.now message.now) }
        ensures no_memory { answered_in self.now.preferences self.now.user signed_for.now
            message.now ≡ None → IsOk result }
        ensures granted { A.grants → IsOk result }
    {
        let before = signed_for.as_ref();
        let read = Challenge::of(alloc, self.preferences, &self.user, before, message)?;
        Ok(read)
    }

    /// Judges a response by its signature alone. `otherwise` is the reason to drop it if the
    /// signature is not valid.
    fn by_signature(
        &self,
        signed_for: &Option<Challenge<A>>,
        response: &Message<'_>,
        otherwise: Distrust,
    ) -> Judged<A>
        ensures { verdict_of result ≡ by_signature self.now.accepts_unsigned signed_for.now otherwise
            response.now }
    {
        match signed_for {
            Some(challenge) => by_key(
                challenge.verifies(response),
                judge_unverified(signed_for, response, otherwise),
            ),
            None if self.accepts_unsigned => Judged::Believed(None),
            None => judge_unverified(signed_for, response, otherwise),
        }
    }
}

/// Returns `Believed` with the algorithm of a response's valid signature, or `otherwise` if
/// `signed_by` is `None`.
fn by_key<A: Allocator>(signed_by: Option<IntegrityAlgorithm>, otherwise: Judged<A>) -> Judged<A>
    ensures { verdict_of result ≡ by_key signed_by (verdict_of otherwise) }
{
    match signed_by {
        Some(algorithm) => Judged::Believed(Some(algorithm)),
        None => otherwise,
    }
}

/// Judges a response to an earlier message with the key of that message.
fn by_own_key<A: Allocator>(signed_for: &Option<Challenge<A>>, response: &Message<'_>) -> Judged<A>
    ensures { verdict_of result ≡ by_own_key signed_for.now response.now }
{
    match signed_for {
        Some(challenge) => by_key(
            challenge.verifies(response),
            Judged::Dropped(Distrust::NotVerified),
        ),
        None => Judged::Dropped(Distrust::NotVerified),
    }
}

/// Judges a response without a valid signature: it casts doubt on the message that it answers, or
/// is dropped.
fn judge_unverified<A: Allocator>(
    signed_for: &Option<Challenge<A>>,
    response: &Message<'_>,
    otherwise: Distrust,
) -> Judged<A>
    ensures { verdict_of result ≡ unbelieved signed_for.now otherwise response.now }
{
    if is_doubt(signed_for, response) {
        Judged::Doubted
    } else {
        Judged::Dropped(otherwise)
    }
}

/// Returns whether an unsigned error casts doubt on the message that it answers. That message was
/// signed for the challenge `signed_for`, or was not signed if this is `None`.
fn is_doubt<A: Allocator>(signed_for: &Option<Challenge<A>>, response: &Message<'_>) -> bool
    ensures { result ≡ is_doubt signed_for.now (code_in response.now) }
{
    match (signed_for, read_code(response)) {
        (Some(_), Some(code)) => {
            code == ErrorCode::BAD_REQUEST
                || code == ALLOCATION_MISMATCH
                || code == WRONG_CREDENTIALS
        }
        (None, Some(code)) => code == ALLOCATION_MISMATCH,
        (_, None) => false,
    }
}

/// Judges a challenge that the rule does not ignore.
fn judge_challenge<A: Allocator + Copy>(
    standing: &Standing<A>,
    signed_for: &Option<Challenge<A>>,
    challenge: Challenge<A>,
    response: &Message<'_>,
) -> Judged<A>
    ensures { verdict_of result
        ≡ judged_challenge standing.now signed_for.now response.now challenge }
{
    if challenge.is_same_as(signed_for) {
        return Judged::Refused(None);
    }
    if standing.ignores(&challenge) {
        return Judged::Dropped(Distrust::WeakerChallenge);
    }
    if is_refusal(signed_for, response, &challenge) {
        Judged::Refused(Some(challenge))
    } else {
        Judged::Anew(challenge)
    }
}

/// Returns whether a response is a 401, and its challenge has the same realm and security bits as
/// the challenge that the request was signed for.
fn is_refusal<A: Allocator + Copy>(
    signed_for: &Option<Challenge<A>>,
    response: &Message<'_>,
    challenge: &Challenge<A>,
) -> bool
    ensures { result ≡ is_refusal signed_for.now response.now challenge.now }
{
    match signed_for {
        Some(before) => {
            read_code(response) == Some(ErrorCode::UNAUTHORIZED) && challenge.is_alike(before)
        }
        None => false,
    }
}
