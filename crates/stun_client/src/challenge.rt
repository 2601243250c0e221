//! A server's challenge, and how a client answers it (RFC 8489, section 9.2.5).
ghost use Rattle.std.specs.Prelude.{◌≡◌, ◌≤◌, IfOk, IsOk, None, Ok, Some, length, codes};
ghost use Rattle.std.specs.Fmt.{WritesOnOk, WritesStyledOnOk};
ghost use Rattle.std.specs.Option.{IfSome, is_none, option_copied, option_map};
ghost use Rattle.stun_types.specs.Integrity.{verified_algorithm};
ghost use Rattle.stun_types.specs.Limits.{TEXT_LIMIT};
ghost use Rattle.stun_judging.specs.Algorithms.{is_sha256, same_algorithm};
ghost use Rattle.stun_judging.specs.Signed.{plain_name};
ghost use Rattle.stun_client.specs.Challenge.{new_challenge};
ghost use Rattle.stun_client.specs.Challenges.{Answered, by_rule, challenge_of, is_alike, is_one};
ghost use Rattle.stun_client.specs.Challenges.{is_renewal, is_same, is_weaker};
ghost use Rattle.stun_client.specs.Challenges.{list_for, list_kept, list_or_none};
ghost use Rattle.stun_client.specs.Challenging.{list_in};
ghost use Rattle.stun_client.specs.code.Kept.{challenge_seen};

mod kept;
pub(crate) mod offer;
pub(crate) mod reading;
mod rule;
mod signing;

use crate::challenge::kept::KeptChallenge;
use crate::challenge::reading::{is_challenge, read_code, read_list, read_nonce, read_realm};
use crate::challenge::rule::{choose_algorithm, has_same_bits, is_hashed, lacks_userhash};
use crate::preferences::Preferences;
use std::alloc::{AllocError, Allocator, Global};
use std::fmt;
use std::marker::Model;
use stun_base::key::long_term_key;
use stun_base::memory::Memory;
use stun_judging::limited_text::LimitedText;
use stun_judging::naming::UserNaming;
use stun_judging::nonce::asks_for_algorithms;
use stun_types::attribute::ErrorCode;
use stun_types::message::{IntegrityAlgorithm, LongTermCredentials, Message, PreparedKey};

/// A server's challenge, and what the client made for it: realm, nonce, the server's list of
/// algorithms, the algorithm, the name of the user, and the key (RFC 8489, section 9.2.5).
///
/// A client makes the challenge from one message, a 401 or a 438, by one rule:
///
/// 1. If the nonce has the security bit *Password algorithms*, the algorithm is the first one in
///    the message's list that the client supports. Unknown algorithm numbers are skipped, and each
///    request repeats the list byte for byte. A message without a list, or whose list has no
///    supported algorithm, is ignored.
/// 2. Otherwise the algorithm is HMAC-SHA1, and the list is not read. If the client does not
///    support HMAC-SHA1, the message is ignored.
/// 3. The user name is sent as a hash if the nonce allows hashes and the client's preferences do
///    too. A client that must send a hash ignores a nonce that does not allow hashes.
///
/// An earlier message matters in one case only: if a 438 has no list, or a malformed one, and is
/// signed with the key of the challenge before it, the list of that earlier challenge is used. So an attacker who forges
/// challenges cannot make the client send a request that the real server accepts with a weaker
/// algorithm than the strongest one that both sides support.
///
/// `Debug` shows nothing of the contents.
///
/// Contracts: the value is a record of the preferences and the challenge.
#[derive(Drop)]
pub struct Challenge<A: Allocator = Global> {
    preferences: Preferences,
    /// The parts are in a box, because they are long, and every request reserves room for a
    /// challenge, whether it is signed or not.
    kept: Box<KeptChallenge<A>, A>,
}

impl<A: Allocator> Model for Challenge<A> {
    ghost use Rattle.stun_client.specs.Challenges.{Answered};
    ghost use Rattle.stun_client.specs.Rule.{IsChosen};
    ghost use Rattle.stun_client.specs.code.Kept.{challenge_seen};

    ghost Value = { Answered };

    ghost view = { λ c. record {
      preferences = c.preferences;
      challenge = challenge_seen c.kept.value;
    } };

    ghost invariant = { λ c. IsChosen c.preferences (challenge_seen c.kept.value) };
}

impl<A: Allocator> fmt::Debug for Challenge<A> {
    ghost debug_output = { λ _. Some (codes "Challenge { .. }") };

    fn fmt<W: fmt::Write>(&self, f: &mut fmt::Formatter<W>) -> fmt::Result
        ensures writes { WritesOnOk W.write_str_gives f.old result
            (codes "Challenge { .. }") f.new }

        // The options of the formatter, such as the width, do not change the text.
        ensures styled { WritesStyledOnOk W.write_str_gives f.old result
            (codes "Challenge { .. }") f.new }
    {
        f.write_str("Challenge { .. }")
    }
}

impl<A: Memory> Challenge<A> {
    /// Reads a challenge: a 401 or a 438 with REALM and NONCE (RFC 8489, section 9.2.5). Returns
    /// `None` if the message is not a challenge, or if the rule ignores it (see `Challenge`).
    ///
    /// `before` is the challenge that the request was signed for. It matters only for a 438 without
    /// a well-formed list of algorithms: if the 438 is signed with the key of `before`, the list of
    /// `before` is used.
    ///
    /// Fails if an allocation fails. It allocates only for a challenge that the rule does not
    /// ignore.
    #[tactic(auto, using(crate::proofs::ChosenLemmas::challenge_is))]
    pub fn of(
        alloc: A,
        preferences: Preferences,
        credentials: &LongTermCredentials<A>,
        before: Option<&Challenge<A>>,
        message: &Message<'_>,
    ) -> Result<Option<Challenge<A>>, AllocError>
        ensures challenge { IfOk result (λ read. option_map (λ c. c.challenge) read
            ≡ challenge_of preferences credentials.now
            (option_map (λ (b : Answered). b.challenge) (option_copied before.entry)) message.now) }
        ensures preferences { IfOk result (λ read. IfSome read
            (λ c. c.preferences ≡ preferences)) }
        ensures no_memory { challenge_of preferences credentials.now
            (option_map (λ (b : Answered). b.challenge) (option_copied before.entry)) message.now
            ≡ None → IsOk result }
        ensures granted { A.grants → IsOk result }
    {
        if !is_challenge(message) {
            return Ok(None);
        }
        let Some(realm) = read_realm(message) else {
            return Ok(None);
        };
        let Some(nonce) = read_nonce(message) else {
            return Ok(None);
        };
        let list = choose_list(before, message);
        let read = Challenge::by_rule(alloc, preferences, credentials, realm, nonce, list)?;
        Ok(read)
    }

    /// Returns the challenge with this realm, this nonce and this list, or `None` if the rule
    /// ignores it. Fails if an allocation fails.
    #[tactic(auto, using(crate::proofs::ChosenLemmas::chosen_new))]
    fn by_rule(
        alloc: A,
        preferences: Preferences,
        credentials: &LongTermCredentials<A>,
        realm: &str,
        nonce: &str,
        list: &[u8],
    ) -> Result<Option<Challenge<A>>, AllocError>
        requires realm { length realm.now ≤ TEXT_LIMIT }
        requires nonce { length nonce.now ≤ TEXT_LIMIT }
        ensures challenge { IfOk result (λ made. option_map (λ c. c.challenge) made
            ≡ by_rule preferences credentials.now realm.now nonce.now list.now) }
        ensures preferences { IfOk result (λ made. IfSome made
            (λ c. c.preferences ≡ preferences)) }
        ensures no_memory { by_rule preferences credentials.now realm.now nonce.now list.now
            ≡ None → IsOk result }
        ensures granted { A.grants → IsOk result }
    {
        if lacks_userhash(preferences, nonce) {
            return Ok(None);
        }
        let Some(algorithm) = choose_algorithm(preferences, nonce, list) else {
            return Ok(None);
        };
        let kept = make_parts(
            alloc,
            preferences,
            credentials,
            realm,
            nonce,
            list,
            algorithm,
        )?;
        let kept = A::boxed(alloc, kept)?;
        Ok(Some(Challenge { preferences, kept }))
    }
}

/// Makes the parts of a challenge that is answered with this algorithm. Fails if an allocation
/// fails.
fn make_parts<A: Memory>(
    alloc: A,
    preferences: Preferences,
    credentials: &LongTermCredentials<A>,
    realm: &str,
    nonce: &str,
    list: &[u8],
    algorithm: IntegrityAlgorithm,
) -> Result<KeptChallenge<A>, AllocError>
    requires realm { length realm.now ≤ TEXT_LIMIT }
    requires nonce { length nonce.now ≤ TEXT_LIMIT }
    ensures kept { IfOk result (λ kept. challenge_seen kept
        ≡ new_challenge preferences.anonymous_username credentials.now realm.now nonce.now
        (list_kept nonce.now list.now) algorithm) }
    ensures granted { A.grants → IsOk result }
{
    let username = credentials.username();
    let naming = UserNaming::new(alloc, is_hashed(preferences, nonce), username, realm)?;
    let realm_kept = LimitedText::copied(alloc, realm)?;
    let nonce_kept = LimitedText::copied(alloc, nonce)?;
    let offered = copy_list(alloc, nonce, list)?;
    let key = long_term_key(alloc, algorithm, username, realm, credentials.password());
    Ok(KeptChallenge {
        naming,
        realm: realm_kept,
        nonce: nonce_kept,
        offered,
        algorithm,
        key: PreparedKey::new(key, algorithm),
    })
}

/// Copies the server's PASSWORD-ALGORITHMS, which later requests must repeat. The copy is empty if
/// the nonce does not have the security bit *Password algorithms*.
fn copy_list<A: Memory>(alloc: A, nonce: &str, list: &[u8]) -> Result<Vec<u8, A>, AllocError>
    ensures list { IfOk result (λ copy. copy.items ≡ list_kept nonce.now list.now) }
    ensures granted { A.grants → IsOk result }
{
    if asks_for_algorithms(nonce) {
        A::copied(alloc, list)
    } else {
        Ok(Vec::new(alloc))
    }
}

/// Returns the list from which the algorithm is chosen. This is the list of the message, with one
/// exception: if the message is a 438 without a well-formed list, and is signed with the key of the
/// challenge `before`, it is the list of that challenge.
fn choose_list<'a, A: Allocator>(
    before: Option<&'a Challenge<A>>,
    message: &Message<'a>,
) -> &'a [u8]
    ensures { result.now
        ≡ list_for (option_map (λ (b : Answered). b.challenge) (option_copied before.entry)) message.now }
{
    match before {
        Some(before) => choose_list_after(before, message),
        None => read_own_list(message),
    }
}

/// Returns the list from which the algorithm is chosen for a message that follows the challenge
/// `before`.
fn choose_list_after<'a, A: Allocator>(before: &'a Challenge<A>, message: &Message<'a>) -> &'a [u8]
    ensures { result.now ≡ list_for (Some before.now.challenge) message.now }
{
    if is_renewal(before, message) {
        before.list()
    } else {
        read_own_list(message)
    }
}

/// Returns the list of a message, which is empty if the message has none.
fn read_own_list<'a>(message: &Message<'a>) -> &'a [u8]
    ensures { result.now ≡ list_or_none (list_in message.now) }
{
    match read_list(message) {
        Some(list) => list,
        None => &[],
    }
}

/// Returns whether a message is a 438 without a list, and is signed with the key of the challenge
/// `before`.
fn is_renewal<A: Allocator>(before: &Challenge<A>, message: &Message<'_>) -> bool
    ensures { result ≡ is_renewal before.now.challenge message.now }
{
    read_code(message) == Some(ErrorCode::STALE_NONCE)
        && read_list(message).is_none()
        && before.verifies(message).is_some()
}

impl<A: Allocator> Challenge<A> {
    /// Returns the algorithm that requests are signed with.
    pub fn algorithm(&self) -> IntegrityAlgorithm
        ensures { result ≡ self.now.challenge.algorithm }
    {
        self.kept.algorithm
    }

    /// Returns the realm.
    pub fn realm(&self) -> &str
        ensures { result.now ≡ self.now.challenge.realm }
    {
        self.kept.realm.as_str()
    }

    /// Returns the nonce.
    pub fn nonce(&self) -> &str
        ensures { result.now ≡ self.now.challenge.nonce }
    {
        self.kept.nonce.as_str()
    }

    /// Returns whether the user is named by a hash (RFC 8489, section 14.4).
    pub fn is_hashed(&self) -> bool
        ensures { result ≡ is_none (plain_name self.now.challenge.naming) }
    {
        matches!(&self.kept.naming, UserNaming::Hashed(_))
    }

    /// Returns the server's list of algorithms as the bytes of its value. It is empty if the nonce
    /// does not have the security bit *Password algorithms*.
    fn list(&self) -> &[u8]
        ensures { result.now ≡ self.now.challenge.offered }
    {
        self.kept.offered.as_slice()
    }

    /// Returns the algorithm of a message's signature if the signature is valid under the key of
    /// the challenge, or `None` otherwise. It does not allocate.
    pub fn verifies(&self, message: &Message<'_>) -> Option<IntegrityAlgorithm>
        ensures { result ≡ verified_algorithm message.now self.now.challenge.key }
    {
        match message.validate_integrity_with_prepared_key(&self.kept.key) {
            Ok(algorithm) => Some(algorithm),
            Err(_) => None,
        }
    }
}

impl<A: Allocator + Copy> Challenge<A> {
    /// Returns whether `other` is the same challenge as this one, with the same nonce, realm, list
    /// and algorithm. Returns `false` for `None`.
    pub fn is_same_as(&self, other: &Option<Challenge<A>>) -> bool
        ensures { result ≡ is_one (Some self.now) other.now }
    {
        match other {
            Some(other) => self.is_one(other),
            None => false,
        }
    }

    /// Returns whether `other` is the same challenge as this one.
    fn is_one(&self, other: &Challenge<A>) -> bool
        ensures { result ≡ is_same self.now.challenge other.now.challenge }
    {
        self.nonce() == other.nonce()
            && self.realm() == other.realm()
            && self.list() == other.list()
            && is_same_algorithm(self.algorithm(), other.algorithm())
    }

    /// Returns whether this challenge has the same realm and the same security bits as `other`.
    pub fn is_alike(&self, other: &Challenge<A>) -> bool
        ensures { result ≡ is_alike self.now.challenge other.now.challenge }
    {
        self.realm() == other.realm() && has_same_bits(self.nonce(), other.nonce())
    }

    /// Returns whether a request that is signed for this challenge is less protected than a request
    /// that is signed for `other`: by HMAC-SHA1 instead of HMAC-SHA256, or with the user name in
    /// clear instead of a hash. Two challenges can each be weaker than the other: one for
    /// HMAC-SHA256 with the name, and one for HMAC-SHA1 with a hash.
    pub fn is_weaker_than(&self, other: &Challenge<A>) -> bool
        ensures { result ≡ is_weaker self.now.challenge other.now.challenge }
    {
        (is_sha256(other.algorithm()) && !is_sha256(self.algorithm()))
            || (other.is_hashed() && !self.is_hashed())
    }
}

/// Returns whether an algorithm is HMAC-SHA256.
fn is_sha256(algorithm: IntegrityAlgorithm) -> bool
    ensures { result ≡ is_sha256 algorithm }
{
    match algorithm {
        IntegrityAlgorithm::Sha1 => false,
        IntegrityAlgorithm::Sha256 => true,
    }
}

/// Returns whether two algorithms are the same.
fn is_same_algorithm(one: IntegrityAlgorithm, other: IntegrityAlgorithm) -> bool
    ensures { result ≡ same_algorithm one other }
{
    match (one, other) {
        (IntegrityAlgorithm::Sha1, IntegrityAlgorithm::Sha1) => true,
        (IntegrityAlgorithm::Sha256, IntegrityAlgorithm::Sha256) => true,
        (IntegrityAlgorithm::Sha1, IntegrityAlgorithm::Sha256) => false,
        (IntegrityAlgorithm::Sha256, IntegrityAlgorithm::Sha1) => false,
    }
}

/// Copies the challenge. Fails if an allocation fails.
impl<A: Memory> Clone for Challenge<A> {
    ghost is_clone = { λ it copy. copy ≡ it };

    ghost is_infallible = { λ _. A.grants };

    #[tactic(auto, using(crate::proofs::ChosenLemmas::chosen_copy))]
    fn clone(&self) -> Result<Self, AllocError> {
        let kept = self.kept.copy()?;
        Ok(Challenge {
            preferences: self.preferences,
            kept: A::boxed(*self.kept.offered.allocator(), kept)?,
        })
    }
}
