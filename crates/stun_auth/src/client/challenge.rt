//! A server's challenge, which a client answers and stores (RFC 8489, section 9.2.5).
ghost use Rattle.std.specs.Prelude.{◌≡◌, ◌≤◌, IfOk, IsOk, Ok, Err, Some, None, length, map};
ghost use Rattle.std.specs.Option.{option_map};
ghost use Rattle.stun_types.specs.Limits.{TEXT_LIMIT};
ghost use Rattle.stun_types.specs.PasswordAlgorithms.{integrity_of};
ghost use Rattle.stun_auth.specs.ClientStep.{choose, choose_by_list, choose_without_bits};
ghost use Rattle.stun_auth.specs.ClientStep.{first_supported, list_or_none, unless_missing};
ghost use Rattle.stun_auth.specs.code.Supported.{in_order};

use crate::supported::Supported;
use std::alloc::{AllocError, Allocator};
use stun_base::key::long_term_key;
use stun_base::memory::Memory;
use stun_judging::feature::Feature;
use stun_judging::limited_text::LimitedText;
use stun_judging::naming::UserNaming;
use stun_judging::nonce::{NonceSecurityBits, asks_for_userhash};
use stun_types::attribute::{PasswordAlgorithmValue, PasswordAlgorithms};
use stun_types::message::{IntegrityAlgorithm, PreparedKey};

/// Why a client refuses a challenge.
#[derive(Clone, Copy, Debug, PartialEq, Eq)]
pub(crate) enum ChallengeRefusal {
    Unauthorized,
    UnsupportedFeature,
}

/// The contents of a server's challenge that a client stores, and the key that the client made for
/// the challenge.
#[derive(Drop)]
pub(crate) struct KeptChallenge<A: Allocator> {
    pub(crate) naming: UserNaming<A>,
    pub(crate) realm: LimitedText<A>,
    pub(crate) nonce: LimitedText<A>,
    pub(crate) algorithms: Vec<PasswordAlgorithmValue, A>,
    pub(crate) algorithm: IntegrityAlgorithm,
    pub(crate) key: PreparedKey<A>,
}

/// A challenge that the client will answer: the user, the contents of the message, and the
/// algorithm that the client chose.
#[derive(Drop)]
pub(crate) struct Offer<'a, 'm> {
    pub(crate) username: &'a str,
    pub(crate) password: &'a str,
    pub(crate) realm: &'m str,
    pub(crate) nonce: &'m str,
    pub(crate) list: Option<PasswordAlgorithms<'m>>,
    pub(crate) algorithm: IntegrityAlgorithm,
    ghost short: { (length realm.now ≤ TEXT_LIMIT) × (length nonce.now ≤ TEXT_LIMIT) },
}

impl Offer<'_, '_> {
    ghost use Rattle.stun_auth.specs.code.ClientKept.{challenge_seen, offer_kept};

    /// Copies the texts of the challenge, makes the key, and returns the challenge to store. Fails
    /// if an allocation fails.
    pub(crate) fn to_kept_challenge<A: Memory>(
        &self,
        alloc: A,
        feature: Feature,
    ) -> Result<KeptChallenge<A>, AllocError>
        ensures kept { IfOk result (λ kept. challenge_seen kept ≡ offer_kept feature self.now) }
        ensures granted { A.grants → IsOk result }
    {
        let hashes = asks_for_userhash(self.nonce) && feature.is_possible();
        let naming = UserNaming::new(alloc, hashes, self.username, self.realm)?;
        let realm = LimitedText::copied(alloc, self.realm)?;
        let nonce = LimitedText::copied(alloc, self.nonce)?;
        let algorithms = copy_algorithms(alloc, &self.list)?;
        let key = long_term_key(
            alloc,
            self.algorithm,
            self.username,
            self.realm,
            self.password,
        );
        Ok(KeptChallenge {
            naming,
            realm,
            nonce,
            algorithms,
            algorithm: self.algorithm,
            key: PreparedKey::new(key, self.algorithm),
        })
    }
}

/// Copies a server's list of algorithms. The copy is empty if the server sent no list. Fails if an
/// allocation fails.
fn copy_algorithms<A: Memory>(
    alloc: A,
    list: &Option<PasswordAlgorithms>,
) -> Result<Vec<PasswordAlgorithmValue, A>, AllocError>
    ensures list { IfOk result (λ copy. map integrity_of copy.items
        ≡ list_or_none (option_map (map integrity_of) list.now)) }
    ensures granted { A.grants → IsOk result }
{
    match list {
        Some(list) => copy_list(alloc, list),
        None => Ok(Vec::new(alloc)),
    }
}

/// Copies a list of algorithms. Fails if an allocation fails.
fn copy_list<A: Memory>(
    alloc: A,
    list: &PasswordAlgorithms,
) -> Result<Vec<PasswordAlgorithmValue, A>, AllocError>
    ensures list { IfOk result (λ copy. copy.items ≡ list.now) }
    ensures granted { A.grants → IsOk result }
{
    let mut copy = Vec::new(alloc);
    for i in 0..list.len() {
        if let Some(algorithm) = list.get(i) {
            A::push(&mut copy, algorithm)?;
        }
    }
    Ok(copy)
}

/// Returns the first algorithm of a server's list that the client supports, or `None` if it
/// supports none of them.
fn find_first_supported(
    supported: Supported,
    list: &PasswordAlgorithms,
) -> Option<IntegrityAlgorithm>
    ensures { result ≡ first_supported (in_order supported) (map integrity_of list.now) }
{
    for i in 0..list.len() {
        if let Some(algorithm) = list.get(i) {
            let integrity = algorithm.as_integrity();
            if supported.contains(integrity) {
                return Some(integrity);
            }
        }
    }
    None
}

/// Picks the first algorithm in a server's list that the client supports. Fails with
/// `UnsupportedFeature` if the client supports none of them.
///
/// If there is no list, picks HMAC-SHA1. But if `asks` is true, which means that the nonce has the
/// security bit *Password algorithms*, fails with `Unauthorized`.
fn choose_by_list(
    supported: Supported,
    asks: bool,
    list: &Option<PasswordAlgorithms>,
) -> Result<IntegrityAlgorithm, ChallengeRefusal>
    ensures { result ≡ choose_by_list (in_order supported) asks
        (option_map (map integrity_of) list.now) }
{
    match list {
        Some(list) => match find_first_supported(supported, list) {
            Some(algorithm) => Ok(algorithm),
            None => Err(ChallengeRefusal::UnsupportedFeature),
        },
        None => {
            if asks {
                Err(ChallengeRefusal::Unauthorized)
            } else {
                Ok(IntegrityAlgorithm::Sha1)
            }
        }
    }
}

/// Returns `choice`. Fails with `UnsupportedFeature` if `choice` is an algorithm but `missing` is
/// true, which means that the nonce lacks a required feature.
fn refuse_if_missing(
    missing: bool,
    choice: Result<IntegrityAlgorithm, ChallengeRefusal>,
) -> Result<IntegrityAlgorithm, ChallengeRefusal>
    ensures { result ≡ unless_missing missing choice }
{
    let algorithm = choice?;
    if missing {
        return Err(ChallengeRefusal::UnsupportedFeature);
    }
    Ok(algorithm)
}

/// Picks HMAC-SHA1, the algorithm for a nonce without security bits. Fails with
/// `UnsupportedFeature` if the client does not support HMAC-SHA1, or must send a hash of its user
/// name.
fn choose_without_bits(
    supported: Supported,
    feature: Feature,
) -> Result<IntegrityAlgorithm, ChallengeRefusal>
    ensures { result ≡ choose_without_bits (in_order supported) feature }
{
    if feature.is_required() || !supported.contains(IntegrityAlgorithm::Sha1) {
        Err(ChallengeRefusal::UnsupportedFeature)
    } else {
        Ok(IntegrityAlgorithm::Sha1)
    }
}

/// Picks the algorithm for a challenge with this nonce and this list, or fails with the reason to
/// refuse the challenge.
pub(crate) fn choose(
    supported: Supported,
    feature: Feature,
    nonce: &str,
    list: &Option<PasswordAlgorithms>,
) -> Result<IntegrityAlgorithm, ChallengeRefusal>
    ensures { result ≡ choose (in_order supported) feature nonce.now
        (option_map (map integrity_of) list.now) }
{
    match NonceSecurityBits::from_nonce(nonce) {
        Some(bits) => {
            let missing = feature.is_required() && !bits.username_anonymity();
            refuse_if_missing(
                missing,
                choose_by_list(supported, bits.password_algorithms(), list),
            )
        }
        None => choose_without_bits(supported, feature),
    }
}
