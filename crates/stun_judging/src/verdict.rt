//! The verdict on a message under a nonce: the user who is accepted, or the reason to refuse the
//! message (RFC 8489, section 9.2.4).

ghost use Rattle.std.specs.Prelude.{◌≡◌, Option, None, Some, IfOk, map};
ghost use Rattle.std.specs.Option.{option_copied};
ghost use Rattle.std.specs.Str.{bytes_eq};
ghost use Rattle.stun_judging.specs.Algorithms.{has as is_among, offered_list, same_list};
ghost use Rattle.stun_judging.specs.Judged.{HasVerifyingKey, client_judged};
ghost use Rattle.stun_judging.specs.Nonces.{security_bits};
ghost use Rattle.stun_judging.specs.Verdict.{agreement, bits_differ, is_unoffered, nonce_refusal};
ghost use Rattle.stun_judging.specs.Verdict.{verdict};
ghost use Rattle.stun_judging.specs.code.Claims.{name_of};
ghost use Rattle.stun_judging.specs.code.ReadingSeen.{reading_seen};
ghost use Rattle.stun_types.specs.PasswordAlgorithms.{integrity_of};

use crate::accepted::Accepted;
use crate::algorithm_set::AlgorithmSet;
use crate::claim::JudgeableMessage;
use crate::feature::Feature;
use crate::named_user::NamedUser;
use crate::nonce::{NonceSecurityBits, asks_for_algorithms};
use crate::reading::MessageReading;
use crate::refusal::VerdictRefusal;
use crate::users_at::UsersAt;
use stun_base::algorithm::IntegrityAlgorithm;
use stun_base::compare::is_same_text;
use stun_base::memory::Memory;
use stun_types::attribute::{PasswordAlgorithmValue, PasswordAlgorithms};

/// Lists the password algorithms that were offered, the strongest first.
fn list_offered(offered: Option<AlgorithmSet>) -> &'static [PasswordAlgorithmValue]
    ensures { map integrity_of result.now ≡ offered_list offered }
{
    match offered {
        None => &[],
        Some(set) => set.as_password_algorithms(),
    }
}

/// Returns whether a list is the list that was offered.
fn is_offered_list(list: &PasswordAlgorithms<'_>, offered: Option<AlgorithmSet>) -> bool
    ensures { result ≡ same_list (map integrity_of list.now) (offered_list offered) }
{
    list.equals(list_offered(offered))
}

/// Returns whether an algorithm was offered.
fn is_offered(algorithm: IntegrityAlgorithm, offered: Option<AlgorithmSet>) -> bool
    ensures { result ≡ is_among algorithm (offered_list offered) }
{
    match offered {
        Some(set) => set.contains(algorithm),
        None => false,
    }
}

/// Returns the algorithm that both sides agree on, or `None` if the message's algorithms disagree
/// with the offer.
pub(crate) fn agree_on_algorithm(
    reading: &MessageReading<'_, '_>,
    nonce: &str,
    offered: Option<AlgorithmSet>,
) -> Option<IntegrityAlgorithm>
    ensures { result ≡ agreement (reading_seen reading.now) nonce.now offered }
{
    if !asks_for_algorithms(nonce) {
        return Some(IntegrityAlgorithm::Sha1);
    }
    match (&reading.algorithms, reading.algorithm) {
        (None, None) => Some(IntegrityAlgorithm::Sha1),
        (Some(list), Some(algorithm))
            if is_offered_list(list, offered) && is_offered(algorithm, offered) => {
            Some(algorithm)
        }
        _ => None,
    }
}

/// Returns whether a message has algorithms although a server that supports these algorithms offers
/// none, because HMAC-SHA1 is the only one.
pub(crate) fn is_unoffered(supported: AlgorithmSet, reading: &MessageReading<'_, '_>) -> bool
    ensures { result ≡ is_unoffered supported (reading_seen reading.now) }
{
    !supported.contains(IntegrityAlgorithm::Sha256)
        && (reading.algorithms.is_some() || reading.algorithm.is_some())
}

/// Returns whether both nonces have security bits, and the bits differ.
fn are_bits_different(ours: &str, theirs: &str) -> bool
    ensures { result ≡ bits_differ (security_bits ours.now) (security_bits theirs.now) }
{
    let Some(ours) = NonceSecurityBits::from_nonce(ours) else {
        return false;
    };
    let Some(theirs) = NonceSecurityBits::from_nonce(theirs) else {
        return false;
    };
    ours.bytes() != theirs.bytes()
}

/// Returns the reason to refuse a message whose nonce is not the current one.
fn choose_refusal(ours: &str, theirs: &str) -> VerdictRefusal
    ensures { result ≡ nonce_refusal ours.now theirs.now }
{
    if are_bits_different(ours, theirs) {
        VerdictRefusal::Unauthorized
    } else {
        VerdictRefusal::StaleNonce
    }
}

/// Returns the name of the user whom a message names. A hash is looked up among the users. Returns
/// `None` if no user's name has the hash, or if `feature` does not allow hashes.
fn find_name<'a, A: Memory>(
    users: &UsersAt<'a, '_, A>,
    feature: Feature,
    user: NamedUser<'a>,
) -> Option<&'a str>
    ensures { option_copied result ≡ name_of users.now feature user.entry }
{
    match user {
        NamedUser::ByHash(hash) => {
            if feature.is_possible() {
                users.find_name_by_hash(&hash)
            } else {
                None
            }
        }
        NamedUser::ByName(name) => Some(name),
    }
}

/// Returns whether a nonce is equal to the current one. It compares all bytes, even after a
/// difference.
pub(crate) fn is_same_nonce(theirs: &str, ours: &str) -> bool
    ensures { result ≡ bytes_eq theirs.now ours.now }
{
    is_same_text(theirs.as_bytes(), ours.as_bytes())
}

/// Judges a message under a nonce and the algorithms that were offered: returns the user who is
/// accepted, or fails with the first refusal that applies.
///
/// It does not allocate and derives no key.
pub(crate) fn judge_message<'a, A: Memory>(
    users: &UsersAt<'a, '_, A>,
    feature: Feature,
    message: &JudgeableMessage<'a, '_, '_>,
    nonce: &str,
    offered: Option<AlgorithmSet>,
) -> Result<Accepted<'a, A>, VerdictRefusal>
    ensures verdict { client_judged result ≡ verdict users.now feature nonce.now offered
        (reading_seen message.now.reading.now) }
    ensures key { IfOk result
        (HasVerifyingKey users.now (reading_seen message.now.reading.now)) }
{
    let Some(claim) = &message.claim else {
        return Err(VerdictRefusal::Unauthorized);
    };
    let Some(algorithm) = agree_on_algorithm(message.reading, claim.nonce, offered) else {
        return Err(VerdictRefusal::BadRequest);
    };
    if !is_same_nonce(claim.nonce, nonce) {
        return Err(choose_refusal(nonce, claim.nonce));
    }
    let Some(name) = find_name(users, feature, claim.user) else {
        return Err(VerdictRefusal::Unauthorized);
    };
    let Some(key) = users.find_key(name, algorithm) else {
        return Err(VerdictRefusal::Unauthorized);
    };
    match message.reading.verify_under(key) {
        Some(_) => Ok(Accepted::new(name, algorithm, key)),
        None => Err(VerdictRefusal::Unauthorized),
    }
}
