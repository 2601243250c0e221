//! The rule by which a challenge is answered (RFC 8489, section 9.2.5).
ghost use Rattle.std.specs.Prelude.{◌≡◌};
ghost use Rattle.stun_client.specs.Challenges.{has_same_bits, is_same_bit};
ghost use Rattle.stun_client.specs.Rule.{chosen, is_hashed, lacks_userhash};

use crate::challenge::offer::find_supported;
use crate::preferences::Preferences;
use stun_judging::nonce::{asks_for_algorithms, asks_for_userhash};
use stun_types::message::IntegrityAlgorithm;

/// Returns whether two nonces have the same security bits.
pub(crate) fn has_same_bits(nonce: &str, other: &str) -> bool
    ensures { result ≡ has_same_bits nonce.now other.now }
{
    is_same_bit(asks_for_algorithms(nonce), asks_for_algorithms(other))
        && is_same_bit(asks_for_userhash(nonce), asks_for_userhash(other))
}

/// Returns whether two bits are equal.
fn is_same_bit(one: bool, other: bool) -> bool
    ensures { result ≡ is_same_bit one other }
{
    if one { other } else { !other }
}

/// Returns whether a client with these preferences answers this nonce with a hash of the user name.
pub(crate) fn is_hashed(preferences: Preferences, nonce: &str) -> bool
    ensures { result ≡ is_hashed preferences nonce.now }
{
    asks_for_userhash(nonce) && preferences.anonymous_username.is_possible()
}

/// Returns whether the user name must be sent as a hash, but the nonce does not allow hashes.
pub(crate) fn lacks_userhash(preferences: Preferences, nonce: &str) -> bool
    ensures { result ≡ lacks_userhash preferences nonce.now }
{
    preferences.anonymous_username.is_required() && !asks_for_userhash(nonce)
}

/// Returns the algorithm for a nonce and a list, or `None` if the client ignores the challenge.
pub(crate) fn choose_algorithm(
    preferences: Preferences,
    nonce: &str,
    list: &[u8],
) -> Option<IntegrityAlgorithm>
    ensures { result ≡ chosen preferences nonce.now list.now }
{
    if asks_for_algorithms(nonce) {
        return find_supported(preferences, list);
    }
    if preferences.supports(IntegrityAlgorithm::Sha1) {
        Some(IntegrityAlgorithm::Sha1)
    } else {
        None
    }
}
