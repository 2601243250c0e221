//! Calls of the derived impls of this crate's types, to state their results: defaults, clones and
//! comparisons.
ghost use Rattle.std.specs.Prelude.{◌≡◌, [], ◌∷◌, Ok, IsTrue, ◌↔◌};

use crate::feature::Feature;
use crate::nonce::NonceSecurityBits;
use crate::refusal::VerdictRefusal;
use crate::stored_keys::StoredKeys;
use std::alloc::AllocError;

/// Returns the default feature, `Auto`: user names are sent as a hash if the peer supports hashes
/// too.
pub fn default_feature() -> Feature
    ensures { result ≡ Feature.Auto }
{
    Feature::default()
}

/// Returns the default security bits, none of which is set.
pub fn default_security_bits() -> NonceSecurityBits
    ensures { result ≡ 0 ∷ 0 ∷ 0 ∷ [] }
{
    NonceSecurityBits::default()
}

/// Clones a feature and security bits. The clones are equal to the originals.
pub fn copied_parts(
    feature: &Feature,
    bits: &NonceSecurityBits,
) -> Result<(Feature, NonceSecurityBits), AllocError>
    ensures { result ≡ Ok (feature.now, bits.now) }
{
    Ok((feature.clone()?, bits.clone()?))
}

/// Returns whether two `Feature`s are equal: the same variant.
pub fn is_same_feature(one: Feature, other: Feature) -> bool
    ensures { IsTrue result ↔ (one ≡ other) }
{
    one == other
}

/// Returns whether two `NonceSecurityBits` are equal: the same three bytes.
pub fn are_same_security_bits(one: NonceSecurityBits, other: NonceSecurityBits) -> bool
    ensures { IsTrue result ↔ (one ≡ other) }
{
    one == other
}

/// Returns whether two `VerdictRefusal`s are equal: the same variant.
pub fn is_same_verdict_refusal(one: VerdictRefusal, other: VerdictRefusal) -> bool
    ensures { IsTrue result ↔ (one ≡ other) }
{
    one == other
}

/// Clones a reason to refuse a message under a nonce, and stored keys. The clones are equal to the
/// originals.
pub fn copied_verdict_refusal(
    refusal: &VerdictRefusal,
    keys: &StoredKeys,
) -> Result<(VerdictRefusal, StoredKeys), AllocError>
    ensures { result ≡ Ok (refusal.now, keys.now) }
{
    Ok((refusal.clone()?, keys.clone()?))
}
