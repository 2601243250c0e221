//! The derived impls and the constants of attributes, each behind a function whose contract states
//! what it does.
ghost use Rattle.std.specs.Prelude.{◌≡◌, ◌<◌, ◌↔◌, ◌∷◌, []};
ghost use Rattle.std.specs.Prelude.{IsTrue, Ok, map};
ghost use Rattle.stun_types.specs.declared.attribute.password_algorithm.PasswordAlgorithmValue.{PasswordAlgorithmValue};

use crate::attribute::{
    AttributeStaticType, AttributeType, ErrorCode, MessageIntegrity, MessageIntegritySha256, Nonce,
    PasswordAlgorithm, PasswordAlgorithmValue, PasswordAlgorithms, RawAttribute, Realm, Userhash,
    Username, XorMappedAddress,
};
use std::alloc::AllocError;

/// Returns whether two raw attributes are equal: the same type, and values with the same bytes.
pub fn is_same_attribute(one: &RawAttribute<'_>, other: &RawAttribute<'_>) -> bool
    ensures { IsTrue result ↔ (one.now ≡ other.now) }
{
    one == other
}

/// Returns whether two XOR-MAPPED-ADDRESS attributes are equal: they have the same family, the same
/// XORed port and the same XORed octets.
pub fn is_same_address(one: XorMappedAddress, other: XorMappedAddress) -> bool
    ensures { IsTrue result ↔ (one ≡ other) }
{
    one == other
}

/// Returns whether two USERNAME attributes are equal: they have the same bytes.
pub fn is_same_username(one: &Username<'_>, other: &Username<'_>) -> bool
    ensures { IsTrue result ↔ (one.now ≡ other.now) }
{
    one == other
}

/// Returns whether two REALM attributes are equal: they have the same bytes.
pub fn is_same_realm(one: &Realm<'_>, other: &Realm<'_>) -> bool
    ensures { IsTrue result ↔ (one.now ≡ other.now) }
{
    one == other
}

/// Returns whether two NONCE attributes are equal: they have the same bytes.
pub fn is_same_nonce(one: &Nonce<'_>, other: &Nonce<'_>) -> bool
    ensures { IsTrue result ↔ (one.now ≡ other.now) }
{
    one == other
}

/// Returns whether two ERROR-CODE attributes are equal: the same code and the same reason phrase.
pub fn is_same_error(one: &ErrorCode<'_>, other: &ErrorCode<'_>) -> bool
    ensures { IsTrue result ↔ (one.now ≡ other.now) }
{
    one == other
}

/// Returns whether two MESSAGE-INTEGRITY-SHA256 attributes are equal: they have the same bytes.
pub fn is_same_digest(one: &MessageIntegritySha256<'_>, other: &MessageIntegritySha256<'_>) -> bool
    ensures { IsTrue result ↔ (one.now ≡ other.now) }
{
    one == other
}

/// Returns whether two MESSAGE-INTEGRITY attributes are equal: they have the same bytes.
pub fn is_same_sha1_digest(one: MessageIntegrity, other: MessageIntegrity) -> bool
    ensures { IsTrue result ↔ (one ≡ other) }
{
    one == other
}

/// Returns whether two USERHASH attributes are equal: they have the same bytes.
pub fn is_same_userhash(one: Userhash, other: Userhash) -> bool
    ensures { IsTrue result ↔ (one ≡ other) }
{
    one == other
}

/// Returns whether two PASSWORD-ALGORITHM attributes are equal: they have the same algorithm.
pub fn is_same_choice(one: PasswordAlgorithm, other: PasswordAlgorithm) -> bool
    ensures { IsTrue result ↔ (one ≡ other) }
{
    one == other
}

/// Returns whether two `PasswordAlgorithmValue`s are the same.
pub fn is_same_algorithm(one: PasswordAlgorithmValue, other: PasswordAlgorithmValue) -> bool
    ensures { IsTrue result ↔ (one ≡ other) }
{
    one == other
}

/// Copies one value of each type of attribute that borrows nothing, and an algorithm.
pub fn copies(
    address: &XorMappedAddress,
    digest: &MessageIntegrity,
    hash: &Userhash,
    choice: &PasswordAlgorithm,
    algorithm: &PasswordAlgorithmValue,
) -> Result<
    (
        XorMappedAddress,
        MessageIntegrity,
        Userhash,
        PasswordAlgorithm,
        PasswordAlgorithmValue,
    ),
    AllocError,
>
    ensures { result ≡ Ok (address.now, digest.now, hash.now, choice.now, algorithm.now) }
{
    Ok((
        address.clone()?,
        digest.clone()?,
        hash.clone()?,
        choice.clone()?,
        algorithm.clone()?,
    ))
}

/// Returns the constant `TYPE` of each attribute of this crate, in ascending order (RFC 8489,
/// section 18.3).
pub fn static_types() -> [AttributeType; 10]
    ensures { map (λ kind. kind.0) result ≡
        0x0006 ∷ 0x0008 ∷ 0x0009 ∷ 0x0014 ∷ 0x0015 ∷ 0x001C ∷ 0x001D ∷ 0x001E ∷ 0x0020
        ∷ 0x8002 ∷ [] }
{
    [
        Username::TYPE,
        MessageIntegrity::TYPE,
        ErrorCode::TYPE,
        Realm::TYPE,
        Nonce::TYPE,
        MessageIntegritySha256::TYPE,
        PasswordAlgorithm::TYPE,
        Userhash::TYPE,
        XorMappedAddress::TYPE,
        PasswordAlgorithms::TYPE,
    ]
}

/// Returns the codes of authentication errors: bad request, unauthorized and stale nonce (RFC 8489,
/// section 14.8).
pub fn error_codes() -> [u16; 3]
    ensures { result ≡ 400 ∷ 401 ∷ 438 ∷ [] }
{
    [
        ErrorCode::BAD_REQUEST,
        ErrorCode::UNAUTHORIZED,
        ErrorCode::STALE_NONCE,
    ]
}
