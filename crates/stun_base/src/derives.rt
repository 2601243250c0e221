//! The derived impls (comparisons and copies) and the constants of this crate, each behind a
//! function whose contract states what it does.
ghost use Rattle.std.specs.Prelude.{◌≡◌, ◌<◌, ◌↔◌, ◌^◌, ◌-◌, ◌∷◌, [], IsTrue, Ok, Some, map};
ghost use Rattle.std.specs.Ordering.{nat_cmp};
ghost use Rattle.stun_base.specs.Algorithm.{strength};
ghost use Rattle.stun_base.specs.MessageType.{type_number};

use crate::keys::algorithm::IntegrityAlgorithm;
use crate::keys::credentials::{LongTermCredentials, ShortTermCredentials};
use crate::wire::attribute_type::AttributeType;
use crate::wire::error::{StunParseError, StunWriteError, ValidateError};
use crate::wire::header::MessageHeader;
use crate::wire::instant::Instant;
use crate::wire::message_type::{BINDING, MessageClass, MessageType, Method};
use crate::wire::transaction_id::TransactionId;
use crate::wire::transport::TransportType;
use crate::wire::words::WordSource;
use std::alloc::{AllocError, Allocator};
use std::cmp::Ordering;

/// Splits a message type into its class and its method.
pub fn parts(message_type: MessageType) -> (MessageClass, Method)
    ensures { type_number result.0 result.1 ≡ message_type }
{
    (message_type.class(), message_type.method())
}

/// Returns whether the first algorithm is weaker than the second. HMAC-SHA1 is weaker than
/// HMAC-SHA256.
pub fn is_weaker(one: IntegrityAlgorithm, other: IntegrityAlgorithm) -> bool
    ensures { IsTrue result ↔ (strength one < strength other) }
{
    one < other
}

/// Compares two algorithms by their strength.
pub fn order_of_algorithms(one: IntegrityAlgorithm, other: IntegrityAlgorithm) -> Ordering
    ensures { result ≡ nat_cmp (strength one) (strength other) }
{
    one.cmp(&other)
}

/// Returns whether the first transaction ID is less than the second, as a number.
pub fn is_below(one: TransactionId, other: TransactionId) -> bool
    ensures { IsTrue result ↔ (one < other) }
{
    one < other
}

/// Compares two transaction IDs as numbers.
pub fn order_of_ids(one: TransactionId, other: TransactionId) -> Ordering
    ensures { result ≡ nat_cmp one other }
{
    one.cmp(&other)
}

/// Returns whether the first time is earlier than the second.
pub fn is_earlier(one: Instant, other: Instant) -> bool
    ensures { IsTrue result ↔ (one < other) }
{
    one < other
}

/// Compares two times as numbers of nanoseconds.
pub fn order_of_moments(one: Instant, other: Instant) -> Ordering
    ensures { result ≡ nat_cmp one other }
{
    one.cmp(&other)
}

/// Returns whether two algorithms are the same.
pub fn is_same_algorithm(one: IntegrityAlgorithm, other: IntegrityAlgorithm) -> bool
    ensures { IsTrue result ↔ (one ≡ other) }
{
    one == other
}

/// Returns whether two transaction IDs are the same number.
pub fn is_same_id(one: TransactionId, other: TransactionId) -> bool
    ensures { IsTrue result ↔ (one ≡ other) }
{
    one == other
}

/// Returns whether two times are the same number of nanoseconds.
pub fn is_same_moment(one: Instant, other: Instant) -> bool
    ensures { IsTrue result ↔ (one ≡ other) }
{
    one == other
}

/// Returns whether two message classes are the same.
pub fn is_same_class(one: MessageClass, other: MessageClass) -> bool
    ensures { IsTrue result ↔ (one ≡ other) }
{
    one == other
}

/// Returns whether two methods are the same number.
pub fn is_same_method(one: Method, other: Method) -> bool
    ensures { IsTrue result ↔ (one ≡ other) }
{
    one == other
}

/// Returns whether two message types are the same number.
pub fn is_same_type(one: MessageType, other: MessageType) -> bool
    ensures { IsTrue result ↔ (one ≡ other) }
{
    one == other
}

/// Returns whether two headers are equal: the same message type, length field and transaction ID.
pub fn is_same_header(one: MessageHeader, other: MessageHeader) -> bool
    ensures { IsTrue result ↔ (one ≡ other) }
{
    one == other
}

/// Returns whether two attribute types are the same number.
pub fn is_same_attribute_type(one: AttributeType, other: AttributeType) -> bool
    ensures { IsTrue result ↔ (one ≡ other) }
{
    one == other
}

/// Returns whether two transports are the same.
pub fn is_same_transport(one: TransportType, other: TransportType) -> bool
    ensures { IsTrue result ↔ (one ≡ other) }
{
    one == other
}

/// Returns whether two `StunParseError`s are equal: the same variant and, for `MissingAttribute`,
/// the same attribute type.
pub fn is_same_parse_error(one: StunParseError, other: StunParseError) -> bool
    ensures { IsTrue result ↔ (one ≡ other) }
{
    one == other
}

/// Returns whether two `ValidateError`s are equal: the same variant and, for `Parse`, equal inner
/// errors.
pub fn is_same_validate_error(one: ValidateError, other: ValidateError) -> bool
    ensures { IsTrue result ↔ (one ≡ other) }
{
    one == other
}

/// Returns whether two `StunWriteError`s are equal: the same variant and, for `AttributeExists`,
/// the same attribute type.
pub fn is_same_write_error(one: StunWriteError, other: StunWriteError) -> bool
    ensures { IsTrue result ↔ (one ≡ other) }
{
    one == other
}

/// Returns whether two short-term credentials are equal: their passwords have the same bytes.
pub fn is_same_password<A: Allocator>(
    one: &ShortTermCredentials<A>,
    other: &ShortTermCredentials<A>,
) -> bool
    ensures { IsTrue result ↔ (one.now ≡ other.now) }
{
    one == other
}

/// Returns whether two long-term credentials are equal: their user names have the same bytes, and
/// so do their passwords.
pub fn is_same_user<A: Allocator>(
    one: &LongTermCredentials<A>,
    other: &LongTermCredentials<A>,
) -> bool
    ensures { IsTrue result ↔ (one.now ≡ other.now) }
{
    one == other
}

/// Copies a header and the values that a header contains.
pub fn copied_header_parts(
    header: &MessageHeader,
    id: &TransactionId,
    message_type: &MessageType,
    class: &MessageClass,
    method: &Method,
) -> Result<
    (
        MessageHeader,
        TransactionId,
        MessageType,
        MessageClass,
        Method,
    ),
    AllocError,
>
    ensures { result ≡ Ok (header.now, id.now, message_type.now, class.now, method.now) }
{
    Ok((
        header.clone()?,
        id.clone()?,
        message_type.clone()?,
        class.clone()?,
        method.clone()?,
    ))
}

/// Copies an algorithm, an attribute type, a time and a transport.
pub fn copied_parts(
    algorithm: &IntegrityAlgorithm,
    kind: &AttributeType,
    moment: &Instant,
    transport: &TransportType,
) -> Result<(IntegrityAlgorithm, AttributeType, Instant, TransportType), AllocError>
    ensures { result ≡ Ok (algorithm.now, kind.now, moment.now, transport.now) }
{
    Ok((
        algorithm.clone()?,
        kind.clone()?,
        moment.clone()?,
        transport.clone()?,
    ))
}

/// Copies one error of each type.
pub fn copied_errors(
    parse: &StunParseError,
    validate: &ValidateError,
    write: &StunWriteError,
) -> Result<(StunParseError, ValidateError, StunWriteError), AllocError>
    ensures { result ≡ Ok (parse.now, validate.now, write.now) }
{
    Ok((parse.clone()?, validate.clone()?, write.clone()?))
}

/// Returns `Instant::ZERO`, which is 0.
pub fn first_moment() -> Instant
    ensures { result ≡ 0 }
{
    Instant::ZERO
}

/// Returns `Instant::MAX`, which is the greatest 64-bit number.
pub fn last_moment() -> Instant
    ensures { result ≡ 2 ^ 64 - 1 }
{
    Instant::MAX
}

/// Returns the Binding method, which is 1 (RFC 8489, section 18.2).
pub fn binding() -> Method
    ensures { result ≡ 0x001 }
{
    BINDING
}

/// Returns the types of Binding messages: request, indication, success and error (RFC 8489, section
/// 5).
pub fn binding_types() -> [MessageType; 4]
    ensures { result ≡ 0x0001 ∷ 0x0011 ∷ 0x0101 ∷ 0x0111 ∷ [] }
{
    [
        MessageType::from_class_method(MessageClass::Request, BINDING),
        MessageType::from_class_method(MessageClass::Indication, BINDING),
        MessageType::from_class_method(MessageClass::Success, BINDING),
        MessageType::from_class_method(MessageClass::Error, BINDING),
    ]
}

/// Returns 0x1743, the type of a success response with the method 0x5A3. This example shows where
/// in a type the bits of its method are.
pub fn spread_type() -> Option<MessageType>
    ensures { result ≡ Some 0x1743 }
{
    let method = Method::new(0x5A3)?;
    Some(MessageType::from_class_method(MessageClass::Success, method))
}

/// Returns all constants of `AttributeType`, in ascending order (RFC 8489, section 18.3).
pub fn attribute_types() -> [AttributeType; 11]
    ensures { map (λ kind. kind.0) result ≡
        0x0006 ∷ 0x0008 ∷ 0x0009 ∷ 0x0014 ∷ 0x0015 ∷ 0x001C ∷ 0x001D ∷ 0x001E ∷ 0x0020
        ∷ 0x8002 ∷ 0x8028 ∷ [] }
{
    [
        AttributeType::USERNAME,
        AttributeType::MESSAGE_INTEGRITY,
        AttributeType::ERROR_CODE,
        AttributeType::REALM,
        AttributeType::NONCE,
        AttributeType::MESSAGE_INTEGRITY_SHA256,
        AttributeType::PASSWORD_ALGORITHM,
        AttributeType::USERHASH,
        AttributeType::XOR_MAPPED_ADDRESS,
        AttributeType::PASSWORD_ALGORITHMS,
        AttributeType::FINGERPRINT,
    ]
}

/// Returns whether two sources are equal: the numbers that have not been read yet are the same in
/// both.
pub fn is_same_source(one: &WordSource, other: &WordSource) -> bool
    ensures { IsTrue result ↔ (one.now ≡ other.now) }
{
    one == other
}
