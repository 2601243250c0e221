//! ADDRESS-ERROR-CODE (RFC 8656, section 18.12).
ghost use Rattle.std.specs.Prelude.{◌≡◌, ◌≤◌, ◌<◌, ◌+◌, ◌-◌, ◌++◌, IfErr, IfOk, None, OnOk, Some};
ghost use Rattle.std.specs.Prelude.{length, replicate, ⊤};
ghost use Rattle.std.specs.Cmp.{partial_equiv_from_equiv};
ghost use Rattle.stun_base.specs.Attributes.{ERROR_CODE};
ghost use Rattle.stun_types.specs.Attribute.{padded_length};
ghost use Rattle.stun_types.specs.ErrorCode.{error_of, error_refusal};
ghost use Rattle.stun_types.specs.Limits.{TEXT_LIMIT};
ghost use Rattle.stun_attributes.specs.AttributeTypes.{ADDRESS_ERROR_CODE};
ghost use Rattle.stun_attributes.specs.TurnErrors.{IsAddressError, address_error_of};
ghost use Rattle.stun_attributes.specs.TurnErrors.{address_error_of-written, address_error_value};
ghost use Rattle.stun_attributes.specs.TurnErrors.{same_address_error};
ghost use Rattle.stun_attributes.specs.TurnErrors.{same_address_error_equivalence};

use crate::address_family::AddressFamily;
use std::alloc::AllocError;
use std::marker::Model;
use stun_base::error::{StunParseError, StunWriteError};
use stun_types::attribute::{AttributeType, ErrorCode, RawAttribute, append_header};
use stun_types::prelude::*;

/// The number of bytes before the reason phrase: the family, reserved bits, class and number.
const CODE_LENGTH: usize = 4;

/// ADDRESS-ERROR-CODE (RFC 8656, section 18.12): why a server has not allocated an address of one
/// family. It is in a success response to an Allocate request that asked for both families. It has
/// the family, a code from 300 to 699, and a reason phrase of at most 763 bytes.
///
/// A TURN server sends 440 (Address Family not Supported) or 508 (Insufficient Capacity). The 13
/// bits after the family are reserved. They are written as zeros and ignored when the attribute is
/// parsed.
///
/// Contracts: the value is a record of the family and of the error, which has the code and the
/// reason phrase.
///
/// # Examples
///
/// ```
/// use seatcrane_stun::extra::attribute::{AddressErrorCode, AddressFamily};
/// use seatcrane_stun::types::message::{Message, StunParseError};
///
/// /// Returns `true` if the server has not allocated an IPv6 address.
/// fn lacks_ipv6(success: &Message<'_>) -> Result<bool, StunParseError> {
///     let error = success.attribute::<AddressErrorCode>()?;
///     Ok(error.family() == AddressFamily::Ipv6)
/// }
/// # let success = b"\x01\x03\0\x08\x21\x12\xa4\x42 any 12 byte\x80\x01\0\x04\x02\0\x04\x28";
/// # assert_eq!(lacks_ipv6(&Message::from_bytes(success).unwrap()), Ok(true));
/// ```
#[derive(Debug, Drop)]
pub struct AddressErrorCode<'a> {
    family: AddressFamily,
    error: ErrorCode<'a>,
}

impl<'a> Model for AddressErrorCode<'a> {
    ghost use Rattle.stun_attributes.specs.TurnErrors.{AddressError};

    ghost Value = { AddressError };

    ghost view = { λ address. record { family = address.family; error = address.error } };
}

/// Copies the reference, not the reason phrase. This does not allocate and never fails.
impl<'a> Clone for AddressErrorCode<'a> {
    ghost is_clone = { λ it copy. copy ≡ it };

    ghost is_infallible = { λ _. ⊤ };

    fn clone(&self) -> Result<Self, AllocError> {
        Ok(AddressErrorCode {
            family: self.family,
            error: self.error.clone()?,
        })
    }
}

/// Two attributes are equal if they have the same family, the same code and the same reason phrase.
impl<'a> PartialEq for AddressErrorCode<'a> {
    ghost eq = { same_address_error };

    ghost laws = { partial_equiv_from_equiv same_address_error_equivalence };

    fn eq(&self, other: &Self) -> bool {
        self.family.number() == other.family.number() && self.error == other.error
    }
}

impl<'a> Eq for AddressErrorCode<'a> {
    ghost laws = { same_address_error_equivalence };
}

impl<'a> AddressErrorCode<'a> {
    /// Creates the attribute from the family of the addresses that the server has not allocated, a
    /// code and a reason phrase. This does not allocate.
    ///
    /// # Errors
    ///
    /// The first of these that applies:
    ///
    /// - [`StunWriteError::NotAllowed`]: the code is not from 300 to 699.
    /// - [`StunWriteError::TooLarge`]: the reason phrase has more than 763 bytes.
    pub fn new(family: AddressFamily, code: u16, reason: &'a str) -> Result<Self, StunWriteError>
        ensures value { IfOk result
            (λ address. address ≡ record {
              family = family;
              error = record { code = code; reason = reason.now };
            }) }
        ensures ok { OnOk result
            (error_refusal (record { code = code; reason = reason.now }) ≡ None) }
        ensures refused { IfErr result
            (λ error. error_refusal (record { code = code; reason = reason.now }) ≡ Some error) }
    {
        let error = ErrorCode::builder(code).reason(reason).build()?;
        Ok(AddressErrorCode { family, error })
    }

    /// Returns the family of the addresses that the server has not allocated.
    pub fn family(&self) -> AddressFamily
        ensures { result ≡ self.now.family }
    {
        self.family
    }

    /// Returns the code, from 300 to 699.
    pub fn code(&self) -> u16
        ensures code { result ≡ self.now.error.code }
        ensures from_300 { 300 ≤ result }
        ensures below_700 { result < 700 }
    {
        self.error.code()
    }

    /// Returns the reason phrase, which has at most 763 bytes.
    pub fn reason(&self) -> &'a str
        ensures text { result.now ≡ self.now.error.reason }
        ensures short { length result.now ≤ TEXT_LIMIT }
    {
        self.error.reason()
    }
}

impl<'a> AttributeStaticType for AddressErrorCode<'a> {
    const TYPE: AttributeType = AttributeType(0x8001);

    ghost static_kind = { ADDRESS_ERROR_CODE };

    fn static_type() -> AttributeType
        ensures { result.0 ≡ ADDRESS_ERROR_CODE }
    {
        Self::TYPE
    }
}

impl<'a> Attribute for AddressErrorCode<'a> {
    ghost kind = { λ _. ADDRESS_ERROR_CODE };

    ghost value = { address_error_value };

    ghost is_well_formed = { IsAddressError };

    fn get_type(&self) -> AttributeType {
        Self::TYPE
    }

    fn length(&self) -> usize {
        self.error.length()
    }

    fn write_into<W: MessageWrite>(&self, writer: &mut W) {
        let class = (self.error.code() / 100) as u8;
        let number = (self.error.code() % 100) as u8;
        let reason = self.error.reason().as_bytes();
        append_header(writer, Self::TYPE, CODE_LENGTH + reason.len());
        writer.append(&[self.family.number(), 0, class, number]);
        writer.append(reason);
        append_padding(writer, CODE_LENGTH + reason.len());
    }
}

impl<'a> AttributeFromRaw<'a> for AddressErrorCode<'a> {
    ghost reading = { address_error_of };

    ghost reads_back = { address_error_of-written };

    fn from_raw(raw: RawAttribute<'a>) -> Result<Self, StunParseError> {
        let value = raw.value();
        if raw.get_type() != Self::TYPE || value.len() < CODE_LENGTH {
            return Err(StunParseError::InvalidAttributeData);
        }
        let Some(family) = AddressFamily::from_number(value[0]) else {
            return Err(StunParseError::InvalidAttributeData);
        };
        let Some(error) = read_error(value) else {
            return Err(StunParseError::InvalidAttributeData);
        };
        Ok(AddressErrorCode { family, error })
    }
}

/// Parses the code and the reason phrase in a value. They have the same form as in ERROR-CODE,
/// which has reserved bits in place of the family. Returns `None` if they are malformed.
fn read_error(value: &[u8]) -> Option<ErrorCode<'_>>
    ensures { result ≡ error_of (record { kind = ERROR_CODE; value = value.now }) }
{
    ErrorCode::from_raw(RawAttribute::new(AttributeType::ERROR_CODE, value)).ok()
}

/// Appends the padding of a value of `value_length` bytes. The caller must have reserved the
/// padding.
fn append_padding<W: MessageWrite>(writer: &mut W, value_length: usize)
    requires { padded_length value_length - value_length ≤ W.reserved writer.old }
    ensures bytes { W.bytes writer.new
        ≡ W.bytes writer.old ++ replicate (padded_length value_length - value_length) 0 }
    ensures room { W.room writer.new + (padded_length value_length - value_length)
        ≡ W.room writer.old }
    ensures reserved { W.reserved writer.new + (padded_length value_length - value_length)
        ≡ W.reserved writer.old }
{
    let zeros = [0; 3];
    writer.append(&zeros[..count_padding(value_length)]);
}

/// Returns the number of zero bytes that pad a value of `value_length` bytes to a multiple of 4
/// bytes.
fn count_padding(value_length: usize) -> usize
    ensures { result ≡ padded_length value_length - value_length }
{
    (4 - value_length % 4) % 4
}
