//! ERROR-CODE (RFC 8489, section 14.8).

ghost use Rattle.std.specs.Prelude.{◌≡◌, ◌≤◌, ◌<◌, ◌/◌, ◌%◌, Some, None};
ghost use Rattle.std.specs.Prelude.{IfOk, IfErr, IfSome, OnOk, length, ⊤};
ghost use Rattle.std.specs.Cmp.{partial_equiv_from_equiv};
ghost use Rattle.stun_types.specs.Equality.{same_error, same_error_equivalence};
ghost use Rattle.stun_base.specs.Attributes.{ERROR_CODE};
ghost use Rattle.stun_types.specs.ErrorCode.{CODE_LENGTH, IsError, code_in, default_reason};
ghost use Rattle.stun_types.specs.ErrorCode.{error_of, error_refusal, error_value};
ghost use Rattle.stun_types.specs.Limits.{TEXT_LIMIT};
ghost use Rattle.stun_types.specs.ErrorCodeLaws.{error_of-written};

use crate::attribute::text::read_short_text;
use crate::attribute::{
    Attribute, AttributeFromRaw, AttributeStaticType, AttributeType, RawAttribute,
};
use crate::limits::TEXT_LIMIT;
use crate::write::MessageWrite;
use crate::write::append::{append_header, append_padding};
use std::alloc::AllocError;
use std::marker::Model;
use stun_base::error::{StunParseError, StunWriteError};

/// The number of bytes before the reason phrase: reserved bits, the class and the number.
const CODE_LENGTH: usize = 4;

/// ERROR-CODE (RFC 8489, section 14.8): why a request failed. It has a code from 300 to 699, and a
/// reason phrase of at most 763 bytes.
///
/// Contracts: the value is a record of the code and the reason phrase.
#[derive(Debug, Drop)]
pub struct ErrorCode<'a> {
    code: u16,
    reason: &'a str,
}

impl<'a> Model for ErrorCode<'a> {
    ghost use Rattle.std.specs.Prelude.{◌≤◌, ◌<◌, length};
    ghost use Rattle.stun_types.specs.ErrorCode.{CodeAndReason};
    ghost use Rattle.stun_types.specs.Limits.{TEXT_LIMIT};

    ghost Value = { CodeAndReason };

    ghost view = { λ error. record { code = error.code; reason = error.reason.now } };

    ghost invariant = { λ error.
        (300 ≤ error.code) × (error.code < 700) × (length error.reason.now ≤ TEXT_LIMIT) };
}

/// Copies the reference, not the reason phrase. This does not allocate and never fails.
impl<'a> Clone for ErrorCode<'a> {
    ghost is_clone = { λ it copy. copy ≡ it };

    ghost is_infallible = { λ _. ⊤ };

    fn clone(&self) -> Result<Self, AllocError> {
        Ok(ErrorCode {
            code: self.code,
            reason: self.reason,
        })
    }
}

/// Two attributes are equal if they have the same code and the same reason phrase.
impl<'a> PartialEq for ErrorCode<'a> {
    ghost eq = { same_error };

    ghost laws = { partial_equiv_from_equiv same_error_equivalence };

    fn eq(&self, other: &Self) -> bool {
        self.code == other.code && self.reason == other.reason
    }
}

impl<'a> Eq for ErrorCode<'a> {
    ghost laws = { same_error_equivalence };
}

impl ErrorCode<'_> {
    /// 400: the request is malformed.
    pub const BAD_REQUEST: u16 = 400;
    /// 401: the request does not have the correct credentials.
    pub const UNAUTHORIZED: u16 = 401;
    /// 438: the nonce of the request is no longer valid.
    pub const STALE_NONCE: u16 = 438;
}

impl<'a> ErrorCode<'a> {
    /// Creates a builder for an attribute with this code.
    ///
    /// If you set no reason phrase, it is `Bad Request` for 400, `Unauthorized` for 401, `Stale
    /// Nonce` for 438, and empty for any other code. `Unauthorized` is the phrase of RFC 5389
    /// (section 15.6). RFC 8489 has `Unauthenticated` instead (section 14.8).
    pub fn builder(code: u16) -> ErrorCodeBuilder<'a>
        ensures { result ≡ record { code = code; reason = default_reason code } }
    {
        ErrorCodeBuilder {
            code,
            reason: choose_reason(code),
        }
    }

    /// Returns the code, from 300 to 699.
    pub fn code(&self) -> u16
        ensures code { result ≡ self.now.code }
        ensures from_300 { 300 ≤ result }
        ensures below_700 { result < 700 }
    {
        self.code
    }

    /// Returns the reason phrase, which has at most 763 bytes.
    pub fn reason(&self) -> &'a str
        ensures text { result.now ≡ self.now.reason }
        ensures short { length result.now ≤ TEXT_LIMIT }
    {
        self.reason
    }
}

/// Returns the default reason phrase for this code.
fn choose_reason(code: u16) -> &'static str
    ensures { result.now ≡ default_reason code }
{
    match code {
        ErrorCode::BAD_REQUEST => "Bad Request",
        ErrorCode::UNAUTHORIZED => "Unauthorized",
        ErrorCode::STALE_NONCE => "Stale Nonce",
        _ => "",
    }
}

/// A builder of an ERROR-CODE: a code and a reason phrase, whose limits `build` checks.
///
/// Contracts: the value is a record of the code and the reason phrase.
#[derive(Debug, Drop)]
pub struct ErrorCodeBuilder<'a> {
    code: u16,
    reason: &'a str,
}

impl<'a> Model for ErrorCodeBuilder<'a> {
    ghost use Rattle.stun_types.specs.ErrorCode.{CodeAndReason};

    ghost Value = { CodeAndReason };

    ghost view = { λ error. record { code = error.code; reason = error.reason.now } };
}

impl<'a> ErrorCodeBuilder<'a> {
    /// Sets the reason phrase.
    pub fn reason(self, reason: &'a str) -> Self
        ensures { result ≡ record { code = self.entry.code; reason = reason.now } }
    {
        ErrorCodeBuilder {
            code: self.code,
            reason,
        }
    }

    /// Creates the attribute. This does not allocate.
    ///
    /// # Errors
    ///
    /// The first of these that applies:
    ///
    /// - `NotAllowed`: the code is not from 300 to 699.
    /// - `TooLarge`: the reason phrase has more than 763 bytes.
    pub fn build(self) -> Result<ErrorCode<'a>, StunWriteError>
        ensures value { IfOk result (λ error. error ≡ self.entry) }
        ensures ok { OnOk result (error_refusal self.entry ≡ None) }
        ensures refused { IfErr result (λ error. error_refusal self.entry ≡ Some error) }
    {
        if !(300..=699).contains(&self.code) {
            return Err(StunWriteError::NotAllowed);
        }
        if self.reason.len() > TEXT_LIMIT {
            return Err(StunWriteError::TooLarge);
        }
        Ok(ErrorCode {
            code: self.code,
            reason: self.reason,
        })
    }
}

/// Reads the code in a value. Returns `None` if its class is not 3 to 6, or its number is 100 or
/// more. The reserved bits are ignored.
fn read_code(value: &[u8]) -> Option<u16>
    requires { CODE_LENGTH ≤ length value.now }
    ensures code { result ≡ code_in value.now }
    ensures limits { IfSome result (λ code. (300 ≤ code) × (code < 700)) }
{
    let class = u16::from(value[2] % 8);
    let number = u16::from(value[3]);
    if !(3..=6).contains(&class) || number > 99 {
        return None;
    }
    Some(100 * class + number)
}

impl<'a> AttributeStaticType for ErrorCode<'a> {
    const TYPE: AttributeType = AttributeType::ERROR_CODE;

    ghost static_kind = { ERROR_CODE };

    fn static_type() -> AttributeType
        ensures { result.0 ≡ ERROR_CODE }
    {
        Self::TYPE
    }
}

impl<'a> Attribute for ErrorCode<'a> {
    ghost kind = { λ _. ERROR_CODE };

    ghost value = { error_value };

    ghost is_well_formed = { IsError };

    fn get_type(&self) -> AttributeType {
        Self::TYPE
    }

    fn length(&self) -> usize {
        CODE_LENGTH + self.reason.as_bytes().len()
    }

    fn write_into<W: MessageWrite>(&self, writer: &mut W) {
        let class = (self.code / 100) as u8;
        let number = (self.code % 100) as u8;
        let reason = self.reason.as_bytes();
        append_header(writer, Self::TYPE, CODE_LENGTH + reason.len());
        writer.append(&[0, 0, class, number]);
        writer.append(reason);
        append_padding(writer, CODE_LENGTH + reason.len());
    }
}

impl<'a> AttributeFromRaw<'a> for ErrorCode<'a> {
    ghost reading = { error_of };

    ghost reads_back = { error_of-written };

    fn from_raw(raw: RawAttribute<'a>) -> Result<Self, StunParseError> {
        let value = raw.value();
        if raw.get_type() != Self::TYPE || value.len() < CODE_LENGTH {
            return Err(StunParseError::InvalidAttributeData);
        }
        let Some(code) = read_code(value) else {
            return Err(StunParseError::InvalidAttributeData);
        };
        let reason = read_short_text(&value[CODE_LENGTH..], TEXT_LIMIT)?;
        Ok(ErrorCode { code, reason })
    }
}
