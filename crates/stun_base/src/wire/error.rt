//! The errors of parsing a message, of validating its signature, and of writing a message.

use crate::wire::attribute_type::AttributeType;
use std::alloc::{AllocError, AllocFailed};
use thiserror::Error;

/// Why bytes cannot be parsed as a header, a message or an attribute.
#[derive(Debug, Clone, Copy, PartialEq, Eq, Error)]
pub enum StunParseError {
    /// The bytes end before the header, the message or an attribute is complete.
    #[error("the bytes end too early")]
    Truncated,
    /// The first 20 bytes are not a STUN header: the first two bits are not zero, the magic cookie
    /// is wrong, or the length is not a multiple of 4.
    #[error("the bytes are not a STUN message")]
    NotStun,
    /// Bytes follow the end of the message.
    #[error("bytes follow the message")]
    TooLarge,
    /// No attribute of this type is visible in the message.
    #[error("attribute {0} is missing")]
    MissingAttribute(AttributeType),
    /// The value of the attribute is malformed, or the attribute does not have the type that the
    /// call parses.
    #[error("an attribute is malformed")]
    InvalidAttributeData,
}

/// Why the signature of a message could not be validated.
#[derive(Debug, Clone, Copy, PartialEq, Eq, Error)]
pub enum ValidateError {
    /// The integrity attribute is missing or malformed, as the inner error says.
    #[error(transparent)]
    Parse(StunParseError),
    /// The signature is invalid: the HMAC in the message is not the HMAC of the message under the
    /// key.
    #[error("the digest is not that of the message")]
    IntegrityFailed,
}

/// Why an attribute or a message could not be written. A call that fails leaves the bytes and the
/// room of the writer unchanged, or drops the writer if it was passed by value.
#[derive(Debug, Clone, Copy, PartialEq, Eq, Error)]
pub enum StunWriteError {
    /// This call does not write attributes of this type, or it does not write this value, such as
    /// an ERROR-CODE with the code 700. Attributes of some of these types can be added with a
    /// different call.
    #[error("the attribute is not written by this call")]
    NotAllowed,
    /// The message has an integrity attribute already, and this call adds nothing after it.
    #[error("the message has its integrity attribute already")]
    MessageIntegrityExists,
    /// The message has an attribute of this type already.
    #[error("attribute {0} is in the message already")]
    AttributeExists(AttributeType),
    /// The value is longer than the attribute allows, or the message would have more than 65532
    /// bytes after its header.
    #[error("the value or the message would be too large")]
    TooLarge,
    /// The writer has too little room left.
    #[error("the writer has too little room")]
    TooSmall,
    /// The key for the signature is not known.
    #[error("there is no key for the integrity attribute")]
    IntegrityFailed,
    /// An allocation failed.
    #[error("out of memory")]
    OutOfMemory,
}

impl From<StunParseError> for ValidateError {
    ghost use Rattle.std.specs.Prelude.{◌≡◌};
    ghost use Rattle.stun_base.specs.declared.wire.error.ValidateError.TheVariants.{Parse};

    ghost from_gives = { λ inner error. error ≡ Parse inner };

    fn from(error: StunParseError) -> ValidateError {
        ValidateError::Parse(error)
    }
}

impl From<AllocError> for StunWriteError {
    ghost use Rattle.std.specs.Prelude.{◌≡◌};
    ghost use Rattle.stun_base.specs.declared.wire.error.StunWriteError.TheVariants.{OutOfMemory};

    ghost from_gives = { λ _ error. error ≡ OutOfMemory };

    fn from(_error: AllocError) -> StunWriteError {
        StunWriteError::OutOfMemory
    }
}

impl<T: Drop> From<AllocFailed<T>> for StunWriteError {
    ghost use Rattle.std.specs.Prelude.{◌≡◌};
    ghost use Rattle.stun_base.specs.declared.wire.error.StunWriteError.TheVariants.{OutOfMemory};

    ghost from_gives = { λ _ error. error ≡ OutOfMemory };

    fn from(_error: AllocFailed<T>) -> StunWriteError {
        StunWriteError::OutOfMemory
    }
}
