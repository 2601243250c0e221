//! The errors of the calls for C, and their codes, which `include/stunp.h` lists.

ghost use Rattle.std.specs.Prelude.{◌≡◌};
ghost use Rattle.stun_numbers.specs.Refusals.{refusal_number, refusal_of_write};

use std::alloc::AllocError;
use stun_base::error::{StunParseError, StunWriteError};

/// An error of a call. Each error has a negative code.
#[derive(Debug, Clone, Copy, PartialEq, Eq)]
pub enum Refusal {
    /// -1: bytes are missing at the end of the header, the message or an attribute.
    Truncated,
    /// -2: the first 20 bytes are not a STUN header.
    NotStun,
    /// -3: there are bytes after the end of the message.
    TooLarge,
    /// -4: no integrity attribute is visible.
    NoIntegrity,
    /// -5: the integrity attribute with which the message is verified has a length that its type
    /// does not allow.
    MalformedIntegrity,
    /// -6: the signature is not valid for this message and key.
    IntegrityFailed,
    /// -7: an argument is out of range.
    BadArgument,
    /// -8: a text is not UTF-8.
    NotText,
    /// -9: a text has more bytes than its attribute may have.
    TextTooLong,
    /// -10: the bytes to write do not fit into the buffer.
    BufferTooSmall,
    /// -11: this call cannot write attributes of this type. They have a call of their own, or the
    /// library writes them by itself.
    NotAllowed,
    /// -12: the message has an integrity attribute, which only FINGERPRINT may follow, or
    /// FINGERPRINT, which must be the last attribute.
    Closed,
    /// -13: the message has an attribute of this type already.
    AttributeExists,
    /// -14: the message would have more than 65532 bytes after its header.
    MessageTooLong,
    /// -15: no attribute of the type to read is visible.
    MissingAttribute,
    /// -16: the attribute to read is malformed.
    MalformedAttribute,
    /// -17: an allocation failed.
    OutOfMemory,
    /// -18: the handle is empty.
    EmptyHandle,
    /// -19: the handle is not empty.
    FullHandle,
    /// -20: a request with this transaction ID is outstanding.
    AlreadyInProgress,
    /// -21: the call does not accept this message or this address.
    ProtocolViolation,
    /// -22: at a server, the message is not sufficiently authenticated, and the server answers 401.
    /// At a client, the client cannot answer this 401.
    Unauthorized,
    /// -23: the request is not well-formed. A server answers 400.
    BadRequest,
    /// -24: the nonce is not the current one. A server answers 438.
    StaleNonce,
    /// -25: the server does not support an algorithm or a feature that the client requires.
    UnsupportedFeature,
    /// -26: the timeouts would make several transmissions of a request due at the same time.
    NoWait,
    /// -27: the limit on the number of addresses is reached, and this address has no record.
    TooManyAddresses,
    /// -28: there is no key to sign with. At a server, the user was removed, or has no key for the
    /// client's algorithm. At an ICE agent, the credentials of the peer are not known yet.
    CannotSign,
    /// -29: the handle has a value of another kind.
    WrongHandle,
}

impl Refusal {
    /// Returns the code of the error.
    pub fn code(self) -> i64
        ensures { result ≡ refusal_number self }
    {
        match self {
            Refusal::Truncated => -1,
            Refusal::NotStun => -2,
            Refusal::TooLarge => -3,
            Refusal::NoIntegrity => -4,
            Refusal::MalformedIntegrity => -5,
            Refusal::IntegrityFailed => -6,
            Refusal::BadArgument => -7,
            Refusal::NotText => -8,
            Refusal::TextTooLong => -9,
            Refusal::BufferTooSmall => -10,
            Refusal::NotAllowed => -11,
            Refusal::Closed => -12,
            Refusal::AttributeExists => -13,
            Refusal::MessageTooLong => -14,
            Refusal::MissingAttribute => -15,
            Refusal::MalformedAttribute => -16,
            Refusal::OutOfMemory => -17,
            Refusal::EmptyHandle => -18,
            Refusal::FullHandle => -19,
            Refusal::AlreadyInProgress => -20,
            Refusal::ProtocolViolation => -21,
            Refusal::Unauthorized => -22,
            Refusal::BadRequest => -23,
            Refusal::StaleNonce => -24,
            Refusal::UnsupportedFeature => -25,
            Refusal::NoWait => -26,
            Refusal::TooManyAddresses => -27,
            Refusal::CannotSign => -28,
            Refusal::WrongHandle => -29,
        }
    }

    /// Converts an error of a call that writes an attribute. `TooLarge` becomes `MessageTooLong` if
    /// `is_long` says that the message would become longer than its length field can state, and
    /// otherwise `TextTooLong`, because then a text is too long.
    pub fn of_write(error: StunWriteError, is_long: bool) -> Refusal
        ensures { result ≡ refusal_of_write is_long error }
    {
        match error {
            StunWriteError::NotAllowed => Refusal::NotAllowed,
            StunWriteError::MessageIntegrityExists => Refusal::Closed,
            StunWriteError::AttributeExists(_) => Refusal::AttributeExists,
            StunWriteError::TooLarge => {
                if is_long {
                    Refusal::MessageTooLong
                } else {
                    Refusal::TextTooLong
                }
            }
            StunWriteError::TooSmall => Refusal::BufferTooSmall,
            StunWriteError::IntegrityFailed => Refusal::CannotSign,
            StunWriteError::OutOfMemory => Refusal::OutOfMemory,
        }
    }
}

impl From<StunParseError> for Refusal {
    ghost use Rattle.std.specs.Prelude.{◌≡◌};
    ghost use Rattle.stun_numbers.specs.Refusals.{refusal_of_parse};

    ghost from_gives = { λ error refusal. refusal ≡ refusal_of_parse error };

    fn from(error: StunParseError) -> Refusal {
        match error {
            StunParseError::Truncated => Refusal::Truncated,
            StunParseError::NotStun => Refusal::NotStun,
            StunParseError::TooLarge => Refusal::TooLarge,
            StunParseError::MissingAttribute(_) => Refusal::MissingAttribute,
            StunParseError::InvalidAttributeData => Refusal::MalformedAttribute,
        }
    }
}

impl From<AllocError> for Refusal {
    ghost use Rattle.std.specs.Prelude.{◌≡◌};
    ghost use Rattle.stun_numbers.specs.declared.refusal.Refusal.TheVariants.{OutOfMemory};

    ghost from_gives = { λ _ refusal. refusal ≡ OutOfMemory };

    fn from(_error: AllocError) -> Refusal {
        Refusal::OutOfMemory
    }
}
