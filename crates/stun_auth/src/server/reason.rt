//! The results of a server for a message, and its reasons to refuse one.

ghost use Rattle.std.specs.Prelude.{◌≡◌, Result};

use crate::auth_error::LongTermAuthError;
use stun_base::algorithm::IntegrityAlgorithm;
use stun_base::error::ValidateError;
use stun_judging::refusal::VerdictRefusal;
use thiserror::Error;

/// The result of a server for a message that it accepts.
#[derive(Clone, Copy, Debug, PartialEq, Eq)]
pub enum LongTermServerValidation {
    /// The message is accepted. For a request or an indication, both sides agreed on this
    /// algorithm, and the signature is valid under the user's key for it. For a response, it is the
    /// algorithm of the signature.
    Validated(IntegrityAlgorithm),
}

/// Why a server refuses a message (RFC 8489, section 9.2.4).
#[derive(Clone, Copy, Debug, PartialEq, Eq, Error)]
pub enum LongTermServerAuthErrorReason {
    /// Answer 401, which challenges the client. One of these applies:
    ///
    /// - There is no well-formed integrity attribute.
    /// - The nonce of the message is not the current one, and its security bits differ.
    /// - The user is not registered, or is named by a USERHASH while the server does not accept
    ///   hashes.
    /// - The user has no key for the algorithm.
    /// - The signature is invalid.
    #[error("The message is not sufficiently authenticated")]
    Unauthorized,
    /// The signature of a response is missing, or is invalid under the key of the address's client,
    /// or the address has no client. Drop the response.
    #[error("The message failed integrity checks")]
    IntegrityFailed,
    /// No call of a server returns this reason. It is here because the crate `stun-proto` has it.
    #[error("A required feature is not supported")]
    UnsupportedFeature,
    /// Answer 400, or 438 if the call that returned this reason made the first nonce of the
    /// address. REALM, NONCE or the user name is missing, or the algorithms disagree with those
    /// that the address was offered.
    #[error("The request message is not well-formed")]
    BadRequest,
    /// Answer 438. The nonce is not the current one of the address.
    #[error("The request presented with an out of date nonce.")]
    StaleNonce,
    /// An allocation failed. Drop the message.
    #[error("Out of memory")]
    OutOfMemory,
}

/// Converts every error to `IntegrityFailed`. No call of this crate uses this conversion: it is
/// here because the crate `stun-proto` has it.
impl From<ValidateError> for LongTermServerAuthErrorReason {
    ghost use Rattle.std.specs.Prelude.{◌≡◌};
    ghost use Rattle.stun_auth.specs.declared.server.reason.LongTermServerAuthErrorReason.TheVariants.{IntegrityFailed};

    ghost from_gives = { λ _ reason. reason ≡ IntegrityFailed };

    fn from(_error: ValidateError) -> LongTermServerAuthErrorReason {
        LongTermServerAuthErrorReason::IntegrityFailed
    }
}

/// The error of a server that refuses a message.
///
/// Contracts: the value is the reason.
pub type LongTermServerAuthError = LongTermAuthError<LongTermServerAuthErrorReason>;

/// Converts the refusal of a message under a nonce to the reason with which
/// `validate_incoming_message` fails for it.
impl From<VerdictRefusal> for LongTermServerAuthErrorReason {
    ghost use Rattle.std.specs.Prelude.{◌≡◌};
    ghost use Rattle.stun_auth.specs.Reasons.{server_reason};

    ghost from_gives = { λ refusal reason. reason ≡ server_reason refusal };

    fn from(refusal: VerdictRefusal) -> LongTermServerAuthErrorReason {
        match refusal {
            VerdictRefusal::Unauthorized => LongTermServerAuthErrorReason::Unauthorized,
            VerdictRefusal::BadRequest => LongTermServerAuthErrorReason::BadRequest,
            VerdictRefusal::StaleNonce => LongTermServerAuthErrorReason::StaleNonce,
        }
    }
}

/// Wraps the reason of a refusal in an error. Returns any other result as it is.
pub(crate) fn wrap_reason(
    answer: Result<LongTermServerValidation, LongTermServerAuthErrorReason>,
) -> Result<LongTermServerValidation, LongTermServerAuthError>
    ensures { result ≡ answer }
{
    match answer {
        Ok(validation) => Ok(validation),
        Err(reason) => Err(LongTermServerAuthError::new(reason)),
    }
}
