//! The results of a long-term client for a message, and its reasons to refuse one.
use crate::auth_error::LongTermAuthError;
use stun_base::algorithm::IntegrityAlgorithm;
use stun_base::error::ValidateError;
use thiserror::Error;

/// The result of a client for a message that it does not refuse.
#[derive(Clone, Copy, Debug, PartialEq, Eq)]
pub enum LongTermClientValidation {
    /// Sign the request and send it again, with a new transaction ID. Pass the message to the agent
    /// too, so that the request that it answers ends.
    ///
    /// The algorithm is present if the message itself has a signature that is valid under the key
    /// that the client had before.
    ResendRequest(Option<IntegrityAlgorithm>),
    /// The message is accepted: it has a signature with this algorithm that is valid under the
    /// client's key.
    Validated(IntegrityAlgorithm),
}

/// Why a client refuses a message (RFC 8489, section 9.2.5).
#[derive(Clone, Copy, Debug, PartialEq, Eq, Error)]
pub enum LongTermClientAuthErrorReason {
    /// The client cannot answer this challenge, because REALM, NONCE or a required list of
    /// algorithms is missing, or no credentials are set. Or it has answered this challenge already,
    /// which usually means that the password is wrong.
    #[error("The message is not sufficiently authenticated")]
    Unauthorized,
    /// The signature is missing, or is invalid under the client's key, or the client has no key
    /// yet.
    #[error("The message failed integrity checks")]
    IntegrityFailed,
    /// The challenge has no algorithm that the client supports, or does not allow hashed user names
    /// although they are required.
    #[error("A required feature is not supported")]
    UnsupportedFeature,
    /// An allocation failed while the client copied the contents of a challenge.
    #[error("Out of memory")]
    OutOfMemory,
}

/// Converts every error to `IntegrityFailed`. No call of this crate uses this conversion: it is
/// here because the crate `stun-proto` has it.
impl From<ValidateError> for LongTermClientAuthErrorReason {
    ghost use Rattle.std.specs.Prelude.{◌≡◌};
    ghost use Rattle.stun_auth.specs.declared.client.answer.LongTermClientAuthErrorReason.TheVariants.{IntegrityFailed};

    ghost from_gives = { λ _ reason. reason ≡ IntegrityFailed };

    fn from(_error: ValidateError) -> LongTermClientAuthErrorReason {
        LongTermClientAuthErrorReason::IntegrityFailed
    }
}

/// The error of a client that refuses a message.
///
/// Contracts: the value is the reason.
pub type LongTermClientAuthError = LongTermAuthError<LongTermClientAuthErrorReason>;
