//! Verifies the signature of a message.

ghost use Rattle.std.specs.Prelude.{◌≡◌, pos, IfOk, IfErr};
ghost use Rattle.stun_numbers.specs.Algorithms.{algorithm_number};
ghost use Rattle.stun_numbers.specs.Refusals.{refusal_number};
ghost use Rattle.stun_c.specs.Answers.{verify_answer};
ghost use Rattle.stun_c.specs.Codes.{refusal_of_integrity, refusal_of_verdict};

use stun_base::algorithm::IntegrityAlgorithm;
use stun_base::error::{StunParseError, ValidateError};
use stun_numbers::refusal::Refusal;
use stun_types::message::Message;

/// Converts the library's error for a message whose integrity attribute cannot be read to the error
/// that the call returns.
fn to_integrity_refusal(error: StunParseError) -> Refusal
    ensures { result ≡ refusal_of_integrity error }
{
    match error {
        StunParseError::Truncated => Refusal::Truncated,
        StunParseError::NotStun => Refusal::NotStun,
        StunParseError::TooLarge => Refusal::TooLarge,
        StunParseError::MissingAttribute(_) => Refusal::NoIntegrity,
        StunParseError::InvalidAttributeData => Refusal::MalformedIntegrity,
    }
}

/// Converts the library's error for a message that cannot be verified to the error that the call
/// returns.
fn to_verdict_refusal(error: ValidateError) -> Refusal
    ensures { result ≡ refusal_of_verdict error }
{
    match error {
        ValidateError::Parse(error) => to_integrity_refusal(error),
        ValidateError::IntegrityFailed => Refusal::IntegrityFailed,
    }
}

/// Verifies the signature of a message with the key, and returns its algorithm.
pub fn verdict(message: &[u8], key: &[u8]) -> Result<IntegrityAlgorithm, Refusal>
    ensures ok { IfOk result (λ algorithm. verify_answer message.now key.now
        ≡ pos (algorithm_number algorithm)) }
    ensures err { IfErr result (λ refusal. verify_answer message.now key.now
        ≡ refusal_number refusal) }
{
    let message = Message::from_bytes(message)?;
    match message.validate_integrity_with_key_bytes(key) {
        Ok(algorithm) => Ok(algorithm),
        Err(error) => Err(to_verdict_refusal(error)),
    }
}
