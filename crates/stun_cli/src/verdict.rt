//! The verdict on a message under a key.
ghost use Rattle.std.specs.Prelude.{◌≡◌, ◌≢◌};
ghost use Rattle.stun_cli.specs.Verdict.{refusal_line, status_of, verdict_without_digest};

use crate::status::Status;
use stun_types::message::{IntegrityAlgorithm, StunParseError, ValidateError};

/// The verdict on an input under a key.
#[derive(Clone, Copy, Debug, PartialEq, Eq)]
pub enum Verdict {
    /// The signature is valid, and has this algorithm.
    Valid(IntegrityAlgorithm),
    /// The signature is invalid.
    OtherDigest,
    /// No integrity attribute is visible.
    NoIntegrity,
    /// The integrity attribute that decides has a length that its type does not allow.
    MalformedIntegrity,
    /// The bytes are not a message.
    NotAMessage(StunParseError),
    /// The input is not a text that encodes bytes.
    BadInput,
}

impl Verdict {
    /// Returns the status of a command that prints this verdict.
    pub fn status(self) -> Status
        ensures value { result ≡ status_of self }
        ensures judged { (result ≢ Status.NotJudged) × (result ≢ Status.Failed) }
    {
        match self {
            Verdict::Valid(_) => Status::Good,
            _ => Status::Bad,
        }
    }
}

/// Returns the verdict for an error of the verification.
pub fn verdict_without_digest(error: ValidateError) -> Verdict
    ensures { result ≡ verdict_without_digest error }
{
    match error {
        ValidateError::Parse(StunParseError::MissingAttribute(_)) => Verdict::NoIntegrity,
        ValidateError::Parse(_) => Verdict::MalformedIntegrity,
        ValidateError::IntegrityFailed => Verdict::OtherDigest,
    }
}

/// Returns the line that is printed for bytes that are not a message.
pub fn refusal_line(error: StunParseError) -> &'static str
    ensures { result.now ≡ refusal_line error }
{
    match error {
        StunParseError::Truncated => "not a message: truncated\n",
        StunParseError::NotStun => "not a message: not stun\n",
        StunParseError::TooLarge => "not a message: too large\n",
        StunParseError::MissingAttribute(_) => "not a message: missing attribute\n",
        StunParseError::InvalidAttributeData => "not a message: malformed attribute\n",
    }
}
