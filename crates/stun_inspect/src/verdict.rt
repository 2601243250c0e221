//! The command `verify`: its result for a message.
ghost use Rattle.std.specs.Prelude.{◌≡◌};
ghost use Rattle.stun_base.specs.Keys.OfCredentials.{keys_of};
ghost use Rattle.stun_cli.specs.Verdict.{verdict_of};
ghost use Rattle.stun_inspect.specs.Verdict.{verify_line};

use std::alloc::Allocator;
use stun_cli::verdict::{Verdict, refusal_line, verdict_without_digest};
use stun_types::message::{IntegrityAlgorithm, Message, MessageIntegrityCredentials};

/// Returns the line that is printed for a verdict.
pub fn line(verdict: Verdict) -> &'static str
    ensures { result.now ≡ verify_line verdict }
{
    match verdict {
        Verdict::Valid(IntegrityAlgorithm::Sha1) => "valid MESSAGE-INTEGRITY\n",
        Verdict::Valid(IntegrityAlgorithm::Sha256) => "valid MESSAGE-INTEGRITY-SHA256\n",
        Verdict::OtherDigest => "invalid: the signature does not match\n",
        Verdict::NoIntegrity => "unsigned\n",
        Verdict::MalformedIntegrity => "invalid: the integrity attribute is malformed\n",
        Verdict::NotAMessage(error) => refusal_line(error),
        Verdict::BadInput => "bad input\n",
    }
}

/// Returns the verdict on the message in `bytes` under these credentials, which have a key for each
/// algorithm (RFC 8489, sections 9.1.1 and 9.2.2).
pub fn verdict_on<A: Allocator>(
    bytes: &[u8],
    credentials: &MessageIntegrityCredentials<A>,
) -> Verdict
    ensures { result ≡ verdict_of bytes.now (keys_of credentials.now) }
{
    let message = match Message::from_bytes(bytes) {
        Ok(message) => message,
        Err(error) => return Verdict::NotAMessage(error),
    };
    match message.validate_integrity(credentials) {
        Ok(algorithm) => Verdict::Valid(algorithm),
        Err(error) => verdict_without_digest(error),
    }
}
