//! The verdict of `check` on an input.
ghost use Rattle.std.specs.Prelude.{◌≡◌, Contains, IfOk};
ghost use Rattle.stun_tool.specs.Verdict.{verdict_under, verdict_of_input, check_line};
ghost use Rattle.stun_tool.specs.Verdict.{printed_lines};

use crate::digits::read_digits;
use std::alloc::Allocator;
use stun_cli::failure::Failure;
use stun_cli::verdict::{Verdict, refusal_line, verdict_without_digest};
use stun_types::message::{IntegrityAlgorithm, Message};

/// Returns the line that is printed for a verdict.
pub fn line(verdict: Verdict) -> &'static str
    ensures { result.now ≡ check_line verdict }
{
    match verdict {
        Verdict::Valid(IntegrityAlgorithm::Sha1) => "valid MESSAGE-INTEGRITY\n",
        Verdict::Valid(IntegrityAlgorithm::Sha256) => "valid MESSAGE-INTEGRITY-SHA256\n",
        Verdict::OtherDigest => "invalid\n",
        Verdict::NoIntegrity => "no integrity\n",
        Verdict::MalformedIntegrity => "malformed integrity\n",
        Verdict::NotAMessage(error) => refusal_line(error),
        Verdict::BadInput => "bad input\n",
    }
}

/// Returns the verdict on a message under a password, whose bytes are the key.
fn verdict_on(bytes: &[u8], password: &[u8]) -> Verdict
    ensures { result ≡ verdict_under bytes.now password.now }
{
    let message = match Message::from_bytes(bytes) {
        Ok(message) => message,
        Err(error) => return Verdict::NotAMessage(error),
    };
    match message.validate_integrity_with_key_bytes(password) {
        Ok(algorithm) => Verdict::Valid(algorithm),
        Err(error) => verdict_without_digest(error),
    }
}

/// Returns the verdict on an input of hexadecimal digits under a password. The line that is printed
/// for this verdict is one of nine.
pub fn verdict_on_input<A: Allocator + Copy>(
    alloc: A,
    input: &[u8],
    password: &[u8],
) -> Result<Verdict, Failure>
    ensures value { IfOk result (λ verdict. verdict ≡ verdict_of_input input.now password.now) }
    ensures listed { IfOk result (λ verdict. Contains printed_lines (check_line verdict)) }
{
    match read_digits(alloc, input)? {
        Some(bytes) => Ok(verdict_on(bytes.as_slice(), password)),
        None => Ok(Verdict::BadInput),
    }
}
