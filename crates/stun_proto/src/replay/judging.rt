//! Validates one message at a server. The random numbers for a nonce are an argument.

ghost use Rattle.std.specs.Prelude.{◌≡◌, IfOk, IsOk, OnOk, OnErr, IsErr, Ok, Err};
ghost use Rattle.stun_judging.specs.Reading.{reading_of};
ghost use Rattle.stun_auth.specs.Reasons.{ForServerReason};
ghost use Rattle.stun_auth.specs.Validation.{after_validation, answer, sight};
ghost use Rattle.stun_proto.specs.code.FirstAnswers.{answer_of};

use std::alloc::AllocError;
use std::net::SocketAddr;
use stun_auth::auth::{
    LongTermServerAuth, LongTermServerAuthErrorReason, LongTermServerValidation,
};
use stun_base::algorithm::IntegrityAlgorithm;
use stun_base::instant::Instant;
use stun_base::memory::Memory;
use stun_base::words::WordSource;
use stun_types::message::Message;

/// Validates a message: returns the algorithm of its signature, or the reason why the server
/// refuses it. Fails only if an allocation fails, and the server is then unchanged.
pub(crate) fn judge<A: Memory>(
    server: &mut LongTermServerAuth<A>,
    message: &Message<'_>,
    from: SocketAddr,
    now: Instant,
    words: [u32; 16],
) -> Result<Result<IntegrityAlgorithm, LongTermServerAuthErrorReason>, AllocError>
    ensures answer { IfOk result (λ a. answer_of a
        ≡ answer (sight server.old from) now words (reading_of message.now)) }
    ensures server { OnOk result (server.new ≡ after_validation server.old from now words
        (reading_of message.now)) }
    ensures err { OnErr result (server.new ≡ server.old) }
    ensures granted { A.grants → IsOk result }
{
    let mut source = WordSource::new(words);
    match server.validate_incoming_message(message, from, now, &mut source) {
        Ok(validation) => Ok(Ok(to_algorithm(validation))),
        Err(error) => to_server_refusal(error.reason()),
    }
}

/// Returns the algorithm of the signature of a message that was validated.
fn to_algorithm(validation: LongTermServerValidation) -> IntegrityAlgorithm
    ensures { LongTermServerValidation.Validated result ≡ validation }
{
    match validation {
        LongTermServerValidation::Validated(algorithm) => algorithm,
    }
}

/// Returns the reason as a refusal by the server. Fails if the reason is that an allocation failed.
fn to_server_refusal(
    reason: LongTermServerAuthErrorReason,
) -> Result<Result<IntegrityAlgorithm, LongTermServerAuthErrorReason>, AllocError>
    ensures { ForServerReason reason (result ≡ Ok (Err reason)) (IsErr result) }
{
    if reason == LongTermServerAuthErrorReason::OutOfMemory {
        Err(AllocError)
    } else {
        Ok(Err(reason))
    }
}
