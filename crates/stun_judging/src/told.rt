//! Two calls for a server that accepts several nonces: one returns the refusal to send, and the
//! other returns whether a message has a given nonce.

ghost use Rattle.std.specs.Prelude.{◌≡◌};
ghost use Rattle.std.specs.Str.{bytes_eq};
ghost use Rattle.stun_judging.specs.Verdict.{told_refusal, their_nonce};
ghost use Rattle.stun_judging.specs.Reading.{reading_of};
ghost use Rattle.stun_judging.specs.code.ReadingSeen.{reading_seen};

use crate::claim::JudgeableMessage;
use crate::read_message::ReadMessage;
use crate::reading::MessageReading;
use crate::refusal::VerdictRefusal;
use crate::verdict::is_same_nonce;

/// Returns the refusal to send for a request that was refused under every nonce that the server
/// accepts. `nonce` is the current nonce.
///
/// `BadRequest` becomes `StaleNonce`, unless the message is malformed or has the current nonce. A
/// client that repeats an old offer, or an offer that was made under other settings, drops a 400,
/// which is unsigned, but learns from a 438 how to continue. Other refusals are returned as they
/// are. The call does not allocate.
pub fn told_refusal(
    refusal: VerdictRefusal,
    read: &ReadMessage<'_, '_>,
    nonce: &str,
) -> VerdictRefusal
    ensures { result ≡ told_refusal nonce.now (reading_of read.now) refusal }
{
    match refusal {
        VerdictRefusal::Unauthorized => VerdictRefusal::Unauthorized,
        VerdictRefusal::StaleNonce => VerdictRefusal::StaleNonce,
        VerdictRefusal::BadRequest => replace_bad_request(&read.reading, nonce),
    }
}

/// Returns the refusal to send in place of `BadRequest`: `StaleNonce`, unless the message is
/// malformed or has the current nonce.
fn replace_bad_request(reading: &MessageReading<'_, '_>, nonce: &str) -> VerdictRefusal
    ensures { result
        ≡ told_refusal nonce.now (reading_seen reading.now) VerdictRefusal.BadRequest }
{
    if JudgeableMessage::of(reading).is_none() || carries_nonce(reading, nonce) {
        VerdictRefusal::BadRequest
    } else {
        VerdictRefusal::StaleNonce
    }
}

/// Returns whether a message has this nonce: its last visible NONCE is well formed and equal to
/// `nonce`. A message without a well-formed NONCE has the empty nonce. The call compares all bytes,
/// even after a difference, and does not allocate.
///
/// A server that looks its users up elsewhere calls this first, so that only requests with one of
/// its own nonces cause a look-up.
pub fn has_nonce(read: &ReadMessage<'_, '_>, nonce: &str) -> bool
    ensures { result ≡ bytes_eq (their_nonce (reading_of read.now)) nonce.now }
{
    carries_nonce(&read.reading, nonce)
}

/// Returns whether a message has this nonce, like `has_nonce`.
fn carries_nonce(reading: &MessageReading<'_, '_>, nonce: &str) -> bool
    ensures { result ≡ bytes_eq (their_nonce (reading_seen reading.now)) nonce.now }
{
    match reading.nonce {
        Some(theirs) => is_same_nonce(theirs, nonce),
        None => is_same_nonce("", nonce),
    }
}
