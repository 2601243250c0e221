//! The judgement of a response to an outstanding request.
ghost use Rattle.std.specs.Prelude.{◌≡◌};
ghost use Rattle.stun_client.specs.Outcomes.{by_class, outcome_of};

use crate::challenge::Challenge;
use crate::challenge::reading::read_code;
use std::alloc::{Allocator, Global};
use stun_extra::unknown::unknown_types;
use stun_types::attribute::AttributeType;
use stun_types::message::{IntegrityAlgorithm, Message, MessageClass};

/// Why a response to an outstanding request is dropped. The request continues.
#[derive(Clone, Copy, Debug, PartialEq, Eq)]
pub enum Distrust {
    /// The FINGERPRINT is wrong, is not the last attribute, or does not have 4 bytes. So the
    /// response is damaged, or belongs to another protocol (RFC 8489, section 14.7).
    WrongFingerprint,
    /// The client requires a FINGERPRINT, and the response has none (RFC 8489, section 7.3).
    MissingFingerprint,
    /// The response is not signed with the key of the message that it answers or, with short-term
    /// credentials, not with the algorithm of that message. Or it is a 401 or a 438 that answers an
    /// earlier message of the request.
    NotVerified,
    /// The response is a 401 or a 438 that the client cannot answer, and is not signed.
    UnanswerableChallenge,
    /// The response is a challenge that is weaker than the challenge that a success has confirmed.
    WeakerChallenge,
}

/// The judgement of a response to an outstanding request.
#[derive(Drop)]
pub enum Judged<A: Allocator = Global> {
    /// The response is believed and ends the request. The algorithm is that of its signature, or
    /// `None` if it is not signed.
    Believed(Option<IntegrityAlgorithm>),
    /// Send the request again under another transaction ID, signed for this challenge.
    Anew(Challenge<A>),
    /// The response refuses the request: it is the challenge that the request was signed for
    /// (`None`), or a 401 for the same realm and security bits with a different nonce or list. The
    /// password is wrong, or an attacker forges challenges.
    Refused(Option<Challenge<A>>),
    /// The response has no valid signature, and is a 400, a 437 or a 441 to a signed message, or a
    /// 437 to an unsigned message. It is not believed, but it casts doubt on the message that it
    /// answers, which may be signed for a forged challenge.
    Doubted,
    /// The response is dropped, for this reason.
    Dropped(Distrust),
}

/// How a response that is believed ends its request.
#[derive(Clone, Copy, Debug, PartialEq, Eq)]
pub enum Outcome {
    /// The response is a success.
    Success,
    /// The response is an error with this code.
    Refused(u16),
    /// The response is an error 300, which asks the client to try another server (RFC 8489, section
    /// 10).
    Redirected,
    /// The response has a comprehension-required attribute of this type, which the client does not
    /// understand (RFC 8489, sections 6.3.3 and 6.3.4).
    NotUnderstood(AttributeType),
    /// The response is an error without a well-formed ERROR-CODE.
    Malformed,
}

impl Outcome {
    /// Returns how a response ends its request, at a client that understands these attribute types.
    pub fn of(response: &Message<'_>, understood: &[AttributeType]) -> Outcome
        ensures { result ≡ outcome_of understood.now response.now }
    {
        match unknown_types(response, understood).next() {
            Some(kind) => Outcome::NotUnderstood(kind),
            None => by_class(response),
        }
    }
}

/// Returns how a response whose attributes are understood ends its request.
fn by_class(response: &Message<'_>) -> Outcome
    ensures { result ≡ by_class response.now }
{
    if response.class() != MessageClass::Error {
        return Outcome::Success;
    }
    match read_code(response) {
        Some(300) => Outcome::Redirected,
        Some(code) => Outcome::Refused(code),
        None => Outcome::Malformed,
    }
}
