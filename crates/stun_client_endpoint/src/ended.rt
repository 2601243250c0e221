//! The outcomes of requests, and the reasons to drop responses to them.
ghost use Rattle.std.specs.Prelude.{◌≡◌};
ghost use Rattle.stun_client_endpoint.specs.Ends.{after_drop, no_drops, reason_of};

use stun_client::judged::{Distrust, Outcome};
use stun_types::message::IntegrityAlgorithm;

/// Why a response to an outstanding request is dropped. The request continues.
#[derive(Clone, Copy, Debug, PartialEq, Eq)]
pub enum DropReason {
    /// The FINGERPRINT is wrong, is not the last attribute, or does not have 4 bytes. So the
    /// response is damaged, or belongs to another protocol (RFC 8489, section 14.7).
    WrongFingerprint,
    /// The client requires a FINGERPRINT, and the response has none (RFC 8489, section 7.3).
    MissingFingerprint,
    /// The response is not signed with the key of the message that it answers or, with short-term
    /// credentials, not with the algorithm of that message. Or it is a 401 or a 438 that answers an
    /// earlier message of the request.
    NotVerified,
    /// The response is an unsigned 401 or 438 that the client cannot answer, or a 401 or 438 whose
    /// list of algorithms is so long that the request would not fit in a message.
    UnanswerableChallenge,
    /// The response is a challenge that is weaker than the challenge that a success has confirmed.
    WeakerChallenge,
    /// The response repeats the challenge that the current message is signed for. This message is
    /// retransmitted by its timer. The request ends if the challenge arrives once more after that,
    /// unless another message has become the current one in between.
    Refused,
    /// The response is a challenge that arrived after the first plan of the request, so the request
    /// is not sent again for it.
    LateChallenge,
    /// An allocation failed, or the seed has no transaction ID left.
    OutOfMemory,
}

/// Returns the reason to drop a response that is not believed.
pub fn reason_of(why: Distrust) -> DropReason
    ensures { result ≡ reason_of why }
{
    match why {
        Distrust::WrongFingerprint => DropReason::WrongFingerprint,
        Distrust::MissingFingerprint => DropReason::MissingFingerprint,
        Distrust::NotVerified => DropReason::NotVerified,
        Distrust::UnanswerableChallenge => DropReason::UnanswerableChallenge,
        Distrust::WeakerChallenge => DropReason::WeakerChallenge,
    }
}

/// How many responses were dropped for one request, and why the last one was dropped. Use it only
/// for diagnostics, because anybody can send such responses.
#[derive(Clone, Copy, Debug, PartialEq, Eq)]
pub struct Drops {
    /// How many responses were dropped, at most `u32::MAX`.
    pub count: u32,
    /// Why the last of these responses was dropped.
    pub last: Option<DropReason>,
    /// The error code of the last of these responses, if it had one.
    pub code: Option<u16>,
}

impl Drops {
    /// Returns the record of a request for which no response was dropped.
    pub fn none() -> Drops
        ensures { result ≡ no_drops }
    {
        Drops {
            count: 0,
            last: None,
            code: None,
        }
    }

    /// Returns this record after one more response was dropped, for the reason `why`. `code` is the
    /// error code of the response, if it had one. The count stops at `u32::MAX`.
    pub fn noted(self, why: DropReason, code: Option<u16>) -> Drops
        ensures { result ≡ after_drop why code self }
    {
        Drops {
            count: self.count.saturating_add(1),
            last: Some(why),
            code,
        }
    }
}

/// How a request ended.
#[derive(Clone, Copy, Debug, PartialEq, Eq)]
pub enum RequestEnd {
    /// A response was accepted and ended the request with this outcome. The algorithm is that of
    /// the response's signature, or `None` if the response is unsigned.
    Answered(Outcome, Option<IntegrityAlgorithm>),
    /// No acceptable response arrived in time.
    TimedOut(Drops),
    /// A 401 refused a signed message of the request: the user name or the password is wrong, or an
    /// attacker forges challenges.
    Unauthorized,
    /// The request was challenged too often, and the last challenge was not a 401 to a signed
    /// message: servers with different nonces have one address, or an attacker forges challenges.
    TooManyChallenges,
    /// The request was canceled.
    Cancelled,
}
