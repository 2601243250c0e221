//! The refusals of a request, which determine when a challenge ends the request.
ghost use Rattle.std.specs.Prelude.{◌≡◌, nat_le};
ghost use Rattle.stun_client_endpoint.specs.Refusals.{OTHERS, after_refusal, after_sending};
ghost use Rattle.stun_client_endpoint.specs.Refusals.{after_turn, no_refusals};

/// The refusals of a request. A refusal is a response that repeats the challenge that the current
/// message is signed for, or a 401 for the same realm and security bits with a different nonce or
/// list. The first kind is counted for each message, and the second kind for the request.
#[derive(Clone, Copy)]
pub struct Refusals {
    /// Whether the current message was sent since it became the current one.
    is_sent: bool,
    /// Whether a response has repeated the challenge since the current message was sent last.
    is_recent: bool,
    /// Whether a response repeated the challenge before the current message was sent last.
    is_earlier: bool,
    /// How often a 401 with a different nonce or list made another message the current one.
    others: u32,
}

impl Refusals {
    /// Returns the value for a request that was not refused.
    pub fn none() -> Refusals
        ensures { result ≡ no_refusals }
    {
        Refusals {
            is_sent: false,
            is_recent: false,
            is_earlier: false,
            others: 0,
        }
    }

    /// Returns the value after a response has repeated the challenge that the current message is
    /// signed for.
    pub fn noted(self) -> Refusals
        ensures { result ≡ after_refusal self }
    {
        Refusals {
            is_sent: self.is_sent,
            // Before the message is sent, only a copy of an older response can refuse it.
            is_recent: self.is_recent || self.is_sent,
            is_earlier: self.is_earlier,
            others: self.others,
        }
    }

    /// Returns the value after the current message was sent.
    pub fn sent(self) -> Refusals
        ensures { result ≡ after_sending self }
    {
        Refusals {
            is_sent: true,
            is_recent: false,
            is_earlier: self.is_earlier || self.is_recent,
            others: self.others,
        }
    }

    /// Returns the value after another message became the current one. Pass `true` as `is_refusal`
    /// if the challenge of this message is a 401 for the same realm and security bits.
    pub fn turned(self, is_refusal: bool) -> Refusals
        ensures { result ≡ after_turn is_refusal self }
    {
        // A refusal of the former message, which may be forged, says nothing about the new one.
        Refusals {
            is_sent: false,
            is_recent: false,
            is_earlier: false,
            others: self.others.saturating_add(u32::from(is_refusal)),
        }
    }

    /// Returns whether a response repeated the challenge before the current message was sent last.
    pub fn is_earlier(self) -> bool
        ensures { result ≡ self.is_earlier }
    {
        self.is_earlier
    }

    /// Returns whether the request has been sent again twice for a 401 with a different nonce or
    /// list, which is the limit. The next such 401 ends the request.
    pub fn is_last(self) -> bool
        ensures { result ≡ nat_le OTHERS self.others }
    {
        self.others >= 2
    }
}
