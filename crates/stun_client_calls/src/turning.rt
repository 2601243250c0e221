//! The message of a request that becomes the current one, and the reason for it.
ghost use Rattle.std.specs.Prelude.{◌≡◌};
ghost use Rattle.stun_client_calls.specs.Messages.{is_doubt, is_refusal, leaves_doubt};

use std::alloc::Allocator;
use std::marker::Model;
use stun_client::challenge::Challenge;
use stun_types::message::TransactionId;

/// Why another message of a request becomes the current one.
#[derive(Clone, Copy)]
pub enum Why {
    /// The server has sent a challenge, for which the other message is signed.
    Challenged,
    /// A 401 for the same realm and security bits refused the request.
    Refused,
    /// An unsigned error has cast doubt on the current message.
    Doubted,
    /// An unsigned error has cast doubt on the current message. Every other message is in doubt
    /// too, so the doubt about the current message is not recorded.
    Undoubted,
}

impl Why {
    /// Returns whether the reason is that the request was refused.
    pub fn is_refusal(self) -> bool
        ensures { result ≡ is_refusal self }
    {
        match self {
            Why::Challenged => false,
            Why::Refused => true,
            Why::Doubted => false,
            Why::Undoubted => false,
        }
    }

    /// Returns whether the reason is a doubt about the current message.
    pub fn is_doubt(self) -> bool
        ensures { result ≡ is_doubt self }
    {
        match self {
            Why::Challenged => false,
            Why::Refused => false,
            Why::Doubted => true,
            Why::Undoubted => true,
        }
    }

    /// Returns whether the former message stays in doubt.
    pub fn leaves_doubt(self) -> bool
        ensures { result ≡ leaves_doubt self }
    {
        match self {
            Why::Challenged => false,
            Why::Refused => false,
            Why::Doubted => true,
            Why::Undoubted => false,
        }
    }
}

/// The message of a request that becomes the current one.
#[derive(Drop)]
pub struct Turn<A: Allocator> {
    /// The transaction ID of the message.
    pub id: TransactionId,
    /// The rank of the message (see `Asked`).
    pub rank: u32,
    /// The challenge that the message is signed for, or `None` if it is not signed.
    pub signed_for: Option<Challenge<A>>,
    /// The number of the next transaction ID.
    pub next_id: u64,
    /// A copy of `signed_for`, with which the client updates the challenge that new requests are
    /// signed for.
    pub answered: Option<Challenge<A>>,
    /// Why the message becomes the current one.
    pub why: Why,
}

impl<A: Allocator> Model for Turn<A> {
    ghost use Rattle.stun_client_calls.specs.Messages.{TurnSeen};

    ghost Value = { TurnSeen };

    ghost view = { λ t. record {
      id = t.id;
      rank = t.rank;
      signed_for = t.signed_for;
      next_id = t.next_id;
      answered = t.answered;
      why = t.why;
    } };
}
