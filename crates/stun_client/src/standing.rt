//! The challenge that new requests are signed for, and the challenge that a success has confirmed.
ghost use Rattle.std.specs.Prelude.{◌≡◌, Some};
ghost use Rattle.stun_client.specs.Standing.{after_answer, after_confirming, after_success};
ghost use Rattle.stun_client.specs.Standing.{after_timeout, confirmed, gives_way, is_ignored};
ghost use Rattle.stun_client.specs.Standing.{is_standing, is_stronger_than, new_standing};

use crate::challenge::Challenge;
use std::alloc::Allocator;
use std::marker::Model;
use std::mem;

/// The challenge that new requests are signed for, and the last challenge that a success has
/// confirmed.
///
/// If a challenge is forged, all requests that are signed for it time out. At the first of these
/// timeouts, the client signs new requests for the challenge that was confirmed last. If a request
/// that is signed for the confirmed challenge times out too, the client drops that challenge and
/// starts from the beginning. After a success, a challenge that is weaker than the confirmed one is
/// ignored, until a request that is signed for the confirmed challenge times out.
///
/// A success may answer a message that is signed for an earlier challenge. It confirms the earlier
/// challenge if this challenge is stronger than the one that was confirmed before. New requests are
/// then signed for the earlier challenge if the current one is weaker.
///
/// Contracts: the value is a record of the current challenge, whether a success has confirmed it,
/// and the challenge that was confirmed before it.
#[derive(Drop)]
pub struct Standing<A: Allocator> {
    current: Option<Challenge<A>>,
    is_validated: bool,
    validated: Option<Challenge<A>>,
}

impl<A: Allocator> Model for Standing<A> {
    ghost use Rattle.stun_client.specs.Standing.{StandingSeen};

    ghost Value = { StandingSeen };

    ghost view = { λ s. record {
      current = s.current;
      is_validated = s.is_validated;
      validated = s.validated;
    } };
}

impl<A: Allocator + Copy> Standing<A> {
    /// Creates the state before the first challenge.
    pub fn new() -> Self
        ensures { result ≡ new_standing }
    {
        Standing {
            current: None,
            is_validated: false,
            validated: None,
        }
    }

    /// Returns the challenge that new requests are signed for.
    pub fn current(&self) -> &Option<Challenge<A>>
        ensures { result.now ≡ self.now.current }
    {
        &self.current
    }

    /// Returns whether a challenge is weaker than the challenge that was confirmed last.
    pub fn ignores(&self, challenge: &Challenge<A>) -> bool
        ensures { result ≡ is_ignored self.now challenge.now }
    {
        match self.find_confirmed() {
            Some(confirmed) => challenge.is_weaker_than(confirmed),
            None => false,
        }
    }

    /// Returns the challenge that was confirmed last.
    fn find_confirmed(&self) -> &Option<Challenge<A>>
        ensures { result.now ≡ confirmed self.now }
    {
        if self.is_validated {
            &self.current
        } else {
            &self.validated
        }
    }

    /// Returns `true` if there is no confirmed challenge, or if `challenge` is stronger than the
    /// challenge that was confirmed last.
    fn is_stronger(&self, challenge: &Challenge<A>) -> bool
        ensures { result ≡ is_stronger_than challenge.now (confirmed self.now) }
    {
        match self.find_confirmed() {
            Some(confirmed) => is_stronger(challenge, confirmed),
            None => true,
        }
    }

    /// Returns whether a confirmed challenge replaces the current one: the current challenge is
    /// weaker, or there is none.
    fn gives_way(&self, confirmed: &Challenge<A>) -> bool
        ensures { result ≡ gives_way self.now.current confirmed.now }
    {
        match &self.current {
            Some(current) => current.is_weaker_than(confirmed),
            None => true,
        }
    }

    /// Returns whether new requests are signed for this challenge.
    pub fn is_current(&self, challenge: &Option<Challenge<A>>) -> bool
        ensures { result ≡ is_standing self.now challenge.now }
    {
        match challenge {
            Some(challenge) => challenge.is_same_as(&self.current),
            None => false,
        }
    }

    /// Records that a message that is signed for `challenge` was answered with a success. This
    /// confirms the challenge if it is the current one, if it is stronger than the challenge that
    /// was confirmed last, or if none was confirmed. Otherwise nothing changes. A challenge that is
    /// confirmed also replaces the current one if the current one is weaker or there is none.
    pub fn confirm(&mut self, challenge: Option<Challenge<A>>)
        ensures { self.new ≡ after_success self.old challenge }
    {
        let Some(challenge) = challenge else {
            return;
        };
        if challenge.is_same_as(&self.current) {
            self.is_validated = true;
            self.validated = None;
        } else if self.is_stronger(&challenge) {
            self.confirm_other(challenge);
        }
    }

    /// Confirms a challenge that is not the current one.
    fn confirm_other(&mut self, challenge: Challenge<A>)
        ensures { self.new ≡ after_confirming self.old challenge }
    {
        if self.gives_way(&challenge) {
            self.current = Some(challenge);
            self.is_validated = true;
            self.validated = None;
        } else {
            self.is_validated = false;
            self.validated = Some(challenge);
        }
    }

    /// Steps back from a challenge, because a request that is signed for it has timed out. If it is
    /// the current challenge, the challenge that was confirmed before it becomes the current one
    /// again. If none was confirmed before it, there is no current challenge any more.
    pub fn step_back(&mut self, challenge: &Option<Challenge<A>>)
        ensures { self.new ≡ after_timeout self.old challenge.now }
    {
        if self.is_current(challenge) {
            let before = mem::replace(&mut self.validated, None);
            self.is_validated = before.is_some();
            self.current = before;
        }
    }

    /// Makes this challenge the current one, because the client answers it. If a success has
    /// confirmed the former one, that challenge remains the challenge that was confirmed last.
    pub fn answer(&mut self, challenge: Challenge<A>)
        ensures { self.new ≡ after_answer self.old challenge }
    {
        if challenge.is_same_as(&self.current) {
            return;
        }
        let before = mem::replace(&mut self.current, Some(challenge));
        if self.is_validated {
            self.validated = before;
        }
        self.is_validated = false;
    }
}

/// Returns whether `challenge` is stronger than `other`: `other` is weaker than it, and it is not
/// weaker than `other`.
fn is_stronger<A: Allocator + Copy>(challenge: &Challenge<A>, other: &Challenge<A>) -> bool
    ensures { result ≡ is_stronger_than challenge.now (Some other.now) }
{
    other.is_weaker_than(challenge) && !challenge.is_weaker_than(other)
}
