//! Signs the requests that a client sends for a challenge (RFC 8489, section 9.2.5).
ghost use Rattle.std.specs.Prelude.{◌≡◌, ◌≤◌, ◌+◌, ◌∷◌, [], ⊤, length, true, false, IfOk, None};
ghost use Rattle.stun_base.specs.MessageType.{class_in};
ghost use Rattle.stun_judging.specs.Additions.{UnlessMemory, WantsMemory};
ghost use Rattle.stun_judging.specs.Additions.{added_all, attribute, growth, page_in, written_page};
ghost use Rattle.stun_judging.specs.Feature.{is_required};
ghost use Rattle.stun_judging.specs.Outcome.{IsAdded, IsOutcome};
ghost use Rattle.stun_judging.specs.Reading.{error_code, reading_of};
ghost use Rattle.stun_judging.specs.Signed.{IsText, IsUnsigned, ReadsAs};
ghost use Rattle.stun_client.specs.Challenge.{added_under, algorithm_choice};
ghost use Rattle.stun_client.specs.Challenge.{challenge_additions, identity, repeated_list};
ghost use Rattle.stun_client.specs.Downgrade.{IsNowhereBidDown};
ghost use Rattle.stun_client.specs.code.Kept.{challenge_seen};

use crate::challenge::Challenge;
use crate::challenge::kept::KeptChallenge;
use crate::challenge::offer::Offer;
use crate::laws::signed_requests_are_not_bid_down;
use std::alloc::Allocator;
use stun_judging::addition::{AddedAttribute, add, add_integrity, add_made};
use stun_types::message::{IntegrityAlgorithm, StunWriteError};
use stun_types::prelude::*;

impl<A: Allocator> KeptChallenge<A> {
    /// Adds NONCE, REALM, and USERNAME or USERHASH.
    fn add_identity<W: MessageWrite>(&self, writer: &mut W) -> Result<(), StunWriteError>
        requires { 20 ≤ length (W.bytes writer.old) }
        ensures header { 20 ≤ length (W.bytes writer.new) }
        ensures added { IsAdded (identity (challenge_seen self.now))
            (page_in W.bytes W.room writer.old) (W.reserved writer.old)
            result (page_in W.bytes W.room writer.new) (W.reserved writer.new) }
        ensures granted { W.grants → UnlessMemory result ⊤ ⊥ }
    {
        let (nonce, realm) = (self.nonce.as_str(), self.realm.as_str());
        self.naming.add_identity(writer, nonce, realm)
    }

    /// Adds PASSWORD-ALGORITHMS with the server's list and PASSWORD-ALGORITHM with the chosen
    /// algorithm, each if it is required.
    fn add_algorithm_choice<W: MessageWrite>(&self, writer: &mut W) -> Result<(), StunWriteError>
        requires { 20 ≤ length (W.bytes writer.old) }
        ensures header { 20 ≤ length (W.bytes writer.new) }
        ensures added { IsAdded (algorithm_choice
            (challenge_seen self.now).offered self.now.algorithm)
            (page_in W.bytes W.room writer.old) (W.reserved writer.old)
            result (page_in W.bytes W.room writer.new) (W.reserved writer.new) }
        ensures granted { W.grants → UnlessMemory result ⊤ ⊥ }
    {
        let choice = AddedAttribute::PasswordAlgorithm(self.algorithm);
        match self.offered.as_slice() {
            [] => match self.algorithm {
                IntegrityAlgorithm::Sha1 => Ok(()),
                IntegrityAlgorithm::Sha256 => add(writer, choice),
            },
            list => {
                add_list(writer, list)?;
                add(writer, choice)
            }
        }
    }

    /// Adds the choice of the algorithm and the integrity attribute.
    fn add_protection<W: MessageWrite>(&self, writer: &mut W) -> Result<(), StunWriteError>
        requires { 20 ≤ length (W.bytes writer.old) }
        ensures outcome { IsOutcome (challenge_additions false (challenge_seen self.now))
            (page_in W.bytes W.room writer.old) (W.reserved writer.old)
            result (page_in W.bytes W.room writer.new) }
        ensures granted { W.grants → UnlessMemory result ⊤ ⊥ }
    {
        self.add_algorithm_choice(writer)?;
        add_integrity(writer, &self.key, self.algorithm)
    }

    /// Adds all attributes that a request needs, and the integrity attribute last.
    fn add_all<W: MessageWrite>(&self, writer: &mut W) -> Result<(), StunWriteError>
        requires { 20 ≤ length (W.bytes writer.old) }
        ensures outcome { IsOutcome (challenge_additions true (challenge_seen self.now))
            (page_in W.bytes W.room writer.old) (W.reserved writer.old)
            result (page_in W.bytes W.room writer.new) }
        ensures granted { W.grants → UnlessMemory result ⊤ ⊥ }
    {
        self.add_identity(writer)?;
        self.add_protection(writer)
    }

    /// Does nothing at run time. It gives proofs the fact that the texts are UTF-8.
    fn keeps_texts(&self)
        ensures { IsText (added_under true (challenge_seen self.now)) }
    {
        self.naming.keeps_text();
    }

    /// Adds to a message the attributes that the challenge requires, and returns the writer.
    fn sign<W: MessageWrite>(&self, writer: W) -> Result<W, StunWriteError>
        requires { 20 ≤ length (W.bytes writer) }
        ensures outcome { UnlessMemory result (written_page W.bytes W.room result
            ≡ added_all (challenge_additions true (challenge_seen self.now))
            (page_in W.bytes W.room writer))
            (WantsMemory (challenge_additions true (challenge_seen self.now))
            (page_in W.bytes W.room writer) (W.reserved writer)) }
        ensures granted { W.grants → UnlessMemory result ⊤ ⊥ }
    {
        let mut writer = writer;
        self.add_all(&mut writer)?;
        Ok(writer)
    }
}

/// Adds the list that a server sent, as the bytes of its value.
fn add_list<W: MessageWrite>(writer: &mut W, list: &[u8]) -> Result<(), StunWriteError>
    requires { 20 ≤ length (W.bytes writer.old) }
    ensures header { 20 ≤ length (W.bytes writer.new) }
    ensures added { IsAdded (attribute (repeated_list list.now) ∷ [])
        (page_in W.bytes W.room writer.old) (W.reserved writer.old)
        result (page_in W.bytes W.room writer.new) (W.reserved writer.new) }
    ensures granted { W.grants → UnlessMemory result ⊤ ⊥ }
{
    add_made(writer, &Offer::new(list))
}

impl<A: Allocator> Challenge<A> {
    /// Signs a request for the server that sent the challenge (RFC 8489, section 9.2.5). These
    /// attributes are added, in this order:
    ///
    /// - NONCE, REALM, and USERNAME or USERHASH;
    /// - PASSWORD-ALGORITHMS, which repeats the server's list as it arrived, and
    ///   PASSWORD-ALGORITHM, if the nonce has the security bit *Password algorithms*;
    /// - MESSAGE-INTEGRITY or MESSAGE-INTEGRITY-SHA256.
    ///
    /// Add FINGERPRINT after this call, because it has to be the last attribute, and the call does
    /// not check whether the message has one already. The attributes are added one after another,
    /// and the call fails with the first error. The writer is then dropped.
    ///
    /// - `MessageIntegrityExists`: the message is signed already.
    /// - `AttributeExists`: the message already has the attribute to add.
    /// - `TooLarge`: the message would be too long, or the user name has more than 513 bytes.
    /// - `TooSmall`: the writer has too little room.
    /// - `OutOfMemory`: an allocation failed.
    ///
    /// Contracts: by `not_bid_down`, a server that accepts the request accepts it with the
    /// strongest algorithm that both sides support, whatever messages this client has read before.
    /// By `hashed`, a client that must hash its user name never sends the name in clear.
    pub fn sign<W: MessageWrite>(&self, writer: W) -> Result<W, StunWriteError>
        requires { 20 ≤ length (W.bytes writer) }
        ensures signed { UnlessMemory result (written_page W.bytes W.room result
            ≡ added_all (challenge_additions true self.now.challenge)
            (page_in W.bytes W.room writer))
            (WantsMemory (challenge_additions true self.now.challenge)
            (page_in W.bytes W.room writer) (W.reserved writer)) }
        ensures granted { W.grants → UnlessMemory result ⊤ ⊥ }
        ensures grows { IfOk result (λ signed. length (W.bytes signed)
            ≡ length (W.bytes writer) + growth (challenge_additions true self.now.challenge)) }
        ensures reads { IfOk result (λ signed. IsUnsigned (W.bytes writer)
            → ReadsAs (class_in (W.bytes writer)) (error_code (W.bytes writer))
            (added_under true self.now.challenge) (reading_of (W.bytes signed))) }
        ensures not_bid_down { IfOk result (λ signed. IsUnsigned (W.bytes writer)
            → IsNowhereBidDown self.now.preferences (reading_of (W.bytes signed))) }
        ensures hashed { IfOk result (λ signed. IsUnsigned (W.bytes writer)
            → is_required self.now.preferences.anonymous_username ≡ true
            → (reading_of (W.bytes signed)).username ≡ None) }
    {
        // A law does nothing at run time. These two help to prove the clauses `reads` and
        // `not_bid_down`.
        stun_types::laws::writing_adds_one_attribute();
        stun_types::laws::signed_message_stands();
        signed_requests_are_not_bid_down();
        self.kept.keeps_texts();
        self.kept.sign(writer)
    }
}
