//! Signs the messages of a client (RFC 8489, section 9.2.5).
ghost use Rattle.std.specs.Prelude.{◌≡◌, ◌≤◌, ◌<◌, ◌+◌, ◌-◌, ◌^◌, length, min};
ghost use Rattle.std.specs.Prelude.{Bool, ⊤, true, false, IfOk, IsOk, Ok};
ghost use Rattle.std.specs.Option.{option_map};
ghost use Rattle.stun_base.specs.Header.{BeginsWithHeader};
ghost use Rattle.stun_base.specs.MessageType.{class_in, is_request};
ghost use Rattle.stun_judging.specs.Additions.{UnlessMemory, WantsMemory};
ghost use Rattle.stun_judging.specs.Additions.{added_all, growth, page_in, written_page};
ghost use Rattle.stun_judging.specs.Outcome.{IsAdded, IsOutcome};
ghost use Rattle.stun_auth.specs.code.ClientKept.{KeepsShortTexts, challenge_seen, state_seen};
ghost use Rattle.stun_auth.specs.ClientSigning.{algorithm_choice, challenge_additions};
ghost use Rattle.stun_auth.specs.ClientSigning.{client_additions, identity, kept_challenge};
ghost use Rattle.stun_auth.specs.ClientSigning.{signing_algorithm};
ghost use Rattle.stun_auth.specs.Signed.{IsSignableAtClient, added_by_client};

use crate::client::challenge::KeptChallenge;
use crate::client::{LongTermClientAuth, State};
use crate::laws::sides_sign_what_is_signable;
use std::alloc::{AllocError, Allocator};
use stun_judging::addition::{
    AddedAttribute, add, add_integrity, attribute_bytes, integrity_bytes,
};
use stun_types::message::{IntegrityAlgorithm, MessageClass, StunWriteError};
use stun_types::prelude::*;

impl<A: Allocator> KeptChallenge<A> {
    /// Adds NONCE, REALM, and USERNAME or USERHASH.
    fn add_identity<W: MessageWrite>(&self, writer: &mut W) -> Result<(), StunWriteError>
        requires { 20 ≤ length (W.bytes writer.old) }
        ensures header { 20 ≤ length (W.bytes writer.new) }
        ensures added { IsAdded (identity (challenge_seen self.now))
            (page_in W.bytes W.room writer.old) (W.reserved writer.old)
            result (page_in W.bytes W.room writer.new) (W.reserved writer.new) }
        ensures granted { W.grants → UnlessMemory result ⊤ ⊥ }
    {
        let (nonce, realm) = (self.nonce.as_str(), self.realm.as_str());
        self.naming.add_identity(writer, nonce, realm)
    }

    /// Adds PASSWORD-ALGORITHMS if the server sent a list, and PASSWORD-ALGORITHM if it sent a list
    /// or the chosen algorithm is HMAC-SHA256.
    fn add_algorithm_choice<W: MessageWrite>(&self, writer: &mut W) -> Result<(), StunWriteError>
        requires { 20 ≤ length (W.bytes writer.old) }
        ensures header { 20 ≤ length (W.bytes writer.new) }
        ensures added { IsAdded (algorithm_choice
            (challenge_seen self.now).algorithms self.now.algorithm)
            (page_in W.bytes W.room writer.old) (W.reserved writer.old)
            result (page_in W.bytes W.room writer.new) (W.reserved writer.new) }
        ensures granted { W.grants → UnlessMemory result ⊤ ⊥ }
    {
        let choice = AddedAttribute::PasswordAlgorithm(self.algorithm);
        match self.algorithms.as_slice() {
            [] => match self.algorithm {
                IntegrityAlgorithm::Sha1 => Ok(()),
                IntegrityAlgorithm::Sha256 => add(writer, choice),
            },
            list => {
                add(writer, AddedAttribute::PasswordAlgorithms(list))?;
                add(writer, choice)
            }
        }
    }

    /// Signs a message under the stored key: adds the identity if `is_request` is true, then the
    /// choice of the algorithm, and last the integrity attribute.
    fn sign<W: MessageWrite>(&self, writer: &mut W, is_request: bool) -> Result<(), StunWriteError>
        requires { 20 ≤ length (W.bytes writer.old) }
        ensures outcome { IsOutcome (challenge_additions is_request (challenge_seen self.now))
            (page_in W.bytes W.room writer.old) (W.reserved writer.old)
            result (page_in W.bytes W.room writer.new) }
        ensures granted { W.grants → UnlessMemory result ⊤ ⊥ }
    {
        if is_request {
            self.add_identity(writer)?;
            self.add_protection(writer)
        } else {
            self.add_protection(writer)
        }
    }

    /// Adds the choice of the algorithm and the integrity attribute.
    fn add_protection<W: MessageWrite>(&self, writer: &mut W) -> Result<(), StunWriteError>
        requires { 20 ≤ length (W.bytes writer.old) }
        ensures outcome { IsOutcome (challenge_additions false (challenge_seen self.now))
            (page_in W.bytes W.room writer.old) (W.reserved writer.old)
            result (page_in W.bytes W.room writer.new) }
        ensures granted { W.grants → UnlessMemory result ⊤ ⊥ }
    {
        self.add_algorithm_choice(writer)?;
        add_integrity(writer, &self.key, self.algorithm)
    }

    /// Returns the number of bytes that signing adds to a request, saturating at 2^64 - 1.
    fn count_signature_bytes(&self) -> usize
        ensures { result ≡ min (growth (challenge_additions true (challenge_seen self.now)))
            (2 ^ 64 - 1) }
    {
        self.count_identity_bytes()
            .saturating_add(self.count_choice_bytes())
            .saturating_add(integrity_bytes(self.algorithm))
    }

    /// Returns the number of bytes that `add_identity` adds, saturating at 2^64 - 1.
    fn count_identity_bytes(&self) -> usize
        ensures { result ≡ min (growth (identity (challenge_seen self.now))) (2 ^ 64 - 1) }
    {
        attribute_bytes(self.nonce.len())
            .saturating_add(attribute_bytes(self.realm.len()))
            .saturating_add(self.naming.bytes())
    }

    /// Returns the number of bytes that `add_algorithm_choice` adds, saturating at 2^64 - 1.
    fn count_choice_bytes(&self) -> usize
        ensures { result ≡ min (growth (algorithm_choice
            (challenge_seen self.now).algorithms self.now.algorithm)) (2 ^ 64 - 1) }
    {
        match self.algorithms.as_slice() {
            [] => match self.algorithm {
                IntegrityAlgorithm::Sha1 => 0,
                IntegrityAlgorithm::Sha256 => 8,
            },
            list => list.len().saturating_mul(4).saturating_add(12),
        }
    }
}

impl<A: Allocator> State<A> {
    /// Returns the challenge that the client has stored, or `None` if it has stored none.
    fn as_challenge(&self) -> Option<&KeptChallenge<A>>
        ensures { option_map (λ kept. challenge_seen kept.now) result
            ≡ kept_challenge (state_seen self.now) }
    {
        match self {
            State::Initial => None,
            State::Authenticating(kept) => Some(kept),
            State::Authenticated(kept) => Some(kept),
        }
    }
}

/// Returns whether the message in a writer is a request.
fn is_request<W: MessageWrite>(writer: &W) -> bool
    requires { BeginsWithHeader (W.bytes writer.now) }
    ensures { result ≡ is_request (class_in (W.bytes writer.now)) }
{
    writer.has_class(MessageClass::Request)
}

impl<A: Allocator> LongTermClientAuth<A> {
    /// Returns the algorithm with which the client signs messages now, or `None` if it signs
    /// nothing because it has not accepted a challenge yet.
    ///
    /// Call it after each `ResendRequest` to notice a downgrade to HMAC-SHA1 before you sign (see
    /// `LongTermClientAuth`).
    pub fn signing_algorithm(&self) -> Option<IntegrityAlgorithm>
        ensures value { result ≡ signing_algorithm self.now.state }
        ensures added { (request : Bool)
            → option_map (λ p. p.algorithm) (added_by_client request self.now.state).integrity
            ≡ result }
    {
        match self.state.as_challenge() {
            Some(kept) => Some(kept.algorithm),
            None => None,
        }
    }

    /// Returns the number of bytes that `sign_outgoing_message` adds to a request, or 0 if the
    /// client has not accepted a challenge yet. The result saturates at 2^64 - 1.
    pub fn message_signature_bytes(&self) -> usize
        ensures { result ≡ min (growth (client_additions true self.now.state)) (2 ^ 64 - 1) }
    {
        match self.state.as_challenge() {
            Some(kept) => kept.count_signature_bytes(),
            None => 0,
        }
    }

    /// Signs a message for the server, by the challenge that the client has accepted (RFC 8489,
    /// section 9.2.5).
    ///
    /// If the client has not accepted a challenge yet, the message is unchanged. Otherwise these
    /// attributes are added, in this order:
    ///
    /// - to a request, NONCE, REALM, and USERNAME or USERHASH;
    /// - PASSWORD-ALGORITHMS, which repeats the server's list, if it sent one;
    /// - PASSWORD-ALGORITHM, if the server sent a list or the algorithm is HMAC-SHA256;
    /// - MESSAGE-INTEGRITY or MESSAGE-INTEGRITY-SHA256.
    ///
    /// Add FINGERPRINT after this call, because it has to be the last attribute, and the call does
    /// not check whether the message has one already. The attributes are added one after another,
    /// and the call fails with the first error. The writer is then dropped. The client is unchanged
    /// in any case.
    ///
    /// - `MessageIntegrityExists`: the message is signed already.
    /// - `AttributeExists`: the message already has the attribute to add.
    /// - `TooLarge`: the message would be too long, or the user name has more than 513 bytes.
    /// - `TooSmall`: the writer has too little room.
    /// - `OutOfMemory`: an allocation failed.
    pub fn sign_outgoing_message<W: MessageWrite>(&mut self, writer: W) -> Result<W, StunWriteError>
        requires { BeginsWithHeader (W.bytes writer) }
        ensures answer { let additions = client_additions
            (is_request (class_in (W.bytes writer))) self.old.state in
            UnlessMemory result (written_page W.bytes W.room result
            ≡ added_all additions (page_in W.bytes W.room writer))
            (WantsMemory additions (page_in W.bytes W.room writer) (W.reserved writer)) }
        ensures granted { W.grants → UnlessMemory result ⊤ ⊥ }
        ensures grows { IfOk result (λ signed. length (W.bytes signed)
            ≡ length (W.bytes writer) + growth
            (client_additions (is_request (class_in (W.bytes writer))) self.old.state)) }

        // Nothing is allocated for bytes that are reserved already.
        ensures succeeds { let request = is_request (class_in (W.bytes writer)) in
            IsSignableAtClient request self.old.state (W.bytes writer) (W.room writer)
            → growth (client_additions request self.old.state) ≤ W.reserved writer
            → IsOk result }

        // A signable message fails only for lack of memory.
        ensures signable { IsSignableAtClient (is_request (class_in (W.bytes writer)))
            self.old.state (W.bytes writer) (W.room writer)
            → UnlessMemory result (IsOk result) ⊤ }
        ensures stays { self.new ≡ self.old }
    {
        // A law does nothing at run time. This one helps to prove the clause `succeeds`.
        sides_sign_what_is_signable();
        self.keeps_short_texts();
        self.add_signature(writer)
    }

    /// Does nothing at run time. It gives the proof a fact that the types of the fields guarantee:
    /// the stored nonce and realm are within the limits of their attributes.
    fn keeps_short_texts(&self)
        ensures { KeepsShortTexts self.now.state }
    {
        let _ = &self.state;
    }

    /// Adds to a message the attributes that the stored challenge requires.
    fn add_signature<W: MessageWrite>(&self, writer: W) -> Result<W, StunWriteError>
        requires { BeginsWithHeader (W.bytes writer) }
        ensures outcome { let additions = client_additions
            (is_request (class_in (W.bytes writer))) self.now.state in
            UnlessMemory result (written_page W.bytes W.room result
            ≡ added_all additions (page_in W.bytes W.room writer))
            (WantsMemory additions (page_in W.bytes W.room writer) (W.reserved writer)) }
        ensures granted { W.grants → UnlessMemory result ⊤ ⊥ }
    {
        let mut writer = writer;
        if let Some(kept) = self.state.as_challenge() {
            let is_request = is_request(&writer);
            kept.sign(&mut writer, is_request)?;
        }
        Ok(writer)
    }

    /// Signs a message like `sign_outgoing_message`. The caller must ensure that the message is
    /// signable.
    ///
    /// A signable message has no integrity attribute, no FINGERPRINT, and none of the attributes
    /// that signing adds. Its writer and its length field have room for the attributes to add. The
    /// user name has at most 513 bytes.
    ///
    /// Fails if an allocation fails. The client is unchanged in any case.
    pub fn sign_outgoing_message_unchecked<W: MessageWrite>(
        &mut self,
        writer: W,
    ) -> Result<W, AllocError>
        requires header { BeginsWithHeader (W.bytes writer) }
        requires signable { IsSignableAtClient (is_request
            (class_in (W.bytes writer))) self.old.state (W.bytes writer)
            (W.room writer) }
        ensures signed { IfOk result (λ signed. Ok (page_in W.bytes W.room signed)
            ≡ added_all (client_additions (is_request
            (class_in (W.bytes writer))) self.old.state)
            (page_in W.bytes W.room writer)) }
        ensures grows { IfOk result (λ signed. length (W.bytes signed)
            ≡ length (W.bytes writer) + growth
            (client_additions (is_request (class_in (W.bytes writer))) self.old.state)) }

        // Nothing is allocated for bytes that are reserved already.
        ensures succeeds { growth (client_additions
            (is_request (class_in (W.bytes writer))) self.old.state)
            ≤ W.reserved writer → IsOk result }
        ensures granted { W.grants → IsOk result }
        ensures stays { self.new ≡ self.old }
    {
        match self.sign_outgoing_message(writer) {
            Ok(signed) => Ok(signed),
            Err(_) => Err(AllocError),
        }
    }
}
