//! Adds to a response what a client needs to sign its next request (RFC 8489, section 9.2.4).

ghost use Rattle.std.specs.Prelude.{◌≡◌, ◌≤◌, ◌+◌, ⊤, true, IfOk, IsOk, length};
ghost use Rattle.stun_base.specs.Header.{BeginsWithHeader};
ghost use Rattle.stun_judging.specs.Additions.{UnlessMemory, WantsMemory, added_all, growth};
ghost use Rattle.stun_judging.specs.Additions.{page_in, written_page};
ghost use Rattle.stun_judging.specs.Challenge.{challenge, challenge_under, offer};
ghost use Rattle.stun_judging.specs.Nonces.{asks_for_algorithms};
ghost use Rattle.stun_judging.specs.Outcome.{IsAdded};

use crate::addition::{AddedAttribute, add};
use crate::algorithm_set::AlgorithmSet;
use crate::nonce::asks_for_algorithms;
use crate::realm::Realm;
use stun_base::memory::Memory;
use stun_types::message::StunWriteError;
use stun_types::prelude::*;

impl<A: Memory> Realm<A> {
    /// Adds to a response the attributes that a client needs to sign its next request under a nonce
    /// (RFC 8489, section 9.2.4). These are NONCE and REALM. If the nonce has the security bit
    /// *Password algorithms*, they include PASSWORD-ALGORITHMS with the algorithms that the realm
    /// supports, the strongest first. Add FINGERPRINT afterwards.
    ///
    /// The attributes are added one after another. The call fails with the first error, and then
    /// drops the writer. For each attribute, the errors are tested in this order:
    ///
    /// - `TooLarge`: the nonce or the name of the realm has more than 763 bytes.
    /// - `MessageIntegrityExists`: the message is signed already.
    /// - `AttributeExists`: the message already has the attribute to add.
    /// - `TooLarge`: the message would become too long.
    /// - `TooSmall`: the writer has too little room.
    /// - `OutOfMemory`: an allocation failed. This cannot happen if the writer has reserved the
    ///   bytes.
    pub fn add_challenge<W: MessageWrite>(
        &self,
        writer: W,
        nonce: &str,
    ) -> Result<W, StunWriteError>
        requires { BeginsWithHeader (W.bytes writer) }
        ensures answer { UnlessMemory result (written_page W.bytes W.room result
            ≡ added_all (challenge_under self.now.registered nonce.now)
            (page_in W.bytes W.room writer))
            (WantsMemory (challenge_under self.now.registered nonce.now)
            (page_in W.bytes W.room writer) (W.reserved writer)) }
        ensures granted { W.grants → UnlessMemory result ⊤ ⊥ }
        ensures grows { IfOk result (λ challenged. length (W.bytes challenged)
            ≡ length (W.bytes writer)
            + growth (challenge_under self.now.registered nonce.now)) }

        // Nothing is allocated for bytes that are reserved already.
        ensures succeeds { IsOk (added_all (challenge_under self.now.registered nonce.now)
            (page_in W.bytes W.room writer))
            → growth (challenge_under self.now.registered nonce.now) ≤ W.reserved writer
            → IsOk result }
    {
        let mut writer = writer;
        self.add_under(&mut writer, nonce)?;
        Ok(writer)
    }

    /// Adds NONCE, REALM and, if the nonce has the security bit *Password algorithms*,
    /// PASSWORD-ALGORITHMS.
    fn add_under<W: MessageWrite>(&self, writer: &mut W, nonce: &str) -> Result<(), StunWriteError>
        requires { 20 ≤ length (W.bytes writer.old) }
        ensures added { IsAdded (challenge_under self.now.registered nonce.now)
            (page_in W.bytes W.room writer.old) (W.reserved writer.old) result
            (page_in W.bytes W.room writer.new) (W.reserved writer.new) }
        ensures granted { W.grants → UnlessMemory result ⊤ ⊥ }
    {
        self.add_nonce_and_realm(writer, nonce)?;
        self.add_asked_offer(writer, nonce)
    }

    /// Adds PASSWORD-ALGORITHMS with the supported algorithms if the nonce has the security bit
    /// *Password algorithms*. Otherwise adds nothing.
    fn add_asked_offer<W: MessageWrite>(
        &self,
        writer: &mut W,
        nonce: &str,
    ) -> Result<(), StunWriteError>
        requires { 20 ≤ length (W.bytes writer.old) }
        ensures added { IsAdded (offer (asks_for_algorithms nonce.now) self.now.registered)
            (page_in W.bytes W.room writer.old) (W.reserved writer.old) result
            (page_in W.bytes W.room writer.new) (W.reserved writer.new) }
        ensures granted { W.grants → UnlessMemory result ⊤ ⊥ }
    {
        if asks_for_algorithms(nonce) {
            self.add_offer(writer)
        } else {
            Ok(())
        }
    }

    /// Adds NONCE with this nonce, and REALM with the name of the realm (RFC 8489, sections 14.9
    /// and 14.10).
    ///
    /// Fails like `add_challenge`. Do not send the message then, because it may have only one of
    /// the two attributes.
    pub fn add_nonce_and_realm<W: MessageWrite>(
        &self,
        writer: &mut W,
        nonce: &str,
    ) -> Result<(), StunWriteError>
        requires { 20 ≤ length (W.bytes writer.old) }
        ensures header { 20 ≤ length (W.bytes writer.new) }
        ensures added { IsAdded (challenge true self.now.registered nonce.now)
            (page_in W.bytes W.room writer.old) (W.reserved writer.old) result
            (page_in W.bytes W.room writer.new) (W.reserved writer.new) }
        ensures granted { W.grants → UnlessMemory result ⊤ ⊥ }
    {
        add(writer, AddedAttribute::Nonce(nonce))?;
        add(writer, AddedAttribute::Realm(self.name()))
    }

    /// Adds PASSWORD-ALGORITHMS with the supported algorithms, the strongest first (RFC 8489,
    /// section 14.11). Fails like `add_challenge`.
    pub fn add_offer<W: MessageWrite>(&self, writer: &mut W) -> Result<(), StunWriteError>
        requires { 20 ≤ length (W.bytes writer.old) }
        ensures header { 20 ≤ length (W.bytes writer.new) }
        ensures added { IsAdded (offer true self.now.registered)
            (page_in W.bytes W.room writer.old) (W.reserved writer.old) result
            (page_in W.bytes W.room writer.new) (W.reserved writer.new) }
        ensures granted { W.grants → UnlessMemory result ⊤ ⊥ }
    {
        let offered = self.algorithms().as_password_algorithms();
        add(writer, AddedAttribute::PasswordAlgorithms(offered))
    }

    /// Returns the number of bytes that `add_offer` adds: 8 for one algorithm, and 12 for both.
    pub fn offer_bytes(&self) -> usize
        ensures { result ≡ growth (offer true self.now.registered) }
    {
        match self.algorithms() {
            AlgorithmSet::OnlySha1 => 8,
            AlgorithmSet::OnlySha256 => 8,
            AlgorithmSet::Both => 12,
        }
    }
}
