//! Short-term authentication (RFC 8489, section 9.1).

ghost use Rattle.std.specs.Prelude.{◌≡◌, ◌≤◌, ◌+◌, length, IfOk, IsOk, OnOk, OnErr};
ghost use Rattle.std.specs.Prelude.{IsOkUnless, MatchOption, Some, None, codes};
ghost use Rattle.std.specs.Fmt.{WritesOnOk, WritesStyledOnOk};
ghost use Rattle.std.specs.Option.{option_copied, option_map};
ghost use Rattle.stun_auth.specs.ShortTerm.{IsSignableShortTerm, short_term_answer};
ghost use Rattle.stun_auth.specs.ShortTerm.{short_term_growth};
ghost use Rattle.stun_auth.specs.ShortTerm.{short_term_refusal, short_term_signed};

use std::alloc::{AllocError, Allocator, Global};
use std::fmt;
use std::marker::Model;
use stun_base::memory::Memory;
use stun_judging::addition::integrity_bytes;
use stun_types::message::{
    IntegrityAlgorithm, IntegrityKey, Message, PreparedKey, ShortTermCredentials, StunWriteError,
    ValidateError,
};
use stun_types::prelude::*;

/// Signs messages with a shared password and verifies messages that were signed with it (RFC 8489,
/// section 9.1).
///
/// Short-term credentials also have a USERNAME. This type neither writes nor reads it: add it
/// before you sign, and compare it yourself when a message arrives. `Debug` shows nothing of the
/// contents.
///
/// Contracts: the value has the bytes of the password and the algorithm, or is `None` until they
/// are set.
#[derive(Drop)]
pub struct ShortTermAuth<A: Allocator = Global> {
    kept: Option<KeptPassword<A>>,
}

/// The credentials, the algorithm to sign with, and the key, which is prepared for that algorithm.
#[derive(Drop)]
struct KeptPassword<A: Allocator> {
    credentials: ShortTermCredentials<A>,
    algorithm: IntegrityAlgorithm,
    key: PreparedKey<A>,
}

impl<A: Allocator> Model for ShortTermAuth<A> {
    ghost use Rattle.std.specs.Prelude.{Option};
    ghost use Rattle.stun_auth.specs.ShortTerm.{Secret};

    ghost Value = { Option Secret };

    ghost use Rattle.stun_auth.specs.code.ShortTermKept.{short_term_secret, KeyIsPassword};

    ghost view = { λ auth. short_term_secret auth.kept };

    ghost invariant = { λ auth. KeyIsPassword auth.kept };
}

impl<A: Allocator> fmt::Debug for ShortTermAuth<A> {
    ghost debug_output = { λ _. Some (codes "ShortTermAuth { .. }") };

    fn fmt<W: fmt::Write>(&self, f: &mut fmt::Formatter<W>) -> fmt::Result
        ensures writes { WritesOnOk W.write_str_gives f.old result
            (codes "ShortTermAuth { .. }") f.new }

        // The options of the formatter, such as the width, do not change the text.
        ensures styled { WritesStyledOnOk W.write_str_gives f.old result
            (codes "ShortTermAuth { .. }") f.new }
    {
        f.write_str("ShortTermAuth { .. }")
    }
}

impl<A: Allocator> ShortTermAuth<A> {
    /// Creates an authenticator without credentials. Until `set_credentials` is called, it signs
    /// nothing and verifies nothing.
    ///
    /// It does not allocate, and does not store the allocator: the key uses the allocator of the
    /// password.
    pub fn new(_alloc: A) -> Self
        ensures { result ≡ None }
    {
        ShortTermAuth { kept: None }
    }

    /// Returns the credentials that were set, and the algorithm to sign with.
    pub fn credentials(&self) -> Option<(&ShortTermCredentials<A>, IntegrityAlgorithm)>
        ensures { option_map (λ pair. record { password = pair.0.now; algorithm = pair.1 }) result
            ≡ self.now }
    {
        self.kept
            .as_ref()
            .map(|kept| (&kept.credentials, kept.algorithm))
    }

    /// Returns the key, which is the password itself (RFC 8489, section 9.1.1), or `None` if no
    /// credentials were set.
    pub fn integrity_key(&self) -> Option<&IntegrityKey<A>>
        ensures { option_copied result ≡ option_map (λ secret. secret.password) self.now }
    {
        self.kept.as_ref().map(|kept| kept.key.key())
    }

    /// Returns the number of bytes that signing adds to a message: 24 for HMAC-SHA1, 36 for
    /// HMAC-SHA256, and 0 if there are no credentials.
    pub fn message_signature_bytes(&self) -> usize
        ensures { result ≡ short_term_growth self.now }
    {
        match &self.kept {
            None => 0,
            Some(kept) => integrity_bytes(kept.algorithm),
        }
    }

    /// Signs a message with the password: appends MESSAGE-INTEGRITY or MESSAGE-INTEGRITY-SHA256
    /// (RFC 8489, section 9.1.2). Without credentials the message is unchanged.
    ///
    /// Add FINGERPRINT after this call, because it has to be the last attribute, and the call does
    /// not check whether the message has one already. The call fails with the first of these errors
    /// that applies, and then drops the writer:
    ///
    /// - `MessageIntegrityExists`: the message is signed already.
    /// - `TooLarge`: the message would be too long.
    /// - `TooSmall`: the writer has too little room.
    /// - `OutOfMemory`: an allocation failed.
    #[tactic(auto, using(stun_judging::proofs::Growth::length_of_signed))]
    pub fn sign_outgoing_message<W: MessageWrite>(&mut self, writer: W) -> Result<W, StunWriteError>
        requires { 20 ≤ length (W.bytes writer) }
        ensures signed { IfOk result (λ signed. W.bytes signed
            ≡ short_term_signed self.old (W.bytes writer)) }
        ensures grows { IfOk result (λ signed. length (W.bytes signed)
            ≡ length (W.bytes writer) + short_term_growth self.old) }
        ensures room { IfOk result (λ signed. W.room signed + short_term_growth self.old
            ≡ W.room writer) }
        ensures refused { MatchOption (short_term_refusal self.old (W.bytes writer) (W.room writer))
            (IsOkUnless result StunWriteError.OutOfMemory) (λ reason. result ≡ Err reason) }

        // Nothing is allocated for bytes that are reserved already.
        ensures succeeds { short_term_refusal self.old (W.bytes writer) (W.room writer) ≡ None
            → short_term_growth self.old ≤ W.reserved writer → IsOk result }
        ensures granted { W.grants
            → short_term_refusal self.old (W.bytes writer) (W.room writer) ≡ None → IsOk result }
        ensures stays { self.new ≡ self.old }
    {
        let mut writer = writer;
        if let Some(kept) = &self.kept {
            writer.add_message_integrity_with_prepared_key(&kept.key, kept.algorithm)?;
        }
        Ok(writer)
    }

    /// Signs a message like `sign_outgoing_message`. The caller must ensure that the message is
    /// signable.
    ///
    /// Without credentials every message is signable. With credentials, a signable message has no
    /// integrity attribute, and its writer and its length field have room for the new one: 24 bytes
    /// for HMAC-SHA1, 36 for HMAC-SHA256.
    ///
    /// Fails if an allocation fails.
    #[tactic(auto, using(stun_judging::proofs::Growth::length_of_signed))]
    pub fn sign_outgoing_message_unchecked<W: MessageWrite>(
        &mut self,
        writer: W,
    ) -> Result<W, AllocError>
        requires header { 20 ≤ length (W.bytes writer) }
        requires signable { IsSignableShortTerm self.old (W.bytes writer) (W.room writer) }
        ensures signed { IfOk result (λ signed. W.bytes signed
            ≡ short_term_signed self.old (W.bytes writer)) }
        ensures grows { IfOk result (λ signed. length (W.bytes signed)
            ≡ length (W.bytes writer) + short_term_growth self.old) }
        ensures room { IfOk result (λ signed. W.room signed + short_term_growth self.old
            ≡ W.room writer) }
        ensures succeeds { short_term_growth self.old ≤ W.reserved writer → IsOk result }
        ensures granted { W.grants → IsOk result }
        ensures stays { self.new ≡ self.old }
    {
        let mut writer = writer;
        if let Some(kept) = &self.kept {
            writer.add_message_integrity_with_prepared_key_unchecked(&kept.key, kept.algorithm)?;
        }
        Ok(writer)
    }

    /// Verifies the signature of a message, and returns the algorithm that it was signed with (RFC
    /// 8489, section 9.1.3).
    ///
    /// If the message has MESSAGE-INTEGRITY-SHA256, only that attribute is checked. Otherwise
    /// MESSAGE-INTEGRITY is checked. The call fails like `Message::validate_integrity`, and does
    /// not allocate.
    ///
    /// Returns `None` if no credentials were set, because nothing was checked then. Do not mistake
    /// it for a valid signature.
    pub fn validate_incoming_message(
        &mut self,
        message: &Message,
    ) -> Result<Option<IntegrityAlgorithm>, ValidateError>
        ensures answer { result ≡ short_term_answer self.old message.now }
        ensures stays { self.new ≡ self.old }
    {
        match &self.kept {
            None => Ok(None),
            Some(kept) => Ok(Some(message.validate_integrity_with_prepared_key(&kept.key)?)),
        }
    }
}

impl<A: Memory> ShortTermAuth<A> {
    /// Sets the password, and the algorithm to sign messages with. Incoming messages may be signed
    /// with either algorithm.
    ///
    /// Fails if an allocation fails, and then leaves the password and the algorithm unchanged. A
    /// password of up to 32 bytes needs no allocation.
    pub fn set_credentials(
        &mut self,
        credentials: ShortTermCredentials<A>,
        algorithm: IntegrityAlgorithm,
    ) -> Result<(), AllocError>
        ensures ok { OnOk result (self.new ≡ Some
            (record { password = credentials; algorithm = algorithm })) }
        ensures err { OnErr result (self.new ≡ self.old) }
        ensures succeeds_inline { length credentials ≤ 32 → IsOk result }
        ensures granted { A.grants → IsOk result }
    {
        let key = PreparedKey::new(credentials.make_key()?, algorithm);
        self.kept = Some(KeptPassword {
            credentials,
            algorithm,
            key,
        });
        Ok(())
    }
}
