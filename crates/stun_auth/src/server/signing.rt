//! Signs the messages of a server (RFC 8489, section 9.2.4).

ghost use Rattle.std.specs.Prelude.{◌≡◌, ◌≤◌, ◌<◌, ◌+◌, ◌-◌, ◌^◌, length, min};
ghost use Rattle.std.specs.Prelude.{⊤, not, true, Some, IfOk, IsOk, OnOk, OnErr, Ok};
ghost use Rattle.std.specs.Option.{IfSome, option_copied, option_map};
ghost use Rattle.stun_base.specs.Header.{BeginsWithHeader};
ghost use Rattle.stun_base.specs.MessageType.{class_in, is_response as is_response_class};
ghost use Rattle.stun_types.specs.Limits.{TEXT_LIMIT};
ghost use Rattle.stun_judging.specs.Additions.{UnlessMemory, WantsMemory, growth, page_in};
ghost use Rattle.stun_judging.specs.Additions.{written_page};
ghost use Rattle.stun_judging.specs.Outcome.{IsAdded, outcome_of};
ghost use Rattle.stun_auth.specs.code.Places.{client_seen, place_seen};
ghost use Rattle.stun_auth.specs.ServerSigning.{additions_at, after_signing, algorithms_for};
ghost use Rattle.stun_auth.specs.ServerSigning.{attributes_for, digest_for, growth_at};
ghost use Rattle.stun_judging.specs.Challenge.{challenge, offer};
ghost use Rattle.stun_auth.specs.ServerSigning.{named_algorithm, protected_for};
ghost use Rattle.stun_auth.specs.ServerSigning.{protection_growth, server_additions};
ghost use Rattle.stun_auth.specs.ServerSigning.{server_growth, server_signed, signed_at};
ghost use Rattle.stun_auth.specs.Seen.{PlaceSeen};
ghost use Rattle.stun_auth.specs.Signed.{IsSignableAtServer};
ghost use Rattle.stun_auth.specs.Validation.{sight};

use crate::laws::sides_sign_what_is_signable;
use crate::server::LongTermServerAuth;
use crate::server::places::{Place, ValidatedUser};
use std::alloc::{AllocError, Allocator};
use std::net::SocketAddr;
use stun_judging::addition::{
    AddedAttribute, add, add_integrity, attribute_bytes, integrity_bytes,
};
use stun_types::message::{IntegrityAlgorithm, StunWriteError};
use stun_types::prelude::*;

/// Returns whether the message in a writer is a response.
fn is_response<W: MessageWrite>(writer: &W) -> bool
    requires { BeginsWithHeader (W.bytes writer.now) }
    ensures { result ≡ is_response_class (class_in (W.bytes writer.now)) }
{
    writer.is_response()
}

impl<A: Allocator + Copy> LongTermServerAuth<A> {
    /// Returns the number of bytes that `sign_outgoing_message` adds to a message to an address, at
    /// most 2^64 - 1, or 0 if the server has no record of the address.
    ///
    /// `is_request` is true for a request or an indication, and false for a response. The call does
    /// not check whether signing would fail, for example because the client's user was removed or
    /// the realm is too long.
    pub fn message_signature_bytes(&self, to: SocketAddr, is_request: bool) -> usize
        ensures { result ≡ min (server_growth (sight self.now to) (not is_request)) (2 ^ 64 - 1) }
    {
        match self.places.get(to) {
            Some(place) => self.count_signature_bytes(place, !is_request),
            None => 0,
        }
    }

    /// Signs a message to a client: adds the challenge, and the signature if the address has a
    /// client (RFC 8489, section 9.2.4).
    ///
    /// If the server has no record of the address, the message is unchanged. Otherwise these
    /// attributes are added, in this order:
    ///
    /// - to a response, NONCE and REALM;
    /// - to a response to an address without a client, PASSWORD-ALGORITHMS, which lists the
    ///   supported algorithms. From then on, these count as the algorithms that this address was
    ///   offered, so send every message that you sign;
    /// - PASSWORD-ALGORITHM, if the client uses HMAC-SHA256;
    /// - MESSAGE-INTEGRITY or MESSAGE-INTEGRITY-SHA256, if the address has a client, under the key
    ///   that the user has now.
    ///
    /// Sign every response to a message that was `Validated`, whatever its error code: a client
    /// drops an unsigned response to a signed request, and waits until its request times out. Pass
    /// the 401 and the 438 of a refused request to this call too, because they need the nonce and
    /// the realm. Only the 400 that answers a `BadRequest` refusal is sent without this call.
    ///
    /// Add FINGERPRINT after this call, because it has to be the last attribute, and the call does
    /// not check whether the message has one already. The attributes are added one after another,
    /// and the call fails with the first error. The writer is then dropped, and the server is
    /// unchanged.
    ///
    /// - `MessageIntegrityExists`: the message is signed already.
    /// - `AttributeExists`: the message already has the attribute to add.
    /// - `TooLarge`: the message would be too long, or the realm has more than 763 bytes.
    /// - `TooSmall`: the writer has too little room.
    /// - `IntegrityFailed`: the user who is the client was removed, or no longer has a key for the
    ///   algorithm.
    /// - `OutOfMemory`: an allocation failed.
    pub fn sign_outgoing_message<W: MessageWrite>(
        &mut self,
        writer: W,
        to: SocketAddr,
    ) -> Result<W, StunWriteError>
        requires { BeginsWithHeader (W.bytes writer) }
        ensures answer { let response = is_response_class
            (class_in (W.bytes writer)) in
            UnlessMemory result (written_page W.bytes W.room result
            ≡ server_signed (sight self.old to) response (page_in W.bytes W.room writer))
            (WantsMemory (server_additions (sight self.old to) response)
            (page_in W.bytes W.room writer) (W.reserved writer)) }
        ensures granted { W.grants → UnlessMemory result ⊤ ⊥ }
        ensures grows { IfOk result (λ signed. length (W.bytes signed)
            ≡ length (W.bytes writer) + server_growth (sight self.old to)
            (is_response_class (class_in (W.bytes writer)))) }

        // Nothing is allocated for bytes that are reserved already.
        ensures succeeds { let response = is_response_class
            (class_in (W.bytes writer)) in
            IsSignableAtServer (sight self.old to) response (W.bytes writer) (W.room writer)
            → server_growth (sight self.old to) response ≤ W.reserved writer → IsOk result }

        // A signable message fails only for lack of memory.
        ensures signable { IsSignableAtServer (sight self.old to) (is_response_class
            (class_in (W.bytes writer))) (W.bytes writer) (W.room writer)
            → UnlessMemory result (IsOk result) ⊤ }
        ensures signed { OnOk result (self.new
            ≡ after_signing self.old to (is_response_class
            (class_in (W.bytes writer)))) }
        ensures refused { OnErr result (self.new ≡ self.old) }
    {
        // A law does nothing at run time. This one helps to prove the clause `succeeds`.
        sides_sign_what_is_signable();
        let mut writer = writer;
        let is_response = is_response(&writer);
        self.add_signature(&mut writer, to, is_response)?;
        if is_response {
            self.places.offer(to, self.realm.algorithms());
        }
        Ok(writer)
    }

    /// Signs a message like `sign_outgoing_message`. The caller must ensure that the message is
    /// signable.
    ///
    /// A signable message has no integrity attribute, no FINGERPRINT, and none of the attributes
    /// that signing adds. Its writer and its length field have room for the attributes to add. The
    /// realm has at most 763 bytes, and the client's user is still registered and has the key.
    ///
    /// Fails if an allocation fails. The server is then unchanged.
    pub fn sign_outgoing_message_unchecked<W: MessageWrite>(
        &mut self,
        writer: W,
        to: SocketAddr,
    ) -> Result<W, AllocError>
        requires header { BeginsWithHeader (W.bytes writer) }
        requires signable { IsSignableAtServer (sight self.old to)
            (is_response_class (class_in (W.bytes writer))) (W.bytes writer)
            (W.room writer) }
        ensures answer { IfOk result (λ signed. Ok (page_in W.bytes W.room signed)
            ≡ server_signed (sight self.old to)
            (is_response_class (class_in (W.bytes writer)))
            (page_in W.bytes W.room writer)) }
        ensures grows { IfOk result (λ signed. length (W.bytes signed)
            ≡ length (W.bytes writer) + server_growth (sight self.old to)
            (is_response_class (class_in (W.bytes writer)))) }

        // Nothing is allocated for bytes that are reserved already.
        ensures succeeds { server_growth (sight self.old to)
            (is_response_class (class_in (W.bytes writer))) ≤ W.reserved writer
            → IsOk result }
        ensures granted { W.grants → IsOk result }
        ensures signed { OnOk result (self.new
            ≡ after_signing self.old to (is_response_class
            (class_in (W.bytes writer)))) }
        ensures refused { OnErr result (self.new ≡ self.old) }
    {
        match self.sign_outgoing_message(writer, to) {
            Ok(signed) => Ok(signed),
            Err(_) => Err(AllocError),
        }
    }

    /// Adds to a message all attributes that signing adds for an address.
    fn add_signature<W: MessageWrite>(
        &self,
        writer: &mut W,
        to: SocketAddr,
        is_response: bool,
    ) -> Result<(), StunWriteError>
        requires { 20 ≤ length (W.bytes writer.old) }
        ensures signed { UnlessMemory result (outcome_of result (page_in W.bytes W.room writer.new)
            ≡ server_signed (sight self.now to) is_response (page_in W.bytes W.room writer.old))
            (WantsMemory (server_additions (sight self.now to) is_response)
            (page_in W.bytes W.room writer.old) (W.reserved writer.old)) }
        ensures granted { W.grants → UnlessMemory result ⊤ ⊥ }
        ensures short { IfSome (sight self.now to).place
            (λ (p : PlaceSeen). length p.nonce ≤ TEXT_LIMIT) }
    {
        match self.places.get(to) {
            Some(place) => self.sign_at(writer, place, is_response),
            None => Ok(()),
        }
    }

    /// Adds to a message all attributes that signing adds for an address with this record.
    fn sign_at<W: MessageWrite>(
        &self,
        writer: &mut W,
        place: &Place<A>,
        is_response: bool,
    ) -> Result<(), StunWriteError>
        requires { 20 ≤ length (W.bytes writer.old) }
        ensures outcome { UnlessMemory result (outcome_of result (page_in W.bytes W.room writer.new)
            ≡ signed_at is_response self.now.registered (Some (place_seen place.now))
            (page_in W.bytes W.room writer.old))
            (WantsMemory (additions_at is_response self.now.registered
            (Some (place_seen place.now))) (page_in W.bytes W.room writer.old)
            (W.reserved writer.old)) }
        ensures granted { W.grants → UnlessMemory result ⊤ ⊥ }
    {
        self.add_attributes(writer, place, is_response)?;
        match place.client() {
            Some(client) => self.add_digest(writer, client),
            None => Ok(()),
        }
    }

    /// Adds the attributes that precede the integrity attribute.
    fn add_attributes<W: MessageWrite>(
        &self,
        writer: &mut W,
        place: &Place<A>,
        is_response: bool,
    ) -> Result<(), StunWriteError>
        requires { 20 ≤ length (W.bytes writer.old) }
        ensures header { 20 ≤ length (W.bytes writer.new) }
        ensures added { IsAdded (attributes_for is_response self.now.registered
            (place_seen place.now).nonce (place_seen place.now).client)
            (page_in W.bytes W.room writer.old) (W.reserved writer.old) result
            (page_in W.bytes W.room writer.new) (W.reserved writer.new) }
        ensures granted { W.grants → UnlessMemory result ⊤ ⊥ }
    {
        if is_response {
            self.realm
                .add_nonce_and_realm(writer, place.nonce.as_str())?;
            self.add_algorithms(writer, place.client(), true)
        } else {
            self.add_algorithms(writer, place.client(), false)
        }
    }

    /// Adds PASSWORD-ALGORITHM with the algorithm of a client or, to a response without a client,
    /// PASSWORD-ALGORITHMS.
    fn add_algorithms<W: MessageWrite>(
        &self,
        writer: &mut W,
        client: Option<&ValidatedUser<A>>,
        is_response: bool,
    ) -> Result<(), StunWriteError>
        requires { 20 ≤ length (W.bytes writer.old) }
        ensures header { 20 ≤ length (W.bytes writer.new) }
        ensures added { IsAdded (algorithms_for is_response self.now.registered
            (option_map client_seen (option_copied client.entry)))
            (page_in W.bytes W.room writer.old) (W.reserved writer.old) result
            (page_in W.bytes W.room writer.new) (W.reserved writer.new) }
        ensures granted { W.grants → UnlessMemory result ⊤ ⊥ }
    {
        match client {
            Some(client) => add_named_algorithm(writer, client.algorithm),
            None => {
                if is_response {
                    self.realm.add_offer(writer)
                } else {
                    Ok(())
                }
            }
        }
    }

    /// Adds the integrity attribute with the signature under the key that the client's user has
    /// now.
    fn add_digest<W: MessageWrite>(
        &self,
        writer: &mut W,
        client: &ValidatedUser<A>,
    ) -> Result<(), StunWriteError>
        requires { 20 ≤ length (W.bytes writer.old) }
        ensures outcome { UnlessMemory result (outcome_of result (page_in W.bytes W.room writer.new)
            ≡ protected_for self.now.registered (Some (client_seen client.now))
            (page_in W.bytes W.room writer.old))
            (WantsMemory (digest_for self.now.registered (Some (client_seen client.now)))
            (page_in W.bytes W.room writer.old) (W.reserved writer.old)) }
        ensures granted { W.grants → UnlessMemory result ⊤ ⊥ }
    {
        match self.realm.key(client.name.as_str(), client.algorithm) {
            Some(key) => add_integrity(writer, key, client.algorithm),
            None => Err(StunWriteError::IntegrityFailed),
        }
    }

    /// Returns the number of bytes that signing adds to a message to an address with this record,
    /// at most 2^64 - 1.
    fn count_signature_bytes(&self, place: &Place<A>, is_response: bool) -> usize
        ensures { result ≡ min (growth_at is_response self.now.registered
            (Some (place_seen place.now))) (2 ^ 64 - 1) }
    {
        self.count_challenge_bytes(place.nonce.as_str(), is_response)
            .saturating_add(self.count_algorithms_bytes(place.client(), is_response))
            .saturating_add(count_protection_bytes(place.client()))
    }

    /// Returns the number of bytes of NONCE and REALM in a response, at most 2^64 - 1, or 0 for a
    /// request or an indication, which gets neither.
    fn count_challenge_bytes(&self, nonce: &str, is_response: bool) -> usize
        ensures { result ≡ min (growth (challenge is_response self.now.registered nonce.now))
            (2 ^ 64 - 1) }
    {
        if !is_response {
            return 0;
        }
        attribute_bytes(nonce.len()).saturating_add(attribute_bytes(self.realm.name().len()))
    }

    /// Returns the number of bytes that `add_algorithms` adds.
    fn count_algorithms_bytes(&self, client: Option<&ValidatedUser<A>>, is_response: bool) -> usize
        ensures { result ≡ growth (algorithms_for is_response self.now.registered
            (option_map client_seen (option_copied client.entry))) }
    {
        match client {
            Some(client) => count_named_bytes(client.algorithm),
            None => {
                if is_response {
                    self.realm.offer_bytes()
                } else {
                    0
                }
            }
        }
    }
}

/// Adds PASSWORD-ALGORITHM, unless the algorithm is HMAC-SHA1.
fn add_named_algorithm<W: MessageWrite>(
    writer: &mut W,
    algorithm: IntegrityAlgorithm,
) -> Result<(), StunWriteError>
    requires { 20 ≤ length (W.bytes writer.old) }
    ensures header { 20 ≤ length (W.bytes writer.new) }
    ensures added { IsAdded (named_algorithm algorithm)
        (page_in W.bytes W.room writer.old) (W.reserved writer.old) result
        (page_in W.bytes W.room writer.new) (W.reserved writer.new) }
    ensures granted { W.grants → UnlessMemory result ⊤ ⊥ }
{
    match algorithm {
        IntegrityAlgorithm::Sha1 => Ok(()),
        IntegrityAlgorithm::Sha256 => add(writer, AddedAttribute::PasswordAlgorithm(algorithm)),
    }
}

/// Returns the number of bytes that `add_named_algorithm` adds.
fn count_named_bytes(algorithm: IntegrityAlgorithm) -> usize
    ensures { result ≡ growth (named_algorithm algorithm) }
{
    match algorithm {
        IntegrityAlgorithm::Sha1 => 0,
        IntegrityAlgorithm::Sha256 => 8,
    }
}

/// Returns the number of bytes of the integrity attribute for a client, or 0 without a client.
fn count_protection_bytes<A: Allocator>(client: Option<&ValidatedUser<A>>) -> usize
    ensures { result ≡ protection_growth (option_map client_seen (option_copied client.entry)) }
{
    match client {
        Some(client) => integrity_bytes(client.algorithm),
        None => 0,
    }
}
