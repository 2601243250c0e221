//! What each response of a server ends with: SOFTWARE, the integrity attribute and FINGERPRINT (RFC
//! 8489, sections 14.14, 14.5, 14.6 and 14.7).

ghost use Rattle.std.specs.Prelude.{◌≡◌, ◌≤◌, ◌⊎◌, [], Some, None, IfErr, IfOk, IsOk, OnOk};
ghost use Rattle.std.specs.Prelude.{length, unwrap_or};
ghost use Rattle.std.specs.Option.{option_map};
ghost use Rattle.std.specs.String.{string_bytes};
ghost use Rattle.stun_base.specs.Algorithm.{digest_length};
ghost use Rattle.stun_types.specs.Attribute.{attribute_length};
ghost use Rattle.stun_types.specs.Limits.{TEXT_LIMIT};
ghost use Rattle.stun_types.specs.Message.{IsMessage};
ghost use Rattle.stun_types.specs.Writing.{IsOpen, RefusedBy};
ghost use Rattle.stun_endpoint.specs.Answers.{VerifiesBy, with_end, with_signature, with_software};
ghost use Rattle.stun_endpoint.specs.Ended.{finish_refusal, refused_signature, refused_software};

use std::alloc::Allocator;
use std::marker::Model;
use stun_base::memory::Memory;
use stun_base::prepared_key::PreparedKey;
use stun_buffer::writer::BufferWriter;
use stun_extra::attribute::Software;
use stun_extra::fingerprint::{FINGERPRINT_LENGTH, finish_with_fingerprint};
use stun_types::attribute::attribute_length;
use stun_types::message::{IntegrityAlgorithm, StunWriteError};
use stun_types::prelude::*;

/// The algorithm and the key that a response is signed with.
///
/// Contracts: the value is a record of both.
#[derive(Drop)]
pub(crate) struct Signature<A: Allocator> {
    algorithm: IntegrityAlgorithm,
    key: PreparedKey<A>,
}

impl<A: Allocator> Model for Signature<A> {
    ghost use Rattle.stun_endpoint.specs.Answers.{Signature as SignatureSeen};

    ghost Value = { SignatureSeen };

    ghost view = { λ by. record { algorithm = by.algorithm; key = by.key } };
}

impl<A: Allocator> Signature<A> {
    pub(crate) fn new(algorithm: IntegrityAlgorithm, key: PreparedKey<A>) -> Self
        ensures { result ≡ record { algorithm = algorithm; key = key } }
    {
        Signature { algorithm, key }
    }

    /// Returns the algorithm.
    pub(crate) fn algorithm(&self) -> IntegrityAlgorithm
        ensures { result ≡ self.now.algorithm }
    {
        self.algorithm
    }

    /// Returns the key.
    pub(crate) fn key(&self) -> &PreparedKey<A>
        ensures { result.now ≡ self.now.key }
    {
        &self.key
    }

    /// Returns the number of bytes of the integrity attribute, with its header.
    fn length(&self) -> usize
        ensures { result ≡ attribute_length (digest_length self.now.algorithm) }
    {
        attribute_length(self.algorithm.digest_length())
    }
}

/// What a response ends with: SOFTWARE if there is a text for it, the integrity attribute if the
/// response is signed, and FINGERPRINT if the request has it.
///
/// Contracts: the value is a record of the three.
#[derive(Drop)]
pub(crate) struct Ending<'r, A: Allocator> {
    software: &'r Option<String<A>>,
    signature: &'r Option<Signature<A>>,
    has_fingerprint: bool,
}

impl<'r, A: Allocator> Model for Ending<'r, A> {
    ghost use Rattle.std.specs.Option.{option_map};
    ghost use Rattle.std.specs.Prelude.{◌≤◌, [], length, unwrap_or};
    ghost use Rattle.std.specs.String.{string_bytes};
    ghost use Rattle.stun_types.specs.Limits.{TEXT_LIMIT};
    ghost use Rattle.stun_endpoint.specs.Answers.{Ending as EndingSeen};

    ghost Value = { EndingSeen };

    ghost view = { λ ending. record {
      software = option_map string_bytes ending.software.now;
      signature = ending.signature.now;
      has_fingerprint = ending.has_fingerprint;
    } };

    // SOFTWARE fits into a response.
    ghost invariant = { λ ending.
        length (unwrap_or (option_map string_bytes ending.software.now) []) ≤ TEXT_LIMIT };
}

impl<'r, A: Allocator> Ending<'r, A> {
    /// Creates the end of a response from its three parts.
    pub(crate) fn new(
        software: &'r Option<String<A>>,
        signature: &'r Option<Signature<A>>,
        has_fingerprint: bool,
    ) -> Self
        requires { length (unwrap_or (option_map string_bytes software.now) []) ≤ TEXT_LIMIT }
        ensures { result ≡ record {
          software = option_map string_bytes software.now;
          signature = signature.now;
          has_fingerprint = has_fingerprint;
        } }
    {
        Ending {
            software,
            signature,
            has_fingerprint,
        }
    }

    /// Returns how many bytes `finish` adds to a response. The memory for them is reserved before
    /// the response is written, so that it takes one allocation. If less memory were reserved, the
    /// response would have the same bytes, but take two allocations.
    pub(crate) fn length(&self) -> usize
        ensures { result ≤ 812 }
    {
        let software = match self.software {
            Some(text) => attribute_length(text.len()),
            None => 0,
        };
        let integrity = match self.signature {
            Some(by) => by.length(),
            None => 0,
        };
        let fingerprint = if self.has_fingerprint {
            FINGERPRINT_LENGTH
        } else {
            0
        };
        software
            .saturating_add(integrity)
            .saturating_add(fingerprint)
    }
}

impl<'r, A: Memory> Ending<'r, A> {
    /// Ends a response: adds SOFTWARE, the integrity attribute and FINGERPRINT, as far as the
    /// response has them. Fails with the error of the first attribute that cannot be added.
    #[tactic(auto, using(crate::proofs::VerifyingLemmas::verifies_by_same))]
    pub(crate) fn finish(&self, page: BufferWriter<A>) -> Result<Vec<u8, A>, StunWriteError>
        requires { 20 ≤ length page.bytes }
        ensures bytes { IfOk result (λ response. response.items ≡ with_end self.now page.bytes) }
        ensures verifies { IfOk result (λ response. IsOpen page.bytes
            → VerifiesBy self.now.signature response.items) }
        ensures ok { OnOk result (finish_refusal self.now page.bytes ≡ None) }
        ensures refused { IfErr result (λ why. (why ≡ StunWriteError.OutOfMemory)
            ⊎ (finish_refusal self.now page.bytes ≡ Some why)) }
        ensures granted { A.grants → finish_refusal self.now page.bytes ≡ None → IsOk result }
    {
        let mut page = page;
        add_software(&mut page, self.software)?;
        add_signature(&mut page, self.signature)?;
        if self.has_fingerprint {
            let response = finish_with_fingerprint(page)?;
            Ok(response)
        } else {
            Ok(page.finish())
        }
    }
}

/// Adds SOFTWARE with the text `software`. Does nothing if there is no text.
fn add_software<A: Memory>(
    page: &mut BufferWriter<A>,
    software: &Option<String<A>>,
) -> Result<(), StunWriteError>
    requires { 20 ≤ length page.old.bytes }
    ensures bytes { OnOk result (page.new.bytes
        ≡ with_software (option_map string_bytes software.now) page.old.bytes) }
    ensures refused { RefusedBy (refused_software (option_map string_bytes software.now)
        page.old.bytes) result }
    ensures header { OnOk result (20 ≤ length page.new.bytes) }
    ensures open { OnOk result (IsOpen page.old.bytes → IsOpen page.new.bytes) }
    ensures granted { A.grants → refused_software (option_map string_bytes software.now)
        page.old.bytes ≡ None → IsOk result }
{
    match software {
        Some(text) => page.add_attribute(&Software::new(text.as_str())?),
        None => Ok(()),
    }
}

/// Adds the integrity attribute. Does nothing if the response is not signed.
fn add_signature<A: Memory>(
    page: &mut BufferWriter<A>,
    signature: &Option<Signature<A>>,
) -> Result<(), StunWriteError>
    requires { 20 ≤ length page.old.bytes }
    ensures bytes { OnOk result (page.new.bytes ≡ with_signature signature.now page.old.bytes) }
    ensures refused { RefusedBy (refused_signature signature.now page.old.bytes) result }
    ensures header { OnOk result (20 ≤ length page.new.bytes) }
    ensures message { OnOk result (IsOpen page.old.bytes → IsMessage page.new.bytes) }
    ensures verifies { OnOk result (IsOpen page.old.bytes
        → VerifiesBy signature.now page.new.bytes) }
    ensures granted { A.grants → refused_signature signature.now page.old.bytes ≡ None
        → IsOk result }
{
    match signature {
        Some(by) => page.add_message_integrity_with_prepared_key(&by.key, by.algorithm),
        None => Ok(()),
    }
}
