//! The answer to a check of the peer (RFC 8489, sections 6.3.1 and 9.1.3; RFC 8445, section 7.3).

ghost use Rattle.std.specs.Net.Socket.{socket_ip, socket_port};
ghost use Rattle.std.specs.Option.{option_map};
ghost use Rattle.std.specs.Prelude.{◌≡◌, ◌≤◌, [], IfOk, IsOk, None, OnOk, Some, length, codes};
ghost use Rattle.stun_extra.specs.Unknown.{IsRefused, refusing_answer};
ghost use Rattle.stun_types.specs.ErrorCode.{error_refusal};
ghost use Rattle.stun_types.specs.Writing.{IsOpen};
ghost use Rattle.stun_ice.specs.code.Answerable.{IsAnswerable};
ghost use Rattle.stun_ice.specs.Answers.{answer_of, conflict_answer, error_page, mapped_page};
ghost use Rattle.stun_ice.specs.Answers.{refused_answer, success_answer, with_end};
ghost use Rattle.stun_ice.specs.Answers.{with_signature};
ghost use Rattle.stun_ice.specs.Parts.{UNDERSTOOD as UNDERSTOOD_TYPES};

use crate::checker::Checker;
use crate::checker::judging::Verdict;
use crate::parts::UNDERSTOOD;
use crate::received::Refusal;
use std::net::SocketAddr;
use stun_base::header::HEADER_LENGTH;
use stun_base::memory::Memory;
use stun_buffer::writer::BufferWriter;
use stun_extra::canonical_address::mapped_address;
use stun_extra::fingerprint::{FINGERPRINT_LENGTH, finish_with_fingerprint};
use stun_extra::unknown::answer_unknown;
use stun_types::attribute::{AttributeType, ErrorCode, attribute_length};
use stun_types::message::{IntegrityAlgorithm, Message, StunWriteError};
use stun_types::prelude::*;

impl<A: Memory> Checker<A> {
    /// Writes the answer to a check that came from the address `from`, as the verdict on the check
    /// requires.
    pub(super) fn answer(
        &self,
        check: &Message<'_>,
        from: SocketAddr,
        verdict: Verdict,
        writer: BufferWriter<A>,
    ) -> Result<Vec<u8, A>, StunWriteError>
        requires { writer.bytes ≡ [] }
        ensures bytes { IfOk result (λ answer. answer.items
            ≡ answer_of self.now from check.now verdict) }
        ensures granted { A.grants → IsAnswerable check.now verdict → IsOk result }
    {
        match verdict {
            Verdict::Accepted(accepted) => self.write_success(
                check,
                from,
                accepted.algorithm,
                writer,
            ),
            Verdict::Conflict(algorithm) => self.write_conflict(check, algorithm, writer),
            Verdict::Refused(refusal, signature) => self.write_refusal(
                check, refusal, signature, writer,
            ),
        }
    }

    /// Writes the success response, and signs it with `algorithm`.
    fn write_success(
        &self,
        check: &Message<'_>,
        from: SocketAddr,
        algorithm: IntegrityAlgorithm,
        writer: BufferWriter<A>,
    ) -> Result<Vec<u8, A>, StunWriteError>
        requires { writer.bytes ≡ [] }
        ensures bytes { IfOk result (λ answer. answer.items
            ≡ success_answer self.now from check.now algorithm) }
        ensures granted { A.grants → IsOk result }
    {
        // One block of memory of this size is enough for the answer.
        let end = attribute_length(algorithm.digest_length()).saturating_add(FINGERPRINT_LENGTH);
        let page = make_mapped_page(check, from, end, writer)?;
        let answer = self.end(page, Some(algorithm))?;
        Ok(answer)
    }

    /// Writes the error response 487, and signs it with `algorithm`.
    fn write_conflict(
        &self,
        check: &Message<'_>,
        algorithm: IntegrityAlgorithm,
        writer: BufferWriter<A>,
    ) -> Result<Vec<u8, A>, StunWriteError>
        requires { writer.bytes ≡ [] }
        ensures bytes { IfOk result (λ answer. answer.items
            ≡ conflict_answer self.now check.now algorithm) }
        ensures granted { A.grants → IsOk result }
    {
        self.write_error(check, 487, "Role Conflict", Some(algorithm), writer)
    }

    /// Writes the error response to a check that is refused, and signs it if `signature` is an
    /// algorithm.
    fn write_refusal(
        &self,
        check: &Message<'_>,
        refusal: Refusal,
        signature: Option<IntegrityAlgorithm>,
        writer: BufferWriter<A>,
    ) -> Result<Vec<u8, A>, StunWriteError>
        requires { writer.bytes ≡ [] }
        ensures bytes { IfOk result (λ answer. answer.items
            ≡ refused_answer self.now check.now refusal signature) }
        ensures granted { A.grants → IsAnswerable check.now (Verdict.Refused refusal signature)
            → IsOk result }
    {
        match refusal {
            Refusal::BadRequest => self.write_error(check, 400, "Bad Request", signature, writer),
            Refusal::Unauthenticated => {
                self.write_error(check, 401, "Unauthenticated", signature, writer)
            }
            Refusal::UnknownAttribute => self.write_unknown(check, signature, writer),
        }
    }

    /// Writes an error response whose only attribute before its signature is ERROR-CODE, and signs
    /// it if `signature` is an algorithm.
    fn write_error(
        &self,
        check: &Message<'_>,
        code: u16,
        reason: &str,
        signature: Option<IntegrityAlgorithm>,
        writer: BufferWriter<A>,
    ) -> Result<Vec<u8, A>, StunWriteError>
        requires { writer.bytes ≡ [] }
        ensures bytes { IfOk result (λ answer. answer.items
            ≡ with_end self.now signature (error_page check.now code reason.now)) }
        ensures granted { A.grants
            → error_refusal (record { code = code; reason = reason.now }) ≡ None → IsOk result }
    {
        let page = make_error_page(check, code, reason, writer)?;
        let answer = self.end(page, signature)?;
        Ok(answer)
    }

    /// Writes the error response 420, with UNKNOWN-ATTRIBUTES, and signs it if `signature` is an
    /// algorithm.
    fn write_unknown(
        &self,
        check: &Message<'_>,
        signature: Option<IntegrityAlgorithm>,
        writer: BufferWriter<A>,
    ) -> Result<Vec<u8, A>, StunWriteError>
        requires { writer.bytes ≡ [] }
        ensures bytes { IfOk result (λ answer. answer.items
            ≡ with_end self.now signature (refusing_answer UNDERSTOOD_TYPES check.now)) }
        ensures granted { A.grants → IsRefused UNDERSTOOD_TYPES check.now → IsOk result }
    {
        let page = make_unknown_page(check, &UNDERSTOOD, writer)?;
        let answer = self.end(page, signature)?;
        Ok(answer)
    }

    /// Completes a response: signs it if `signature` is an algorithm, and adds FINGERPRINT.
    fn end(
        &self,
        page: BufferWriter<A>,
        signature: Option<IntegrityAlgorithm>,
    ) -> Result<Vec<u8, A>, StunWriteError>
        requires { 20 ≤ length page.bytes }
        ensures bytes { IfOk result (λ answer. answer.items
            ≡ with_end self.now signature page.bytes) }
        ensures granted { A.grants → IsOpen page.bytes → length page.bytes ≤ 60000 → IsOk result }
    {
        let mut page = page;
        self.add_signature(&mut page, signature)?;
        finish_with_fingerprint(page)
    }

    /// Signs a response, if `signature` is an algorithm.
    fn add_signature(
        &self,
        page: &mut BufferWriter<A>,
        signature: Option<IntegrityAlgorithm>,
    ) -> Result<(), StunWriteError>
        requires { 20 ≤ length page.old.bytes }
        ensures bytes { OnOk result (page.new.bytes
            ≡ with_signature self.now signature page.old.bytes) }
        ensures header { OnOk result (20 ≤ length page.new.bytes) }
        ensures granted { A.grants → IsOpen page.old.bytes → length page.old.bytes ≤ 60000
            → IsOk result }
    {
        match signature {
            Some(algorithm) => {
                page.add_message_integrity_with_prepared_key(&self.password, algorithm)
            }
            None => Ok(()),
        }
    }
}

/// Begins a success response with the address that a check came from, and reserves `more` bytes for
/// the attributes that follow.
fn make_mapped_page<A: Memory>(
    check: &Message<'_>,
    from: SocketAddr,
    more: usize,
    writer: BufferWriter<A>,
) -> Result<BufferWriter<A>, StunWriteError>
    requires { writer.bytes ≡ [] }
    ensures bytes { IfOk result (λ page. page.bytes ≡ mapped_page from check.now) }
    ensures header { IfOk result (λ page. 20 ≤ length page.bytes) }
    ensures open { IfOk result (λ page. IsOpen page.bytes) }
    ensures short { IfOk result (λ page. length page.bytes ≤ 60000) }
    ensures granted { A.grants → more ≤ 5000 → IsOk result }
{
    let address = mapped_address(from, check.transaction_id());
    let length = HEADER_LENGTH.saturating_add(address.padded_len());
    let mut writer = writer;
    writer.reserve(length.saturating_add(more))?;
    let mut page = Message::builder_success(check, writer)?;
    page.add_attribute(&address)?;
    Ok(page)
}

/// Begins an error response with a code and a reason phrase.
fn make_error_page<A: Memory>(
    check: &Message<'_>,
    code: u16,
    reason: &str,
    writer: BufferWriter<A>,
) -> Result<BufferWriter<A>, StunWriteError>
    requires { writer.bytes ≡ [] }
    ensures bytes { IfOk result (λ page. page.bytes ≡ error_page check.now code reason.now) }
    ensures header { IfOk result (λ page. 20 ≤ length page.bytes) }
    ensures open { IfOk result (λ page. IsOpen page.bytes) }
    ensures short { IfOk result (λ page. length page.bytes ≤ 60000) }
    ensures granted { A.grants
        → error_refusal (record { code = code; reason = reason.now }) ≡ None → IsOk result }
{
    let error = ErrorCode::builder(code).reason(reason).build()?;
    let mut page = Message::builder_error(check, writer)?;
    page.add_attribute(&error)?;
    Ok(page)
}

/// Begins the error response 420 to a check with attributes that are not understood.
fn make_unknown_page<A: Memory>(
    check: &Message<'_>,
    known: &[AttributeType],
    writer: BufferWriter<A>,
) -> Result<BufferWriter<A>, StunWriteError>
    requires { writer.bytes ≡ [] }
    ensures bytes { IfOk result (λ page. page.bytes ≡ refusing_answer known.now check.now) }
    ensures header { IfOk result (λ page. 20 ≤ length page.bytes) }
    ensures open { IfOk result (λ page. IsOpen page.bytes) }
    ensures short { IfOk result (λ page. length page.bytes ≤ 60000) }
    ensures granted { A.grants → IsRefused known.now check.now → IsOk result }
{
    // For the proof: the contract of `as_bytes` limits the length of a message, and with it the
    // number of its attributes.
    let _bytes = check.as_bytes();
    match answer_unknown(check, known, writer) {
        Ok(Some(page)) => Ok(page),
        // This is never reached, because the check has an attribute that is not understood.
        Ok(None) => Err(StunWriteError::NotAllowed),
        Err(error) => Err(error),
    }
}
