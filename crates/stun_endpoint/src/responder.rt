//! The part that all kinds of servers share: it reads datagrams, knows which attributes are
//! understood, and writes some of the responses (RFC 8489, sections 6.3 and 14.8).

ghost use Rattle.std.specs.Option.{option_map};
ghost use Rattle.std.specs.Prelude.{◌≡◌, ◌≤◌, ◌++◌, ◌&&◌, [], Err, IfOk, IsOk, IsOkUnless};
ghost use Rattle.std.specs.Prelude.{MatchOption, None, Some, false, length};
ghost use Rattle.std.specs.Prelude.{unwrap_or};
ghost use Rattle.std.specs.String.{string_bytes};
ghost use Rattle.stun_endpoint.specs.Answers.{is_fingerprinted, with_end};
ghost use Rattle.stun_endpoint.specs.Built.{software_refusal};
ghost use Rattle.stun_endpoint.specs.Responding.{binding_by, drop_reason, is_binding};
ghost use Rattle.stun_endpoint.specs.Responding.{is_empty, own_answer, refusal_by};
ghost use Rattle.stun_endpoint.specs.Responding.{reply_by, unknown_by};
ghost use Rattle.stun_endpoint.specs.code.Arriving.{IsByClass, dropped_in};
ghost use Rattle.stun_endpoint.specs.code.Room.{IsEndable};
ghost use Rattle.stun_extra.specs.Unknown.{refusing_answer, unknown_types};
ghost use Rattle.stun_types.specs.Limits.{TEXT_LIMIT};
ghost use Rattle.stun_base.specs.MessageType.{class_in};
ghost use Rattle.stun_base.specs.declared.wire.message_type.MessageClass.TheVariants.{Request};

use crate::arrived::Arrived;
use crate::ending::{Ending, Signature};
use crate::pages::{begin_error_page, begin_mapped_page, make_writer};
use crate::received::{Answer, Refusal};
use crate::reply::Reply;
use crate::server::{BuildError, STUN_ATTRIBUTES};
use crate::understood::are_understood;
use std::alloc::{AllocError, Allocator, Global};
use std::marker::Model;
use std::net::SocketAddr;
use stun_base::attribute_type::AttributeType;
use stun_base::memory::Memory;
use stun_buffer::writer::BufferWriter;
use stun_extra::unknown::answer_unknown;
use stun_types::limits::TEXT_LIMIT;
use stun_types::message::{BINDING, Message};
use stun_types::prelude::*;

/// The number of bytes of the attributes with which a 420 begins: ERROR-CODE, and
/// UNKNOWN-ATTRIBUTES with one or two types. More types may cost a second allocation.
const UNKNOWN_LENGTH: usize = 36;

/// The settings of a server without a realm: what it understands, and what it adds to its
/// responses. With the settings that `new` returns, the server understands no further attributes,
/// adds no SOFTWARE, and returns Binding requests to you.
#[derive(Drop)]
pub struct ResponseSettings<A: Allocator = Global> {
    /// The types of attributes that you understand, in addition to `STUN_ATTRIBUTES`.
    pub understood: Vec<AttributeType, A>,
    /// The text of SOFTWARE in each response, which has at most 763 bytes (RFC 8489, section
    /// 14.14).
    pub software: Option<String<A>>,
    /// Whether the server itself responds to each accepted Binding request.
    pub answers_binding: bool,
    /// Whether a message without FINGERPRINT is dropped (RFC 8489, section 7.3).
    pub requires_fingerprint: bool,
}

impl<A: Allocator> ResponseSettings<A> {
    /// Returns settings without further attributes and without SOFTWARE, with which the server
    /// returns Binding requests to you and requires no FINGERPRINT.
    pub fn new(alloc: A) -> ResponseSettings<A>
        ensures understood { result.understood.items ≡ [] }
        ensures software { result.software ≡ None }
        ensures binding { result.answers_binding ≡ false }
        ensures fingerprint { result.requires_fingerprint ≡ false }
    {
        ResponseSettings {
            understood: Vec::new(alloc),
            software: None,
            answers_binding: false,
            requires_fingerprint: false,
        }
    }
}

/// What a server understands, and what it adds to its responses.
#[derive(Drop)]
pub(crate) struct Responder<A: Allocator> {
    alloc: A,
    known: Vec<AttributeType, A>,
    software: Option<String<A>>,
    answers_binding: bool,
    requires_fingerprint: bool,
}

impl<A: Allocator> Model for Responder<A> {
    ghost use Rattle.std.specs.Option.{option_map};
    ghost use Rattle.std.specs.Prelude.{◌≤◌, [], length, unwrap_or};
    ghost use Rattle.std.specs.String.{string_bytes};
    ghost use Rattle.stun_types.specs.Limits.{TEXT_LIMIT};
    ghost use Rattle.stun_endpoint.specs.Responding.{Responding};

    ghost Value = { Responding };

    ghost view = { λ responder. record {
      known = responder.known.items;
      software = option_map string_bytes responder.software;
      answers_binding = responder.answers_binding;
      requires_fingerprint = responder.requires_fingerprint;
    } };

    // SOFTWARE fits into a response.
    ghost invariant = { λ responder.
        length (unwrap_or (option_map string_bytes responder.software) []) ≤ TEXT_LIMIT };
}

impl<A: Memory> Responder<A> {
    /// Creates a responder with these settings. Fails with `SoftwareTooLong` if the text of
    /// SOFTWARE has more than 763 bytes, and otherwise with `OutOfMemory` if an allocation fails.
    pub(crate) fn new(alloc: A, settings: ResponseSettings<A>) -> Result<Responder<A>, BuildError>
        ensures refused { MatchOption (software_refusal (option_map string_bytes settings.software))
            (IsOkUnless result BuildError.OutOfMemory) (λ refusal. result ≡ Err refusal) }
        ensures built { IfOk result (λ responder. responder ≡ record {
          known = settings.understood.items ++ STUN_ATTRIBUTES;
          software = option_map string_bytes settings.software;
          answers_binding = settings.answers_binding;
          requires_fingerprint = settings.requires_fingerprint;
        }) }
        ensures granted { A.grants
            → software_refusal (option_map string_bytes settings.software) ≡ None → IsOk result }
    {
        if count_text_bytes(&settings.software) > TEXT_LIMIT {
            return Err(BuildError::SoftwareTooLong);
        }
        match with_stun_attributes(settings.understood) {
            Ok(known) => Ok(Responder::of(
                alloc,
                known,
                settings.software,
                settings.answers_binding,
                settings.requires_fingerprint,
            )),
            Err(_) => Err(BuildError::OutOfMemory),
        }
    }
}

impl<A: Allocator> Responder<A> {
    /// Creates a responder from its parts. `known` has the types of all attributes that the server
    /// understands.
    pub(crate) fn of(
        alloc: A,
        known: Vec<AttributeType, A>,
        software: Option<String<A>>,
        answers_binding: bool,
        requires_fingerprint: bool,
    ) -> Responder<A>
        requires { length (unwrap_or (option_map string_bytes software) []) ≤ TEXT_LIMIT }
        ensures { result ≡ record {
          known = known.items;
          software = option_map string_bytes software;
          answers_binding = answers_binding;
          requires_fingerprint = requires_fingerprint;
        } }
    {
        Responder {
            alloc,
            known,
            software,
            answers_binding,
            requires_fingerprint,
        }
    }

    /// Reads a datagram. If the settings require a FINGERPRINT, a datagram without one is dropped.
    pub(crate) fn read<'a>(&self, bytes: &'a [u8]) -> Arrived<'a>
        ensures dropped { drop_reason self.now.requires_fingerprint bytes.now
            ≡ dropped_in result }
        ensures class { IsByClass bytes.now result }
    {
        Arrived::read(bytes, self.requires_fingerprint)
    }

    /// Returns whether a message without FINGERPRINT is dropped.
    pub(crate) fn requires_fingerprint(&self) -> bool
        ensures { result ≡ self.now.requires_fingerprint }
    {
        self.requires_fingerprint
    }

    /// Returns whether the server understands the visible attributes of a message: it knows each
    /// type that is comprehension-required (below 0x8000).
    pub(crate) fn understands(&self, message: &Message<'_>) -> bool
        ensures { result ≡ is_empty (unknown_types self.now.known message.now) }
    {
        are_understood(self.known.as_slice(), message)
    }

    /// Returns whether the server itself answers a request.
    fn answers(&self, message: &Message<'_>) -> bool
        ensures { result ≡ (self.now.answers_binding && is_binding message.now) }
    {
        self.answers_binding && message.method() == BINDING
    }
}

impl<A: Memory> Responder<A> {
    /// Returns an empty buffer for a response.
    pub(crate) fn make_buffer(&self) -> Vec<u8, A>
        ensures { result.items ≡ [] }
    {
        Vec::new(self.alloc)
    }

    /// Writes the response to an accepted request: a 420 if the request has attributes that are not
    /// understood, or a success if the server answers Binding requests and this is one. Returns
    /// `None` if neither applies.
    pub(crate) fn write_own_answer(
        &self,
        request: &Message<'_>,
        from: SocketAddr,
        signature: &Option<Signature<A>>,
        has_fingerprint: bool,
        buffer: &mut Vec<u8, A>,
    ) -> Result<Option<Answer<A>>, AllocError>
        requires fingerprint { has_fingerprint ≡ is_fingerprinted request.now }
        requires request { class_in request.now ≡ Request }
        ensures answer { IfOk result (λ answer. answer
            ≡ own_answer self.now signature.now from request.now) }
        ensures granted { A.grants → IsOk result }
    {
        if !self.understands(request) {
            let answer = self.write_unknown_answer(
                request,
                from,
                signature,
                has_fingerprint,
                buffer,
            )?;
            return Ok(Some(answer));
        }
        if self.answers(request) {
            let answer = self.write_binding_answer(
                request,
                from,
                signature,
                has_fingerprint,
                buffer,
            )?;
            return Ok(Some(answer));
        }
        Ok(None)
    }

    /// Returns the handle with which you respond to an accepted request.
    pub(crate) fn make_reply(
        &self,
        request: &Message<'_>,
        from: SocketAddr,
        signature: Option<Signature<A>>,
        has_fingerprint: bool,
    ) -> Result<Reply<A>, AllocError>
        requires { has_fingerprint ≡ is_fingerprinted request.now }
        ensures reply { IfOk result (λ reply. reply
            ≡ reply_by self.now signature from request.now) }
        ensures granted { A.grants → IsOk result }
    {
        let software = self.copy_software()?;
        Ok(Reply::new(
            self.alloc,
            request,
            from,
            software,
            signature,
            has_fingerprint,
        ))
    }

    /// Writes an error response that is not signed.
    #[tactic(auto, unfolding(crate::specs::Responding::refusal_by))]
    pub(crate) fn write_refusal(
        &self,
        request: &Message<'_>,
        from: SocketAddr,
        refusal: Refusal,
        has_fingerprint: bool,
        buffer: &mut Vec<u8, A>,
    ) -> Result<Answer<A>, AllocError>
        requires { has_fingerprint ≡ is_fingerprinted request.now }
        ensures answer { IfOk result (λ answer. answer
            ≡ refusal_by self.now refusal from request.now) }
        ensures granted { A.grants → IsOk result }
    {
        let more = self.count_end_bytes(&None, has_fingerprint);
        let page = begin_error_page(buffer, request, refusal.code(), refusal.phrase(), more)?;
        let bytes = self.end(page, &None, has_fingerprint)?;
        Ok(Answer::new(from, Some(refusal), bytes))
    }

    /// Ends a response: adds SOFTWARE if the settings have a text for it, the integrity attribute
    /// if `signature` is not `None`, and FINGERPRINT if `has_fingerprint` is true.
    pub(crate) fn end(
        &self,
        page: BufferWriter<A>,
        signature: &Option<Signature<A>>,
        has_fingerprint: bool,
    ) -> Result<Vec<u8, A>, AllocError>
        requires { 20 ≤ length page.bytes }
        ensures bytes { IfOk result (λ response. response.items ≡ with_end (record {
          software = self.now.software;
          signature = signature.now;
          has_fingerprint = has_fingerprint;
        }) page.bytes) }
        ensures granted { A.grants → IsEndable page.bytes → IsOk result }
    {
        match Ending::new(&self.software, signature, has_fingerprint).finish(page) {
            Ok(response) => Ok(response),
            // The settings ensure that these attributes fit into a response, so an allocation has
            // failed.
            Err(_) => Err(AllocError),
        }
    }

    /// Returns how many bytes `end` adds to a response.
    pub(crate) fn count_end_bytes(
        &self,
        signature: &Option<Signature<A>>,
        has_fingerprint: bool,
    ) -> usize
        ensures { result ≤ 812 }
    {
        Ending::new(&self.software, signature, has_fingerprint).length()
    }

    /// Returns a copy of the text of SOFTWARE, or `None` if there is none.
    fn copy_software(&self) -> Result<Option<String<A>>, AllocError>
        ensures copy { IfOk result (λ copy. option_map string_bytes copy ≡ self.now.software) }
        ensures short { IfOk result (λ copy.
            length (unwrap_or (option_map string_bytes copy) []) ≤ TEXT_LIMIT) }
        ensures granted { A.grants → IsOk result }
    {
        match &self.software {
            Some(text) => Ok(Some(A::text(self.alloc, text.as_str())?)),
            None => Ok(None),
        }
    }

    /// Writes the 420 response to an accepted request.
    #[tactic(auto, unfolding(crate::specs::Responding::unknown_by))]
    fn write_unknown_answer(
        &self,
        request: &Message<'_>,
        from: SocketAddr,
        signature: &Option<Signature<A>>,
        has_fingerprint: bool,
        buffer: &mut Vec<u8, A>,
    ) -> Result<Answer<A>, AllocError>
        requires fingerprint { has_fingerprint ≡ is_fingerprinted request.now }
        requires request { class_in request.now ≡ Request }
        requires unknown { is_empty (unknown_types self.now.known request.now) ≡ false }
        ensures answer { IfOk result (λ answer. answer
            ≡ unknown_by self.now signature.now from request.now) }
        ensures granted { A.grants → IsOk result }
    {
        let more = self.count_end_bytes(signature, has_fingerprint);
        let page = self.begin_unknown_page(request, more, buffer)?;
        let bytes = self.end(page, signature, has_fingerprint)?;
        Ok(Answer::new(from, Some(Refusal::UnknownAttribute), bytes))
    }

    /// Begins the 420 response to a request, and reserves `more` bytes for the attributes that
    /// `end` adds.
    fn begin_unknown_page(
        &self,
        request: &Message<'_>,
        more: usize,
        buffer: &mut Vec<u8, A>,
    ) -> Result<BufferWriter<A>, AllocError>
        requires request { class_in request.now ≡ Request }
        requires unknown { is_empty (unknown_types self.now.known request.now) ≡ false }
        ensures bytes { IfOk result (λ page. page.bytes
            ≡ refusing_answer self.now.known request.now) }
        ensures header { IfOk result (λ page. 20 ≤ length page.bytes) }
        ensures room { IfOk result (λ page. IsEndable page.bytes) }
        ensures granted { A.grants → more ≤ 5000 → IsOk result }
    {
        let Ok(writer) = make_writer(buffer, UNKNOWN_LENGTH.saturating_add(more)) else {
            return Err(AllocError);
        };
        write_unknown_page(request, self.known.as_slice(), writer)
    }

    /// Writes the success response to an accepted Binding request.
    #[tactic(auto, unfolding(crate::specs::Responding::binding_by))]
    fn write_binding_answer(
        &self,
        request: &Message<'_>,
        from: SocketAddr,
        signature: &Option<Signature<A>>,
        has_fingerprint: bool,
        buffer: &mut Vec<u8, A>,
    ) -> Result<Answer<A>, AllocError>
        requires { has_fingerprint ≡ is_fingerprinted request.now }
        ensures answer { IfOk result (λ answer. answer
            ≡ binding_by self.now signature.now from request.now) }
        ensures granted { A.grants → IsOk result }
    {
        let more = self.count_end_bytes(signature, has_fingerprint);
        let page = begin_mapped_page(buffer, request, from, more)?;
        let bytes = self.end(page, signature, has_fingerprint)?;
        Ok(Answer::new(from, None, bytes))
    }
}

/// Writes the 420 response to a request into an empty writer, without the attributes that `end`
/// adds.
fn write_unknown_page<A: Memory>(
    request: &Message<'_>,
    known: &[AttributeType],
    writer: BufferWriter<A>,
) -> Result<BufferWriter<A>, AllocError>
    requires empty { writer.bytes ≡ [] }
    requires request { class_in request.now ≡ Request }
    requires unknown { is_empty (unknown_types known.now request.now) ≡ false }
    ensures bytes { IfOk result (λ page. page.bytes ≡ refusing_answer known.now request.now) }
    ensures header { IfOk result (λ page. 20 ≤ length page.bytes) }
    ensures room { IfOk result (λ page. IsEndable page.bytes) }
    ensures granted { A.grants → IsOk result }
{
    // For the proof alone: the length of the message bounds the number of its attributes.
    let _bytes = request.as_bytes();
    match answer_unknown(request, known, writer) {
        Ok(Some(page)) => Ok(page),
        // This is never reached, because there is an attribute that is not understood.
        Ok(None) => Err(AllocError),
        Err(_) => Err(AllocError),
    }
}

/// Returns the number of bytes of a text, or 0 if there is none.
pub(crate) fn count_text_bytes<A: Allocator>(text: &Option<String<A>>) -> usize
    ensures { result ≡ length (unwrap_or (option_map string_bytes text.now) []) }
{
    match text {
        Some(text) => text.len(),
        None => 0,
    }
}

/// Returns the types in `understood`, followed by `STUN_ATTRIBUTES`.
pub(crate) fn with_stun_attributes<A: Memory>(
    understood: Vec<AttributeType, A>,
) -> Result<Vec<AttributeType, A>, AllocError>
    ensures known { IfOk result (λ known. known.items ≡ understood.items ++ STUN_ATTRIBUTES) }
    ensures granted { A.grants → IsOk result }
{
    let mut known = understood;
    A::reserve(&mut known, STUN_ATTRIBUTES.len())?;
    known.extend_from_slice(&STUN_ATTRIBUTES)?;
    Ok(known)
}
