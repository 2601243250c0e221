//! The handle with which you respond to a request, at once or later.

ghost use Rattle.std.specs.Prelude.{◌≡◌, ◌≤◌, ◌⊎◌, [], Err, Some, None, IfErr, IfOk};
ghost use Rattle.std.specs.Prelude.{IsOk, IsOkUnless, MatchOption, OnOk, length, codes, unwrap_or};
ghost use Rattle.std.specs.Fmt.{WritesOnOk, WritesStyledOnOk};
ghost use Rattle.std.specs.Option.{option_map, option_map_or};
ghost use Rattle.std.specs.String.{string_bytes};
ghost use Rattle.stun_base.specs.Header.{transaction_id_field, type_field};
ghost use Rattle.stun_base.specs.MessageType.{method_of};
ghost use Rattle.stun_types.specs.ErrorCode.{error_refusal};
ghost use Rattle.stun_types.specs.Limits.{TEXT_LIMIT};
ghost use Rattle.stun_types.specs.Walk.{walk};
ghost use Rattle.stun_types.specs.Writing.{IsOpen, empty_message, with_attribute};
ghost use Rattle.stun_endpoint.specs.Answers.{Signature as SignatureSeen, VerifiesBy, with_end};
ghost use Rattle.stun_endpoint.specs.Ended.{finish_refusal};
ghost use Rattle.stun_extra.specs.Errors.{error_code_attribute};

use crate::ending::{Ending, Signature};
use std::alloc::{AllocError, Allocator, Global};
use std::fmt;
use std::marker::Model;
use std::net::SocketAddr;
use stun_base::memory::Memory;
use stun_buffer::writer::BufferWriter;
use stun_types::attribute::ErrorCode;
use stun_types::message::{
    IntegrityAlgorithm, Message, MessageClass, MessageType, MessageWriteVec, Method,
    StunWriteError, TransactionId,
};
use stun_types::prelude::*;

/// A handle with which you respond to one accepted request, now or later, on any thread, without
/// the server.
///
/// A response has the request's method and transaction ID. It is signed with the key of the user
/// who sent the request, even if it is an error, and has the integrity attribute that the request
/// has. It ends with FINGERPRINT if the request does. Respond to each request at least once,
/// because the client retransmits it until then.
///
/// `success` or `error` begins a response, to which you add attributes, and `finish` ends it.
///
/// Contracts: a reply is a record of the method, the transaction ID, the destination, and what each
/// response ends with. A reply contains a key, so `Debug` shows none of it.
#[derive(Drop)]
pub struct Reply<A: Allocator = Global> {
    alloc: A,
    method: Method,
    id: TransactionId,
    to: SocketAddr,
    software: Option<String<A>>,
    signature: Option<Signature<A>>,
    has_fingerprint: bool,
}

impl<A: Allocator> Model for Reply<A> {
    ghost use Rattle.std.specs.Option.{option_map};
    ghost use Rattle.std.specs.Prelude.{◌≤◌, [], length, unwrap_or};
    ghost use Rattle.std.specs.String.{string_bytes};
    ghost use Rattle.stun_types.specs.Limits.{TEXT_LIMIT};
    ghost use Rattle.stun_endpoint.specs.Received.{Reply as ReplySeen};

    ghost Value = { ReplySeen };

    ghost view = { λ reply. record {
      method = reply.method;
      id = reply.id;
      to = reply.to;
      ending = record {
        software = option_map string_bytes reply.software;
        signature = reply.signature;
        has_fingerprint = reply.has_fingerprint;
      };
    } };

    // SOFTWARE fits into a response.
    ghost invariant = { λ reply.
        length (unwrap_or (option_map string_bytes reply.software) []) ≤ TEXT_LIMIT };
}

impl<A: Allocator> fmt::Debug for Reply<A> {
    ghost debug_output = { λ _. Some (codes "Reply { .. }") };

    fn fmt<W: fmt::Write>(&self, f: &mut fmt::Formatter<W>) -> fmt::Result
        ensures writes { WritesOnOk W.write_str_gives f.old result
            (codes "Reply { .. }") f.new }

        // The text does not depend on the width, the precision or any other option.
        ensures styled { WritesStyledOnOk W.write_str_gives f.old result
            (codes "Reply { .. }") f.new }
    {
        f.write_str("Reply { .. }")
    }
}

impl<A: Allocator> Reply<A> {
    /// Returns the address to send the response to: the source address that was passed to
    /// `receive`.
    pub fn to(&self) -> SocketAddr
        ensures { result ≡ self.now.to }
    {
        self.to
    }

    /// Returns the transaction ID of the request.
    pub fn transaction_id(&self) -> TransactionId
        ensures { result ≡ self.now.id }
    {
        self.id
    }

    /// Returns the method of the request.
    pub fn method(&self) -> Method
        ensures { result ≡ self.now.method }
    {
        self.method
    }

    /// Returns the algorithm of the integrity attribute that each response gets, or `None` if
    /// responses are not signed.
    pub fn integrity(&self) -> Option<IntegrityAlgorithm>
        ensures { result
            ≡ option_map (λ (by : SignatureSeen). by.algorithm) self.now.ending.signature }
    {
        match &self.signature {
            Some(by) => Some(by.algorithm()),
            None => None,
        }
    }

    /// Returns the key that each response is signed with, or an empty slice if responses are not
    /// signed. Anybody who has the key can sign in the name of the user and of the server.
    pub fn key(&self) -> &[u8]
        ensures { result.now
            ≡ option_map_or (λ (by : SignatureSeen). by.key) self.now.ending.signature [] }
    {
        match &self.signature {
            Some(by) => by.key().key().as_bytes(),
            None => &[],
        }
    }

    /// Returns whether each response ends with FINGERPRINT.
    pub fn has_fingerprint(&self) -> bool
        ensures { result ≡ self.now.ending.has_fingerprint }
    {
        self.has_fingerprint
    }
}

impl<A: Memory> Reply<A> {
    /// Creates the handle with which you respond to a request. Each response ends with SOFTWARE if
    /// `software` is not `None`, with the integrity attribute if `signature` is not `None`, and
    /// with FINGERPRINT if `has_fingerprint` is true.
    pub(crate) fn new(
        alloc: A,
        request: &Message<'_>,
        to: SocketAddr,
        software: Option<String<A>>,
        signature: Option<Signature<A>>,
        has_fingerprint: bool,
    ) -> Self
        requires { length (unwrap_or (option_map string_bytes software) []) ≤ TEXT_LIMIT }
        ensures { result ≡ record {
          method = method_of (type_field request.now);
          id = transaction_id_field request.now;
          to = to;
          ending = record {
            software = option_map string_bytes software;
            signature = signature;
            has_fingerprint = has_fingerprint;
          };
        } }
    {
        Reply {
            alloc,
            method: request.method(),
            id: request.transaction_id(),
            to,
            software,
            signature,
            has_fingerprint,
        }
    }

    /// Begins a success response. Fails if an allocation fails.
    pub fn success(&self) -> Result<MessageWriteVec<A>, AllocError>
        ensures bytes { IfOk result (λ page. page.bytes
            ≡ empty_message MessageClass.Success self.now.method self.now.id) }
        ensures open { IfOk result (λ page. IsOpen page.bytes) }
        ensures granted { A.grants → IsOk result }
    {
        self.begin(MessageClass::Success)
    }

    /// Begins an error response with this code and this reason phrase. Fails with the first of
    /// these errors that applies:
    ///
    /// - `NotAllowed`: the code is not between 300 and 699.
    /// - `TooLarge`: the reason phrase has more than 763 bytes.
    /// - `OutOfMemory`: an allocation failed.
    pub fn error(&self, code: u16, reason: &str) -> Result<MessageWriteVec<A>, StunWriteError>
        ensures refused { MatchOption (error_refusal (record { code = code; reason = reason.now }))
            (IsOkUnless result StunWriteError.OutOfMemory) (λ why. result ≡ Err why) }
        ensures bytes { IfOk result (λ page. page.bytes
            ≡ with_attribute (empty_message MessageClass.Error self.now.method self.now.id)
            (error_code_attribute code reason.now)) }
        ensures open { IfOk result (λ page. IsOpen page.bytes) }
        ensures granted { A.grants
            → error_refusal (record { code = code; reason = reason.now }) ≡ None → IsOk result }
    {
        let error = ErrorCode::builder(code).reason(reason).build()?;
        let mut page = self.begin(MessageClass::Error)?;
        page.add_attribute(&error)?;
        Ok(page)
    }

    /// Returns what each response ends with.
    fn ending(&self) -> Ending<'_, A>
        ensures { result ≡ self.now.ending }
    {
        Ending::new(&self.software, &self.signature, self.has_fingerprint)
    }

    /// Begins a response of a class.
    fn begin(&self, class: MessageClass) -> Result<MessageWriteVec<A>, AllocError>
        ensures bytes { IfOk result (λ page. page.bytes
            ≡ empty_message class self.now.method self.now.id) }
        ensures open { IfOk result (λ page. IsOpen page.bytes) }
        ensures empty { IfOk result (λ page. walk page.bytes ≡ []) }
        ensures granted { A.grants → IsOk result }
    {
        let end = self.ending().length();
        let mut page = MessageWriteVec::new(self.alloc);
        // This one block is enough for a response with one IPv4 address, such as a Binding
        // response.
        if page.reserve(MAPPED_LENGTH.saturating_add(end)).is_err() {
            return Err(AllocError);
        }
        let kind = MessageType::from_class_method(class, self.method);
        match Message::builder(kind, self.id, page) {
            Ok(page) => Ok(page),
            Err(_) => Err(AllocError),
        }
    }

    /// Ends a response: adds SOFTWARE if the server has one, signs the response, and adds
    /// FINGERPRINT if the request had one. Pass a response that `success` or `error` began, to
    /// which you may have added attributes.
    ///
    /// Fails with the error of the first attribute that cannot be added:
    ///
    /// - `MessageIntegrityExists`: you have signed the response.
    /// - `AttributeExists`: you have added SOFTWARE or FINGERPRINT.
    /// - `TooLarge`: the response would be longer than a message can be.
    /// - `OutOfMemory`: an allocation failed.
    pub fn finish(&self, page: MessageWriteVec<A>) -> Result<Vec<u8, A>, StunWriteError>
        requires { 20 ≤ length page.bytes }
        ensures bytes { IfOk result (λ response. response.items
            ≡ with_end self.now.ending page.bytes) }
        ensures verifies { IfOk result (λ response. IsOpen page.bytes
            → VerifiesBy self.now.ending.signature response.items) }

        // The error is the first one that applies, unless an allocation failed.
        ensures ok { OnOk result (finish_refusal self.now.ending page.bytes ≡ None) }
        ensures refused { IfErr result (λ why. (why ≡ StunWriteError.OutOfMemory)
            ⊎ (finish_refusal self.now.ending page.bytes ≡ Some why)) }
        ensures granted { A.grants → finish_refusal self.now.ending page.bytes ≡ None
            → IsOk result }
    {
        self.finish_over(BufferWriter::after(page.finish()))
    }

    /// Begins a success response like `success`, in the memory of a buffer. The buffer is empty and
    /// without memory afterwards, and `finish_over` returns a vector with that memory. If the
    /// memory has room for the response, nothing is allocated.
    ///
    /// Fails if an allocation fails.
    pub fn success_over(&self, buffer: &mut Vec<u8, A>) -> Result<BufferWriter<A>, AllocError>
        ensures bytes { IfOk result (λ page. page.bytes
            ≡ empty_message MessageClass.Success self.now.method self.now.id) }
        ensures open { IfOk result (λ page. IsOpen page.bytes) }
        ensures granted { A.grants → IsOk result }
    {
        self.begin_over(MessageClass::Success, buffer)
    }

    /// Begins an error response like `error`, but in the memory of a buffer, as `success_over`
    /// does. Fails with the errors of `error`, in the same order.
    pub fn error_over(
        &self,
        code: u16,
        reason: &str,
        buffer: &mut Vec<u8, A>,
    ) -> Result<BufferWriter<A>, StunWriteError>
        ensures refused { MatchOption (error_refusal (record { code = code; reason = reason.now }))
            (IsOkUnless result StunWriteError.OutOfMemory) (λ why. result ≡ Err why) }
        ensures bytes { IfOk result (λ page. page.bytes
            ≡ with_attribute (empty_message MessageClass.Error self.now.method self.now.id)
            (error_code_attribute code reason.now)) }
        ensures open { IfOk result (λ page. IsOpen page.bytes) }
        ensures granted { A.grants
            → error_refusal (record { code = code; reason = reason.now }) ≡ None → IsOk result }
    {
        let error_code = ErrorCode::builder(code).reason(reason).build()?;
        let mut page = self.begin_over(MessageClass::Error, buffer)?;
        page.add_attribute(&error_code)?;
        Ok(page)
    }

    /// Begins a response of a class in the memory of a buffer.
    fn begin_over(
        &self,
        class: MessageClass,
        buffer: &mut Vec<u8, A>,
    ) -> Result<BufferWriter<A>, AllocError>
        ensures bytes { IfOk result (λ page. page.bytes
            ≡ empty_message class self.now.method self.now.id) }
        ensures open { IfOk result (λ page. IsOpen page.bytes) }
        ensures empty { IfOk result (λ page. walk page.bytes ≡ []) }
        ensures granted { A.grants → IsOk result }
    {
        let kind = MessageType::from_class_method(class, self.method);
        match Message::builder(kind, self.id, BufferWriter::over(buffer)) {
            Ok(page) => Ok(page),
            Err(_) => Err(AllocError),
        }
    }

    /// Ends a response that `success_over` or `error_over` began, like `finish`. Fails with the
    /// errors of `finish`, in the same order.
    pub fn finish_over(&self, page: BufferWriter<A>) -> Result<Vec<u8, A>, StunWriteError>
        requires { 20 ≤ length page.bytes }
        ensures bytes { IfOk result (λ response. response.items
            ≡ with_end self.now.ending page.bytes) }
        ensures verifies { IfOk result (λ response. IsOpen page.bytes
            → VerifiesBy self.now.ending.signature response.items) }

        // The error is the first one that applies, unless an allocation failed.
        ensures ok { OnOk result (finish_refusal self.now.ending page.bytes ≡ None) }
        ensures refused { IfErr result (λ why. (why ≡ StunWriteError.OutOfMemory)
            ⊎ (finish_refusal self.now.ending page.bytes ≡ Some why)) }
        ensures granted { A.grants → finish_refusal self.now.ending page.bytes ≡ None
            → IsOk result }
    {
        self.ending().finish(page)
    }
}

/// The number of bytes that a response is expected to have before `finish` adds its attributes: the
/// header, and XOR-MAPPED-ADDRESS with an IPv4 address. Memory for them is reserved at the
/// beginning.
const MAPPED_LENGTH: usize = 32;
