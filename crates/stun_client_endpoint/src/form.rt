//! Writes the bytes of a request: header, body, SOFTWARE, signature and FINGERPRINT.
ghost use Rattle.std.specs.Option.{option_copied, option_map};
ghost use Rattle.std.specs.Prelude.{◌≡◌, ◌≤◌, ◌⊎◌, ⊤, Err, IfErr, IfOk, IsOk, Ok, OnOk, length, true};
ghost use Rattle.std.specs.String.{string_bytes};
ghost use Rattle.stun_types.specs.Writing.{empty_message};
ghost use Rattle.stun_judging.specs.Additions.{UnlessMemory};
ghost use Rattle.stun_client.specs.Judging.{identity_of};
ghost use Rattle.stun_client_endpoint.specs.Bodies.{BODY_LIMIT as limit};
ghost use Rattle.stun_client_endpoint.specs.Written.{closed_request, completed_request};
ghost use Rattle.stun_client_endpoint.specs.Written.{is_text_too_long, request_bytes, whole_request};
ghost use Rattle.stun_client_endpoint.specs.Written.{with_body, with_credentials};
ghost use Rattle.stun_client_endpoint.specs.Written.{with_one, with_own_end, with_own_software};
ghost use Rattle.stun_client_endpoint.specs.Written.{with_software_text};

use crate::body::Body;
use std::alloc::{AllocError, Allocator, Global};
use std::marker::Model;
use stun_base::header::HEADER_LENGTH;
use stun_base::memory::Memory;
use stun_client::challenge::Challenge;
use stun_client::credentials::Credentials;
use stun_extra::attribute::Software;
use stun_extra::fingerprint::finish_with_fingerprint;
use stun_types::limits::TEXT_LIMIT;
use stun_types::message::{
    Message, MessageClass, MessageWriteVec, Method, StunWriteError, TransactionId,
};
use stun_types::prelude::*;

/// The parts that each request of a client has in addition to its body and its signature.
///
/// Contracts: the value is a record of both fields.
#[derive(Drop)]
pub struct Form<A: Allocator = Global> {
    software: Option<String<A>>,
    has_fingerprint: bool,
}

impl<A: Allocator> Model for Form<A> {
    ghost use Rattle.std.specs.Option.{option_map};
    ghost use Rattle.std.specs.String.{string_bytes};
    ghost use Rattle.stun_client_endpoint.specs.Written.{Form as FormSeen};

    ghost Value = { FormSeen };

    ghost view = { λ f. record {
      software = option_map string_bytes f.software;
      has_fingerprint = f.has_fingerprint;
    } };
}

impl<A: Memory> Form<A> {
    /// Creates a form: each request has SOFTWARE with this text, if there is one, and FINGERPRINT
    /// if `has_fingerprint` is true. If the text has more than 763 bytes, each request fails with
    /// `TooLarge`.
    pub fn new(software: Option<String<A>>, has_fingerprint: bool) -> Form<A>
        ensures { result ≡ record {
          software = option_map string_bytes software;
          has_fingerprint = has_fingerprint;
        } }
    {
        Form {
            software,
            has_fingerprint,
        }
    }

    /// Writes a request: the header with its method and its ID, the body, SOFTWARE, the attributes
    /// with which the credentials sign it for this challenge (see `Credentials::sign`), and
    /// FINGERPRINT.
    ///
    /// # Errors
    ///
    /// - `TooLarge`, before anything is allocated: the text of SOFTWARE has more than 763 bytes.
    /// - Otherwise the error of the first part that cannot be added, in the order above, such as
    ///   `TooLarge` if the message would be too long, or `OutOfMemory` if an allocation failed.
    #[tactic(auto, unfolding(crate::specs::Written::request_bytes))]
    pub fn written(
        &self,
        alloc: A,
        credentials: &Credentials<A>,
        signed_for: Option<&Challenge<A>>,
        method: Method,
        id: TransactionId,
        body: &Body<A>,
    ) -> Result<Vec<u8, A>, StunWriteError>
        ensures ok { IfOk result (λ bytes.
            request_bytes self.now (identity_of credentials.now) (option_copied signed_for.entry)
            method id body.now ≡ Ok bytes.items) }
        ensures refused { IfErr result (λ why. (why ≡ StunWriteError.OutOfMemory)
            ⊎ (request_bytes self.now (identity_of credentials.now)
            (option_copied signed_for.entry) method id body.now ≡ Err why)) }
        ensures granted { A.grants → UnlessMemory result ⊤ ⊥ }
        ensures at_once { is_text_too_long self.now.software ≡ true
            → result ≡ Err StunWriteError.TooLarge }
    {
        if self.is_text_too_long() {
            return Err(StunWriteError::TooLarge);
        }
        self.write_request(alloc, credentials, signed_for, method, id, body)
    }

    /// Returns whether the text of SOFTWARE has more than 763 bytes.
    fn is_text_too_long(&self) -> bool
        ensures { result ≡ is_text_too_long self.now.software }
    {
        match &self.software {
            Some(text) => text.as_str().len() > TEXT_LIMIT,
            None => false,
        }
    }

    /// Writes a request like `written`, once the text of SOFTWARE is known to fit.
    fn write_request(
        &self,
        alloc: A,
        credentials: &Credentials<A>,
        signed_for: Option<&Challenge<A>>,
        method: Method,
        id: TransactionId,
        body: &Body<A>,
    ) -> Result<Vec<u8, A>, StunWriteError>
        ensures ok { IfOk result (λ bytes.
            whole_request self.now (identity_of credentials.now) (option_copied signed_for.entry)
            method id body.now ≡ Ok bytes.items) }
        ensures refused { IfErr result (λ why. (why ≡ StunWriteError.OutOfMemory)
            ⊎ (whole_request self.now (identity_of credentials.now)
            (option_copied signed_for.entry) method id body.now ≡ Err why)) }
        ensures granted { A.grants → UnlessMemory result ⊤ ⊥ }
    {
        let page = begin_with_body(alloc, method, id, body)?;
        self.complete_request(credentials, signed_for, page)
    }

    /// Completes a request: adds SOFTWARE, the signature and FINGERPRINT, if the form and the
    /// credentials require them.
    fn complete_request(
        &self,
        credentials: &Credentials<A>,
        signed_for: Option<&Challenge<A>>,
        page: MessageWriteVec<A>,
    ) -> Result<Vec<u8, A>, StunWriteError>
        requires { 20 ≤ length page.bytes }
        ensures ok { IfOk result (λ bytes.
            completed_request self.now (identity_of credentials.now)
            (option_copied signed_for.entry) page.bytes ≡ Ok bytes.items) }
        ensures refused { IfErr result (λ why. (why ≡ StunWriteError.OutOfMemory)
            ⊎ (completed_request self.now (identity_of credentials.now)
            (option_copied signed_for.entry) page.bytes ≡ Err why)) }
        ensures granted { A.grants → UnlessMemory result ⊤ ⊥ }
    {
        let mut page = page;
        self.add_software(&mut page)?;
        self.close_request(credentials, signed_for, page)
    }

    /// Closes a request: adds the signature and FINGERPRINT, if the credentials and the form
    /// require them.
    fn close_request(
        &self,
        credentials: &Credentials<A>,
        signed_for: Option<&Challenge<A>>,
        page: MessageWriteVec<A>,
    ) -> Result<Vec<u8, A>, StunWriteError>
        requires { 20 ≤ length page.bytes }
        ensures ok { IfOk result (λ bytes. closed_request self.now (identity_of credentials.now)
            (option_copied signed_for.entry) page.bytes ≡ Ok bytes.items) }
        ensures refused { IfErr result (λ why. (why ≡ StunWriteError.OutOfMemory)
            ⊎ (closed_request self.now (identity_of credentials.now)
            (option_copied signed_for.entry) page.bytes ≡ Err why)) }
        ensures granted { A.grants → UnlessMemory result ⊤ ⊥ }
    {
        let page = sign_request(credentials, signed_for, page)?;
        finish_request(page, self.has_fingerprint)
    }

    /// Adds SOFTWARE, if there is one.
    fn add_software(&self, page: &mut MessageWriteVec<A>) -> Result<(), StunWriteError>
        requires { 20 ≤ length page.old.bytes }
        ensures header { OnOk result (20 ≤ length page.new.bytes) }
        ensures ok { OnOk result (with_own_software self.now.software page.old.bytes
            ≡ Ok page.new.bytes) }
        ensures refused { IfErr result (λ why. (why ≡ StunWriteError.OutOfMemory)
            ⊎ (with_own_software self.now.software page.old.bytes ≡ Err why)) }
        ensures granted { A.grants → UnlessMemory result ⊤ ⊥ }
    {
        match &self.software {
            Some(text) => add_text(page, text.as_str()),
            None => Ok(()),
        }
    }
}

/// Adds SOFTWARE with this text.
fn add_text<A: Memory>(page: &mut MessageWriteVec<A>, text: &str) -> Result<(), StunWriteError>
    requires { 20 ≤ length page.old.bytes }
    ensures header { OnOk result (20 ≤ length page.new.bytes) }
    ensures ok { OnOk result (with_software_text text.now page.old.bytes ≡ Ok page.new.bytes) }
    ensures refused { IfErr result (λ why. (why ≡ StunWriteError.OutOfMemory)
        ⊎ (with_software_text text.now page.old.bytes ≡ Err why)) }
    ensures granted { A.grants → UnlessMemory result ⊤ ⊥ }
{
    match Software::new(text) {
        Ok(software) => add(page, &software),
        Err(_) => Err(StunWriteError::TooLarge),
    }
}

/// Adds an attribute to the request that is being written.
fn add<A: Memory, M: Attribute>(
    page: &mut MessageWriteVec<A>,
    attribute: &M,
) -> Result<(), StunWriteError>
    requires { 20 ≤ length page.old.bytes }
    ensures header { OnOk result (20 ≤ length page.new.bytes) }
    ensures ok { OnOk result (with_one
        (record { kind = M.kind attribute.now; value = M.value attribute.now }) page.old.bytes
        ≡ Ok page.new.bytes) }
    ensures refused { IfErr result (λ why. (why ≡ StunWriteError.OutOfMemory)
        ⊎ (with_one
        (record { kind = M.kind attribute.now; value = M.value attribute.now }) page.old.bytes
        ≡ Err why)) }
    ensures granted { A.grants → UnlessMemory result ⊤ ⊥ }
{
    page.add_attribute(attribute)
}

/// Completes a request, with FINGERPRINT if `has_fingerprint` is true, and returns its bytes.
fn finish_request<A: Memory>(
    page: MessageWriteVec<A>,
    has_fingerprint: bool,
) -> Result<Vec<u8, A>, StunWriteError>
    requires { 20 ≤ length page.bytes }
    ensures ok { IfOk result (λ bytes. with_own_end has_fingerprint page.bytes ≡ Ok bytes.items) }
    ensures refused { IfErr result (λ why. (why ≡ StunWriteError.OutOfMemory)
        ⊎ (with_own_end has_fingerprint page.bytes ≡ Err why)) }
    ensures granted { A.grants → UnlessMemory result ⊤ ⊥ }
{
    if has_fingerprint {
        finish_fingerprinted(page)
    } else {
        Ok(page.finish())
    }
}

/// Completes a request with FINGERPRINT, and returns its bytes.
fn finish_fingerprinted<A: Memory>(page: MessageWriteVec<A>) -> Result<Vec<u8, A>, StunWriteError>
    requires { 20 ≤ length page.bytes }
    ensures ok { IfOk result (λ bytes. with_own_end true page.bytes ≡ Ok bytes.items) }
    ensures refused { IfErr result (λ why. (why ≡ StunWriteError.OutOfMemory)
        ⊎ (with_own_end true page.bytes ≡ Err why)) }
    ensures granted { A.grants → UnlessMemory result ⊤ ⊥ }
{
    finish_with_fingerprint(page)
}

/// Begins a request: writes its header and its body.
fn begin_with_body<A: Memory>(
    alloc: A,
    method: Method,
    id: TransactionId,
    body: &Body<A>,
) -> Result<MessageWriteVec<A>, StunWriteError>
    ensures header { IfOk result (λ page. 20 ≤ length page.bytes) }
    ensures ok { IfOk result (λ page.
        with_body id body.now (empty_message MessageClass.Request method id) ≡ Ok page.bytes) }
    ensures refused { IfErr result (λ why. (why ≡ StunWriteError.OutOfMemory)
        ⊎ (with_body id body.now (empty_message MessageClass.Request method id) ≡ Err why)) }
    ensures granted { A.grants → UnlessMemory result ⊤ ⊥ }
{
    let mut page = begin_request(alloc, method, id, body.length())?;
    body.write(id, &mut page)?;
    Ok(page)
}

/// Begins a request: writes its header, and reserves memory for `room` bytes of attributes.
fn begin_request<A: Memory>(
    alloc: A,
    method: Method,
    id: TransactionId,
    room: usize,
) -> Result<MessageWriteVec<A>, AllocError>
    ensures bytes { IfOk result (λ page. page.bytes
        ≡ empty_message MessageClass.Request method id) }
    ensures header { IfOk result (λ page. 20 ≤ length page.bytes) }
    ensures granted { A.grants → room ≤ limit → IsOk result }
{
    // One block of memory of this size is enough for most requests.
    let mut page = MessageWriteVec::new(alloc);
    if page.reserve(HEADER_LENGTH.saturating_add(room)).is_err() {
        return Err(AllocError);
    }
    match Message::builder_request(method, id, page) {
        Ok(page) => Ok(page),
        Err(_) => Err(AllocError),
    }
}

/// Signs a request for this challenge.
fn sign_request<A: Memory>(
    credentials: &Credentials<A>,
    signed_for: Option<&Challenge<A>>,
    page: MessageWriteVec<A>,
) -> Result<MessageWriteVec<A>, StunWriteError>
    requires { 20 ≤ length page.bytes }
    ensures header { IfOk result (λ page. 20 ≤ length page.bytes) }
    ensures ok { IfOk result (λ signed_page. with_credentials (identity_of credentials.now)
        (option_copied signed_for.entry) page.bytes ≡ Ok signed_page.bytes) }
    ensures refused { IfErr result (λ why. (why ≡ StunWriteError.OutOfMemory)
        ⊎ (with_credentials (identity_of credentials.now)
        (option_copied signed_for.entry) page.bytes ≡ Err why)) }
    ensures granted { A.grants → UnlessMemory result ⊤ ⊥ }
{
    credentials.sign(signed_for, page)
}
