//! Begins responses: an error response with ERROR-CODE, and a success response with the address
//! that a request came from (RFC 8489, sections 14.2 and 14.8).

ghost use Rattle.std.specs.Prelude.{◌≡◌, ◌≤◌, IfOk, IsOk, None, length, []};
ghost use Rattle.stun_base.specs.declared.wire.message_type.MessageClass.TheVariants.{Success};
ghost use Rattle.stun_endpoint.specs.Answers.{binding_page, error_page};
ghost use Rattle.stun_endpoint.specs.code.Room.{HasRoom, IsEndable, LATER};
ghost use Rattle.stun_extra.specs.CanonicalAddress.{mapped_address};
ghost use Rattle.stun_types.specs.ErrorCode.{error_refusal};
ghost use Rattle.stun_types.specs.Writing.{empty_answer, with_attribute};

use std::alloc::AllocError;
use std::net::SocketAddr;
use stun_base::header::HEADER_LENGTH;
use stun_base::memory::Memory;
use stun_buffer::writer::BufferWriter;
use stun_extra::canonical_address::mapped_address;
use stun_types::attribute::ErrorCode;
use stun_types::message::{Message, StunWriteError};
use stun_types::prelude::*;

/// Begins an error response with ERROR-CODE, and reserves `more` bytes for the attributes after it.
pub(crate) fn begin_error_page<A: Memory>(
    buffer: &mut Vec<u8, A>,
    request: &Message<'_>,
    code: u16,
    reason: &str,
    more: usize,
) -> Result<BufferWriter<A>, AllocError>
    ensures bytes { IfOk result (λ page. page.bytes
        ≡ error_page request.now code reason.now) }
    ensures room { IfOk result (λ page. HasRoom LATER 1000 page.bytes) }
    ensures granted { A.grants → error_refusal (record { code = code; reason = reason.now }) ≡ None
        → more ≤ 5000 → IsOk result }
{
    match try_begin_error_page(buffer, request, code, reason, more) {
        Ok(page) => Ok(page),
        Err(_) => Err(AllocError),
    }
}

/// Begins an error response with ERROR-CODE, and reserves `more` bytes for the attributes after it.
#[tactic(auto, unfolding(crate::specs::Answers::error_page))]
fn try_begin_error_page<A: Memory>(
    buffer: &mut Vec<u8, A>,
    request: &Message<'_>,
    code: u16,
    reason: &str,
    more: usize,
) -> Result<BufferWriter<A>, StunWriteError>
    ensures bytes { IfOk result (λ page. page.bytes
        ≡ error_page request.now code reason.now) }
    ensures room { IfOk result (λ page. HasRoom LATER 1000 page.bytes) }
    ensures granted { A.grants → error_refusal (record { code = code; reason = reason.now }) ≡ None
        → more ≤ 5000 → IsOk result }
{
    let error = ErrorCode::builder(code).reason(reason).build()?;
    let writer = make_writer(buffer, error.padded_len().saturating_add(more))?;
    let mut page = Message::builder_error(request, writer)?;
    page.add_attribute(&error)?;
    Ok(page)
}

/// Begins a success response with the address that a request came from, and reserves `more` bytes
/// for the attributes after it.
#[tactic(auto, unfolding(crate::specs::Answers::binding_page))]
pub(crate) fn begin_mapped_page<A: Memory>(
    buffer: &mut Vec<u8, A>,
    request: &Message<'_>,
    from: SocketAddr,
    more: usize,
) -> Result<BufferWriter<A>, AllocError>
    ensures bytes { IfOk result (λ page. page.bytes ≡ binding_page from request.now) }
    ensures header { IfOk result (λ page. 20 ≤ length page.bytes) }
    ensures room { IfOk result (λ page. IsEndable page.bytes) }
    ensures granted { A.grants → more ≤ 5000 → IsOk result }
{
    match try_begin_mapped_page(buffer, request, from, more) {
        Ok(page) => Ok(page),
        Err(_) => Err(AllocError),
    }
}

/// Begins a success response with the address that a request came from, and reserves `more` bytes
/// for the attributes after it.
fn try_begin_mapped_page<A: Memory>(
    buffer: &mut Vec<u8, A>,
    request: &Message<'_>,
    from: SocketAddr,
    more: usize,
) -> Result<BufferWriter<A>, StunWriteError>
    ensures bytes { IfOk result (λ page. page.bytes
        ≡ with_attribute (empty_answer Success request.now)
        (mapped_address from request.now)) }
    ensures header { IfOk result (λ page. 20 ≤ length page.bytes) }
    ensures room { IfOk result (λ page. IsEndable page.bytes) }
    ensures granted { A.grants → more ≤ 5000 → IsOk result }
{
    let address = mapped_address(from, request.transaction_id());
    let writer = make_writer(buffer, address.padded_len().saturating_add(more))?;
    let mut page = Message::builder_success(request, writer)?;
    page.add_attribute(&address)?;
    Ok(page)
}

/// Creates a writer in the memory of a buffer, with room for a header and `attributes` bytes of
/// attributes, so that a response takes at most one allocation.
pub(crate) fn make_writer<A: Memory>(
    buffer: &mut Vec<u8, A>,
    attributes: usize,
) -> Result<BufferWriter<A>, StunWriteError>
    ensures empty { IfOk result (λ writer. writer.bytes ≡ []) }
    ensures granted { A.grants → attributes ≤ 10000 → IsOk result }
{
    let mut writer = BufferWriter::over(buffer);
    writer.reserve(HEADER_LENGTH.saturating_add(attributes))?;
    Ok(writer)
}
