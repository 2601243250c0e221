//! Builds, signs and reads the messages of a meeting. Each message is passed on as bytes.

ghost use Rattle.std.specs.Prelude.{◌≡◌, ⊤, true, IfOk, IsOk, OnOk, OnErr, IsErr, Ok, Err};
ghost use Rattle.stun_base.specs.Header.{transaction_id_field, type_field};
ghost use Rattle.stun_base.specs.MessageType.{method_of, class_in, is_response};
ghost use Rattle.stun_types.specs.Message.{IsMessage};
ghost use Rattle.stun_types.specs.Writing.{IsOpen};
ghost use Rattle.stun_judging.specs.Additions.{UnlessMemory};
ghost use Rattle.stun_auth.specs.ClientStep.{ForClientReason, IsResend, client_step};
ghost use Rattle.stun_judging.specs.Reading.{UNAUTHORIZED, reading_of};
ghost use Rattle.stun_auth.specs.ServerSigning.{after_signing};
ghost use Rattle.stun_auth.specs.Validation.{sight};
ghost use Rattle.stun_proto.specs.Negotiation.{BINDING as BINDING_METHOD, client_request};
ghost use Rattle.stun_proto.specs.Negotiation.{failure, server_response, success};
ghost use Rattle.stun_proto.specs.code.Signed.{signed_page, written_message};

use std::alloc::AllocError;
use std::net::SocketAddr;
use stun_auth::auth::{
    LongTermClientAuth, LongTermClientAuthErrorReason, LongTermClientValidation, LongTermServerAuth,
};
use stun_auth::laws as auth_laws;
use stun_base::error::StunWriteError;
use stun_base::memory::Memory;
use stun_base::transaction_id::TransactionId;
use stun_judging::laws as judging_laws;
use stun_types::attribute::ErrorCode;
use stun_types::message::{BINDING, Message, MessageWriteVec};
use stun_types::prelude::*;

/// Returns a Binding request, signed by the client.
pub(crate) fn make_request<A: Memory>(
    alloc: A,
    client: &mut LongTermClientAuth<A>,
    id: TransactionId,
) -> Result<MessageWriteVec<A>, StunWriteError>
    ensures answer { UnlessMemory result
        (signed_page result ≡ client_request id client.old.state) ⊤ }
    ensures message { IfOk result (λ signed. IsMessage signed.bytes) }
    ensures method { IfOk result (λ signed. method_of (type_field signed.bytes) ≡ BINDING_METHOD) }
    ensures id { IfOk result (λ signed. transaction_id_field signed.bytes ≡ id) }
    ensures stays { client.new ≡ client.old }
    ensures granted { A.grants → UnlessMemory result ⊤ ⊥ }
{
    judging_laws::additions_are_read_back();
    auth_laws::sides_add_by_attribute();
    let writer = Message::builder_request(BINDING, id, MessageWriteVec::new(alloc))?;
    client.sign_outgoing_message(writer)
}

/// Returns a 401 response to a request, signed by the server.
pub(crate) fn make_challenge<A: Memory>(
    alloc: A,
    server: &mut LongTermServerAuth<A>,
    request: &Message<'_>,
    to: SocketAddr,
) -> Result<MessageWriteVec<A>, StunWriteError>
    requires { method_of (type_field request.now) ≡ BINDING_METHOD }
    ensures answer { UnlessMemory result (signed_page result
        ≡ server_response (failure UNAUTHORIZED (transaction_id_field request.now))
        (sight server.old to)) ⊤ }
    ensures message { IfOk result (λ signed. IsMessage signed.bytes) }
    ensures server { OnOk result (server.new ≡ after_signing server.old to true) }
    ensures refused { OnErr result (server.new ≡ server.old) }
    ensures granted { A.grants → UnlessMemory result ⊤ ⊥ }
{
    let writer = make_unauthorized(alloc, request)?;
    sign(server, writer, to)
}

/// Returns a success response to a request, signed by the server.
pub(crate) fn make_success<A: Memory>(
    alloc: A,
    server: &mut LongTermServerAuth<A>,
    request: &Message<'_>,
    to: SocketAddr,
) -> Result<MessageWriteVec<A>, StunWriteError>
    requires { method_of (type_field request.now) ≡ BINDING_METHOD }
    ensures answer { UnlessMemory result (signed_page result
        ≡ server_response (success (transaction_id_field request.now)) (sight server.old to)) ⊤ }
    ensures message { IfOk result (λ signed. IsMessage signed.bytes) }
    ensures server { OnOk result (server.new ≡ after_signing server.old to true) }
    ensures refused { OnErr result (server.new ≡ server.old) }
    ensures granted { A.grants → UnlessMemory result ⊤ ⊥ }
{
    let writer = Message::builder_success(request, MessageWriteVec::new(alloc))?;
    sign(server, writer, to)
}

/// Returns an unsigned 401 response to a request, whose only attribute is ERROR-CODE.
fn make_unauthorized<A: Memory>(
    alloc: A,
    request: &Message<'_>,
) -> Result<MessageWriteVec<A>, StunWriteError>
    requires { method_of (type_field request.now) ≡ BINDING_METHOD }
    ensures answer { UnlessMemory result (written_message result
        ≡ Ok (failure UNAUTHORIZED (transaction_id_field request.now))) ⊤ }
    ensures open { IfOk result (λ writer. IsOpen writer.bytes) }
    ensures granted { A.grants → UnlessMemory result ⊤ ⊥ }
{
    let error = ErrorCode::builder(ErrorCode::UNAUTHORIZED).build()?;
    let mut writer = Message::builder_error(request, MessageWriteVec::new(alloc))?;
    writer.add_attribute(&error)?;
    Ok(writer)
}

/// Signs a response as the server, and returns it.
fn sign<A: Memory>(
    server: &mut LongTermServerAuth<A>,
    writer: MessageWriteVec<A>,
    to: SocketAddr,
) -> Result<MessageWriteVec<A>, StunWriteError>
    requires open { IsOpen writer.bytes }
    requires response { is_response (class_in writer.bytes) ≡ true }
    ensures answer { UnlessMemory result (signed_page result
        ≡ server_response writer.bytes (sight server.old to)) ⊤ }
    ensures message { IfOk result (λ signed. IsMessage signed.bytes) }
    ensures server { OnOk result (server.new ≡ after_signing server.old to true) }
    ensures refused { OnErr result (server.new ≡ server.old) }
    ensures granted { A.grants → UnlessMemory result ⊤ ⊥ }
{
    judging_laws::additions_are_read_back();
    auth_laws::sides_add_by_attribute();
    server.sign_outgoing_message(writer, to)
}

/// Returns the message with these bytes.
pub(crate) fn parse_message(bytes: &[u8]) -> Message<'_>
    requires { IsMessage bytes.now }
    ensures { result ≡ bytes.now }
{
    Message::from_bytes(bytes).unwrap()
}

/// Passes a response to the client, and returns the client's result. Fails only if an allocation
/// fails, which can happen only if the client answers a challenge. The client is then unchanged.
pub(crate) fn read<A: Memory>(
    client: &mut LongTermClientAuth<A>,
    bytes: &[u8],
) -> Result<Result<LongTermClientValidation, LongTermClientAuthErrorReason>, AllocError>
    requires { IsMessage bytes.now }
    ensures answer { IfOk result (λ a. a ≡ (client_step client.old.settings client.old.state
        (reading_of bytes.now)).answer) }
    ensures client { OnOk result (client.new ≡ record client.old {
      state =
          (client_step client.old.settings client.old.state (reading_of bytes.now)).state;
    }) }
    ensures err { OnErr result (client.new ≡ client.old) }
    ensures granted { A.grants → IsOk result }
    ensures memory { OnErr result (IsResend (client_step client.old.settings client.old.state
        (reading_of bytes.now)).answer) }
{
    let response = parse_message(bytes);
    match client.validate_incoming_message(&response) {
        Ok(validation) => Ok(Ok(validation)),
        Err(error) => to_client_refusal(error.reason()),
    }
}

/// Returns the reason as a refusal by the client. Fails if the reason is that an allocation failed.
fn to_client_refusal(
    reason: LongTermClientAuthErrorReason,
) -> Result<Result<LongTermClientValidation, LongTermClientAuthErrorReason>, AllocError>
    ensures { ForClientReason reason (result ≡ Ok (Err reason)) (IsErr result) }
{
    if reason == LongTermClientAuthErrorReason::OutOfMemory {
        Err(AllocError)
    } else {
        Ok(Err(reason))
    }
}
