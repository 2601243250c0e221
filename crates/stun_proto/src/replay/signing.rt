//! Signs a message for an address: writes the attributes of the message again, and then the
//! attributes that signing adds.

ghost use Rattle.std.specs.Prelude.{◌≡◌, ◌≢◌, ⊤, None, OnOk, OnErr, IfOk, IsErr, IsOk, IsOkAnd};
ghost use Rattle.stun_base.specs.Header.{type_field};
ghost use Rattle.stun_types.specs.Message.{refusal};
ghost use Rattle.stun_types.specs.Writing.{IsOpen};
ghost use Rattle.stun_judging.specs.Additions.{UnlessMemory};
ghost use Rattle.stun_base.specs.MessageType.{class_in, is_response};
ghost use Rattle.stun_auth.specs.ServerSigning.{after_signing};
ghost use Rattle.stun_auth.specs.Validation.{sight};
ghost use Rattle.stun_proto.specs.Serving.{places_unless, reply_of, reply_of_signing, reply_unless};
ghost use Rattle.stun_proto.specs.Signing.{if_signed, signing, written_anew};
ghost use Rattle.stun_proto.specs.code.Signed.{signed_page, written_message};

use crate::replay::call::ServerReply;
use std::alloc::AllocError;
use std::net::SocketAddr;
use stun_auth::auth::LongTermServerAuth;
use stun_base::error::StunWriteError;
use stun_base::memory::Memory;
use stun_types::message::{Message, MessageWriteVec};
use stun_types::prelude::*;

/// Signs the message in `bytes` for the address `to`. If the bytes are not a message, replies
/// `NotAMessage`, and does not fail.
pub(crate) fn sign<A: Memory>(
    alloc: A,
    server: &mut LongTermServerAuth<A>,
    bytes: &[u8],
    to: SocketAddr,
) -> Result<ServerReply<A>, AllocError>
    ensures reply { IfOk result (λ given. reply_of given
        ≡ reply_unless (refusal bytes.now) (reply_of_signing
        (signing (sight server.old to) bytes.now))) }
    ensures server { OnOk result (server.new ≡ record server.old {
      places = places_unless (refusal bytes.now) server.old.places
          (if_signed (signing (sight server.old to) bytes.now) server.old.places
          (after_signing server.old to (is_response (class_in bytes.now))).places);
    }) }
    ensures err { OnErr result (server.new ≡ server.old) }
    ensures no_message { refusal bytes.now ≢ None → IsOk result }
    ensures granted { A.grants → IsOk result }
{
    let message = match Message::from_bytes(bytes) {
        Ok(message) => message,
        Err(error) => return Ok(ServerReply::NotAMessage(error)),
    };
    reply_to_signing(sign_message(alloc, server, &message, to))
}

/// Converts the result of a signing to a reply. Fails if the signing ran out of memory.
fn reply_to_signing<A: Memory>(
    signed: Result<MessageWriteVec<A>, StunWriteError>,
) -> Result<ServerReply<A>, AllocError>
    ensures { UnlessMemory signed (IsOkAnd result
        (λ given. reply_of given ≡ reply_of_signing (signed_page signed))) (IsErr result) }
{
    match signed {
        Ok(writer) => Ok(ServerReply::Signed(writer.finish())),
        Err(StunWriteError::OutOfMemory) => Err(AllocError),
        Err(error) => Ok(ServerReply::SignRefused(error)),
    }
}

/// Writes a message again and signs it. If this fails, the server is unchanged.
fn sign_message<A: Memory>(
    alloc: A,
    server: &mut LongTermServerAuth<A>,
    message: &Message<'_>,
    to: SocketAddr,
) -> Result<MessageWriteVec<A>, StunWriteError>
    ensures answer { UnlessMemory result (signed_page result
        ≡ signing (sight server.old to) message.now) ⊤ }
    ensures signed { OnOk result (server.new ≡ after_signing server.old to
        (is_response (class_in message.now))) }
    ensures refused { OnErr result (server.new ≡ server.old) }
    ensures granted { A.grants → UnlessMemory result ⊤ ⊥ }
{
    let writer = write_anew(alloc, message)?;
    server.sign_outgoing_message(writer, to)
}

/// Writes a header with the type and the transaction ID of a message, followed by the visible
/// attributes of the message.
fn write_anew<A: Memory>(
    alloc: A,
    message: &Message<'_>,
) -> Result<MessageWriteVec<A>, StunWriteError>
    ensures answer { UnlessMemory result (written_message result ≡ written_anew message.now) ⊤ }
    ensures open { IfOk result (λ writer. IsOpen writer.bytes) }
    ensures type_is { IfOk result (λ writer. type_field writer.bytes ≡ type_field message.now) }
    ensures granted { A.grants → UnlessMemory result ⊤ ⊥ }
{
    let mut writer = Message::builder(
        message.get_type(),
        message.transaction_id(),
        MessageWriteVec::new(alloc),
    )?;
    for (_, attribute) in message.iter_attributes() {
        writer.add_attribute(&attribute)?;
    }
    Ok(writer)
}
