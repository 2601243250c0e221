//! Reads the error code of a response.
ghost use Rattle.std.specs.Prelude.{◌≡◌};
ghost use Rattle.stun_client.specs.Challenging.{code_in};

use stun_types::attribute::ErrorCode;
use stun_types::message::{Message, MessageClass};

/// Returns the error code of a message, or `None` if the message is not an error response with a
/// well-formed ERROR-CODE.
pub fn code_of(message: &Message<'_>) -> Option<u16>
    ensures { result ≡ code_in message.now }
{
    if message.class() != MessageClass::Error {
        return None;
    }
    match message.attribute::<ErrorCode<'_>>() {
        Ok(error) => Some(error.code()),
        Err(_) => None,
    }
}
