//! The outcome of a datagram at a client, and the reasons why a client cannot start a request.
ghost use Rattle.std.specs.Prelude.{◌≡◌};

use crate::ended::DropReason;
use stun_types::message::Message;
use thiserror::Error;

/// Why a request could not be started. The client is then unchanged.
#[derive(Clone, Copy, Debug, PartialEq, Eq, Error)]
pub enum RequestError {
    /// The seed has no transaction ID left.
    #[error("no transaction ID is left")]
    NoId,
    /// The message would be too long, or cannot be written for another reason.
    #[error("the message would be too long")]
    TooLarge,
    /// An allocation failed.
    #[error("an allocation failed")]
    OutOfMemory,
}

/// How a client has handled a datagram.
#[derive(Debug, Drop)]
pub enum Received<'a> {
    /// A response to a request of this client. Call `poll`, which returns what to do next.
    Consumed,
    /// An indication from the server. The client has checked neither its signature nor its
    /// FINGERPRINT, and has not looked for unknown attributes.
    Indication(Message<'a>),
    /// The datagram is not for this client, so offer it to the next client on the socket. It is not
    /// a STUN message, is a request, is a response to no outstanding request, or comes from the
    /// wrong address. A response must come from the address that answers the request, and an
    /// indication from the server.
    NotOurs,
    /// A response to a request of this client. The response was dropped, and the request continues.
    Dropped(DropReason),
}
