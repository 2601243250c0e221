//! Reads a datagram before a server judges it: finds out whether the datagram is dropped and, if it
//! is not, its class (RFC 8489, sections 6.3 and 7.3).

ghost use Rattle.std.specs.Prelude.{◌≡◌, None};
ghost use Rattle.stun_endpoint.specs.Answers.{is_fingerprinted};
ghost use Rattle.stun_endpoint.specs.Responding.{drop_reason, no_message};
ghost use Rattle.stun_endpoint.specs.code.Arriving.{IsByClass, dropped_in};

use crate::received::DropReason;
use stun_base::header::MessageHeader;
use stun_extra::fingerprint::{Fingerprint, check_fingerprint};
use stun_types::message::{Message, MessageClass};

/// A datagram that has arrived at a server, before any credentials are checked. All kinds of
/// servers use it.
#[derive(Drop)]
pub(crate) enum Arrived<'a> {
    /// A request, and whether it has a valid FINGERPRINT.
    Request(Message<'a>, bool),
    /// An indication.
    Indication(Message<'a>),
    /// A response, for a client on the same socket.
    Response(Message<'a>),
    /// Bytes or a message that the server drops for this reason, whatever the class is.
    Dropped(DropReason),
}

impl<'a> Arrived<'a> {
    /// Reads a datagram. If `is_required` is true, a datagram without FINGERPRINT is dropped.
    pub(crate) fn read(bytes: &'a [u8], is_required: bool) -> Arrived<'a>
        ensures dropped { drop_reason is_required bytes.now ≡ dropped_in result }
        ensures class { IsByClass bytes.now result }
    {
        let Ok(message) = Message::from_bytes(bytes) else {
            return Arrived::Dropped(find_drop_reason(bytes));
        };
        match check_fingerprint(&message) {
            Fingerprint::Right => Arrived::by_class(message, true),
            Fingerprint::Wrong => Arrived::Dropped(DropReason::WrongFingerprint),
            Fingerprint::Misplaced => Arrived::Dropped(DropReason::WrongFingerprint),
            Fingerprint::Absent if is_required => Arrived::Dropped(DropReason::MissingFingerprint),
            Fingerprint::Absent => Arrived::by_class(message, false),
        }
    }

    /// Returns a message that is not dropped, by its class.
    fn by_class(message: Message<'a>, has_fingerprint: bool) -> Arrived<'a>
        requires { has_fingerprint ≡ is_fingerprinted message }
        ensures undropped { dropped_in result ≡ None }
        ensures class { IsByClass message.entry result }
    {
        match message.class() {
            MessageClass::Request => Arrived::Request(message, has_fingerprint),
            MessageClass::Indication => Arrived::Indication(message),
            MessageClass::Success => Arrived::Response(message),
            MessageClass::Error => Arrived::Response(message),
        }
    }
}

/// Returns why bytes that are not a message are dropped: `Malformed` if they begin with the header
/// of a STUN message, and `NotStun` otherwise.
fn find_drop_reason(bytes: &[u8]) -> DropReason
    ensures { result ≡ no_message bytes.now }
{
    match MessageHeader::from_bytes(bytes) {
        Ok(_) => DropReason::Malformed,
        Err(_) => DropReason::NotStun,
    }
}
