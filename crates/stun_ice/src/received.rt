//! The outcome of a datagram, of a check of the peer and of a check of this agent, and the reasons
//! for which checks are refused or fail and datagrams are dropped.

ghost use Rattle.std.specs.Net.Socket.{IsPlainSocket, socket_ip};
ghost use Rattle.std.specs.Prelude.{◌≡◌};
ghost use Rattle.stun_types.specs.XorMappedAddress.{IsHidden, xor_port};
ghost use Rattle.stun_ice.specs.Buffered.{LeavesNoAnswer, given_in};
ghost use Rattle.stun_ice.specs.Received.{given_of};
ghost use Rattle.stun_ice.specs.Refusals.{code_of};

use std::alloc::{Allocator, Global};
use std::net::SocketAddr;
use stun_base::attribute_type::AttributeType;
use stun_base::transaction_id::TransactionId;
use stun_types::attribute::XorMappedAddress;
use stun_types::message::Message;

/// The outcome of a datagram, as `Checker::receive` returns it.
#[derive(Debug, Drop)]
pub enum Received<'a, A: Allocator = Global> {
    /// A check of the peer. Send the answer to the address that the check came from.
    Check {
        /// The check. `Checker::sender` returns the username fragment of the peer in it.
        message: Message<'a>,
        /// The bytes to send.
        answer: Vec<u8, A>,
        /// The outcome of the check.
        judged: Judged,
    },
    /// The answer to a check of yours. It ends the check.
    Response(Outcome),
    /// A Binding indication, as peers send to keep a path open (RFC 8445, section 11). It is not
    /// signed, and needs no answer.
    Indication(Message<'a>),
    /// The datagram is dropped, for this reason. If it belongs to a check of yours, that check
    /// continues.
    Dropped(DropReason),
}

/// The outcome of a datagram, as `Checker::receive_into` returns it: the answer to a check is in
/// the buffer of the caller.
#[derive(Debug, Drop)]
pub enum ReceivedInto<'a> {
    /// A check of the peer. Send the answer in the buffer to the address that the check came from.
    Check {
        /// The check. `Checker::sender` returns the username fragment of the peer in it.
        message: Message<'a>,
        /// The outcome of the check.
        judged: Judged,
    },
    /// The answer to a check of yours. It ends the check.
    Response(Outcome),
    /// A Binding indication, as peers send to keep a path open (RFC 8445, section 11). It is not
    /// signed, and needs no answer.
    Indication(Message<'a>),
    /// The datagram is dropped, for this reason. If it belongs to a check of yours, that check
    /// continues.
    Dropped(DropReason),
}

impl<'a, A: Allocator> Received<'a, A> {
    /// Moves the bytes of the answer to a check into a buffer, and returns the other parts of the
    /// outcome. If there is no answer, the buffer is empty afterwards.
    pub(crate) fn into_buffer(self, buffer: &mut Vec<u8, A>) -> ReceivedInto<'a>
        ensures given { given_in result buffer.new.items ≡ given_of self.entry }
        ensures rest { LeavesNoAnswer result buffer.new.items }
    {
        match self {
            Received::Check {
                message,
                answer,
                judged,
            } => {
                *buffer = answer;
                ReceivedInto::Check { message, judged }
            }
            Received::Response(outcome) => {
                buffer.clear();
                ReceivedInto::Response(outcome)
            }
            Received::Indication(message) => {
                buffer.clear();
                ReceivedInto::Indication(message)
            }
            Received::Dropped(reason) => {
                buffer.clear();
                ReceivedInto::Dropped(reason)
            }
        }
    }
}

/// The outcome of a check of the peer.
#[derive(Clone, Copy, Debug, PartialEq, Eq)]
pub enum Judged {
    /// The check is accepted, and the answer is a success. Send a check on the same pair, if no
    /// check of yours has succeeded on it (RFC 8445, section 7.3.1.4).
    Accepted {
        /// The priority in the check. If the address that the check came from is a new
        /// peer-reflexive candidate, the candidate has this priority (section 7.3.1.3).
        priority: u32,
        /// Whether the peer has the controlling role and nominates the pair (section 7.3.1.5).
        nominated: bool,
        /// Whether this agent has switched its role because of the check. The priorities of pairs
        /// depend on the role.
        switched: bool,
    },
    /// The check is not accepted, because the peer must switch its role. The answer is a 487, which
    /// says so (section 7.3.1.1).
    RoleConflict,
    /// The check is refused. The answer is an error with the code of this refusal.
    Refused(Refusal),
}

/// The error with which the answer refuses a check.
#[derive(Clone, Copy, Debug, PartialEq, Eq)]
pub enum Refusal {
    /// 400: the check has no integrity attribute or no USERNAME, or its signature is valid but
    /// PRIORITY is missing or malformed.
    BadRequest,
    /// 401: USERNAME does not begin with the name of this agent and a colon, or the signature is
    /// invalid.
    Unauthenticated,
    /// 420: the signature of the check is valid, but the check has a comprehension-required
    /// attribute that the agent does not understand.
    UnknownAttribute,
}

impl Refusal {
    /// Returns the code of the error response.
    pub fn code(self) -> u16
        ensures { result ≡ code_of self }
    {
        match self {
            Refusal::BadRequest => 400,
            Refusal::Unauthenticated => 401,
            Refusal::UnknownAttribute => 420,
        }
    }
}

/// How a check ended, according to the peer's answer.
#[derive(Clone, Copy, Debug, PartialEq, Eq)]
pub enum Outcome {
    /// The check succeeded, and the pair is valid. The peer saw the check arrive from this address.
    /// If this address is not one of your candidates, it is a new peer-reflexive candidate (RFC
    /// 8445, section 7.2.5.3.1).
    Valid(Mapped),
    /// The peer has the role in which this agent sent the check, and does not switch. This agent
    /// now has the opposite role. Set a new tie-breaker (section 16.1).
    RoleConflict {
        /// Whether this agent has switched its role because of this answer. If it has, check the
        /// pair again (section 7.2.5.1). If it has not, it had already switched, and the pair needs
        /// another check only if no check of the pair was started after the switch.
        switched: bool,
    },
    /// The check failed.
    Failed(Failure),
}

/// Why a check failed.
#[derive(Clone, Copy, Debug, PartialEq, Eq)]
pub enum Failure {
    /// The answer is an error with this code.
    Error(u16),
    /// The answer did not come from the address that the check was sent to (RFC 8445, section
    /// 7.2.5.2.1).
    OtherPath,
    /// The answer has a comprehension-required attribute of this type, which the agent does not
    /// understand.
    NotUnderstood(AttributeType),
    /// The answer has no well-formed XOR-MAPPED-ADDRESS, or no well-formed ERROR-CODE if it is an
    /// error.
    Malformed,
}

/// Why a datagram is dropped.
#[derive(Clone, Copy, Debug, PartialEq, Eq)]
pub enum DropReason {
    /// The datagram does not begin with the header of a STUN message.
    NotStun,
    /// The datagram begins with the header of a STUN message, but its length is not the length in
    /// the header, or an attribute extends past its end.
    Malformed,
    /// The datagram has no FINGERPRINT, or a wrong one, so it is damaged or belongs to another
    /// protocol.
    WrongFingerprint,
    /// The method of the message is not Binding.
    OtherMethod,
    /// The datagram is an indication with a comprehension-required attribute that the agent does
    /// not understand.
    UnknownAttribute,
    /// The datagram is a response, but it does not answer the check that you passed, or you passed
    /// no check.
    NotAsked,
    /// The datagram is a response that the peer has not signed with HMAC-SHA1: its signature is
    /// missing, is invalid or uses another algorithm, or the credentials of the peer are not known
    /// yet. Error responses with the code 400 or 401 are usually not signed, so a check that the
    /// peer refuses with one of these codes times out.
    WrongSignature,
}

/// The address in a success response, from which the peer saw the check arrive.
#[derive(Clone, Copy, Debug, PartialEq, Eq)]
pub struct Mapped {
    attribute: XorMappedAddress,
    id: TransactionId,
}

impl Mapped {
    pub(crate) fn new(attribute: XorMappedAddress, id: TransactionId) -> Mapped
        ensures { result ≡ record { attribute = attribute; id = id } }
    {
        Mapped { attribute, id }
    }

    /// Returns the address.
    pub fn address(&self) -> SocketAddr
        ensures ip { IsHidden self.now.id self.now.attribute (socket_ip result) }
        ensures port { IsPlainSocket result (xor_port self.now.attribute.port) }
    {
        self.attribute.addr(self.id)
    }
}
