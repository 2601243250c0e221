//! The outcome of a datagram whose response is written into a buffer of the caller.

ghost use Rattle.std.specs.Prelude.{◌≡◌};
ghost use Rattle.stun_endpoint.specs.Buffered.{LeavesNothing, outcome_in};
ghost use Rattle.stun_endpoint.specs.Buffered.{LeavesNothingKnown, identification_in};
ghost use Rattle.stun_endpoint.specs.Identified.{identification_of};
ghost use Rattle.stun_endpoint.specs.Outcomes.{outcome_of};

use crate::lookup::{Identified, Lookup};
use crate::open::OpenRequest;
use crate::received::{Answer, DropReason, Received, Refusal, Request};
use crate::short_term::ShortTermIndication;
use std::alloc::{Allocator, Global};
use std::net::SocketAddr;
use stun_types::message::Message;

/// A response to send, whose bytes are in the buffer that you passed.
#[derive(Clone, Copy, Debug, PartialEq, Eq)]
pub struct BufferedAnswer {
    /// The address to send the response to: the source address that you passed.
    pub to: SocketAddr,
    /// The error with which the response refuses the request, or `None` if the response is a
    /// success.
    pub refusal: Option<Refusal>,
}

/// The outcome of a datagram whose response is in your buffer. `R` is the type of an accepted
/// request and `I` that of an accepted indication, as in `Received`.
#[derive(Debug, Drop)]
pub enum ReceivedInto<'a, R = Request<'a>, I = Message<'a>> {
    /// Send the response in the buffer.
    Answer(BufferedAnswer),
    /// The request is accepted. Respond to it, now or later.
    Request(R),
    /// An indication whose attributes are understood. Only a server with short-term credentials
    /// checks who signed it.
    Indication(I),
    /// A response, for a client on the same socket.
    Response(Message<'a>),
    /// The datagram is dropped, for this reason.
    Dropped(DropReason),
}

/// The outcome of a datagram at a server without credentials.
pub type OpenReceivedInto<'a, A = Global> = ReceivedInto<'a, OpenRequest<'a, A>>;

/// The outcome of a datagram at a server with short-term credentials.
pub type ShortTermReceivedInto<'a, A> = ReceivedInto<'a, Request<'a, A>, ShortTermIndication<'a>>;

/// The result of `Server::identify_into` for a datagram.
#[derive(Debug, Drop)]
pub enum IdentifiedInto<'a, A: Allocator = Global> {
    /// The outcome of the datagram, which does not depend on the user.
    Done(ReceivedInto<'a, Request<'a, A>>),
    /// The request waits for its user. Look that user up, and pass both to `Server::resume_into`.
    Lookup(Lookup<'a>),
}

impl<A: Allocator> Answer<A> {
    /// Moves the bytes of the response into a buffer, replacing its contents.
    fn into_buffer(self, buffer: &mut Vec<u8, A>) -> BufferedAnswer
        ensures to { result.to ≡ self.to }
        ensures refusal { result.refusal ≡ self.refusal }
        ensures bytes { buffer.new.items ≡ self.bytes }
    {
        let to = self.to();
        let refusal = self.refusal();
        *buffer = self.into_bytes();
        BufferedAnswer { to, refusal }
    }
}

impl<'a, A: Allocator, R, I> Received<'a, A, R, I> {
    /// Moves the bytes of a response into a buffer. If there is no response, the buffer is empty
    /// afterwards.
    pub(crate) fn into_buffer(self, buffer: &mut Vec<u8, A>) -> ReceivedInto<'a, R, I>
        ensures outcome { outcome_in result buffer.new.items ≡ outcome_of self.entry }
        ensures rest { LeavesNothing result buffer.new.items }
    {
        match self {
            Received::Answer(answer) => ReceivedInto::Answer(answer.into_buffer(buffer)),
            Received::Request(request) => {
                buffer.clear();
                ReceivedInto::Request(request)
            }
            Received::Indication(indication) => {
                buffer.clear();
                ReceivedInto::Indication(indication)
            }
            Received::Response(message) => {
                buffer.clear();
                ReceivedInto::Response(message)
            }
            Received::Dropped(reason) => {
                buffer.clear();
                ReceivedInto::Dropped(reason)
            }
        }
    }
}

impl<'a, A: Allocator> Identified<'a, A> {
    /// Moves the bytes of a response into a buffer. If there is no response, the buffer is empty
    /// afterwards.
    pub(crate) fn into_buffer(self, buffer: &mut Vec<u8, A>) -> IdentifiedInto<'a, A>
        ensures identified { identification_in result buffer.new.items
            ≡ identification_of self.entry }
        ensures rest { LeavesNothingKnown result buffer.new.items }
    {
        match self {
            Identified::Done(received) => IdentifiedInto::Done(received.into_buffer(buffer)),
            Identified::Lookup(lookup) => {
                buffer.clear();
                IdentifiedInto::Lookup(lookup)
            }
        }
    }
}
