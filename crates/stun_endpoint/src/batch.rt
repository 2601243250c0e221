//! A batch of datagrams, whose responses are written one after another into one buffer. A batch is
//! for a socket that receives several datagrams at once (`recvmmsg`, UDP GRO) and sends several at
//! once (`sendmmsg`).

ghost use Rattle.std.specs.Prelude.{◌≡◌, []};

use crate::buffered::ReceivedInto;
use crate::received::Request;
use std::alloc::{Allocator, Global};
use std::marker::Model;
use std::net::SocketAddr;

/// A datagram of a batch: its bytes, and the address that it came from.
///
/// Contracts: the value is a record of both.
#[derive(Debug, Drop)]
pub struct Datagram<'a> {
    /// The whole datagram.
    pub bytes: &'a [u8],
    /// The address that the datagram came from. The two forms of an IPv4 address, `a.b.c.d` and
    /// `::ffff:a.b.c.d`, count as the same address.
    pub from: SocketAddr,
}

impl<'a> Model for Datagram<'a> {
    ghost use Rattle.stun_endpoint.specs.Batches.{Datagram as DatagramSeen};

    ghost Value = { DatagramSeen };

    ghost view = { λ datagram. record { bytes = datagram.bytes.now; from = datagram.from } };
}

/// The outcome of a datagram of a batch, and where its response is.
#[derive(Debug, Drop)]
pub struct ReceivedAt<'a, A: Allocator = Global> {
    /// The outcome of the datagram.
    pub received: ReceivedInto<'a, Request<'a, A>>,
    /// The offset in `Answers::bytes` at which its response begins.
    pub start: usize,
    /// The offset at which its response ends. If the datagram has no response, this is `start`.
    pub end: usize,
}

/// The responses to a batch of datagrams, one after another in one buffer. Reuse it for the next
/// batch, so that its memory is used again.
///
/// Contracts: the value is the list of the bytes of the responses.
#[derive(Debug, Drop)]
pub struct Answers<A: Allocator = Global> {
    pub(crate) bytes: Vec<u8, A>,
    // The response that was written last. The next response reuses its memory.
    pub(crate) page: Vec<u8, A>,
}

impl<A: Allocator> Model for Answers<A> {
    ghost use Rattle.std.specs.Prelude.{ℕ, List};

    ghost Value = { List ℕ };

    ghost view = { λ answers. answers.bytes.items };
}

impl<A: Allocator + Copy> Answers<A> {
    /// Returns a buffer without responses. It does not allocate.
    pub fn new(alloc: A) -> Self
        ensures { result ≡ [] }
    {
        Answers {
            bytes: Vec::new(alloc),
            page: Vec::new(alloc),
        }
    }
}

impl<A: Allocator> Answers<A> {
    /// Returns the bytes of all responses. The `ReceivedAt` of a datagram has the offsets at which
    /// its response begins and ends.
    pub fn bytes(&self) -> &[u8]
        ensures { result.now ≡ self.now }
    {
        self.bytes.as_slice()
    }

    /// Removes all responses, and keeps the memory for the responses to the next batch.
    pub(crate) fn clear(&mut self)
        ensures { self.new ≡ [] }
    {
        self.bytes.clear();
    }
}
