//! The events in the run of an agent, and the steps of the run.

use std::alloc::{Allocator, Global};
use std::net::SocketAddr;
use std::time::Duration;
use stun_agent::agent::StunError;
use stun_base::instant::Instant;
use stun_base::transaction_id::TransactionId;
use thiserror::Error;

/// An event in the run of an agent: a call of the agent, at a given time.
///
/// See [`drive`], which takes a list of events.
///
/// [`drive`]: crate::replay::drive
#[derive(Debug, Drop, PartialEq, Eq)]
pub enum AgentEvent {
    /// The agent sends an indication or a response.
    Send {
        /// The bytes of the message.
        bytes: Vec<u8>,
        /// The address to send it to.
        to: SocketAddr,
    },
    /// The agent sends a request.
    SendRequest {
        /// The bytes of the request.
        bytes: Vec<u8>,
        /// The address to send it to.
        to: SocketAddr,
    },
    /// A datagram arrives.
    Receive {
        /// The bytes of the datagram.
        bytes: Vec<u8>,
        /// The address that it comes from.
        from: SocketAddr,
    },
    /// The request with this transaction ID is canceled.
    Cancel(TransactionId),
    /// The request with this transaction ID is no longer retransmitted.
    CancelRetransmissions(TransactionId),
    /// The request with this transaction ID gets other timeouts.
    Configure {
        /// The transaction ID of the request.
        id: TransactionId,
        /// The wait after the first transmission.
        initial: Duration,
        /// The number of transmissions over UDP, the first one included.
        retransmits: u32,
        /// The wait after the last transmission.
        last: Duration,
        /// An upper bound on the waits between transmissions.
        max: Duration,
    },
    /// An address is added to the validated peers. This does not affect which messages the agent
    /// accepts.
    ValidatePeer(SocketAddr),
}

/// A step in the run of an agent: what the agent did, and when.
#[derive(Drop)]
#[derive_where(Debug, PartialEq, Eq)]
pub enum AgentStep<A: Allocator = Global> {
    /// The agent sent a request, for the first time or again.
    Transmitted {
        /// The time of the step.
        at: Instant,
        /// The transaction ID of the request.
        id: TransactionId,
        /// The address to send it to.
        to: SocketAddr,
        /// The bytes of the request.
        bytes: Vec<u8, A>,
    },
    /// The agent sent an indication or a response.
    Sent {
        /// The time of the step.
        at: Instant,
        /// The address to send it to.
        to: SocketAddr,
        /// The bytes of the message.
        bytes: Vec<u8, A>,
    },
    /// A message arrived.
    Received {
        /// The time of the step.
        at: Instant,
        /// Whether the agent accepted the message. A request or an indication is always accepted. A
        /// response is accepted if it answers an outstanding request that was sent to its source.
        accepted: bool,
    },
    /// A call failed. The error is `ParseError` for a datagram that is not a STUN message. It is
    /// never `OutOfMemory`, because the run is [`Stopped`] if an allocation fails.
    Refused {
        /// The time of the step.
        at: Instant,
        /// The error that the call returned.
        error: StunError,
    },
    /// A request ended because no response arrived in time.
    TimedOut {
        /// The time of the step.
        at: Instant,
        /// The transaction ID of the request.
        id: TransactionId,
    },
    /// A request ended after it, or its retransmissions, had been canceled.
    Cancelled {
        /// The time of the step.
        at: Instant,
        /// The transaction ID of the request.
        id: TransactionId,
    },
}

/// The error of a run in which an allocation failed.
#[derive(Clone, Copy, PartialEq, Eq, Debug, Error)]
#[error("out of memory after {done} complete events or calls")]
pub struct Stopped {
    /// The number of events or calls that are complete. To continue the run, start at this index.
    ///
    /// Contracts: the law `stopped_runs_go_on` says that the remaining events make exactly the rest
    /// of the run.
    pub done: usize,
}
