//! The transaction layer: sending requests, retransmitting them and giving up on them (RFC 8489,
//! section 6.2). It also remembers the addresses that messages came from.
//!
//! You own the socket, the clock and the source of random numbers. After every call that can change
//! the agent, call `poll_transmit` until it returns `None`, and then `poll`. The order matters,
//! because only `poll_transmit` advances the timers. `rust/checks/src/api/client_loop.rs` contains
//! a complete loop, and docs/PARTS.md gives its steps.
ghost use Rattle.std.specs.Prelude.{◌≡◌};
ghost use Rattle.std.specs.Borrow.{sem};
ghost use Rattle.std.specs.Option.{option_copied, option_copied_mut};
ghost use Rattle.stun_agent.specs.Agent.{Agent};

pub use crate::calls::builder::StunAgentBuilder;
pub use crate::calls::request::{StunRequest, StunRequestMut};
pub use crate::calls::transmit::Transmit;
pub use crate::error::{NoRoom, StunError};
#[doc(hidden)]
pub use crate::poll::reads::Reads;
use crate::state::outstanding::Outstanding;
pub use crate::state::rto::RequestRto;
use crate::stats::StunAgentStats;
use std::alloc::{Allocator, Global};
use std::collections::BTreeSet;
use std::marker::Model;
use std::net::SocketAddr;
use stun_base::instant::Instant;
use stun_base::transaction_id::TransactionId;
use stun_base::transport::TransportType;

/// The result of `StunAgent::poll`.
#[derive(Clone, Copy, Debug, PartialEq, Eq)]
pub enum StunAgentPollRet {
    /// The request with this transaction ID has ended: no response arrived in time.
    TransactionTimedOut(TransactionId),
    /// The request with this transaction ID has ended because you canceled it or its
    /// retransmissions (`StunRequestMut::cancel`, `StunRequestMut::cancel_retransmissions`).
    TransactionCancelled(TransactionId),
    /// No request has ended. Poll again at this time, or earlier if you make another call first.
    WaitUntil(Instant),
}

/// The outstanding requests of one local address, with their retransmission timers.
///
/// An agent can have any number of requests outstanding, to any number of servers or peers. It
/// performs no I/O: you pass it the current time and the messages that arrive, and you send the
/// bytes that it returns.
///
/// The agent also remembers the source address of every message that it accepted. It calls these
/// addresses *validated peers*. The list grows until you call `forget_validated_peer`, so limit the
/// number of unknown addresses whose messages you pass to the agent.
///
/// An agent does not verify signatures. The authenticators decide whether a message may be
/// believed.
#[derive(Drop)]
#[derive_where(Debug)]
pub struct StunAgent<A: Allocator = Global> {
    #[derive_where(skip(Debug))]
    pub(crate) alloc: A,
    pub(crate) local_addr: SocketAddr,
    pub(crate) remote_addr: Option<SocketAddr>,
    pub(crate) settings: RequestRto,
    pub(crate) outstanding: Outstanding<A, ()>,
    pub(crate) peers: BTreeSet<SocketAddr, A>,
    pub(crate) stats: Option<StunAgentStats>,
}

impl<A: Allocator> Model for StunAgent<A> {
    ghost use Rattle.stun_agent.specs.Timing.{settings_of};
    ghost use Rattle.stun_agent.specs.Agent.{Agent};

    ghost Value = { Agent };

    ghost view = { λ a. record {
      transport = a.outstanding.transport;
      local_addr = a.local_addr;
      remote_addr = a.remote_addr;
      settings = settings_of a.settings;
      transactions = a.outstanding.requests;
      peers = a.peers.keys;
      statistics = a.stats;
    } };
}

impl<A: Allocator + Copy> StunAgent<A> {
    ghost use Rattle.stun_agent.specs.Agent.{new_agent};
    ghost use Rattle.stun_agent.specs.AgentLends.{lends_statistics};

    /// Creates a builder for an agent that sends from `local_addr` over `transport`.
    ///
    /// By default the agent may send to any address, uses the timeouts of `RequestRto::default()`,
    /// and keeps no statistics. This call does not allocate. The agent allocates from `alloc` when
    /// it stores requests and addresses.
    pub fn builder(
        alloc: A,
        transport: TransportType,
        local_addr: SocketAddr,
    ) -> StunAgentBuilder<A>
        ensures { result ≡ new_agent transport local_addr }
    {
        StunAgentBuilder {
            alloc,
            transport,
            local_addr,
            remote_addr: None,
            settings: RequestRto::default(),
            stats: false,
        }
    }

    /// Returns the transport that carries the messages.
    pub fn transport(&self) -> TransportType
        ensures { result ≡ self.now.transport }
    {
        self.outstanding.transport()
    }

    /// Returns the address that the agent sends from.
    pub fn local_addr(&self) -> SocketAddr
        ensures { result ≡ self.now.local_addr }
    {
        self.local_addr
    }

    /// Returns the only address that the agent may send to, if `StunAgentBuilder::remote_addr` set
    /// one. Receiving is not restricted.
    pub fn remote_addr(&self) -> Option<SocketAddr>
        ensures { result ≡ self.now.remote_addr }
    {
        self.remote_addr
    }

    /// Returns the statistics, if the agent keeps them.
    pub fn stats(&self) -> Option<&StunAgentStats>
        ensures { option_copied result ≡ self.now.statistics }
    {
        self.stats.as_ref()
    }

    /// Returns a mutable reference to the statistics, if the agent keeps them. Use it to reset
    /// them.
    pub fn stats_mut(&mut self) -> Option<&mut StunAgentStats>
        ensures* lends { sem 𝓛 (lends_statistics A.row A.Allocator self.entry result) }
        ensures value { option_copied_mut result ≡ self.old.statistics }
    {
        self.stats.as_mut()
    }
}
