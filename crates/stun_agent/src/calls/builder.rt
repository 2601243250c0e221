//! The builder of an agent.
ghost use Rattle.std.specs.Prelude.{◌≡◌, Some};
ghost use Rattle.std.specs.Duration.{as_nanos};
ghost use Rattle.stun_agent.specs.Agent.{Agent, statistics_if};

use crate::agent::StunAgent;
use crate::state::outstanding::Outstanding;
use crate::state::rto::RequestRto;
use crate::stats::StunAgentStats;
use std::alloc::{Allocator, Global};
use std::collections::BTreeSet;
use std::marker::Model;
use std::net::SocketAddr;
use std::time::Duration;
use stun_base::transport::TransportType;

/// A builder of a `StunAgent`. Its calls do not allocate.
///
/// By default the agent may send to any address, uses the timeouts of `RequestRto::default()`, and
/// keeps no statistics.
///
/// Contracts: the value is the agent that `build` returns.
#[derive(Drop)]
#[derive_where(Debug)]
pub struct StunAgentBuilder<A: Allocator = Global> {
    #[derive_where(skip(Debug))]
    pub(crate) alloc: A,
    pub(crate) transport: TransportType,
    pub(crate) local_addr: SocketAddr,
    pub(crate) remote_addr: Option<SocketAddr>,
    pub(crate) settings: RequestRto,
    pub(crate) stats: bool,
}

impl<A: Allocator> Model for StunAgentBuilder<A> {
    ghost use Rattle.std.specs.Prelude.{[]};
    ghost use Rattle.stun_agent.specs.Timing.{settings_of};
    ghost use Rattle.stun_agent.specs.Agent.{Agent, statistics_if};

    ghost Value = { Agent };

    ghost view = { λ b. record {
      transport = b.transport;
      local_addr = b.local_addr;
      remote_addr = b.remote_addr;
      settings = settings_of b.settings;
      transactions = [];
      peers = [];
      statistics = statistics_if b.stats;
    } };
}

impl<A: Allocator + Copy> StunAgentBuilder<A> {
    /// Restricts sending to a single remote address.
    ///
    /// Sending to any other address then fails with `ProtocolViolation`. Receiving is not
    /// restricted.
    pub fn remote_addr(mut self, addr: SocketAddr) -> Self
        ensures { result ≡ record self { remote_addr = Some addr } }
    {
        self.remote_addr = Some(addr);
        self
    }

    /// Sets the retransmission timeouts.
    ///
    /// - `initial` is the wait after the first transmission (RTO in RFC 8489, section 6.2.1). Each
    ///   further wait is twice the one before.
    /// - `max` is an upper bound on those waits.
    /// - `retransmits` is the number of transmissions over UDP, the first one included (Rc in the
    ///   RFC). 0 counts as 1.
    /// - `final_wait` is how long to wait for a response after the last transmission.
    ///
    /// Over TCP a request is sent once, and the agent waits for its response for the sum of all
    /// these waits.
    ///
    /// If `initial` or `max` is zero, all transmissions are due at the same time.
    pub fn request_retransmits(
        mut self,
        initial: Duration,
        max: Duration,
        retransmits: u32,
        final_wait: Duration,
    ) -> Self
        ensures { result ≡ record self {
          settings = record {
            initial = as_nanos initial;
            maximum = as_nanos max;
            transmissions = retransmits;
            last_wait = as_nanos final_wait;
          };
        } }
    {
        self.settings = RequestRto {
            initial,
            max,
            retransmits,
            last_retransmit: final_wait,
        };
        self
    }

    /// Sets whether the agent keeps statistics. The default is `false`.
    pub fn stats(mut self, stats: bool) -> Self
        ensures { result ≡ record self { statistics = statistics_if stats } }
    {
        self.stats = stats;
        self
    }

    /// Builds the agent.
    pub fn build(self) -> StunAgent<A>
        ensures { result ≡ self }
    {
        StunAgent {
            alloc: self.alloc,
            local_addr: self.local_addr,
            remote_addr: self.remote_addr,
            settings: self.settings,
            outstanding: Outstanding::new(self.transport),
            peers: BTreeSet::new(self.alloc),
            stats: self.stats.then_some(StunAgentStats::default()),
        }
    }
}
