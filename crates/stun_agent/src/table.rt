//! A table of outstanding requests to one address, each with a datum of the owner. It is for a
//! caller that matches responses to requests itself, and does not need the rest of an agent.
ghost use Rattle.std.specs.Prelude.{◌≡◌};
ghost use Rattle.std.specs.Option.{option_copied};
ghost use Rattle.stun_agent.specs.Tables.{new_table};

use crate::state::outstanding::Outstanding;
use crate::stats::StunAgentStats;
use std::alloc::Allocator;
use std::marker::Model;
use std::net::SocketAddr;
use stun_base::transport::TransportType;

/// The outstanding requests to one address, with their retransmission timers. Each request has a
/// datum, which is a value that the owner of the table chooses.
///
/// The table has the same timers as a `StunAgent`, in the same kind of tree, which is ordered by
/// transaction IDs. Unlike an agent, it takes ownership of the bytes of a request and does not read
/// them, and each request has its own timeouts. The table does not see the messages that arrive:
/// the owner decides which request a response answers, and calls `answer`.
///
/// After every call that can change the table, call `poll_transmit` until it returns `None`, and
/// then `poll`.
#[derive(Drop)]
pub struct Table<A: Allocator, D> {
    pub(crate) to: SocketAddr,
    pub(crate) outstanding: Outstanding<A, D>,
    pub(crate) stats: Option<StunAgentStats>,
}

impl<A: Allocator, D> Model for Table<A, D> {
    ghost use Rattle.stun_agent.specs.Tables.{TableSeen};

    ghost Value = { TableSeen D };

    ghost view = { λ t. record {
      transport = t.outstanding.transport;
      to = t.to;
      statistics = t.stats;
      requests = t.outstanding.requests;
      attached = t.outstanding.attached;
    } };
}

impl<A: Allocator + Copy, D: Drop> Table<A, D> {
    /// Creates a table without requests, whose requests will all be sent to the address `to`. The
    /// table keeps statistics if `stats` is true. Does not allocate.
    pub fn new(transport: TransportType, to: SocketAddr, stats: bool) -> Self
        ensures { result ≡ new_table transport to stats }
    {
        Table {
            to,
            outstanding: Outstanding::new(transport),
            stats: stats.then_some(StunAgentStats::default()),
        }
    }

    /// Returns the transport that carries the requests.
    pub fn transport(&self) -> TransportType
        ensures { result ≡ self.now.transport }
    {
        self.outstanding.transport()
    }

    /// Returns the address that the requests go to.
    pub fn to(&self) -> SocketAddr
        ensures { result ≡ self.now.to }
    {
        self.to
    }

    /// Returns the statistics, if the table keeps them.
    pub fn stats(&self) -> Option<&StunAgentStats>
        ensures { option_copied result ≡ self.now.statistics }
    {
        self.stats.as_ref()
    }
}
