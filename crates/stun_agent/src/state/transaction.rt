//! One outstanding request: its bytes, its timeouts, and its deadline.
ghost use Rattle.std.specs.Prelude.{◌≡◌, ◌<◌};
ghost use Rattle.stun_base.specs.Address.{same_address};
ghost use Rattle.stun_agent.specs.code.Awaited.{awaited_by};
ghost use Rattle.stun_agent.specs.code.Transactions.{changed_transaction};
ghost use Rattle.stun_agent.specs.Timing.{settings_of, repetitions};
ghost use Rattle.stun_agent.specs.Transactions.{repeats, is_cancelled, after_silence};
ghost use Rattle.stun_agent.specs.Transactions.{new_transaction, has_slots, awaited_moment};
ghost use Rattle.stun_agent.specs.Transactions.{after_slot, round_trip};

use crate::state::address::is_same;
use crate::state::rto::RequestRto;
use crate::state::timeouts::Timeouts;
use crate::state::tree::awaited::Awaited;
use std::alloc::{Allocator, Global};
use std::marker::Model;
use std::net::SocketAddr;
use stun_base::algorithm::IntegrityAlgorithm;
use stun_base::instant::Instant;
use stun_base::transaction_id::TransactionId;
use stun_base::transport::TransportType;

/// Whether a request is still retransmitted.
#[derive(Clone, Copy, Debug, PartialEq, Eq)]
pub(crate) enum Sending {
    /// The request is retransmitted until its timeouts have passed.
    Repeats,
    /// The request is no longer retransmitted, but its response is awaited.
    Silent,
    /// The request ends at the next poll that reaches it.
    Cancelled,
}

impl Sending {
    pub(crate) fn repeats(self) -> bool
        ensures { result ≡ repeats self }
    {
        matches!(&self, Sending::Repeats)
    }

    fn is_cancelled(self) -> bool
        ensures { result ≡ is_cancelled self }
    {
        matches!(&self, Sending::Cancelled)
    }

    /// Returns the state after the retransmissions are canceled.
    fn silence(self) -> Sending
        ensures { result ≡ after_silence self }
    {
        match self {
            Sending::Repeats => Sending::Silent,
            Sending::Silent => Sending::Silent,
            Sending::Cancelled => Sending::Cancelled,
        }
    }
}

/// A change that the user makes to a request.
#[derive(Clone, Copy, Debug, PartialEq, Eq)]
pub(crate) enum Change {
    /// The request is no longer retransmitted, but its response is awaited.
    Silence,
    /// The request ends, as canceled, at the next poll that reaches it.
    Cancel,
    /// The request gets other timeouts.
    Configure(RequestRto),
}

/// A request that awaits its response. At the end of each timeout there is a slot for a
/// retransmission. `slot` is the number of slots that have passed, and `last` is the time of the
/// last of them. Before the first slot, `last` is the time at which the request was sent.
#[derive(Drop)]
#[derive_where(Debug)]
pub(crate) struct Transaction<A: Allocator = Global> {
    bytes: Vec<u8, A>,
    to: SocketAddr,
    integrity: Option<IntegrityAlgorithm>,
    timeouts: Timeouts,
    slot: u32,
    last: Instant,
    sending: Sending,
}

impl<A: Allocator> Model for Transaction<A> {
    ghost use Rattle.stun_agent.specs.Transactions.{Transaction};

    ghost Value = { Transaction };

    ghost view = { λ t. record {
      bytes = t.bytes.items;
      to = t.to;
      integrity = t.integrity;
      settings = t.timeouts;
      slot = t.slot;
      last = t.last;
      sending = t.sending;
    } };
}

impl<A: Allocator> Transaction<A> {
    pub(crate) fn new(
        bytes: Vec<u8, A>,
        to: SocketAddr,
        integrity: Option<IntegrityAlgorithm>,
        settings: RequestRto,
        now: Instant,
    ) -> Self
        ensures { result ≡ new_transaction bytes.items to integrity (settings_of settings) now }
    {
        Transaction {
            bytes,
            to,
            integrity,
            timeouts: Timeouts::of(settings),
            slot: 0,
            last: now,
            sending: Sending::Repeats,
        }
    }

    pub(crate) fn bytes(&self) -> &[u8]
        ensures { result.now ≡ self.now.bytes }
    {
        self.bytes.as_slice()
    }

    pub(crate) fn into_bytes(self) -> Vec<u8, A>
        ensures { result.items ≡ self.bytes }
    {
        self.bytes
    }

    pub(crate) fn to(&self) -> SocketAddr
        ensures { result ≡ self.now.to }
    {
        self.to
    }

    /// Returns whether the request was sent to this address.
    pub(crate) fn was_sent_to(&self, address: SocketAddr) -> bool
        ensures { result ≡ same_address address self.now.to }
    {
        is_same(address, self.to)
    }

    pub(crate) fn integrity(&self) -> Option<IntegrityAlgorithm>
        ensures { result ≡ self.now.integrity }
    {
        self.integrity
    }

    /// Returns the number of nanoseconds between the time at which the request was sent and the
    /// time `moment`. Returns `None` if `moment` is `None`, or if a timeout of the request has
    /// passed.
    pub(crate) fn measure_round_trip(&self, moment: Option<Instant>) -> Option<u64>
        ensures { result ≡ round_trip moment self.now }
    {
        if self.slot != 0 {
            return None;
        }
        let now = moment?;
        Some(now.as_nanos().saturating_sub(self.last.as_nanos()))
    }

    pub(crate) fn sending(&self) -> Sending
        ensures { result ≡ self.now.sending }
    {
        self.sending
    }

    pub(crate) fn change(&mut self, change: Change)
        ensures { self.new ≡ changed_transaction change self.old }
    {
        match change {
            Change::Silence => self.sending = self.sending.silence(),
            Change::Cancel => self.sending = Sending::Cancelled,
            Change::Configure(settings) => {
                self.timeouts = Timeouts::of(settings);
            }
        }
    }

    /// Returns whether the request has slots left.
    fn has_slots(&self, transport: TransportType) -> bool
        ensures { result ≡ has_slots transport self.now }
    {
        self.slot < self.timeouts.to_settings().slots(transport)
    }

    pub(crate) fn is_cancelled(&self) -> bool
        ensures { result ≡ is_cancelled self.now.sending }
    {
        self.sending.is_cancelled()
    }

    /// Returns the time of the next slot or, if no slot is left, the time at which the request
    /// ends.
    pub(crate) fn compute_awaited(&self, transport: TransportType) -> Instant
        ensures { result ≡ awaited_moment transport self.now }
    {
        let settings = self.timeouts.to_settings();
        let wait = if self.has_slots(transport) {
            settings.timeout(self.slot)
        } else {
            settings.final_wait(transport)
        };
        self.last + wait
    }

    /// Returns the time that the request awaits, as the time of a slot or as the time at which the
    /// request ends. A canceled request awaits no time.
    pub(crate) fn to_awaited(&self, transport: TransportType) -> Awaited
        ensures { result ≡ awaited_by transport self.now }
    {
        if self.is_cancelled() {
            Awaited::with_cancelled()
        } else if self.has_slots(transport) {
            Awaited::with_slot(self.compute_awaited(transport))
        } else {
            Awaited::with_end(self.compute_awaited(transport))
        }
    }

    /// Advances the request past the slot that is due.
    pub(crate) fn take_slot(&mut self, now: Instant)
        requires { self.old.slot < repetitions self.old.settings }
        ensures { self.new ≡ after_slot now self.old }
    {
        prove!(self.slot < self.timeouts.transmissions);
        self.slot += 1;
        self.last = now;
    }
}
