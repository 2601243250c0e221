//! Handles to an outstanding request: to read it, to cancel it, and to set its timeouts.
ghost use Rattle.std.specs.Prelude.{◌≡◌, IfSome, Ok};
ghost use Rattle.std.specs.Borrow.{sem};
ghost use Rattle.std.specs.Duration.{as_nanos, max_nanos};
ghost use Rattle.std.specs.Option.{option_map};
ghost use Rattle.stun_agent.specs.Agent.{with_transactions};
ghost use Rattle.stun_agent.specs.Requests.{StaysWith, rests, peer_and_integrity, lends_agent};
ghost use Rattle.stun_agent.specs.Transactions.{at, with_change_at, without_retransmissions};
ghost use Rattle.stun_agent.specs.Transactions.{with_cancellation, with_settings};
ghost use Rattle.stun_agent.specs.code.Transactions.{changed_transaction};

use crate::agent::StunAgent;
use crate::calls::uncounted::Uncounted;
use crate::state::rto::RequestRto;
use crate::state::transaction::Change;
use std::alloc::{AllocError, Allocator, Global};
use std::net::SocketAddr;
use std::time::Duration;
use stun_base::algorithm::IntegrityAlgorithm;
use stun_base::transaction_id::TransactionId;

/// An outstanding request, returned by `StunAgent::request_transaction`.
#[derive(Drop)]
#[derive_where(Debug)]
pub struct StunRequest<'a, A: Allocator = Global> {
    agent: &'a StunAgent<A>,
    peer_address: SocketAddr,
    integrity: Option<IntegrityAlgorithm>,
}

/// A mutable handle to an outstanding request, returned by `StunAgent::mut_request_transaction`.
///
/// If the request ends while you have the handle, the calls that change the request have no effect.
/// The peer address and the algorithm can still be read.
#[derive(Drop)]
#[derive_where(Debug)]
pub struct StunRequestMut<'a, A: Allocator = Global> {
    agent: &'a mut StunAgent<A>,
    id: TransactionId,
    peer_address: SocketAddr,
    integrity: Option<IntegrityAlgorithm>,
}

impl<A: Allocator + Copy> StunAgent<A> {
    /// Returns the outstanding request with this transaction ID, if there is one. Does not
    /// allocate.
    pub fn request_transaction(&self, id: TransactionId) -> Option<StunRequest<'_, A>>
        ensures request { option_map (λ r. (r.peer_address, r.integrity)) result
            ≡ option_map peer_and_integrity (at id self.now.transactions) }
        ensures agent { IfSome result (λ r. r.agent.now ≡ self.now) }
    {
        let request = self.outstanding.get(id, Uncounted::new())?;
        Some(StunRequest {
            agent: self,
            peer_address: request.to(),
            integrity: request.integrity(),
        })
    }

    /// Returns a handle to the outstanding request with this transaction ID, if there is one. Use
    /// it to cancel the request, or to change its timeouts. Does not allocate.
    pub fn mut_request_transaction(&mut self, id: TransactionId) -> Option<StunRequestMut<'_, A>>
        ensures* lends { sem 𝓛 (rests A.row A.Allocator self.entry result) }
        ensures request { option_map (λ r. (r.peer_address, r.integrity)) result
            ≡ option_map peer_and_integrity (at id self.old.transactions) }
        ensures agent { IfSome result (λ r. (r.agent.now ≡ self.old)
            × (r.agent.ghost_name ≡ self.entry.ghost_name)
            × (r.id ≡ id)) }
    {
        let (peer_address, integrity) = self.find_peer(id)?;
        Some(StunRequestMut {
            agent: self,
            id,
            peer_address,
            integrity,
        })
    }

    /// Returns the address that the request with this transaction ID was sent to, and the algorithm
    /// of its integrity attribute. Returns `None` if no such request is outstanding.
    fn find_peer(&self, id: TransactionId) -> Option<(SocketAddr, Option<IntegrityAlgorithm>)>
        ensures { result ≡ option_map peer_and_integrity (at id self.now.transactions) }
    {
        let request = self.outstanding.get(id, Uncounted::new())?;
        Some((request.to(), request.integrity()))
    }

    /// Applies a change to the request with this transaction ID, if it is outstanding.
    fn change(&mut self, id: TransactionId, change: Change)
        ensures { self.new ≡ with_transactions self.old
            (with_change_at (changed_transaction change) id self.old.transactions) }
    {
        self.outstanding.change(id, change);
    }
}

impl<'a, A: Allocator + Copy> StunRequest<'a, A> {
    /// Returns the address that the request was sent to.
    pub fn peer_address(&self) -> SocketAddr
        ensures { result ≡ self.now.peer_address }
    {
        self.peer_address
    }

    /// Returns the algorithm of the request's integrity attribute, or `None` if the request has no
    /// integrity attribute. If the request has both integrity attributes, this is HMAC-SHA256.
    pub fn integrity(&self) -> Option<IntegrityAlgorithm>
        ensures { result ≡ self.now.integrity }
    {
        self.integrity
    }

    /// Returns the agent that sent the request.
    pub fn agent(&self) -> &StunAgent<A>
        ensures { result.now ≡ self.now.agent.now }
    {
        self.agent
    }
}

/// Copies the handle. Does not allocate.
impl<'a, A: Allocator> Clone for StunRequest<'a, A> {
    ghost use Rattle.std.specs.Prelude.{◌≡◌, ⊤};

    ghost is_clone = { λ old new. new ≡ old };

    ghost is_infallible = { λ _. ⊤ };

    fn clone(&self) -> Result<Self, AllocError> {
        Ok(StunRequest {
            agent: self.agent,
            peer_address: self.peer_address,
            integrity: self.integrity,
        })
    }
}

impl<'a, A: Allocator + Copy> StunRequestMut<'a, A> {
    /// Returns the address that the request was sent to.
    pub fn peer_address(&self) -> SocketAddr
        ensures { result ≡ self.now.peer_address }
    {
        self.peer_address
    }

    /// Returns the algorithm of the request's integrity attribute, or `None` if the request has no
    /// integrity attribute. If the request has both integrity attributes, this is HMAC-SHA256.
    pub fn integrity(&self) -> Option<IntegrityAlgorithm>
        ensures { result ≡ self.now.integrity }
    {
        self.integrity
    }

    /// Returns the agent that sent the request.
    pub fn agent(&self) -> &StunAgent<A>
        ensures { result.now ≡ self.now.agent.now }
    {
        self.agent
    }

    /// Returns a mutable reference to the agent that sent the request. Calls on the agent may end
    /// the request.
    pub fn mut_agent(&mut self) -> &mut StunAgent<A>
        ensures* lends { sem 𝓛 (lends_agent A.row A.Allocator self.entry result) }
        ensures value { result.now ≡ self.old.agent.now }
    {
        self.agent
    }

    /// Stops retransmitting the request, but still waits for its response.
    ///
    /// The request still ends at the time of its timeout, but `poll` then reports it as canceled.
    /// An ICE agent uses this call when it no longer needs the result of a check, but can still use
    /// it.
    ///
    /// Does nothing if the request is no longer outstanding. Does not allocate.
    pub fn cancel_retransmissions(&mut self)
        ensures { StaysWith self.old self.new
            (with_change_at without_retransmissions self.old.id self.old.agent.now.transactions) }
    {
        self.agent.change(self.id, Change::Silence);
    }

    /// Cancels the request: it is not retransmitted, and a following `poll` reports it as
    /// canceled.
    ///
    /// Until that poll the request is still outstanding: its transaction ID cannot be reused, and a
    /// response that arrives earlier is accepted.
    ///
    /// Does nothing if the request is no longer outstanding. Does not allocate.
    pub fn cancel(&mut self)
        ensures { StaysWith self.old self.new
            (with_change_at with_cancellation self.old.id self.old.agent.now.transactions) }
    {
        self.agent.change(self.id, Change::Cancel);
    }

    /// Replaces the timeouts of this request: the wait after the first transmission, the number of
    /// transmissions over UDP, and the wait after the last one.
    ///
    /// Timeouts that have already passed still count, and the current wait still starts at the last
    /// of them. The waits between transmissions have no upper bound, even if the builder set one:
    /// use `configure_timeout_with_max` to set a bound.
    ///
    /// Does nothing if the request is no longer outstanding. Does not allocate.
    pub fn configure_timeout(
        &mut self,
        initial: Duration,
        retransmits: u32,
        last_retransmit: Duration,
    )
        ensures { StaysWith self.old self.new
            (with_change_at (with_settings (record {
              initial = as_nanos initial;
              maximum = max_nanos;
              transmissions = retransmits;
              last_wait = as_nanos last_retransmit;
            }))
            self.old.id self.old.agent.now.transactions) }
    {
        self.configure_timeout_with_max(initial, retransmits, last_retransmit, Duration::MAX);
    }

    /// Replaces the timeouts like `configure_timeout`, with `max` as an upper bound on the waits
    /// between transmissions.
    pub fn configure_timeout_with_max(
        &mut self,
        initial: Duration,
        retransmits: u32,
        last_retransmit: Duration,
        max: Duration,
    )
        ensures { StaysWith self.old self.new
            (with_change_at (with_settings (record {
              initial = as_nanos initial;
              maximum = as_nanos max;
              transmissions = retransmits;
              last_wait = as_nanos last_retransmit;
            }))
            self.old.id self.old.agent.now.transactions) }
    {
        let settings = RequestRto {
            initial,
            max,
            retransmits,
            last_retransmit,
        };
        self.agent.change(self.id, Change::Configure(settings));
    }
}
