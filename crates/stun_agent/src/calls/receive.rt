//! Receiving messages: a response ends its request, and the sender becomes a validated peer.
ghost use Rattle.std.specs.Prelude.{◌≡◌, ◌||◌, length, not, IsTrue};
ghost use Rattle.std.specs.Prelude.{IsOk, IfOk, OnOk, OnErr, Some, None};
ghost use Rattle.std.specs.Option.{is_some};
ghost use Rattle.stun_agent.specs.Agent.{with_validated, without_validated, answered_request};
ghost use Rattle.stun_agent.specs.Agent.{takes_message, after_message, after_response};
ghost use Rattle.stun_agent.specs.Peers.{is_peer};

use crate::agent::StunAgent;
use crate::calls::uncounted::Uncounted;
use crate::stats::counting;
use std::alloc::AllocError;
use std::net::SocketAddr;
use stun_base::instant::Instant;
use stun_base::memory::Memory;
use stun_base::message_type::MessageClass;
use stun_types::message::Message;

impl<A: Memory> StunAgent<A> {
    /// Returns `true` if the agent has accepted a message from this address, or if `validated_peer`
    /// was called for it, and the address has not been forgotten since.
    pub fn is_validated_peer(&self, addr: SocketAddr) -> bool
        ensures { result ≡ is_peer addr self.now.peers }
    {
        self.peers.contains(&addr)
    }

    /// Adds an address to the validated peers, even if no message from it has been accepted.
    ///
    /// This does not affect which messages the agent accepts. If the address is one of the
    /// validated peers already, the call does not allocate. If an allocation fails, the agent is
    /// unchanged.
    pub fn validated_peer(&mut self, addr: SocketAddr) -> Result<(), AllocError>
        ensures ok { OnOk result (self.new ≡ with_validated addr self.old) }
        ensures err { OnErr result (self.new ≡ self.old) }
        ensures there { IsTrue (is_peer addr self.old.peers) → IsOk result × (self.new ≡ self.old) }
        ensures granted { A.grants → IsOk result }
    {
        // For the proof alone: the addresses are in order.
        let _stored = self.peers.len();
        A::add(&mut self.peers, addr)?;
        Ok(())
    }

    /// Returns the number of validated peers, in constant time, so that you can limit it. Does not
    /// allocate.
    pub fn validated_peer_count(&self) -> usize
        ensures { result ≡ length self.now.peers }
    {
        self.peers.len()
    }

    /// Removes an address from the validated peers. Does not allocate.
    ///
    /// Requests to that address stay outstanding. When the next message from it is accepted, the
    /// address is added again.
    pub fn forget_validated_peer(&mut self, addr: SocketAddr)
        ensures { self.new ≡ without_validated addr self.old }
    {
        self.peers.remove(&addr);
    }

    /// Processes a message that arrived from the address `from`, and returns whether the agent
    /// accepts it. Drop a message that is not accepted.
    ///
    /// - A response is accepted if it answers an outstanding request that was sent to exactly this
    ///   address. That request ends.
    /// - Any other response is not accepted, and changes nothing.
    /// - A request or an indication is always accepted. The agent does not answer it.
    ///
    /// The source of an accepted message becomes a validated peer, and stays one until you call
    /// `forget_validated_peer`. So limit the number of addresses whose messages you pass to the
    /// agent, or forget those that you no longer need.
    ///
    /// The call asks the agent's allocator for memory only if it accepts the message and its source
    /// is not a validated peer yet. If that allocation fails, the agent is unchanged, and the
    /// request that a response answers stays outstanding.
    ///
    /// # Security
    ///
    /// Call the authenticator before this call. The agent does not verify the signature, so an
    /// attacker who can send from the server's address and knows the transaction ID, which is sent
    /// in the clear, could end your request with a forged response.
    pub fn handle_stun_message(
        &mut self,
        msg: &Message<'_>,
        from: SocketAddr,
    ) -> Result<bool, AllocError>
        ensures answer { IfOk result (λ taken. taken ≡ takes_message msg.now from self.old) }
        ensures ok { OnOk result (self.new ≡ after_message None msg.now from self.old) }
        ensures err { OnErr result (self.new ≡ self.old) }
        ensures no_memory { IsTrue (is_peer from self.old.peers || not
            (takes_message msg.now from self.old)) → IsOk result }
        ensures granted { A.grants → IsOk result }
    {
        self.receive(msg, from, None)
    }

    /// Like `handle_stun_message`, but also measures the round-trip time.
    ///
    /// A round trip is measured only until `poll_transmit` advances the request past its first
    /// timeout, because after a retransmission it is unclear which transmission was answered. This
    /// also holds for a request whose retransmissions were canceled. Over TCP there are no
    /// retransmissions, so every round trip is measured.
    pub fn handle_stun_message_with_time(
        &mut self,
        msg: &Message<'_>,
        from: SocketAddr,
        now: Instant,
    ) -> Result<bool, AllocError>
        ensures answer { IfOk result (λ taken. taken ≡ takes_message msg.now from self.old) }
        ensures ok { OnOk result (self.new ≡ after_message (Some now) msg.now from self.old) }
        ensures err { OnErr result (self.new ≡ self.old) }
        ensures no_memory { IsTrue (is_peer from self.old.peers || not
            (takes_message msg.now from self.old)) → IsOk result }
        ensures granted { A.grants → IsOk result }
    {
        self.receive(msg, from, Some(now))
    }

    /// Processes a message, and returns whether the agent accepts it. If `moment` has the current
    /// time, the call also measures the round trip of a response.
    fn receive(
        &mut self,
        msg: &Message<'_>,
        from: SocketAddr,
        moment: Option<Instant>,
    ) -> Result<bool, AllocError>
        ensures answer { IfOk result (λ taken. taken ≡ takes_message msg.now from self.old) }
        ensures ok { OnOk result (self.new ≡ after_message moment msg.now from self.old) }
        ensures err { OnErr result (self.new ≡ self.old) }
        ensures no_memory { IsTrue (is_peer from self.old.peers || not
            (takes_message msg.now from self.old)) → IsOk result }
        ensures granted { A.grants → IsOk result }
    {
        let count = msg.as_bytes().len();
        match msg.class() {
            MessageClass::Request => {
                self.validated_peer(from)?;
                counting::count_request_received(&mut self.stats, count);
                Ok(true)
            }
            MessageClass::Indication => {
                self.validated_peer(from)?;
                counting::count_indication_received(&mut self.stats, count);
                Ok(true)
            }
            MessageClass::Success => self.receive_response(msg, from, moment),
            MessageClass::Error => self.receive_response(msg, from, moment),
        }
    }

    /// Processes a response, and accepts it if it answers an outstanding request that was sent to
    /// its sender.
    fn receive_response(
        &mut self,
        msg: &Message<'_>,
        from: SocketAddr,
        moment: Option<Instant>,
    ) -> Result<bool, AllocError>
        ensures answer { IfOk result
            (λ taken. taken ≡ is_some (answered_request msg.now from self.old)) }
        ensures ok { OnOk result (self.new ≡ after_response moment msg.now from self.old) }
        ensures err { OnErr result (self.new ≡ self.old) }
        ensures no_memory { IsTrue (is_peer from self.old.peers || not
            (is_some (answered_request msg.now from self.old))) → IsOk result }
        ensures granted { A.grants → IsOk result }
    {
        let id = msg.transaction_id();
        let round_trip = match self.outstanding.get(id, Uncounted::new()) {
            Some(request) => {
                if !request.was_sent_to(from) {
                    return Ok(false);
                }
                request.measure_round_trip(moment)
            }
            None => return Ok(false),
        };
        self.validated_peer(from)?;
        let _ended = self.outstanding.remove(id);
        counting::count_response_received(&mut self.stats, msg.as_bytes().len(), round_trip);
        Ok(true)
    }
}
