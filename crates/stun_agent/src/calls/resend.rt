//! Retransmissions: which requests are due to be retransmitted, and when.
ghost use Rattle.std.specs.Prelude.{◌≡◌, ◌≤◌, ◌<◌, length};
ghost use Rattle.std.specs.Prelude.{IfSome, IsSomeAnd, IfOk, OnOk, OnErr};
ghost use Rattle.std.specs.Borrow.{sem};
ghost use Rattle.std.specs.Option.{option_map};
ghost use Rattle.stun_agent.specs.Agent.{sent_by_poll, after_poll_transmit, datagram_of};
ghost use Rattle.stun_agent.specs.Datagrams.{lent_datagram};
ghost use Rattle.stun_agent.specs.Transactions.{IsNamed, AreKept, next_awaited, at};
ghost use Rattle.stun_agent.specs.code.Transactions.{contents};

use crate::agent::StunAgent;
use crate::calls::transmit::Transmit;
use crate::calls::uncounted::Uncounted;
use crate::error::NoRoom;
use crate::stats::counting;
use std::alloc::Allocator;
use stun_base::instant::Instant;
use stun_base::transaction_id::TransactionId;

impl<A: Allocator + Copy> StunAgent<A> {
    ghost use Rattle.stun_agent.specs.AgentLends.{ends_as, ends_if_ok_as};

    /// Returns the earliest time at which a request is due to be retransmitted or to end, or `None`
    /// if no request has such a time. Canceled requests do not count, because they end at the next
    /// `poll`. Does not allocate.
    pub fn next_awaited(&self) -> Option<Instant>
        ensures least { result ≡ next_awaited self.now.transport self.now.transactions }
        ensures kept { AreKept self.now.transactions }
    {
        self.outstanding.find_next_awaited(Uncounted::new())
    }

    /// Returns the next retransmission that is due, if there is one.
    ///
    /// Each call returns at most one request, the one with the least transaction ID among those
    /// that are due, so call until it returns `None`. When many requests are due at once, you may
    /// send some of them, read from your socket, and continue: no retransmission is lost.
    ///
    /// The bytes are borrowed from the agent and are not copied, and the call does not allocate.
    /// The first transmission of a request comes from `send_request` and is not returned here.
    pub fn poll_transmit(&mut self, now: Instant) -> Option<Transmit<&[u8]>>
        ensures* after { sem 𝓛 (ends_as A.row A.Allocator self.entry
            (after_poll_transmit now self.old)) }
        ensures sent { option_map lent_datagram result
            ≡ option_map (λ e. datagram_of self.old e.1) (sent_by_poll now self.old) }
        ensures request { IfSome (sent_by_poll now self.old) IsNamed }
    {
        let Ok(Some(id)) = self.pass_and_count(now, None) else {
            return None;
        };
        self.make_transmit(id)
    }

    /// Like `poll_transmit`, but fails with `NoRoom` if the request has more than `room` bytes. The
    /// agent is then unchanged, so no retransmission is lost.
    pub fn poll_transmit_within(
        &mut self,
        now: Instant,
        room: usize,
    ) -> Result<Option<Transmit<&[u8]>>, NoRoom>
        ensures* after { sem 𝓛 (ends_if_ok_as A.row A.Allocator self.entry result
            (after_poll_transmit now self.old)) }
        ensures sent { IfOk result (λ sent. option_map lent_datagram sent
            ≡ option_map (λ e. datagram_of self.old e.1) (sent_by_poll now self.old)) }
        ensures fits { OnOk result (IfSome (sent_by_poll now self.old)
            (λ e. length e.1.bytes ≤ room)) }
        ensures request { OnOk result (IfSome (sent_by_poll now self.old) IsNamed) }
        ensures refused { OnErr result (IsSomeAnd (sent_by_poll now self.old)
            (λ e. room < length e.1.bytes)) }
    {
        let Some(id) = self.pass_and_count(now, Some(room))? else {
            return Ok(None);
        };
        Ok(self.make_transmit(id))
    }

    /// Returns the next retransmission that is due, like `poll_transmit`, but leaves the agent
    /// unchanged.
    ///
    /// Use this call if you have to know the number of bytes before you call `poll_transmit`, for
    /// example to prepare a buffer. Does not allocate, and copies nothing.
    pub fn next_transmit(&self, now: Instant) -> Option<Transmit<&[u8]>>
        ensures sent { option_map lent_datagram result
            ≡ option_map (λ e. datagram_of self.now e.1) (sent_by_poll now self.now) }
    {
        let request = self.outstanding.find_next_sent(now, Uncounted::new())?;
        Some(Transmit {
            data: request.bytes(),
            transport: self.outstanding.transport(),
            from: self.local_addr,
            to: request.to(),
        })
    }

    /// Returns the bytes of the request with this transaction ID, and the address to send them to.
    /// Returns `None` if no such request is outstanding.
    fn make_transmit(&self, id: TransactionId) -> Option<Transmit<&[u8]>>
        ensures { option_map lent_datagram result
            ≡ option_map (datagram_of self.now) (at id self.now.transactions) }
    {
        let request = self.outstanding.get(id, Uncounted::new())?;
        Some(Transmit {
            data: request.bytes(),
            transport: self.outstanding.transport(),
            from: self.local_addr,
            to: request.to(),
        })
    }

    /// Like `Outstanding::pass_due_slots`, but returns only the transaction ID of the request to
    /// retransmit, and counts the retransmission in the statistics. If the request has more than
    /// `room` bytes, the call fails, and nothing changes.
    fn pass_and_count(
        &mut self,
        now: Instant,
        room: Option<usize>,
    ) -> Result<Option<TransactionId>, NoRoom>
        ensures sent { IfOk result (λ sent. sent
            ≡ option_map (λ e. e.0) (sent_by_poll now self.old)) }
        ensures fits { OnOk result (IfSome room (λ r. IfSome (sent_by_poll now self.old)
            (λ e. length e.1.bytes ≤ r))) }
        ensures after { OnOk result (self.new ≡ after_poll_transmit now self.old) }
        ensures kept { IfOk result (λ sent. IfSome sent (λ id.
            option_map contents (at id self.new.transactions)
            ≡ option_map (λ e. contents e.1) (sent_by_poll now self.old))) }
        ensures request { OnOk result (IfSome (sent_by_poll now self.old) IsNamed) }
        ensures refused { OnErr result (IsSomeAnd room (λ r. IsSomeAnd (sent_by_poll now self.old)
            (λ e. r < length e.1.bytes))) }
        ensures same { OnErr result (self.new ≡ self.old) }
    {
        let leave = Uncounted::new();
        let Some((id, length)) = self.outstanding.pass_due_slots(now, room, leave)? else {
            return Ok(None);
        };
        counting::count_sent_again(&mut self.stats, length);
        Ok(Some(id))
    }
}
