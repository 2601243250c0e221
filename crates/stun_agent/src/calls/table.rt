//! The calls of a table on its requests, except `poll`.
ghost use Rattle.std.specs.Prelude.{◌≡◌, length, Err, OnOk, OnErr, IsOkUnless, MatchOption};
ghost use Rattle.std.specs.Prelude.{IfSome, IsOk, None};
ghost use Rattle.std.specs.Option.{is_some, option_copied, option_map};
ghost use Rattle.stun_agent.specs.Tables.{IsTable, datum_at, after_sending, after_answer};
ghost use Rattle.stun_agent.specs.Tables.{after_cancel, with_other_datum, sent_in};
ghost use Rattle.stun_agent.specs.Tables.{after_transmission};
ghost use Rattle.stun_agent.specs.Timing.{settings_of};
ghost use Rattle.stun_agent.specs.Transactions.{IsRequestOf, at, next_awaited};

use crate::calls::uncounted::Uncounted;
use crate::error::StunError;
use crate::state::rto::RequestRto;
use crate::state::transaction::Transaction;
use crate::stats::counting;
use crate::table::Table;
use stun_base::instant::Instant;
use stun_base::memory::Memory;
use stun_base::message_type::MessageClass;
use stun_base::transaction_id::TransactionId;

impl<A: Memory, D: Drop> Table<A, D> {
    /// Returns whether a request with this transaction ID is outstanding.
    pub fn has(&self, id: TransactionId) -> bool
        ensures has { result ≡ is_some (at id self.now.requests) }
        ensures table { IsTable self.now }
    {
        self.outstanding.has(id, Uncounted::new())
    }

    /// Returns the bytes of the outstanding request with this transaction ID, if there is one.
    pub fn bytes_of(&self, id: TransactionId) -> Option<&[u8]>
        ensures { option_map (λ b. b.now) result
            ≡ option_map (λ t. t.bytes) (at id self.now.requests) }
    {
        let request = self.outstanding.get(id, Uncounted::new())?;
        Some(request.bytes())
    }

    /// Returns the datum of the outstanding request with this transaction ID, if there is one.
    pub fn datum(&self, id: TransactionId) -> Option<&D>
        ensures { option_copied result ≡ datum_at id self.now.attached }
    {
        self.outstanding.find_datum(id, Uncounted::new())
    }

    /// Replaces the datum of the outstanding request with this transaction ID, and returns the
    /// former datum. If there is no such request, drops `datum` and returns `None`. Does not
    /// allocate.
    pub fn replace_datum(&mut self, id: TransactionId, datum: D) -> Option<D>
        ensures before { result ≡ datum_at id self.old.attached }
        ensures after { self.new ≡ with_other_datum id datum self.old }
    {
        self.outstanding.replace_datum(id, datum)
    }

    /// Stores a request, starts its retransmission timer with these timeouts, and counts it in the
    /// statistics. You must then send its bytes.
    ///
    /// The bytes are moved into the table. They must begin with a header that has this transaction
    /// ID. The request stays outstanding until `answer`, `cancel` or `poll` returns its datum.
    ///
    /// # Errors
    ///
    /// The first of these that applies. The table is then unchanged, and the bytes and the datum
    /// are dropped.
    ///
    /// - `AlreadyInProgress`: a request with this transaction ID is outstanding.
    /// - `OutOfMemory`: the request could not be stored.
    pub fn send(
        &mut self,
        alloc: A,
        id: TransactionId,
        bytes: Vec<u8, A>,
        timeouts: RequestRto,
        datum: D,
        now: Instant,
    ) -> Result<(), StunError>
        requires named { IsRequestOf id bytes.items }
        ensures refused { MatchOption (at id self.old.requests)
            (IsOkUnless result StunError.OutOfMemory)
            (λ t. result ≡ Err StunError.AlreadyInProgress) }
        ensures granted { A.grants → at id self.old.requests ≡ None → IsOk result }
        ensures ok { OnOk result (self.new
            ≡ after_sending id bytes.items (settings_of timeouts) datum now self.old) }
        ensures err { OnErr result (self.new ≡ self.old) }
    {
        if self.outstanding.has(id, Uncounted::new()) {
            return Err(StunError::AlreadyInProgress);
        }
        let count = bytes.len();
        let request = Transaction::new(bytes, self.to, None, timeouts, now);
        self.outstanding.insert(alloc, id, request, datum)?;
        counting::count_sent(&mut self.stats, MessageClass::Request, count);
        Ok(())
    }

    /// Ends the outstanding request with this transaction ID because a response of `count` bytes
    /// has arrived, and returns the request's bytes and datum. Returns `None` and changes nothing
    /// if there is no such request. Does not allocate.
    ///
    /// If you pass the current time, the call measures the round trip, unless a timeout of the
    /// request has passed (see `StunAgent::handle_stun_message_with_time`).
    pub fn answer(
        &mut self,
        id: TransactionId,
        count: usize,
        now: Option<Instant>,
    ) -> Option<(Vec<u8, A>, D)>
        ensures bytes { option_map (λ r. r.0.items) result
            ≡ option_map (λ t. t.bytes) (at id self.old.requests) }
        ensures datum { option_map (λ r. r.1) result ≡ datum_at id self.old.attached }
        ensures after { self.new ≡ after_answer id count now self.old }
    {
        let (request, datum) = self.outstanding.remove(id)?;
        let round_trip = request.measure_round_trip(now);
        counting::count_response_received(&mut self.stats, count, round_trip);
        Some((request.into_bytes(), datum))
    }

    /// Ends the outstanding request with this transaction ID without a response, and returns the
    /// request's bytes and datum. The statistics count the request as canceled. Returns `None` and
    /// changes nothing if there is no such request. Does not allocate.
    pub fn cancel(&mut self, id: TransactionId) -> Option<(Vec<u8, A>, D)>
        ensures bytes { option_map (λ r. r.0.items) result
            ≡ option_map (λ t. t.bytes) (at id self.old.requests) }
        ensures datum { option_map (λ r. r.1) result ≡ datum_at id self.old.attached }
        ensures after { self.new ≡ after_cancel id self.old }
    {
        let (request, datum) = self.outstanding.remove(id)?;
        counting::count_end(&mut self.stats, false);
        Some((request.into_bytes(), datum))
    }

    /// Returns the transaction ID of the next request to retransmit, or `None` if no retransmission
    /// is due. `bytes_of` returns the bytes of the request.
    ///
    /// Each call returns at most one request, the one with the least transaction ID among those
    /// that are due, so call until it returns `None`. Does not allocate.
    pub fn poll_transmit(&mut self, now: Instant) -> Option<TransactionId>
        ensures sent { result ≡ option_map (λ e. e.0) (sent_in now self.old) }
        ensures bytes { IfSome result (λ id. option_map (λ t. t.bytes) (at id self.new.requests)
            ≡ option_map (λ e. e.1.bytes) (sent_in now self.old)) }
        ensures after { self.new ≡ after_transmission now self.old }
    {
        let passed = self.outstanding.pass_due_slots(now, None, Uncounted::new());
        let Ok(Some((id, count))) = passed else {
            return None;
        };
        counting::count_sent_again(&mut self.stats, count);
        Some(id)
    }

    /// Returns the earliest time at which a request is due to be retransmitted or to end, or `None`
    /// if no request has such a time. Does not allocate.
    pub fn next_awaited(&self) -> Option<Instant>
        ensures { result ≡ next_awaited self.now.transport self.now.requests }
    {
        self.outstanding.find_next_awaited(Uncounted::new())
    }
}
