//! The requests of a client, each stored once.
ghost use Rattle.std.specs.Option.{option_and_then, option_copied, option_map};
ghost use Rattle.std.specs.Prelude.{◌≡◌, IfOk, IsOk, IsOkUnless, MatchOption, None, OnErr, OnOk, Some};
ghost use Rattle.std.specs.Prelude.{Err, IsErrOf, IsSome, false, true, ◌==◌, if◌then◌else◌};
ghost use Rattle.stun_agent.specs.Tables.{after_transmission};
ghost use Rattle.stun_agent.specs.Timing.{settings_of};
ghost use Rattle.stun_agent.specs.Transactions.{IsRequestOf};
ghost use Rattle.stun_client_requests.specs.Laws.{IsRequests};
ghost use Rattle.stun_client_requests.specs.Numbers.{id_at};
ghost use Rattle.stun_client_requests.specs.Requests.{after_again, again_refusal};
ghost use Rattle.stun_client_requests.specs.Requests.{after_answering, after_canceling};
ghost use Rattle.stun_client_requests.specs.Requests.{after_removing, after_replacing};
ghost use Rattle.stun_client_requests.specs.Requests.{after_start, bytes_at, datum_of, ends_step};
ghost use Rattle.stun_client_requests.specs.Requests.{new_requests, number_at, outstanding_count};
ghost use Rattle.stun_client_requests.specs.Requests.{over_step, polled, repeated, repeats_step};
ghost use Rattle.stun_client_requests.specs.Requests.{start_refusal, wait_of};

use crate::numbers::Numbers;
use std::alloc::Allocator;
use std::marker::Model;
use std::net::SocketAddr;
use stun_agent::agent::RequestRto;
use stun_agent::stats::StunAgentStats;
use stun_agent::table::Table;
use stun_base::instant::Instant;
use stun_base::memory::Memory;
use stun_base::transaction_id::TransactionId;
use stun_base::transport::TransportType;
use thiserror::Error;

/// The number and the datum that are stored with the bytes of an outstanding request.
#[derive(Drop)]
pub struct Request<D> {
    /// The number of the request.
    pub number: u64,
    /// The datum that the owner of the requests stores with this request.
    pub datum: D,
}

/// Why a request could not be started. The requests are then unchanged.
#[derive(Clone, Copy, Debug, PartialEq, Eq, Error)]
pub enum StartRefusal {
    /// An outstanding request already has this transaction ID.
    #[error("an outstanding request has the transaction ID")]
    IdTaken,
    /// 2^64 - 1 requests were started.
    #[error("no number is left")]
    NoNumber,
    /// An allocation failed.
    #[error("an allocation failed")]
    OutOfMemory,
}

/// Why another message of a request could not be sent. The requests are then unchanged.
#[derive(Clone, Copy, Debug, PartialEq, Eq, Error)]
pub enum AgainRefusal {
    /// No outstanding request has this number.
    #[error("no outstanding request has the number")]
    NotOutstanding,
    /// An outstanding request already has this transaction ID.
    #[error("an outstanding request has the transaction ID")]
    IdTaken,
    /// An allocation failed.
    #[error("an allocation failed")]
    OutOfMemory,
}

/// The message that was the current one of a request: its bytes and its datum.
#[derive(Drop)]
pub struct Former<A: Allocator, D> {
    bytes: Vec<u8, A>,
    datum: D,
}

impl<A: Allocator, D> Model for Former<A, D> {
    ghost use Rattle.std.specs.Prelude.{List, ℕ};

    ghost Value = { List ℕ × D };

    ghost view = { λ f. (f.bytes.items, f.datum) };
}

impl<A: Allocator, D> Former<A, D> {
    /// Returns the bytes and the datum.
    pub fn into_parts(self) -> (Vec<u8, A>, D)
        ensures bytes { result.0.items ≡ self.0 }
        ensures datum { result.1 ≡ self.1 }
    {
        (self.bytes, self.datum)
    }
}

/// The next thing to do, as `Requests::poll` returns it.
#[derive(Drop)]
pub enum Polled<D, E> {
    /// Send the bytes of the request with this number (see `Requests::bytes_of`).
    Transmit(u64),
    /// The request with this number has ended, with this outcome.
    Ended(u64, E),
    /// The request with this number has timed out. It is returned with the datum that its owner
    /// stored.
    TimedOut(u64, D),
    /// Wait until a datagram arrives, or until this time. The time is `None` if no request is
    /// outstanding.
    Wait(Option<Instant>),
}

/// The requests of a client to one server. Each request has a number for its whole life. While it
/// is outstanding, it also has a transaction ID, bytes, a timer and a datum of the owner. Once it
/// has ended, its outcome is stored under its number until `poll` returns it.
///
/// `D` is the type of the datum that the owner stores with an outstanding request, and `E` is the
/// type of the outcome, including the response.
///
/// Contracts: the value is a record of the table by transaction ID, the numbers, and the number of
/// the next request.
#[derive(Drop)]
pub struct Requests<A: Allocator, D, E> {
    alloc: A,
    table: Table<A, Request<D>>,
    numbers: Numbers<A, E>,
    next: u64,
}

impl<A: Allocator, D, E> Model for Requests<A, D, E> {
    ghost use Rattle.stun_client_requests.specs.Requests.{RequestsSeen};
    ghost use Rattle.stun_client_requests.specs.OneTable.{IsOneTable};

    ghost Value = { RequestsSeen D E };

    ghost view = { λ r. record { table = r.table; numbers = r.numbers; next = r.next } };

    ghost invariant = { λ r. IsOneTable r.table.attached r.numbers r.next };
}

impl<A: Memory, D: Drop, E: Drop> Requests<A, D, E> {
    /// Creates a store without requests. All requests go to the address `to`. It keeps statistics
    /// if `stats` is true. The call does not allocate.
    pub fn new(alloc: A, transport: TransportType, to: SocketAddr, stats: bool) -> Self
        ensures { result ≡ new_requests transport to stats }
    {
        Requests {
            alloc,
            table: Table::new(transport, to, stats),
            numbers: Numbers::new(alloc),
            next: 0,
        }
    }

    /// Returns the statistics, or `None` if the store keeps none.
    pub fn stats(&self) -> Option<&StunAgentStats>
        ensures { option_copied result ≡ self.now.table.statistics }
    {
        self.table.stats()
    }

    /// Returns the transport that carries the requests.
    pub fn transport(&self) -> TransportType
        ensures { result ≡ self.now.table.transport }
    {
        self.table.transport()
    }

    /// Returns the transaction ID of a request, while it is outstanding.
    pub fn id_of(&self, number: u64) -> Option<TransactionId>
        ensures { result ≡ id_at number self.now.numbers }
    {
        self.numbers.id_of(number)
    }

    /// Returns the bytes of a request, while it is outstanding.
    pub fn bytes_of(&self, number: u64) -> Option<&[u8]>
        ensures { option_map (λ b. b.now) result ≡ bytes_at number self.now }
    {
        self.table.bytes_of(self.numbers.id_of(number)?)
    }

    /// Returns the datum of a request, while it is outstanding.
    pub fn datum_of(&self, number: u64) -> Option<&D>
        ensures { option_copied result ≡ datum_of number self.now }
    {
        let request = self.table.datum(self.numbers.id_of(number)?)?;
        Some(&request.datum)
    }

    /// Returns the number of the outstanding request that has this transaction ID.
    pub fn number_of(&self, id: TransactionId) -> Option<u64>
        ensures { result ≡ number_at id self.now.table.attached }
    {
        let request = self.table.datum(id)?;
        Some(request.number)
    }

    /// Returns the number of outstanding requests.
    pub fn outstanding(&self) -> usize
        ensures count { result ≡ outstanding_count self.now.numbers }
        ensures requests { IsRequests self.now }
    {
        self.numbers.outstanding()
    }

    /// Starts a request with this transaction ID, and returns its number. `bytes` must be a message
    /// with this ID. `poll` then returns `Transmit` for the request, which is retransmitted and
    /// times out according to `plan`. `datum` is stored with the request until it ends.
    ///
    /// # Errors
    ///
    /// Fails with the first of these that applies, and then changes nothing.
    ///
    /// - `IdTaken`: an outstanding request already has the transaction ID.
    /// - `NoNumber`: 2^64 - 1 requests were started.
    /// - `OutOfMemory`: an allocation failed.
    pub fn start(
        &mut self,
        id: TransactionId,
        bytes: Vec<u8, A>,
        plan: RequestRto,
        datum: D,
        now: Instant,
    ) -> Result<u64, StartRefusal>
        requires named { IsRequestOf id bytes.items }
        ensures refused { MatchOption (start_refusal self.old id)
            (IsOkUnless result StartRefusal.OutOfMemory) (λ why. result ≡ Err why) }
        ensures granted { A.grants → start_refusal self.old id ≡ None → IsOk result }
        ensures number { IfOk result (λ number. number ≡ self.old.next) }
        ensures after { OnOk result
            (self.new ≡ after_start id bytes.items (settings_of plan) datum now self.old) }
        ensures same { OnErr result (self.new ≡ self.old) }
    {
        if self.table.has(id) {
            return Err(StartRefusal::IdTaken);
        }
        if self.next == u64::MAX {
            return Err(StartRefusal::NoNumber);
        }
        let number = self.next;
        let Ok(()) = self.numbers.put(number, id) else {
            return Err(StartRefusal::OutOfMemory);
        };
        let request = Request { number, datum };
        let Ok(()) = self.table.send(self.alloc, id, bytes, plan, request, now) else {
            self.numbers.remove(number);
            return Err(StartRefusal::OutOfMemory);
        };
        self.next = number + 1;
        Ok(number)
    }

    /// Replaces the current message of an outstanding request by the message `bytes`, with the
    /// transaction ID `id`, and returns the bytes and the datum of the former message. `poll` then
    /// returns `Transmit` for the request. No bytes are copied.
    ///
    /// `response` describes the response to the former message, which is counted in the statistics:
    /// its length in bytes, and the time at which it arrived. The round-trip time is measured if
    /// the time is not `None`, and the former message was sent only once.
    ///
    /// # Errors
    ///
    /// Fails with the first of these that applies, and then changes nothing.
    ///
    /// - `NotOutstanding`: no outstanding request has the number.
    /// - `IdTaken`: an outstanding request already has the transaction ID.
    /// - `OutOfMemory`: an allocation failed.
    pub fn again(
        &mut self,
        number: u64,
        response: (usize, Option<Instant>),
        id: TransactionId,
        bytes: Vec<u8, A>,
        plan: RequestRto,
        datum: D,
        now: Instant,
    ) -> Result<Former<A, D>, AgainRefusal>
        requires named { IsRequestOf id bytes.items }
        ensures refused { MatchOption (again_refusal self.old number id)
            (IsOkUnless result AgainRefusal.OutOfMemory) (λ why. result ≡ Err why) }
        ensures granted { A.grants → again_refusal self.old number id ≡ None → IsOk result }
        ensures taken { IsErrOf result AgainRefusal.IdTaken
            → IsSome (number_at id self.old.table.attached) }
        ensures former { IfOk result (λ f. datum_of number self.old ≡ Some f.1) }
        ensures after { OnOk result (self.new ≡ after_again number
            (record { count = response.0; moment = response.1 }) id bytes.items (settings_of plan) datum
            now self.old) }
        ensures same { OnErr result (self.new ≡ self.old) }
    {
        let Some(former) = self.numbers.id_of(number) else {
            return Err(AgainRefusal::NotOutstanding);
        };
        if self.table.has(id) {
            return Err(AgainRefusal::IdTaken);
        }
        let Ok(is_new) = self.numbers.mark(number) else {
            return Err(AgainRefusal::OutOfMemory);
        };
        let request = Request { number, datum };
        let Ok(()) = self.table.send(self.alloc, id, bytes, plan, request, now) else {
            self.numbers.unmark(number, is_new);
            return Err(AgainRefusal::OutOfMemory);
        };
        self.numbers.rename(number, id);
        let Some(ended) = self.table.answer(former, response.0, response.1) else {
            return Err(AgainRefusal::NotOutstanding);
        };
        Ok(Former {
            bytes: ended.0,
            datum: ended.1.datum,
        })
    }

    /// Replaces the datum of an outstanding request, and returns the former datum, or `None` if no
    /// outstanding request has the number. It does not allocate.
    pub fn replace(&mut self, number: u64, datum: D) -> Option<D>
        ensures before { result ≡ datum_of number self.old }
        ensures after { self.new ≡ after_replacing number datum self.old }
    {
        let id = self.numbers.id_of(number)?;
        let before = self.table.replace_datum(id, Request { number, datum })?;
        Some(before.datum)
    }

    /// Ends a request because of a response of `count` bytes, which is counted in the statistics,
    /// and returns its datum. `poll` then returns the outcome `end`. `moment` is the time at which
    /// the response arrived. The round-trip time is measured if `moment` is not `None`, and the
    /// message was sent only once.
    ///
    /// Returns `None` if no outstanding request has the number. It does not allocate.
    pub fn answer(
        &mut self,
        number: u64,
        count: usize,
        moment: Option<Instant>,
        end: E,
    ) -> Option<D>
        ensures stored { result ≡ datum_of number self.old }
        ensures after { self.new ≡ after_answering number count moment end self.old }
    {
        let id = self.numbers.id_of(number)?;
        let (_bytes, request) = self.table.answer(id, count, moment)?;
        self.numbers.end(number, end);
        Some(request.datum)
    }

    /// Ends a request without a response, and returns its datum. `poll` then returns the outcome
    /// `end`.
    ///
    /// Returns `None` if no outstanding request has the number. It does not allocate.
    pub fn cancel(&mut self, number: u64, end: E) -> Option<D>
        ensures stored { result ≡ datum_of number self.old }
        ensures after { self.new ≡ after_canceling number end self.old }
    {
        let id = self.numbers.id_of(number)?;
        let (_bytes, request) = self.table.cancel(id)?;
        self.numbers.end(number, end);
        Some(request.datum)
    }

    /// Removes a request without a response, and returns its datum. Nothing of the request is
    /// stored any more, so `poll` does not return an outcome for it. The statistics count it as
    /// canceled.
    ///
    /// Returns `None` if no outstanding request has the number. It does not allocate.
    pub fn remove(&mut self, number: u64) -> Option<D>
        ensures stored { result ≡ datum_of number self.old }
        ensures after { self.new ≡ after_removing number self.old }
    {
        let id = self.numbers.id_of(number)?;
        let (_bytes, request) = self.table.cancel(id)?;
        self.numbers.remove(number);
        Some(request.datum)
    }

    /// Returns the next thing to do. Call it until it returns `Wait`. It does not allocate.
    ///
    /// It returns first the requests whose bytes were not returned yet, in the order of their
    /// numbers, and then the requests that are due for retransmission, in the order of their
    /// transaction IDs. After these come the requests that have ended, in the order of their
    /// numbers, and last the requests that have timed out, in the order of their transaction IDs.
    #[tactic(auto, unfolding(crate::specs::Requests::polled))]
    pub fn poll(&mut self, now: Instant) -> Polled<D, E>
        ensures { (result, self.new) ≡ polled now self.old }
    {
        match self.numbers.take_unsent() {
            Some(number) => Polled::Transmit(number),
            None => self.poll_repeats(now),
        }
    }

    /// Returns a request that is due for retransmission, or continues with the requests that have
    /// ended.
    fn poll_repeats(&mut self, now: Instant) -> Polled<D, E>
        ensures { (result, self.new) ≡ repeats_step now self.old }
    {
        match take_repeated(&mut self.table, now) {
            Some(number) => Polled::Transmit(number),
            None => self.poll_ends(now),
        }
    }

    /// Returns a request that has ended, or continues with the timers.
    fn poll_ends(&mut self, now: Instant) -> Polled<D, E>
        ensures { (result, self.new) ≡ ends_step now self.old }
    {
        match self.numbers.take_ended() {
            Some((number, end)) => Polled::Ended(number, end),
            None => self.poll_timers(now),
        }
    }

    /// Returns a request that has timed out, or the time to wait until.
    fn poll_timers(&mut self, now: Instant) -> Polled<D, E>
        ensures { (result, self.new) ≡ over_step now self.old }
    {
        match self.table.poll(now) {
            Ok(over) => {
                let number = over.1.number;
                self.numbers.remove(number);
                Polled::TimedOut(number, over.1.datum)
            }
            Err(until) => Polled::Wait(self.wait_until(until)),
        }
    }

    /// Returns `until` if a request is outstanding, and `None` otherwise.
    fn wait_until(&self, until: Instant) -> Option<Instant>
        ensures { result ≡ (if outstanding_count self.now.numbers == 0 then None else Some until) }
    {
        if self.numbers.outstanding() == 0 {
            None
        } else {
            Some(until)
        }
    }
}

/// Advances the requests of the table that are due, like `Table::poll_transmit`, and returns the
/// number of the request to retransmit. Returns `None` if no request is due.
fn take_repeated<A: Allocator + Copy, D: Drop>(
    table: &mut Table<A, Request<D>>,
    now: Instant,
) -> Option<u64>
    ensures number { result ≡ repeated now table.old }
    ensures after { table.new ≡ after_transmission now table.old }
{
    let id = table.poll_transmit(now)?;
    let request = table.datum(id)?;
    Some(request.number)
}
