//! The outstanding requests of an agent.
ghost use Rattle.std.specs.Prelude.{◌≡◌, ◌+◌, ◌≤◌, ◌<◌, [], length, Some, None};
ghost use Rattle.std.specs.Map.{keys_of};
ghost use Rattle.std.specs.Prelude.{MatchOption, IfSome, IsSome, IsSomeAnd};
ghost use Rattle.std.specs.Prelude.{IfOk, IsOk, OnOk, IfErr, OnErr};
ghost use Rattle.std.specs.Option.{is_some, option_map, option_copied};
ghost use Rattle.stun_agent.specs.Deadlines.{early_requests, most_reads, most_looks};
ghost use Rattle.stun_agent.specs.Tables.{datum_at, with_datum, without_datum, set_datum};
ghost use Rattle.stun_agent.specs.Transactions.{AreKept, at, with, without, with_change_at};
ghost use Rattle.stun_agent.specs.Transactions.{first_over, wake_up, next_awaited};
ghost use Rattle.stun_agent.specs.Transactions.{next_sent, after_slots, IsNamed};
ghost use Rattle.stun_agent.specs.code.Transactions.{contents, id_and_repeats, has_room};
ghost use Rattle.stun_agent.specs.code.Transactions.{changed_transaction};

use crate::calls::uncounted::Uncounted;
use crate::error::NoRoom;
use crate::poll::reads::Reads;
use crate::state::search;
use crate::state::transaction::{Change, Transaction};
use crate::state::tree::awaited::Awaited;
use crate::state::tree::change::{change, pass_slots};
use crate::state::tree::insert::insert;
use crate::state::tree::remove::remove;
use crate::state::tree::replace::replace;
use crate::state::tree::{LEVELS, Leaf, Link, lookups};
use std::alloc::{AllocError, Allocator};
use std::marker::Model;
use std::sync::ledger::Ledger;
use stun_base::instant::Instant;
use stun_base::memory::Memory;
use stun_base::transaction_id::TransactionId;
use stun_base::transport::TransportType;

/// The outstanding requests, in a tree that is ordered by their IDs, and the transport that carries
/// them. Each leaf also has a datum of the owner.
///
/// Contracts: the value is a record of the transport, the requests in ascending order of their IDs,
/// and the data of the owner.
#[derive(Drop)]
#[derive_where(Debug)]
pub(crate) struct Outstanding<A: Allocator, D> {
    transport: TransportType,
    #[derive_where(skip(Debug))]
    root: Link<A, D>,
}

impl<A: Allocator, D> Model for Outstanding<A, D> {
    ghost use Rattle.stun_agent.specs.code.Transactions.{Outstanding};
    ghost use Rattle.stun_agent.specs.code.Tree.{items, attached, IsTree};

    ghost Value = { Outstanding D };

    ghost view = { λ o. record {
      transport = o.transport;
      requests = items o.root;
      attached = attached o.root;
    } };

    ghost invariant = { λ o. IsTree o.transport o.root };
}

/// The calls that a poll may make. They are separate, because they do not have the bound `A: Copy`,
/// which all other calls require.
impl<A: Allocator, D: Drop> Outstanding<A, D> {
    pub(crate) fn transport(&self) -> TransportType
        ensures { result ≡ self.now.transport }
    {
        self.transport
    }

    /// Returns the ID of the request to end and whether it was still being retransmitted. If no
    /// request ends, fails with the time of the next poll. Counts each request that it reads, and
    /// each link that it looks at.
    pub(crate) fn find_over<L: Ledger>(
        &self,
        now: Instant,
        reads: &mut Reads<L>,
    ) -> Result<(TransactionId, bool), Instant>
        ensures over { IfOk result (λ ended. Some ended ≡ option_map id_and_repeats
            (first_over self.now.transport now self.now.requests)) }
        ensures there { IfOk result (λ ended. IsSome (at ended.0 self.now.requests)) }
        ensures none { OnErr result
            (first_over self.now.transport now self.now.requests ≡ None) }
        ensures until { IfErr result (λ until. until
            ≡ wake_up self.now.transport now self.now.requests) }
        ensures work { reads.new.entries ≤ reads.old.entries
            + early_requests self.now.transport now self.now.requests }
        ensures path { reads.new.entries ≤ reads.old.entries + most_reads }
        ensures looks { reads.old ≡ record { entries = 0; looks = 0 }
            → reads.new.looks ≤ most_looks reads.new.entries }
    {
        search::decide(&self.root, now, reads)
    }

    /// Removes the request with this ID, and returns it with its datum. Returns `None` if there is
    /// no such request.
    pub(crate) fn remove(&mut self, id: TransactionId) -> Option<(Transaction<A>, D)>
        ensures answer { option_map (λ r. r.0) result ≡ at id self.old.requests }
        ensures datum { option_map (λ r. r.1) result ≡ datum_at id self.old.attached }
        ensures after { self.new ≡ record self.old {
          requests = without id self.old.requests;
          attached = without_datum id self.old.attached;
        } }
        ensures same { MatchOption result (self.new ≡ self.old) (λ _. Unit {0}) }
    {
        let leaf = remove(&mut self.root, LEVELS, id, &mut Awaited::new())?;
        Some(Box::into_inner(leaf).into_parts())
    }
}

impl<A: Allocator + Copy, D: Drop> Outstanding<A, D> {
    pub(crate) fn new(transport: TransportType) -> Self
        ensures { result ≡ record { transport = transport; requests = []; attached = [] } }
    {
        Outstanding {
            transport,
            root: Link::Empty,
        }
    }

    /// Returns whether a request has this ID.
    pub(crate) fn has(&self, id: TransactionId, leave: Uncounted) -> bool
        ensures has { result ≡ is_some (at id self.now.requests) }
        ensures kept { AreKept self.now.requests }
        ensures same { keys_of self.now.attached ≡ keys_of self.now.requests }
    {
        lookups::get(&self.root, LEVELS, id, leave).is_some()
    }

    pub(crate) fn get(&self, id: TransactionId, leave: Uncounted) -> Option<&Transaction<A>>
        ensures { option_copied result ≡ at id self.now.requests }
    {
        lookups::get(&self.root, LEVELS, id, leave)
    }

    /// Returns the datum of the request with this ID, or `None` if there is no such request.
    pub(crate) fn find_datum(&self, id: TransactionId, leave: Uncounted) -> Option<&D>
        ensures { option_copied result ≡ datum_at id self.now.attached }
    {
        lookups::find_datum(&self.root, LEVELS, id, leave)
    }

    /// Replaces the datum of the request with this ID, and returns the former datum. If there is no
    /// such request, drops `datum` and returns `None`.
    pub(crate) fn replace_datum(&mut self, id: TransactionId, datum: D) -> Option<D>
        ensures before { result ≡ datum_at id self.old.attached }
        ensures after { self.new ≡ record self.old {
          attached = set_datum id datum self.old.attached;
        } }
    {
        replace(&mut self.root, LEVELS, id, datum)
    }

    /// Returns the earliest time that a request awaits, or `None` if no request awaits a time.
    /// Canceled requests do not count.
    pub(crate) fn find_next_awaited(&self, leave: Uncounted) -> Option<Instant>
        ensures least { result ≡ next_awaited self.now.transport self.now.requests }
        ensures kept { AreKept self.now.requests }
    {
        lookups::find_next_awaited(&self.root, leave)
    }

    /// Advances requests past the slots that are due, in the order of their IDs, up to and
    /// including the first request to retransmit. Returns the ID and the number of bytes of that
    /// request, or `None` if there is no such request. If the request has more than `room` bytes,
    /// the call fails, and nothing changes.
    pub(crate) fn pass_due_slots(
        &mut self,
        now: Instant,
        room: Option<usize>,
        leave: Uncounted,
    ) -> Result<Option<(TransactionId, usize)>, NoRoom>
        ensures sent { IfOk result (λ sent. sent ≡ option_map (λ e. (e.0, length e.1.bytes))
            (next_sent self.old.transport now self.old.requests)) }
        ensures fits { OnOk result (IfSome room (λ r.
            IfSome (next_sent self.old.transport now self.old.requests)
            (λ e. length e.1.bytes ≤ r))) }
        ensures after { OnOk result (self.new ≡ record self.old {
          requests = after_slots self.old.transport now
              (option_map (λ e. e.0) (next_sent self.old.transport now self.old.requests))
              self.old.requests;
        }) }
        ensures request { OnOk result
            (IfSome (next_sent self.old.transport now self.old.requests) IsNamed) }
        ensures kept { IfOk result (λ sent. IfSome sent (λ s.
            option_map contents (at s.0 self.new.requests)
            ≡ option_map (λ e. contents e.1)
            (next_sent self.old.transport now self.old.requests))) }
        ensures refused { OnErr result (IsSomeAnd room (λ r. IsSomeAnd
            (next_sent self.old.transport now self.old.requests)
            (λ e. r < length e.1.bytes))) }
        ensures same { OnErr result (self.new ≡ self.old) }
    {
        // The request is found before any request is changed, so a failure leaves everything as it
        // was.
        let sent = lookups::find_sent_length(&self.root, now, leave);
        if !fits(room, &sent) {
            return Err(NoRoom);
        }
        let _is_sent = pass_slots(&mut self.root, self.transport, now, leave);
        Ok(sent)
    }

    /// Returns the next request to retransmit, if one is due. This is the request whose ID the next
    /// call of `pass_due_slots` returns.
    pub(crate) fn find_next_sent(&self, now: Instant, leave: Uncounted) -> Option<&Transaction<A>>
        ensures { option_copied result ≡ option_map (λ e. e.1)
            (next_sent self.now.transport now self.now.requests) }
    {
        lookups::find_next_sent(&self.root, now, leave)
    }

    /// Changes a request, if it is outstanding. Does not allocate.
    pub(crate) fn change(&mut self, id: TransactionId, to: Change)
        ensures { self.new ≡ record self.old {
          requests = with_change_at (changed_transaction to) id self.old.requests;
        } }
    {
        change(&mut self.root, LEVELS, self.transport, id, to);
    }
}

impl<A: Memory, D: Drop> Outstanding<A, D> {
    /// Stores a request whose ID is not in use. If an allocation fails, the requests are unchanged,
    /// but forks that were made before the failure stay: up to 47 of them.
    pub(crate) fn insert(
        &mut self,
        alloc: A,
        id: TransactionId,
        request: Transaction<A>,
        datum: D,
    ) -> Result<(), AllocError>
        requires named { IsNamed (id, request) }
        requires absent { at id self.old.requests ≡ None }
        ensures ok { OnOk result (self.new ≡ record self.old {
          requests = with id request self.old.requests;
          attached = with_datum id datum self.old.attached;
        }) }
        ensures there { OnOk result (at id self.new.requests ≡ Some request) }
        ensures err { OnErr result (self.new ≡ self.old) }
        ensures granted { A.grants → IsOk result }
    {
        let awaited = request.to_awaited(self.transport);
        let leaf = A::boxed(alloc, Leaf::new(id, request, datum))?;
        insert(&mut self.root, LEVELS, alloc, &awaited, leaf)
    }
}

/// Returns whether the request to retransmit, whose ID and length are in `sent`, has at most `room`
/// bytes. Returns `true` if there is no such request, or if `room` is `None`, which means no limit.
fn fits(room: Option<usize>, sent: &Option<(TransactionId, usize)>) -> bool
    ensures { result ≡ has_room room sent.now }
{
    match (room, sent) {
        (Some(room), Some((_, length))) => *length <= room,
        _ => true,
    }
}
