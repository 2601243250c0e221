//! Maps the number of each request to its transaction ID while the request is outstanding, and to
//! its outcome once it has ended.
ghost use Rattle.std.specs.BTreeMap.{insert_entry, is_at};
ghost use Rattle.std.specs.List.Sorted.{IsStrictlySortedBy};
ghost use Rattle.std.specs.Map.{keys_of, remove_entry, values_of};
ghost use Rattle.std.specs.Option.{is_none, option_and_then, option_map};
ghost use Rattle.std.specs.Ordering.{nat_cmp};
ghost use Rattle.std.specs.Prelude.{◌≡◌, IfNone, IfOk, IfSome, IsOk, None, OnErr, OnOk, Some, count_by};
ghost use Rattle.std.specs.Prelude.{false, true, if◌then◌else◌};
ghost use Rattle.stun_client_requests.specs.declared.numbers.Known.TheVariants.{Ended, Outstanding};
ghost use Rattle.stun_client_requests.specs.Numbers.{IsAt, end_in, known_at};
ghost use Rattle.stun_client_requests.specs.Numbers.{after_mark, after_rename, after_unmark};
ghost use Rattle.stun_client_requests.specs.Numbers.{after_end, after_put, after_removal};
ghost use Rattle.stun_client_requests.specs.Numbers.{end_of_first};
ghost use Rattle.stun_client_requests.specs.Numbers.{first_outstanding, first_unsent, id_at};
ghost use Rattle.stun_client_requests.specs.Numbers.{is_ended_at};
ghost use Rattle.stun_client_requests.specs.Numbers.{is_outstanding, is_outstanding_at, no_numbers};
ghost use Rattle.stun_client_requests.specs.Numbers.{without_first, without_first_unsent};

use std::alloc::{AllocError, Allocator};
use std::cmp::Reverse;
use std::collections::{BTreeMap, BTreeSet, BinaryHeap};
use std::marker::Model;
use stun_base::memory::Memory;
use stun_base::transaction_id::TransactionId;

/// The state that is stored under the number of a request until its outcome is returned.
#[derive(Drop)]
pub enum Known<E> {
    /// The request is outstanding, and its current message has this transaction ID.
    Outstanding(TransactionId),
    /// The request has ended, with this outcome.
    Ended(E),
}

/// The requests by their numbers.
///
/// Contracts: the value is a record of the requests in the order of their numbers, and of the
/// numbers of the requests whose bytes were not returned yet.
#[derive(Drop)]
pub struct Numbers<A: Allocator, E> {
    known: BTreeMap<u64, Known<E>, A>,
    unsent: BTreeSet<u64, A>,
    // There is room for each outstanding request, because `end` must not allocate.
    ended: BinaryHeap<Reverse<u64>, A>,
    outstanding: usize,
}

impl<A: Allocator, E> Model for Numbers<A, E> {
    ghost use Rattle.std.specs.BinaryHeap.{heap_capacity, heap_items, heap_len};
    ghost use Rattle.stun_client_requests.specs.Numbers.{NumbersSeen};
    ghost use Rattle.stun_client_requests.specs.code.Indices.{AreIndices};

    ghost Value = { NumbersSeen E };

    ghost view = { λ n. record { known = n.known.entries; unsent = n.unsent.keys } };

    ghost invariant = { λ n. AreIndices n.known.entries n.unsent.keys (heap_items n.ended)
        (heap_len n.ended) (heap_capacity n.ended) n.outstanding };
}

impl<A: Memory, E: Drop> Numbers<A, E> {
    /// Creates a store without numbers. This does not allocate.
    pub fn new(alloc: A) -> Self
        ensures { result ≡ no_numbers }
    {
        Numbers {
            known: BTreeMap::new(alloc),
            unsent: BTreeSet::new(alloc),
            ended: BinaryHeap::new(alloc),
            outstanding: 0,
        }
    }

    /// Returns the transaction ID of the current message of a request, while it is outstanding.
    pub fn id_of(&self, number: u64) -> Option<TransactionId>
        ensures { result ≡ id_at number self.now }
    {
        match self.known.get(&number)? {
            Known::Outstanding(id) => Some(*id),
            Known::Ended(_) => None,
        }
    }

    /// Returns the number of outstanding requests.
    pub fn outstanding(&self) -> usize
        ensures count { result ≡ count_by is_outstanding (values_of self.now.known) }
        ensures ordered { IsStrictlySortedBy nat_cmp (keys_of self.now.known) }
    {
        // For the proof: the contract of `len` states that the numbers ascend.
        let _stored = self.known.len();
        self.outstanding
    }

    /// Returns the least number and the transaction ID of its request, if this request is
    /// outstanding. Otherwise returns `None`.
    pub fn first(&self) -> Option<(u64, TransactionId)>
        ensures { result ≡ first_outstanding self.now }
    {
        match self.known.first_key_value()? {
            (number, Known::Outstanding(id)) => Some((*number, *id)),
            (_, Known::Ended(_)) => None,
        }
    }

    /// Stores the transaction ID of a request, and marks its bytes as not returned yet. The number
    /// must be new, or the number of an outstanding request.
    ///
    /// Fails if an allocation fails, and then changes nothing.
    pub fn put(&mut self, number: u64, id: TransactionId) -> Result<(), AllocError>
        requires { is_ended_at number self.old ≡ false }
        ensures after { OnOk result (self.new ≡ after_put number id self.old) }
        ensures same { OnErr result (self.new ≡ self.old) }

        // The other numbers do not change, and a new number that is removed again leaves no trace.
        ensures changed { OnOk result
            (IsAt number (Some (Outstanding id)) self.old.known self.new.known) }
        ensures back { OnOk result
            (known_at number self.old.known ≡ None → after_removal number self.new ≡ self.old) }
        ensures granted { A.grants → IsOk result }
    {
        let _stored = self.known.len();
        A::room(&mut self.ended, self.outstanding + 1)?;
        let Ok(_is_new) = A::add(&mut self.unsent, number) else {
            return Err(AllocError);
        };
        let Ok(is_new) = store(&mut self.known, number, id) else {
            self.unsent.remove(&number);
            return Err(AllocError);
        };
        if is_new {
            self.outstanding += 1;
            return Ok(());
        }
        Ok(())
    }

    /// Marks the bytes of an outstanding request as not returned yet. Returns `true` if they were
    /// not marked before, and `false` if they were.
    ///
    /// Fails if an allocation fails, and then changes nothing.
    pub fn mark(&mut self, number: u64) -> Result<bool, AllocError>
        requires { is_outstanding_at number self.old ≡ true }
        ensures after { OnOk result (self.new ≡ after_mark number self.old) }
        ensures same { OnErr result (self.new ≡ self.old) }
        ensures back { IfOk result (λ is_new.
            (if is_new then after_unmark number self.new else self.new) ≡ self.old) }
        ensures granted { A.grants → IsOk result }
    {
        // For the proof: the contract of `len` states that the numbers ascend.
        let _listed = self.unsent.len();
        let Ok(is_new) = A::add(&mut self.unsent, number) else {
            return Err(AllocError);
        };
        Ok(is_new)
    }

    /// Undoes `mark`, which returned `is_new`. If `is_new` is `false`, the bytes were marked before
    /// that call, and nothing changes.
    pub fn unmark(&mut self, number: u64, is_new: bool)
        ensures { self.new ≡ (if is_new then after_unmark number self.old else self.old) }
    {
        if is_new {
            self.unsent.remove(&number);
        }
    }

    /// Replaces the transaction ID of an outstanding request. It does not allocate.
    pub fn rename(&mut self, number: u64, id: TransactionId)
        requires { is_outstanding_at number self.old ≡ true }
        ensures after { self.new ≡ after_rename number id self.old }
        ensures changed { IsAt number (Some (Outstanding id)) self.old.known self.new.known }
    {
        let _stored = self.known.len();
        // The number is stored, so this does not allocate.
        let Ok(_before) = self.known.insert(number, Known::Outstanding(id)) else {
            return;
        };
    }

    /// Removes an outstanding request.
    pub fn remove(&mut self, number: u64)
        requires { is_outstanding_at number self.old ≡ true }
        ensures after { self.new ≡ after_removal number self.old }
        ensures changed { IsAt number None self.old.known self.new.known }
    {
        let _stored = self.known.len();
        self.known.remove(&number);
        self.unsent.remove(&number);
        self.outstanding -= 1;
    }

    /// Ends an outstanding request with this outcome. It does not allocate.
    pub fn end(&mut self, number: u64, end: E)
        requires { is_outstanding_at number self.old ≡ true }
        ensures after { self.new ≡ after_end number end self.old }
        ensures changed { IsAt number (Some (Ended end)) self.old.known self.new.known }
    {
        let _stored = self.known.len();
        // The number is stored already, so `insert` does not allocate. `push` does not allocate
        // because there is room.
        let Ok(_before) = self.known.insert(number, Known::Ended(end)) else {
            return;
        };
        self.unsent.remove(&number);
        let Ok(()) = self.ended.push(Reverse(number)) else {
            return;
        };
        self.outstanding -= 1;
    }

    /// Returns the number of the first request whose bytes were not returned yet, and marks the
    /// bytes as returned. Returns `None` if there is no such request.
    pub fn take_unsent(&mut self) -> Option<u64>
        ensures first { result ≡ first_unsent self.old }
        ensures after { self.new ≡ without_first_unsent self.old }
    {
        self.unsent.pop_first()
    }

    /// Removes the first request that has ended, and returns its number and its outcome. Returns
    /// `None` if no request has ended.
    pub fn take_ended(&mut self) -> Option<(u64, E)>
        ensures ended { result ≡ end_of_first self.old }
        ensures after { self.new ≡ without_first self.old }
        ensures same { IfNone result (self.new ≡ self.old) }
        ensures known { IfSome result (λ e. known_at e.0 self.old.known ≡ Some (Ended e.1)) }
        ensures changed { IfSome result (λ e. IsAt e.0 None self.old.known self.new.known) }
    {
        let _stored = self.known.len();
        let first = self.ended.pop()?;
        take_end(&mut self.known, first.0)
    }
}

/// Stores the transaction ID of a request, and returns whether its number is new. If an allocation
/// fails, nothing changes.
fn store<A: Memory, E: Drop>(
    known: &mut BTreeMap<u64, Known<E>, A>,
    number: u64,
    id: TransactionId,
) -> Result<bool, AllocError>
    ensures new { IfOk result (λ is_new. is_new ≡ is_none (known_at number known.old.entries)) }
    ensures entries { OnOk result (known.new.entries
        ≡ insert_entry nat_cmp known.old.entries number (Outstanding id)) }
    ensures changed { OnOk result
        (IsAt number (Some (Outstanding id)) known.old.entries known.new.entries) }
    ensures absent { OnErr result (known_at number known.old.entries ≡ None) }
    ensures same { OnErr result (known.new.entries ≡ known.old.entries) }
    ensures granted { A.grants → IsOk result }
{
    match A::insert(known, number, Known::Outstanding(id)) {
        Ok(before) => Ok(before.is_none()),
        Err(_refused) => Err(AllocError),
    }
}

/// Removes `number` from the map in any case. Returns it with the outcome of its request if the
/// request has ended, and `None` if the request is outstanding or there is no such number.
fn take_end<A: Allocator + Copy, E: Drop>(
    known: &mut BTreeMap<u64, Known<E>, A>,
    number: u64,
) -> Option<(u64, E)>
    ensures end { result ≡ option_map (λ end. (number, end))
        (option_and_then end_in (known_at number known.old.entries)) }
    ensures entries { known.new.entries ≡ remove_entry (is_at (nat_cmp number)) known.old.entries }
    ensures changed { IsAt number None known.old.entries known.new.entries }
    ensures known { IfSome result (λ e. known_at number known.old.entries ≡ Some (Ended e.1)) }
{
    match known.remove(&number)? {
        Known::Ended(end) => Some((number, end)),
        Known::Outstanding(_) => None,
    }
}
