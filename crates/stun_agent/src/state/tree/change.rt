//! Changes requests in a tree: the request that its user changes, and the requests whose slots are
//! due.
ghost use Rattle.std.specs.Prelude.{◌≡◌, ℕ, true};
ghost use Rattle.std.specs.Option.{option_map, is_some};
ghost use Rattle.stun_agent.specs.Transactions.{with_change_at, next_sent, is_due, after_slot};
ghost use Rattle.stun_agent.specs.Transactions.{after_slots, repeats};
ghost use Rattle.stun_agent.specs.code.Awaited.{awaited_by, awaited_of};
ghost use Rattle.stun_agent.specs.code.Transactions.{changed_transaction};
ghost use Rattle.stun_agent.specs.code.Tree.{items, fork_items, attached, fork_attached};
ghost use Rattle.stun_agent.specs.code.Tree.{part_of, IsDeep};
ghost use Rattle.stun_agent.specs.code.Tree.{IsOrdered, IsOrderedFork, IsTimed, IsTimedFork};

use crate::calls::uncounted::Uncounted;
use crate::state::transaction::Change;
use crate::state::tree::awaited::Awaited;
use crate::state::tree::{Fork, Leaf, Link, Quarter, choose_quarter};
use std::alloc::Allocator;
use stun_base::instant::Instant;
use stun_base::transaction_id::TransactionId;
use stun_base::transport::TransportType;

/// Changes the request with this ID, if it is in the tree. Does not allocate.
#[cycle(change)]
pub(crate) fn change<A: Allocator, D>(
    link: &mut Link<A, D>,
    levels: u32,
    transport: TransportType,
    id: TransactionId,
    to: Change,
)
    requires { IsOrdered levels (part_of levels id) link.old }
    ensures after { items link.new
        ≡ with_change_at (changed_transaction to) id (items link.old) }
    ensures attached { attached link.new ≡ attached link.old }
    ensures ordered { IsOrdered levels (part_of levels id) link.new }
    ensures timed { IsTimed transport link.old → IsTimed transport link.new }
{
    match link {
        Link::Empty => {}
        Link::Leaf(awaited, leaf) => {
            if leaf.id == id {
                *awaited = leaf.change(transport, to);
            }
        }
        Link::Fork(awaited, fork) => {
            *awaited = change_fork(fork, levels, transport, id, to);
        }
    }
}

/// Like `change`, but for the requests below a fork. Returns the times that these requests then
/// await.
#[cycle(change)]
fn change_fork<A: Allocator, D>(
    fork: &mut Fork<A, D>,
    levels: u32,
    transport: TransportType,
    id: TransactionId,
    to: Change,
) -> Awaited
    requires deep { IsDeep levels }
    requires ordered { IsOrderedFork levels (part_of levels id) fork.old }
    ensures after { fork_items fork.new
        ≡ with_change_at (changed_transaction to) id (fork_items fork.old) }
    ensures attached { fork_attached fork.new ≡ fork_attached fork.old }
    ensures ordered { IsOrderedFork levels (part_of levels id) fork.new }
    ensures timed { IsTimedFork transport fork.old → IsTimedFork transport fork.new }
    ensures awaited { IsTimedFork transport fork.old
        → result ≡ awaited_of transport (fork_items fork.new) }
{
    change_in(fork, levels, transport, id, to);
    fork.join_awaited()
}

/// Like `change`, but for the requests below a fork.
#[cycle(change)]
fn change_in<A: Allocator, D>(
    fork: &mut Fork<A, D>,
    levels: u32,
    transport: TransportType,
    id: TransactionId,
    to: Change,
)
    requires deep { IsDeep levels }
    requires ordered { IsOrderedFork levels (part_of levels id) fork.old }
    ensures after { fork_items fork.new
        ≡ with_change_at (changed_transaction to) id (fork_items fork.old) }
    ensures attached { fork_attached fork.new ≡ fork_attached fork.old }
    ensures ordered { IsOrderedFork levels (part_of levels id) fork.new }
    ensures timed { IsTimedFork transport fork.old → IsTimedFork transport fork.new }
{
    let below = levels - 1;
    match choose_quarter(id, levels) {
        Quarter::First => change(&mut fork.first, below, transport, id, to),
        Quarter::Second => change(&mut fork.second, below, transport, id, to),
        Quarter::Third => change(&mut fork.third, below, transport, id, to),
        Quarter::Fourth => change(&mut fork.fourth, below, transport, id, to),
    }
}

impl<A: Allocator, D> Leaf<A, D> {
    /// Changes the request, and returns the time that it then awaits.
    fn change(&mut self, transport: TransportType, to: Change) -> Awaited
        ensures after { self.new ≡ record self.old {
          entry = (self.old.entry.0, changed_transaction to self.old.entry.1);
        } }
        ensures awaited { result
            ≡ awaited_by transport (changed_transaction to self.old.entry.1) }
    {
        self.request.change(to);
        self.request.to_awaited(transport)
    }

    /// Advances the request past the slot that is due, and writes to `awaited` the time that the
    /// request awaits next. Returns whether the request is still retransmitted.
    fn pass_slot(&mut self, awaited: &mut Awaited, transport: TransportType, now: Instant) -> bool
        requires { is_due transport now self.old.entry.1 ≡ true }
        ensures sent { result ≡ repeats self.old.entry.1.sending }
        ensures after { self.new ≡ record self.old {
          entry = (self.old.entry.0, after_slot now self.old.entry.1);
        } }
        ensures awaited { awaited.new ≡ awaited_by transport self.new.entry.1 }
    {
        self.request.take_slot(now);
        *awaited = self.request.to_awaited(transport);
        self.request.sending().repeats()
    }
}

/// Advances requests past the slots that are due, in the order of their IDs, up to and including
/// the first request that is still retransmitted. Returns whether there is such a request.
// Inlined into the walk of the fork above, so that a link with no slot that is due costs no call.
#[cycle(pass_slots)]
#[inline(always)]
pub(crate) fn pass_slots<A: Allocator, D>(
    link: &mut Link<A, D>,
    transport: TransportType,
    now: Instant,
    leave: Uncounted,
) -> bool
    requires { IsTimed transport link.old }
    ensures sent { result ≡ is_some (next_sent transport now (items link.old)) }
    ensures after { (levels part : ℕ) → IsOrdered levels part link.old
        → items link.new ≡ after_slots transport now
        (option_map (λ e. e.0) (next_sent transport now (items link.old))) (items link.old) }
    ensures attached { attached link.new ≡ attached link.old }
    ensures ordered { (levels part : ℕ) → IsOrdered levels part link.old
        → IsOrdered levels part link.new }
    ensures timed { IsTimed transport link.new }
{
    match link {
        Link::Empty => false,
        Link::Leaf(awaited, leaf) => {
            if !awaited.is_due(now) {
                return false;
            }
            leaf.pass_slot(awaited, transport, now)
        }
        Link::Fork(awaited, fork) => {
            if !awaited.is_due(now) {
                return false;
            }
            pass_fork(fork, awaited, transport, now, leave)
        }
    }
}

/// Like `pass_slots`, but for the requests below a fork. Writes to `awaited` the times that these
/// requests then await.
#[cycle(pass_slots)]
fn pass_fork<A: Allocator, D>(
    fork: &mut Fork<A, D>,
    awaited: &mut Awaited,
    transport: TransportType,
    now: Instant,
    leave: Uncounted,
) -> bool
    requires { IsTimedFork transport fork.old }
    ensures sent { result ≡ is_some (next_sent transport now (fork_items fork.old)) }
    ensures after { (levels part : ℕ) → IsOrderedFork levels part fork.old
        → fork_items fork.new ≡ after_slots transport now
        (option_map (λ e. e.0) (next_sent transport now (fork_items fork.old)))
        (fork_items fork.old) }
    ensures attached { fork_attached fork.new ≡ fork_attached fork.old }
    ensures ordered { (levels part : ℕ) → IsOrderedFork levels part fork.old
        → IsOrderedFork levels part fork.new }
    ensures timed { IsTimedFork transport fork.new }
    ensures awaited { awaited.new ≡ awaited_of transport (fork_items fork.new) }
{
    let sent = pass_in(fork, transport, now, leave);
    *awaited = fork.join_awaited();
    sent
}

/// Like `pass_slots`, but for the requests below a fork.
#[cycle(pass_slots)]
fn pass_in<A: Allocator, D>(
    fork: &mut Fork<A, D>,
    transport: TransportType,
    now: Instant,
    leave: Uncounted,
) -> bool
    requires { IsTimedFork transport fork.old }
    ensures sent { result ≡ is_some (next_sent transport now (fork_items fork.old)) }
    ensures after { (levels part : ℕ) → IsOrderedFork levels part fork.old
        → fork_items fork.new ≡ after_slots transport now
        (option_map (λ e. e.0) (next_sent transport now (fork_items fork.old)))
        (fork_items fork.old) }
    ensures attached { fork_attached fork.new ≡ fork_attached fork.old }
    ensures ordered { (levels part : ℕ) → IsOrderedFork levels part fork.old
        → IsOrderedFork levels part fork.new }
    ensures timed { IsTimedFork transport fork.new }
{
    if pass_slots(&mut fork.first, transport, now, leave) {
        return true;
    }
    if pass_slots(&mut fork.second, transport, now, leave) {
        return true;
    }
    if pass_slots(&mut fork.third, transport, now, leave) {
        return true;
    }
    pass_slots(&mut fork.fourth, transport, now, leave)
}
