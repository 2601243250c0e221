//! Finds requests in a tree without a count: the request with an ID, and the next request to
//! retransmit.
ghost use Rattle.std.specs.Prelude.{◌≡◌, length};
ghost use Rattle.std.specs.Option.{option_map, option_copied};
ghost use Rattle.stun_base.specs.declared.wire.transport.TransportType.{TransportType};
ghost use Rattle.stun_agent.specs.Tables.{datum_at};
ghost use Rattle.stun_agent.specs.Transactions.{at, next_sent};
ghost use Rattle.stun_agent.specs.code.Awaited.{awaited_of, first_awaited};
ghost use Rattle.stun_agent.specs.code.Tree.{items, fork_items, attached, part_of, IsOrdered};
ghost use Rattle.stun_agent.specs.code.Tree.{IsTimed, IsTimedFork};

use crate::calls::uncounted::Uncounted;
use crate::state::transaction::Transaction;
use crate::state::tree::{Fork, Leaf, Link, Quarter, choose_quarter};
use std::alloc::Allocator;
use stun_base::instant::Instant;
use stun_base::transaction_id::TransactionId;

/// Returns the request with this ID, if there is one.
pub(crate) fn get<A: Allocator, D>(
    link: &Link<A, D>,
    levels: u32,
    id: TransactionId,
    leave: Uncounted,
) -> Option<&Transaction<A>>
    requires { IsOrdered levels (part_of levels id) link.now }
    ensures { option_copied result ≡ at id (items link.now) }
{
    let leaf = find_leaf(link, levels, id, leave)?;
    Some(&leaf.request)
}

/// Returns the datum of the request with this ID, if there is one.
pub(crate) fn find_datum<A: Allocator, D>(
    link: &Link<A, D>,
    levels: u32,
    id: TransactionId,
    leave: Uncounted,
) -> Option<&D>
    requires { IsOrdered levels (part_of levels id) link.now }
    ensures { option_copied result ≡ datum_at id (attached link.now) }
{
    let leaf = find_leaf(link, levels, id, leave)?;
    Some(&leaf.datum)
}

/// Returns the leaf with this ID, if there is one.
#[cycle(find_leaf)]
fn find_leaf<A: Allocator, D>(
    link: &Link<A, D>,
    levels: u32,
    id: TransactionId,
    leave: Uncounted,
) -> Option<&Leaf<A, D>>
    requires { IsOrdered levels (part_of levels id) link.now }
    ensures request { option_map (λ leaf. leaf.entry.1) (option_copied result)
        ≡ at id (items link.now) }
    ensures datum { option_map (λ leaf. leaf.datum) (option_copied result)
        ≡ datum_at id (attached link.now) }
{
    match link {
        Link::Empty => None,
        Link::Leaf(_, leaf) => { if leaf.id == id { Some(leaf) } else { None } }
        Link::Fork(_, fork) => {
            let below = levels - 1;
            match choose_quarter(id, levels) {
                Quarter::First => find_leaf(&fork.first, below, id, leave),
                Quarter::Second => find_leaf(&fork.second, below, id, leave),
                Quarter::Third => find_leaf(&fork.third, below, id, leave),
                Quarter::Fourth => find_leaf(&fork.fourth, below, id, leave),
            }
        }
    }
}

/// Returns the earliest time that a request in the tree awaits, or `None` if no request awaits a
/// time.
pub(crate) fn find_next_awaited<A: Allocator, D>(
    link: &Link<A, D>,
    _leave: Uncounted,
) -> Option<Instant>
    ensures { (transport : TransportType) → IsTimed transport link.now
        → result ≡ first_awaited (awaited_of transport (items link.now)) }
{
    link.copy_awaited().find_earliest()
}

/// Returns the next request to retransmit, if one is due.
pub(crate) fn find_next_sent<A: Allocator, D>(
    link: &Link<A, D>,
    now: Instant,
    leave: Uncounted,
) -> Option<&Transaction<A>>
    ensures { (transport : TransportType) → IsTimed transport link.now
        → option_copied result
        ≡ option_map (λ e. e.1) (next_sent transport now (items link.now)) }
{
    let leaf = find_sent(link, now, leave)?;
    Some(&leaf.request)
}

/// Returns the ID and the number of bytes of the next request to retransmit, if one is due.
pub(crate) fn find_sent_length<A: Allocator, D>(
    link: &Link<A, D>,
    now: Instant,
    leave: Uncounted,
) -> Option<(TransactionId, usize)>
    ensures { (transport : TransportType) → IsTimed transport link.now
        → result ≡ option_map (λ e. (e.0, length e.1.bytes))
        (next_sent transport now (items link.now)) }
{
    let leaf = find_sent(link, now, leave)?;
    Some((leaf.id, leaf.request.bytes().len()))
}

/// Returns the leaf with the least ID among those whose request is due and is still retransmitted.
// Inlined into the search of the fork above, so that a link with nothing to find costs no call.
#[cycle(find_sent)]
#[inline(always)]
fn find_sent<A: Allocator, D>(
    link: &Link<A, D>,
    now: Instant,
    leave: Uncounted,
) -> Option<&Leaf<A, D>>
    ensures { (transport : TransportType) → IsTimed transport link.now
        → option_map (λ leaf. leaf.entry) (option_copied result)
        ≡ next_sent transport now (items link.now) }
{
    match link {
        Link::Empty => None,
        Link::Leaf(awaited, leaf) => {
            if !awaited.is_due(now) {
                return None;
            }
            if leaf.request.sending().repeats() {
                Some(leaf)
            } else {
                None
            }
        }
        Link::Fork(awaited, fork) => {
            if !awaited.is_due(now) {
                return None;
            }
            find_sent_below(fork, now, leave)
        }
    }
}

/// Like `find_sent`, but for the requests below a fork.
#[cycle(find_sent)]
fn find_sent_below<A: Allocator, D>(
    fork: &Fork<A, D>,
    now: Instant,
    leave: Uncounted,
) -> Option<&Leaf<A, D>>
    ensures { (transport : TransportType) → IsTimedFork transport fork.now
        → option_map (λ leaf. leaf.entry) (option_copied result)
        ≡ next_sent transport now (fork_items fork.now) }
{
    if let Some(found) = find_sent(&fork.first, now, leave) {
        return Some(found);
    }
    if let Some(found) = find_sent(&fork.second, now, leave) {
        return Some(found);
    }
    if let Some(found) = find_sent(&fork.third, now, leave) {
        return Some(found);
    }
    find_sent(&fork.fourth, now, leave)
}
