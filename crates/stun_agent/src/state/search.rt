//! Decides what a poll does: which request ends, or how long to wait.
//!
//! The decision is a function of the time and of the index, which is a `&Link`. Nothing else is
//! passed, except the count, so no request can be read without being counted (`tree`).
ghost use Rattle.std.specs.Prelude.{◌≡◌, ◌≤◌, ◌+◌, ◌*◌, Some, None, MatchOption};
ghost use Rattle.std.specs.Prelude.{IfOk, OnErr, IfErr};
ghost use Rattle.std.specs.Option.{option_map};
ghost use Rattle.stun_base.specs.declared.wire.transport.TransportType.{TransportType};
ghost use Rattle.stun_agent.specs.Deadlines.{early_requests, most_reads, most_looks};
ghost use Rattle.stun_agent.specs.Transactions.{first_over, wake_up};
ghost use Rattle.stun_agent.specs.code.Transactions.{id_and_repeats};
ghost use Rattle.stun_agent.specs.code.Tree.{items, fork_items, IsTimed, IsTimedFork, IsTree};
ghost use Rattle.stun_agent.specs.code.Tree.{depth, fork_depth};

use crate::poll::reads::Reads;
use crate::state::tree::{Fork, Link, read_entry};
use std::alloc::Allocator;
use std::sync::ledger::Ledger;
use std::time::Duration;
use stun_base::instant::Instant;
use stun_base::transaction_id::TransactionId;

/// The longest wait that `poll` returns, in seconds.
const LONGEST_WAIT_SECONDS: u64 = 3600;

/// Returns the ID of the request to end and whether it was still being retransmitted. If no request
/// ends, fails with the time of the next poll.
pub(crate) fn decide<A: Allocator, D, L: Ledger>(
    index: &Link<A, D>,
    now: Instant,
    reads: &mut Reads<L>,
) -> Result<(TransactionId, bool), Instant>
    ensures over { (transport : TransportType) → IsTree transport index.now
        → IfOk result (λ ended. Some ended ≡ option_map id_and_repeats
        (first_over transport now (items index.now))) }
    ensures none { (transport : TransportType) → IsTree transport index.now
        → OnErr result (first_over transport now (items index.now) ≡ None) }
    ensures until { (transport : TransportType) → IsTree transport index.now
        → IfErr result (λ until. until ≡ wake_up transport now (items index.now)) }
    ensures work { (transport : TransportType) → IsTree transport index.now
        → reads.new.entries ≤ reads.old.entries
        + early_requests transport now (items index.now) }
    ensures path { reads.new.entries ≤ reads.old.entries + most_reads }
    ensures looks { (transport : TransportType) → IsTree transport index.now
        → reads.old ≡ record { entries = 0; looks = 0 }
        → reads.new.looks ≤ most_looks reads.new.entries }
{
    match find_ended(index, now, reads) {
        Some(ended) => Ok(ended),
        None => Err(find_wake_up(index, now, reads)),
    }
}

/// Returns the time of the next poll if no request is over.
fn find_wake_up<A: Allocator, D, L: Ledger>(
    index: &Link<A, D>,
    now: Instant,
    reads: &mut Reads<L>,
) -> Instant
    ensures until { (transport : TransportType) → IsTimed transport index.now
        → first_over transport now (items index.now) ≡ None
        → result ≡ wake_up transport now (items index.now) }
    ensures counts { reads.new ≡ record reads.old { looks = reads.old.looks + 1 } }
{
    let longest = now + Duration::from_secs(LONGEST_WAIT_SECONDS);
    let first = match index.look_at_first(reads) {
        Some(first) => first.min(longest),
        None => longest,
    };
    now.max(first)
}

/// Returns the least ID among the requests that are over, and whether the request with this ID was
/// still being retransmitted. The search follows only links below which a request is over. So a
/// search that finds a request reads only one entry, and a search that finds none looks only at
/// this link.
// Inlined into the search of the fork above, so that a link with nothing to find costs no call.
#[cycle(find_ended)]
#[inline(always)]
fn find_ended<A: Allocator, D, L: Ledger>(
    link: &Link<A, D>,
    now: Instant,
    reads: &mut Reads<L>,
) -> Option<(TransactionId, bool)>
    ensures answer { (transport : TransportType) → IsTimed transport link.now
        → result ≡ option_map id_and_repeats (first_over transport now (items link.now)) }
    ensures counts { MatchOption result (reads.new.entries ≡ reads.old.entries)
        (λ _. reads.new.entries ≡ reads.old.entries + 1) }
    ensures looks { (transport : TransportType) → IsTimed transport link.now
        → MatchOption result (reads.new.looks ≤ reads.old.looks + 1)
        (λ _. reads.new.looks ≤ reads.old.looks + 1 + 4 * depth link.now) }
{
    match link {
        Link::Empty => None,
        Link::Leaf(awaited, leaf) => {
            if !awaited.is_over(now, reads) {
                return None;
            }
            let (_awaited, id, sending) = read_entry(awaited, leaf, reads);
            Some((id, sending.repeats()))
        }
        Link::Fork(awaited, fork) => {
            if !awaited.is_over(now, reads) {
                return None;
            }
            find_ended_below(fork, now, reads)
        }
    }
}

/// Like `find_ended`, but for the requests below a fork.
#[cycle(find_ended)]
fn find_ended_below<A: Allocator, D, L: Ledger>(
    fork: &Fork<A, D>,
    now: Instant,
    reads: &mut Reads<L>,
) -> Option<(TransactionId, bool)>
    ensures answer { (transport : TransportType) → IsTimedFork transport fork.now
        → result ≡ option_map id_and_repeats (first_over transport now (fork_items fork.now)) }
    ensures counts { MatchOption result (reads.new.entries ≡ reads.old.entries)
        (λ _. reads.new.entries ≡ reads.old.entries + 1) }
    ensures looks { (transport : TransportType) → IsTimedFork transport fork.now
        → MatchOption result (reads.new.looks ≤ reads.old.looks + 4)
        (λ _. reads.new.looks ≤ reads.old.looks + 4 + 4 * fork_depth fork.now) }
{
    if let Some(ended) = find_ended(&fork.first, now, reads) {
        return Some(ended);
    }
    if let Some(ended) = find_ended(&fork.second, now, reads) {
        return Some(ended);
    }
    if let Some(ended) = find_ended(&fork.third, now, reads) {
        return Some(ended);
    }
    find_ended(&fork.fourth, now, reads)
}
