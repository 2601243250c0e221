//! The outstanding requests, in a tree that is ordered by their IDs. Each link has the earliest
//! times that the requests below it await, so a search for requests that are due visits only the
//! parts of the tree that contain such requests.
//!
//! The tree is also the index of deadlines that a poll searches. Such a search sees only a `&Link`.
//! The fields of a `Leaf`, and the times in a link, are private to this module and to the modules
//! below it. So the search can read them in only two ways: it looks at the times of a link
//! (`Awaited::is_over` and `Link::look_at_first`), or it calls `read_entry`, which returns the
//! entry of one request. Both are counted (`Reads`). All other calls of the modules below require a
//! link that can be changed, or the permission `Uncounted`, which neither the search nor `poll` can
//! create.
ghost use Rattle.std.specs.Prelude.{◌≡◌, ◌+◌, ◌-◌, ◌*◌};
ghost use Rattle.stun_base.specs.declared.wire.transport.TransportType.{TransportType};
ghost use Rattle.stun_agent.specs.code.Awaited.{awaited_of, first_awaited, joined};
ghost use Rattle.stun_agent.specs.code.Tree.{items, fork_items, told, part_of, two_bits};
ghost use Rattle.stun_agent.specs.code.Tree.{IsDeep, IsTimed, IsTimedFork};

use crate::poll::reads::Reads;
use crate::state::transaction::{Sending, Transaction};
use crate::state::tree::awaited::Awaited;
use std::alloc::Allocator;
use std::marker::Model;
use std::sync::ledger::Ledger;
use stun_base::instant::Instant;
use stun_base::transaction_id::TransactionId;

pub(crate) mod awaited;
pub(crate) mod change;
pub(crate) mod insert;
pub(crate) mod lookups;
pub(crate) mod remove;
pub(crate) mod replace;

/// A request and its ID, with the datum of its owner.
#[derive(Drop)]
pub(crate) struct Leaf<A: Allocator, D> {
    id: TransactionId,
    request: Transaction<A>,
    datum: D,
}

impl<A: Allocator, D> Model for Leaf<A, D> {
    ghost use Rattle.stun_agent.specs.code.Transactions.{LeafSeen};

    ghost Value = { LeafSeen D };

    ghost view = { λ leaf. record { entry = (leaf.id, leaf.request); datum = leaf.datum } };
}

impl<A: Allocator, D> Leaf<A, D> {
    pub(crate) fn new(id: TransactionId, request: Transaction<A>, datum: D) -> Self
        ensures { result ≡ record { entry = (id, request); datum = datum } }
    {
        Leaf { id, request, datum }
    }
}

impl<A: Allocator, D: Drop> Leaf<A, D> {
    /// Returns the request and the datum.
    pub(crate) fn into_parts(self) -> (Transaction<A>, D)
        ensures { result ≡ (self.entry.1, self.datum) }
    {
        (self.request, self.datum)
    }
}

/// A link of the tree: it leads to nothing, to one request, or to a fork. It also has the earliest
/// times that the requests below it await.
#[cycle(tree)]
#[derive(Drop)]
pub(crate) enum Link<A: Allocator, D> {
    Empty,
    Leaf(Awaited, Box<Leaf<A, D>, A>),
    Fork(Awaited, Box<Fork<A, D>, A>),
}

/// A fork of the tree: a range of IDs, divided into four quarters by the next two bits of an ID.
#[cycle(tree)]
#[derive(Drop)]
pub(crate) struct Fork<A: Allocator, D> {
    pub(crate) first: Link<A, D>,
    pub(crate) second: Link<A, D>,
    pub(crate) third: Link<A, D>,
    pub(crate) fourth: Link<A, D>,
}

impl<A: Allocator, D> Link<A, D> {
    /// Returns the earliest time that a request below this link awaits, or `None` if there is none,
    /// and counts one look.
    pub(crate) fn look_at_first<L: Ledger>(&self, reads: &mut Reads<L>) -> Option<Instant>
        ensures first { (transport : TransportType) → IsTimed transport self.now
            → result ≡ first_awaited (awaited_of transport (items self.now)) }
        ensures counts { reads.new ≡ record reads.old { looks = reads.old.looks + 1 } }
    {
        self.copy_awaited().look_at_first(reads)
    }

    /// Returns the earliest times that the requests below this link await.
    fn copy_awaited(&self) -> Awaited
        ensures told { result ≡ told self.now }
        ensures timed { (transport : TransportType) → IsTimed transport self.now
            → result ≡ awaited_of transport (items self.now) }
    {
        match self {
            Link::Empty => Awaited::new(),
            Link::Leaf(awaited, _) => awaited.copy(),
            Link::Fork(awaited, _) => awaited.copy(),
        }
    }

    /// Updates `others` to include the times that the requests below this link await.
    #[tactic(auto, using(crate::proofs::AwaitedLemmas::joined_nothing))]
    fn join_to(&self, others: &mut Awaited)
        ensures { others.new ≡ joined others.old (told self.now) }
    {
        match self {
            Link::Empty => {}
            Link::Leaf(awaited, _) => others.join(awaited),
            Link::Fork(awaited, _) => others.join(awaited),
        }
    }
}

impl<A: Allocator, D> Fork<A, D> {
    /// Returns the earliest times that the requests below this fork await.
    fn join_awaited(&self) -> Awaited
        ensures { (transport : TransportType) → IsTimedFork transport self.now
            → result ≡ awaited_of transport (fork_items self.now) }
    {
        let mut all = self.first.copy_awaited();
        self.second.join_to(&mut all);
        self.third.join_to(&mut all);
        self.fourth.join_to(&mut all);
        all
    }
}

/// Reads the entry of a request, and counts it. Returns the time that the request awaits (`None` if
/// it is canceled), its ID, and whether it is still retransmitted. A counted search cannot read an
/// ID in any other way.
pub(crate) fn read_entry<A: Allocator, D, L: Ledger>(
    awaited: &Awaited,
    leaf: &Leaf<A, D>,
    reads: &mut Reads<L>,
) -> (Option<Instant>, TransactionId, Sending)
    ensures entry { result ≡ (
      first_awaited awaited.now,
      leaf.now.entry.0,
      leaf.now.entry.1.sending,
    ) }
    ensures counts { reads.new ≡ record reads.old { entries = reads.old.entries + 1 } }
{
    reads.count_entry();
    (awaited.find_earliest(), leaf.id, leaf.request.sending())
}

/// The number of levels of forks that the IDs need: each level stands for two of the 96 bits of an
/// ID.
pub(crate) const LEVELS: u32 = 48;

/// One of the four quarters of a fork.
#[derive(Clone, Copy)]
enum Quarter {
    First,
    Second,
    Third,
    Fourth,
}

/// Returns the quarter of a fork to which an ID belongs. `levels` is the number of levels below and
/// including this fork.
fn choose_quarter(id: TransactionId, levels: u32) -> Quarter
    requires { IsDeep levels }
    ensures { part_of (levels - 1) id ≡ 4 * part_of levels id + two_bits result }
{
    let bits = (id.as_u128() >> (2 * levels - 2)) % 4;
    if bits == 0 {
        Quarter::First
    } else if bits == 1 {
        Quarter::Second
    } else if bits == 2 {
        Quarter::Third
    } else {
        Quarter::Fourth
    }
}
