//! Replaces the datum of a request in a tree.
ghost use Rattle.std.specs.Prelude.{◌≡◌};
ghost use Rattle.stun_base.specs.declared.wire.transport.TransportType.{TransportType};
ghost use Rattle.stun_agent.specs.Tables.{datum_at, set_datum};
ghost use Rattle.stun_agent.specs.code.Tree.{items, fork_items, attached, fork_attached};
ghost use Rattle.stun_agent.specs.code.Tree.{part_of, IsDeep, IsOrdered, IsOrderedFork};
ghost use Rattle.stun_agent.specs.code.Tree.{IsTimed, IsTimedFork};

use crate::state::tree::{Fork, Leaf, Link, Quarter, choose_quarter};
use std::alloc::Allocator;
use std::mem;
use stun_base::transaction_id::TransactionId;

/// Replaces the datum of the request with this ID, and returns the former datum. If there is no
/// such request, drops `datum` and returns `None`.
#[cycle(replace)]
pub(crate) fn replace<A: Allocator, D: Drop>(
    link: &mut Link<A, D>,
    levels: u32,
    id: TransactionId,
    datum: D,
) -> Option<D>
    requires { IsOrdered levels (part_of levels id) link.old }
    ensures before { result ≡ datum_at id (attached link.old) }
    ensures attached { attached link.new ≡ set_datum id datum (attached link.old) }
    ensures items { items link.new ≡ items link.old }
    ensures ordered { IsOrdered levels (part_of levels id) link.new }
    ensures timed { (transport : TransportType) → IsTimed transport link.old
        → IsTimed transport link.new }
{
    match link {
        Link::Empty => None,
        Link::Leaf(_, leaf) => {
            if leaf.id == id {
                Some(leaf.replace(datum))
            } else {
                None
            }
        }
        Link::Fork(_, fork) => replace_in(fork, levels, id, datum),
    }
}

/// Like `replace`, but for the requests below a fork.
#[cycle(replace)]
fn replace_in<A: Allocator, D: Drop>(
    fork: &mut Fork<A, D>,
    levels: u32,
    id: TransactionId,
    datum: D,
) -> Option<D>
    requires deep { IsDeep levels }
    requires ordered { IsOrderedFork levels (part_of levels id) fork.old }
    ensures before { result ≡ datum_at id (fork_attached fork.old) }
    ensures attached { fork_attached fork.new ≡ set_datum id datum (fork_attached fork.old) }
    ensures items { fork_items fork.new ≡ fork_items fork.old }
    ensures ordered { IsOrderedFork levels (part_of levels id) fork.new }
    ensures timed { (transport : TransportType) → IsTimedFork transport fork.old
        → IsTimedFork transport fork.new }
{
    let below = levels - 1;
    match choose_quarter(id, levels) {
        Quarter::First => replace(&mut fork.first, below, id, datum),
        Quarter::Second => replace(&mut fork.second, below, id, datum),
        Quarter::Third => replace(&mut fork.third, below, id, datum),
        Quarter::Fourth => replace(&mut fork.fourth, below, id, datum),
    }
}

impl<A: Allocator, D> Leaf<A, D> {
    /// Replaces the datum, and returns the former datum.
    fn replace(&mut self, datum: D) -> D
        ensures before { result ≡ self.old.datum }
        ensures after { self.new ≡ record self.old { datum = datum } }
    {
        mem::replace(&mut self.datum, datum)
    }
}
