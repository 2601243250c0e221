//! Adds requests to a tree.
ghost use Rattle.std.specs.Prelude.{◌≡◌, ◌≤◌, ℕ, [], ◌∷◌, None, IsOk, OnOk, OnErr};
ghost use Rattle.stun_base.specs.declared.wire.transport.TransportType.{TransportType};
ghost use Rattle.stun_agent.specs.Deadlines.{most_levels};
ghost use Rattle.stun_agent.specs.Tables.{with_datum};
ghost use Rattle.stun_agent.specs.Transactions.{at, with, IsNamed};
ghost use Rattle.stun_agent.specs.code.Awaited.{awaited_by};
ghost use Rattle.stun_agent.specs.code.Tree.{items, fork_items, attached, fork_attached};
ghost use Rattle.stun_agent.specs.code.Tree.{part_of, IsDeep, IsPlaced};
ghost use Rattle.stun_agent.specs.code.Tree.{IsFork, IsLeaf};
ghost use Rattle.stun_agent.specs.code.Tree.{IsOrdered, IsOrderedFork, IsTimed, IsTimedFork};

use crate::state::tree::awaited::Awaited;
use crate::state::tree::{Fork, Leaf, Link, Quarter, choose_quarter};
use std::alloc::{AllocError, Allocator};
use std::mem;
use stun_base::memory::Memory;

/// Adds a request whose ID is not in the tree. If an allocation fails, the requests are unchanged,
/// but forks that were made before the failure stay: up to 47 of them.
#[cycle(insert)]
pub(crate) fn insert<A: Memory, D: Drop>(
    link: &mut Link<A, D>,
    levels: u32,
    alloc: A,
    awaited: &Awaited,
    leaf: Box<Leaf<A, D>, A>,
) -> Result<(), AllocError>
    requires deep { levels ≤ most_levels }
    requires ordered { IsOrdered levels (part_of levels leaf.value.entry.0) link.old }
    requires named { IsNamed leaf.value.entry }
    requires absent { at leaf.value.entry.0 (items link.old) ≡ None }
    ensures ok { OnOk result
        (items link.new ≡ with leaf.value.entry.0 leaf.value.entry.1 (items link.old)) }
    ensures err { OnErr result (items link.new ≡ items link.old) }
    ensures attached { OnOk result (attached link.new
        ≡ with_datum leaf.value.entry.0 leaf.value.datum (attached link.old)) }
    ensures left { OnErr result (attached link.new ≡ attached link.old) }
    ensures ordered { IsOrdered levels (part_of levels leaf.value.entry.0) link.new }
    ensures timed { (transport : TransportType)
        → awaited.now ≡ awaited_by transport leaf.value.entry.1
        → IsTimed transport link.old → IsTimed transport link.new }
    ensures granted { A.grants → IsOk result }
{
    match link {
        Link::Empty => {
            *link = Link::Leaf(awaited.copy(), leaf);
            Ok(())
        }
        Link::Leaf(_, _) => {
            // If a later allocation fails, this fork stays, with only the request that was here
            // before.
            deepen(link, levels, alloc)?;
            insert_below(link, levels, alloc, awaited, leaf)
        }
        Link::Fork(_, _) => insert_below(link, levels, alloc, awaited, leaf),
    }
}

/// Like `insert`, but for a link that leads to a fork.
#[cycle(insert)]
fn insert_below<A: Memory, D: Drop>(
    link: &mut Link<A, D>,
    levels: u32,
    alloc: A,
    awaited: &Awaited,
    leaf: Box<Leaf<A, D>, A>,
) -> Result<(), AllocError>
    requires fork { IsFork link.old }
    requires ordered { IsOrdered levels (part_of levels leaf.value.entry.0) link.old }
    requires named { IsNamed leaf.value.entry }
    requires absent { at leaf.value.entry.0 (items link.old) ≡ None }
    ensures ok { OnOk result
        (items link.new ≡ with leaf.value.entry.0 leaf.value.entry.1 (items link.old)) }
    ensures err { OnErr result (items link.new ≡ items link.old) }
    ensures attached { OnOk result (attached link.new
        ≡ with_datum leaf.value.entry.0 leaf.value.datum (attached link.old)) }
    ensures left { OnErr result (attached link.new ≡ attached link.old) }
    ensures ordered { IsOrdered levels (part_of levels leaf.value.entry.0) link.new }
    ensures timed { (transport : TransportType)
        → awaited.now ≡ awaited_by transport leaf.value.entry.1
        → IsTimed transport link.old → IsTimed transport link.new }
    ensures granted { A.grants → IsOk result }
{
    let Link::Fork(before, fork) = link else {
        return Ok(());
    };
    insert_into(fork, levels, alloc, awaited, leaf)?;
    before.join(awaited);
    Ok(())
}

/// Like `insert`, but for the requests below a fork.
#[cycle(insert)]
fn insert_into<A: Memory, D: Drop>(
    fork: &mut Fork<A, D>,
    levels: u32,
    alloc: A,
    awaited: &Awaited,
    leaf: Box<Leaf<A, D>, A>,
) -> Result<(), AllocError>
    requires deep { IsDeep levels }
    requires ordered { IsOrderedFork levels (part_of levels leaf.value.entry.0) fork.old }
    requires named { IsNamed leaf.value.entry }
    requires absent { at leaf.value.entry.0 (fork_items fork.old) ≡ None }
    ensures ok { OnOk result
        (fork_items fork.new ≡ with leaf.value.entry.0 leaf.value.entry.1 (fork_items fork.old)) }
    ensures err { OnErr result (fork_items fork.new ≡ fork_items fork.old) }
    ensures attached { OnOk result (fork_attached fork.new
        ≡ with_datum leaf.value.entry.0 leaf.value.datum (fork_attached fork.old)) }
    ensures left { OnErr result (fork_attached fork.new ≡ fork_attached fork.old) }
    ensures ordered { IsOrderedFork levels (part_of levels leaf.value.entry.0) fork.new }
    ensures timed { (transport : TransportType)
        → awaited.now ≡ awaited_by transport leaf.value.entry.1
        → IsTimedFork transport fork.old → IsTimedFork transport fork.new }
    ensures granted { A.grants → IsOk result }
{
    let below = levels - 1;
    match choose_quarter(leaf.id, levels) {
        Quarter::First => insert(&mut fork.first, below, alloc, awaited, leaf),
        Quarter::Second => insert(&mut fork.second, below, alloc, awaited, leaf),
        Quarter::Third => insert(&mut fork.third, below, alloc, awaited, leaf),
        Quarter::Fourth => insert(&mut fork.fourth, below, alloc, awaited, leaf),
    }
}

/// Replaces a leaf with a fork that contains it, so that another leaf can be added.
fn deepen<A: Memory, D: Drop>(
    link: &mut Link<A, D>,
    levels: u32,
    alloc: A,
) -> Result<(), AllocError>
    requires leaf { IsLeaf link.old }
    requires deep { IsDeep levels }
    ensures ok { OnOk result (IsFork link.new) }
    ensures items { items link.new ≡ items link.old }
    ensures attached { attached link.new ≡ attached link.old }
    ensures ordered { (part : ℕ) → IsOrdered levels part link.old → IsOrdered levels part link.new }
    ensures timed { (transport : TransportType) → IsTimed transport link.old
        → IsTimed transport link.new }
    ensures granted { A.grants → IsOk result }
{
    let none = Fork {
        first: Link::Empty,
        second: Link::Empty,
        third: Link::Empty,
        fourth: Link::Empty,
    };
    let mut fork = A::boxed(alloc, none)?;
    match mem::replace(link, Link::Empty) {
        Link::Leaf(awaited, leaf) => {
            *fork = Fork::of(levels, awaited.copy(), leaf);
            *link = Link::Fork(awaited, fork);
        }
        other => *link = other,
    }
    Ok(())
}

impl<A: Allocator, D> Fork<A, D> {
    /// Creates a fork with one request, in the quarter to which its ID belongs.
    fn of(levels: u32, awaited: Awaited, leaf: Box<Leaf<A, D>, A>) -> Self
        requires { IsDeep levels }
        ensures items { fork_items result ≡ leaf.value.entry ∷ [] }
        ensures attached { fork_attached result
            ≡ (leaf.value.entry.0, leaf.value.datum) ∷ [] }
        ensures ordered { (part : ℕ) → IsPlaced levels part leaf.value.entry
            → IsOrderedFork levels part result }
        ensures timed { (transport : TransportType)
            → awaited ≡ awaited_by transport leaf.value.entry.1
            → IsTimedFork transport result }
    {
        let quarter = choose_quarter(leaf.id, levels);
        let link = Link::Leaf(awaited, leaf);
        match quarter {
            Quarter::First => Fork {
                first: link,
                second: Link::Empty,
                third: Link::Empty,
                fourth: Link::Empty,
            },
            Quarter::Second => Fork {
                first: Link::Empty,
                second: link,
                third: Link::Empty,
                fourth: Link::Empty,
            },
            Quarter::Third => Fork {
                first: Link::Empty,
                second: Link::Empty,
                third: link,
                fourth: Link::Empty,
            },
            Quarter::Fourth => Fork {
                first: Link::Empty,
                second: Link::Empty,
                third: Link::Empty,
                fourth: link,
            },
        }
    }
}
