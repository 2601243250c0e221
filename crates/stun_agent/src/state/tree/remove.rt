//! Removes requests from a tree.
ghost use Rattle.std.specs.Prelude.{◌≡◌, ℕ, [], Some, None, IfSome, true, false};
ghost use Rattle.std.specs.Prelude.{MatchOption};
ghost use Rattle.std.specs.Option.{option_map};
ghost use Rattle.stun_base.specs.declared.wire.transport.TransportType.{TransportType};
ghost use Rattle.stun_agent.specs.Tables.{datum_at, without_datum};
ghost use Rattle.stun_agent.specs.Transactions.{at, without};
ghost use Rattle.stun_agent.specs.declared.state.tree.Link.TheVariants.{Empty};
ghost use Rattle.stun_agent.specs.code.Awaited.{awaited_by, awaited_of, joined};
ghost use Rattle.stun_agent.specs.code.Tree.{items, fork_items, attached, fork_attached};
ghost use Rattle.stun_agent.specs.code.Tree.{first_request, first_datum, IsLeaf, IsLone};
ghost use Rattle.stun_agent.specs.code.Tree.{part_of, IsDeep, IsOrdered, IsOrderedFork};
ghost use Rattle.stun_agent.specs.code.Tree.{IsTimed, IsTimedFork};

use crate::state::tree::awaited::Awaited;
use crate::state::tree::{Fork, Leaf, Link, Quarter, choose_quarter};
use std::alloc::Allocator;
use std::mem;
use stun_base::transaction_id::TransactionId;

/// Removes the request with this ID, and each fork above it that then has at most one leaf. Returns
/// the leaf of the request, and writes to `gone` the times that the request awaited. Returns `None`
/// and changes nothing if no request has this ID.
#[cycle(remove)]
pub(crate) fn remove<A: Allocator, D: Drop>(
    link: &mut Link<A, D>,
    levels: u32,
    id: TransactionId,
    gone: &mut Awaited,
) -> Option<Box<Leaf<A, D>, A>>
    requires { IsOrdered levels (part_of levels id) link.old }
    ensures answer { option_map (λ leaf. leaf.value.entry.1) result ≡ at id (items link.old) }
    ensures datum { option_map (λ leaf. leaf.value.datum) result
        ≡ datum_at id (attached link.old) }
    ensures after { items link.new ≡ without id (items link.old) }
    ensures attached { attached link.new ≡ without_datum id (attached link.old) }
    ensures same { MatchOption result (link.new ≡ link.old) (λ _. Unit {0}) }
    ensures ordered { IsOrdered levels (part_of levels id) link.new }
    ensures timed { (transport : TransportType) → IsTimed transport link.old
        → IsTimed transport link.new }
    ensures gone { IfSome result (λ leaf. (transport : TransportType) → IsTimed transport link.old
        → gone.new ≡ awaited_by transport leaf.value.entry.1) }
{
    match link {
        Link::Empty => None,
        Link::Leaf(_, _) => {
            if link.is_of(id) {
                take_leaf(link, gone)
            } else {
                None
            }
        }
        Link::Fork(before, fork) => {
            let leaf = remove_from(fork, levels, id, gone)?;
            match fork.settle(before, gone) {
                Some(only) => {
                    *link = only;
                    Some(leaf)
                }
                None => Some(leaf),
            }
        }
    }
}

/// Like `remove`, but for the requests below a fork. The fork stays, even if it then has at most
/// one leaf.
#[cycle(remove)]
fn remove_from<A: Allocator, D: Drop>(
    fork: &mut Fork<A, D>,
    levels: u32,
    id: TransactionId,
    gone: &mut Awaited,
) -> Option<Box<Leaf<A, D>, A>>
    requires deep { IsDeep levels }
    requires ordered { IsOrderedFork levels (part_of levels id) fork.old }
    ensures answer { option_map (λ leaf. leaf.value.entry.1) result ≡ at id (fork_items fork.old) }
    ensures datum { option_map (λ leaf. leaf.value.datum) result
        ≡ datum_at id (fork_attached fork.old) }
    ensures after { fork_items fork.new ≡ without id (fork_items fork.old) }
    ensures attached { fork_attached fork.new ≡ without_datum id (fork_attached fork.old) }
    ensures same { MatchOption result (fork.new ≡ fork.old) (λ _. Unit {0}) }
    ensures ordered { IsOrderedFork levels (part_of levels id) fork.new }
    ensures timed { (transport : TransportType) → IsTimedFork transport fork.old
        → IsTimedFork transport fork.new }
    ensures gone { IfSome result (λ leaf. (transport : TransportType)
        → IsTimedFork transport fork.old → gone.new ≡ awaited_by transport leaf.value.entry.1) }
{
    let below = levels - 1;
    match choose_quarter(id, levels) {
        Quarter::First => remove(&mut fork.first, below, id, gone),
        Quarter::Second => remove(&mut fork.second, below, id, gone),
        Quarter::Third => remove(&mut fork.third, below, id, gone),
        Quarter::Fourth => remove(&mut fork.fourth, below, id, gone),
    }
}

/// Removes the request that a link leads to, and writes to `gone` the times that the request
/// awaited.
fn take_leaf<A: Allocator, D: Drop>(
    link: &mut Link<A, D>,
    gone: &mut Awaited,
) -> Option<Box<Leaf<A, D>, A>>
    requires { IsLeaf link.old }
    ensures answer { option_map (λ leaf. leaf.value.entry.1) result
        ≡ first_request (items link.old) }
    ensures datum { option_map (λ leaf. leaf.value.datum) result
        ≡ first_datum (attached link.old) }
    ensures gone { IfSome result (λ leaf. (transport : TransportType) → IsTimed transport link.old
        → gone.new ≡ awaited_by transport leaf.value.entry.1) }
    ensures some { MatchOption result (Empty ≡ link.old) (λ _. Unit {0}) }
    ensures empty { link.new ≡ Empty }
{
    match mem::replace(link, Link::Empty) {
        Link::Leaf(awaited, leaf) => {
            *gone = awaited;
            Some(leaf)
        }
        other => {
            *link = other;
            None
        }
    }
}

impl<A: Allocator, D> Link<A, D> {
    /// Returns whether the request that this link leads to has this ID.
    fn is_of(&self, id: TransactionId) -> bool
        requires { IsLeaf self.now }
        ensures yes { result ≡ true → at id (items self.now) ≡ first_request (items self.now) }
        ensures own { result ≡ true
            → datum_at id (attached self.now) ≡ first_datum (attached self.now) }
        ensures no { result ≡ false → at id (items self.now) ≡ None }
        ensures none { result ≡ false → datum_at id (attached self.now) ≡ None }
        ensures stays { result ≡ false → without id (items self.now) ≡ items self.now }
        ensures left { result ≡ false
            → without_datum id (attached self.now) ≡ attached self.now }
    {
        match self {
            Link::Leaf(_, leaf) => leaf.id == id,
            _ => false,
        }
    }

    fn is_empty(&self) -> bool
        ensures { result ≡ true → self.now ≡ Empty }
    {
        matches!(self, Link::Empty)
    }

    /// Removes and returns the leaf that this link leads to, or `Link::Empty` if it leads to
    /// nothing. Returns `None` and changes nothing if it leads to a fork.
    fn take_lone(&mut self) -> Option<Link<A, D>>
        ensures none { MatchOption result (self.new ≡ self.old) (λ _. Unit {0}) }
        ensures link { IfSome result (λ link. link ≡ self.old) }
        ensures lone { IfSome result IsLone }
    {
        match self {
            Link::Fork(_, _) => None,
            _ => Some(mem::replace(self, Link::Empty)),
        }
    }
}

impl<A: Allocator, D> Fork<A, D> {
    /// Removes and returns the only leaf below this fork, or `Link::Empty` if there is none.
    /// Returns `None` and changes nothing if there are more.
    fn take_lone(&mut self) -> Option<Link<A, D>>
        ensures none { MatchOption result (self.new ≡ self.old) (λ _. Unit {0}) }
        ensures items { IfSome result (λ link. items link ≡ fork_items self.old) }
        ensures attached { IfSome result (λ link. attached link ≡ fork_attached self.old) }
        ensures lone { IfSome result IsLone }
        ensures timed { IfSome result (λ link. (transport : TransportType)
            → IsTimedFork transport self.old → IsTimed transport link) }
    {
        if self.first.is_empty() && self.second.is_empty() {
            if self.third.is_empty() {
                self.fourth.take_lone()
            } else if self.fourth.is_empty() {
                self.third.take_lone()
            } else {
                None
            }
        } else if self.third.is_empty() && self.fourth.is_empty() {
            if self.first.is_empty() {
                self.second.take_lone()
            } else if self.second.is_empty() {
                self.first.take_lone()
            } else {
                None
            }
        } else {
            None
        }
    }

    /// Removes and returns the only leaf below this fork, or `Link::Empty` if there is none. If
    /// there are more leaves, returns `None` and updates `all`, the earliest times that the
    /// requests below the fork await. `gone` has the times that the removed request awaited: `all`
    /// is computed again only if one of these may have been the earliest.
    fn settle(&mut self, all: &mut Awaited, gone: &Awaited) -> Option<Link<A, D>>
        ensures same { MatchOption result (self.new ≡ self.old) (λ _. Unit {0}) }
        ensures items { IfSome result (λ link. items link ≡ fork_items self.old) }
        ensures attached { IfSome result (λ link. attached link ≡ fork_attached self.old) }
        ensures lone { IfSome result IsLone }
        ensures timed { IfSome result (λ link. (transport : TransportType)
            → IsTimedFork transport self.old → IsTimed transport link) }
        ensures awaited { MatchOption result ((transport : TransportType)
            → IsTimedFork transport self.old
            → all.old ≡ joined (awaited_of transport (fork_items self.old)) gone.now
            → all.new ≡ awaited_of transport (fork_items self.old)) (λ _. Unit {0}) }
    {
        if let Some(lone) = self.take_lone() {
            return Some(lone);
        }
        // If the removed request awaited later times than the others, `all` is still correct.
        if gone.may_be_first_of(all) {
            *all = self.join_awaited();
        }
        None
    }
}
