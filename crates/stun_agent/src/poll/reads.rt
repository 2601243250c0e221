//! The count of a poll: how many requests it reads, and at how many links of the tree it looks.
//! Only `poll_counted` can begin a count, and all code below that call adds to this count.
ghost use Rattle.std.specs.Prelude.{◌≡◌, ◌≤◌, ◌+◌, Some, None, IfOk, IfErr, OnErr, codes};
ghost use Rattle.std.specs.Fmt.{WritesOnOk};
ghost use Rattle.std.specs.Option.{option_map};
ghost use Rattle.stun_agent.specs.Agent.{poll_answer, after_poll};
ghost use Rattle.stun_agent.specs.Deadlines.{early_requests, most_reads, most_looks, IsUnused};
ghost use Rattle.stun_agent.specs.Tables.{datum_at, over_in, until_in, after_end};

use crate::agent::{StunAgent, StunAgentPollRet};
use crate::table::Table;
use std::alloc::Allocator;
use std::fmt;
use std::marker::Model;
use std::sync::ledger::{Blank, Book, Ledger, Share};
use stun_base::instant::Instant;
use stun_base::transaction_id::TransactionId;

/// The number of requests that a search has read, and the number of links at whose times it has
/// looked. The count uses no memory, and no program can read it.
///
/// Contracts: the value is a record of these two numbers.
#[derive(Drop)]
pub struct Reads<L: Ledger> {
    book: Book<L>,
    entries: Share<L>,
    looks: Share<L>,
}

impl<L: Ledger> Model for Reads<L> {
    ghost use Rattle.std.specs.Prelude.{◌<◌};
    ghost use Rattle.stun_agent.specs.Deadlines.{Work};

    ghost Value = { Work };

    ghost view = { λ r. record { entries = r.entries.amount; looks = r.looks.amount } };

    ghost invariant = { λ r. (0 < r.entries.parts) × (0 < r.looks.parts) };
}

impl<L: Ledger> fmt::Debug for Reads<L> {
    ghost debug_output = { λ _. Some (codes "Reads") };

    fn fmt<W: fmt::Write>(&self, f: &mut fmt::Formatter<W>) -> fmt::Result
        ensures { WritesOnOk W.write_str_gives f.old result (codes "Reads") f.new }
    {
        f.write_str("Reads")
    }
}

impl<L: Ledger> Reads<L> {
    /// Starts a count at zero, in a ledger that has not been used.
    fn new(blank: Blank) -> Self
        requires { IsUnused blank.name blank.parts L.name L.parts }
        ensures { result ≡ record { entries = 0; looks = 0 } }
    {
        let (book, mut entries) = blank.open();
        let looks = entries.split_off(1, 0);
        Reads {
            book,
            entries,
            looks,
        }
    }

    /// Counts a request that the search reads.
    pub(crate) fn count_entry(&mut self)
        ensures { self.new ≡ record self.old { entries = self.old.entries + 1 } }
    {
        self.book.add(&mut self.entries, 1);
    }

    /// Counts a link at whose times the search looks.
    pub(crate) fn count_look(&mut self)
        ensures { self.new ≡ record self.old { looks = self.old.looks + 1 } }
    {
        self.book.add(&mut self.looks, 1);
    }
}

impl<A: Allocator> StunAgent<A> {
    /// Like `poll`, but also returns the number of requests that the call read, and the number of
    /// links of the tree at which it looked.
    ///
    /// The call reads at most one request, and none if no request is canceled and the next deadline
    /// of every request is after `now`. To read a request is to read its transaction ID, the time
    /// that it awaits, and whether it is still retransmitted. To look at a link is to read the
    /// earliest times of the requests below it, or of the one request that it leads to. A call that
    /// ends no request looks at most twice, at the root. A call that ends a request looks at no
    /// more than four links for each of the 48 levels of the tree, plus two, however many requests
    /// are outstanding.
    ///
    /// The count uses no memory, and no program can read it.
    ///
    /// Contracts: the value of the count is a record of these two numbers. `poll` is this call with
    /// a ledger of its own.
    #[doc(hidden)]
    pub fn poll_counted<L: Ledger>(
        &mut self,
        now: Instant,
        blank: Blank,
    ) -> (StunAgentPollRet, Reads<L>)
        requires { IsUnused blank.name blank.parts L.name L.parts }
        ensures answer { result.0 ≡ poll_answer now self.old }
        ensures after { self.new ≡ after_poll now self.old }
        ensures work { result.1.entries
            ≤ early_requests self.old.transport now self.old.transactions }
        ensures path { result.1.entries ≤ most_reads }
        ensures looks { result.1.looks ≤ most_looks result.1.entries }
    {
        let mut reads = Reads::<L>::new(blank);
        let answer = self.poll_under(now, &mut reads);
        (answer, reads)
    }
}

impl<A: Allocator, D: Drop> Table<A, D> {
    /// Like `poll`, but also returns the number of requests that the call read, and the number of
    /// links of the tree at which it looked (see `StunAgent::poll_counted`).
    #[doc(hidden)]
    pub fn poll_counted<L: Ledger>(
        &mut self,
        now: Instant,
        blank: Blank,
    ) -> (Result<(TransactionId, D), Instant>, Reads<L>)
        requires { IsUnused blank.name blank.parts L.name L.parts }
        ensures ended { IfOk result.0 (λ e. option_map (λ o. o.0) (over_in now self.old)
            ≡ Some e.0) }
        ensures datum { IfOk result.0 (λ e. datum_at e.0 self.old.attached ≡ Some e.1) }
        ensures none { OnErr result.0 (over_in now self.old ≡ None) }
        ensures until { IfErr result.0 (λ until. until ≡ until_in now self.old) }
        ensures after { self.new ≡ after_end now self.old }
        ensures work { result.1.entries
            ≤ early_requests self.old.transport now self.old.requests }
        ensures path { result.1.entries ≤ most_reads }
        ensures looks { result.1.looks ≤ most_looks result.1.entries }
    {
        let mut reads = Reads::<L>::new(blank);
        let ended = self.end_under(now, &mut reads);
        (ended, reads)
    }
}
