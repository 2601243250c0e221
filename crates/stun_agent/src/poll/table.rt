//! Polls a table: finds the request that ends. As for an agent, each request that the search reads,
//! and each link of the tree that it looks at, is counted (`reads`).
ghost use Rattle.std.specs.Prelude.{◌≡◌, ◌≤◌, Some, None, IfOk, IfErr, OnErr};
ghost use Rattle.std.specs.Option.{option_map};
ghost use Rattle.stun_agent.specs.Deadlines.{early_requests, most_reads, most_looks, IsUnused};
ghost use Rattle.stun_agent.specs.Tables.{datum_at, over_in, until_in, after_end};

use crate::poll::reads::Reads;
use crate::stats::counting;
use crate::table::Table;
use std::alloc::Allocator;
use std::marker::Brand;
use std::sync::ledger::{Blank, Ledger};
use stun_base::instant::Instant;
use stun_base::transaction_id::TransactionId;

impl<A: Allocator, D: Drop> Table<A, D> {
    /// Ends at most one request whose response did not arrive in time, and returns its transaction
    /// ID and its datum. If no request ends, fails with the time at which to poll again.
    ///
    /// If several requests have timed out, each call ends only the one with the least transaction
    /// ID, so poll again at once after a request has ended. As for `StunAgent::poll`, the time is
    /// never before `now` and at most one hour after it. Call `poll_transmit` first, until it
    /// returns `None`.
    ///
    /// This call does not allocate. However many requests are outstanding, it reads only the
    /// request that it ends, and it looks at a limited number of links of the tree
    /// (`poll_counted`).
    pub fn poll(&mut self, now: Instant) -> Result<(TransactionId, D), Instant>
        ensures ended { IfOk result (λ e. option_map (λ o. o.0) (over_in now self.old)
            ≡ Some e.0) }
        ensures datum { IfOk result (λ e. datum_at e.0 self.old.attached ≡ Some e.1) }
        ensures none { OnErr result (over_in now self.old ≡ None) }
        ensures until { IfErr result (λ until. until ≡ until_in now self.old) }
        ensures after { self.new ≡ after_end now self.old }
    {
        self.poll_from::<Brand>(now, Blank::new(2))
    }

    /// Like `poll_counted`, but discards the count.
    fn poll_from<L: Ledger>(
        &mut self,
        now: Instant,
        blank: Blank,
    ) -> Result<(TransactionId, D), Instant>
        requires { IsUnused blank.name blank.parts L.name L.parts }
        ensures ended { IfOk result (λ e. option_map (λ o. o.0) (over_in now self.old)
            ≡ Some e.0) }
        ensures datum { IfOk result (λ e. datum_at e.0 self.old.attached ≡ Some e.1) }
        ensures none { OnErr result (over_in now self.old ≡ None) }
        ensures until { IfErr result (λ until. until ≡ until_in now self.old) }
        ensures after { self.new ≡ after_end now self.old }
    {
        let (answer, _reads) = self.poll_counted::<L>(now, blank);
        answer
    }

    /// Polls, and adds to the count that `poll_counted` has begun.
    pub(super) fn end_under<L: Ledger>(
        &mut self,
        now: Instant,
        reads: &mut Reads<L>,
    ) -> Result<(TransactionId, D), Instant>
        requires { reads.old ≡ record { entries = 0; looks = 0 } }
        ensures ended { IfOk result (λ e. option_map (λ o. o.0) (over_in now self.old)
            ≡ Some e.0) }
        ensures datum { IfOk result (λ e. datum_at e.0 self.old.attached ≡ Some e.1) }
        ensures none { OnErr result (over_in now self.old ≡ None) }
        ensures until { IfErr result (λ until. until ≡ until_in now self.old) }
        ensures after { self.new ≡ after_end now self.old }
        ensures work { reads.new.entries
            ≤ early_requests self.old.transport now self.old.requests }
        ensures path { reads.new.entries ≤ most_reads }
        ensures looks { reads.new.looks ≤ most_looks reads.new.entries }
    {
        let (id, repeats) = match self.outstanding.find_over(now, reads) {
            Ok(ended) => ended,
            Err(until) => return Err(until),
        };
        let (_request, datum) = self.outstanding.remove(id).unwrap();
        counting::count_end(&mut self.stats, repeats);
        Ok((id, datum))
    }
}
