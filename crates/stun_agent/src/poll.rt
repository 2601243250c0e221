//! Polls an agent: finds the request that ends. Each request that the search reads, and each link
//! of the tree that it looks at, is counted (`reads`).
//!
//! The calls of this module and of `reads` do not have the bound `A: Copy`, which every other call
//! of an agent requires. So they cannot make these other calls, and all their searches are counted.
ghost use Rattle.std.specs.Prelude.{◌≡◌, ◌≤◌};
ghost use Rattle.stun_agent.specs.Agent.{poll_answer, after_poll};
ghost use Rattle.stun_agent.specs.Deadlines.{early_requests, most_reads, most_looks, IsUnused};

use crate::agent::{StunAgent, StunAgentPollRet};
use crate::poll::reads::Reads;
use crate::stats::counting;
use std::alloc::Allocator;
use std::marker::Brand;
use std::sync::ledger::{Blank, Ledger};
use stun_base::instant::Instant;

pub(crate) mod reads;
pub(crate) mod table;

// These functions know only that `A` is an allocator. All calls that can search the requests
// without a count require `A: Copy`, so they cannot be called here.
impl<A: Allocator> StunAgent<A> {
    /// Ends at most one request and returns which one, or returns the time at which to poll again.
    ///
    /// A request is over if it was canceled or its last wait has passed. If several requests are
    /// over, each call ends only the one with the least transaction ID, so poll again at once after
    /// a request has ended. `WaitUntil` has the next time at which a request is due to be
    /// retransmitted or to end, but never a time before `now` or more than one hour after it. Poll
    /// again at that time, and after every other call that can change the agent.
    ///
    /// Call `poll_transmit` first, until it returns `None`, because only `poll_transmit` advances
    /// the retransmission timers. If a retransmission is due, `poll` returns `WaitUntil` with the
    /// time `now`, so you do not wait.
    ///
    /// This call does not allocate. However many requests are outstanding, it reads only the
    /// request that it ends, and it looks at a limited number of links of the tree
    /// (`poll_counted`).
    pub fn poll(&mut self, now: Instant) -> StunAgentPollRet
        ensures answer { result ≡ poll_answer now self.old }
        ensures after { self.new ≡ after_poll now self.old }
    {
        self.poll_from::<Brand>(now, Blank::new(2))
    }

    /// Like `poll_counted`, but discards the count.
    fn poll_from<L: Ledger>(&mut self, now: Instant, blank: Blank) -> StunAgentPollRet
        requires { IsUnused blank.name blank.parts L.name L.parts }
        ensures answer { result ≡ poll_answer now self.old }
        ensures after { self.new ≡ after_poll now self.old }
    {
        let (answer, _reads) = self.poll_counted::<L>(now, blank);
        answer
    }

    /// Polls, and adds to the count that `poll_counted` has begun.
    fn poll_under<L: Ledger>(&mut self, now: Instant, reads: &mut Reads<L>) -> StunAgentPollRet
        requires { reads.old ≡ record { entries = 0; looks = 0 } }
        ensures answer { result ≡ poll_answer now self.old }
        ensures after { self.new ≡ after_poll now self.old }
        ensures work { reads.new.entries
            ≤ early_requests self.old.transport now self.old.transactions }
        ensures path { reads.new.entries ≤ most_reads }
        ensures looks { reads.new.looks ≤ most_looks reads.new.entries }
    {
        let (id, repeats) = match self.outstanding.find_over(now, reads) {
            Ok(ended) => ended,
            Err(until) => return StunAgentPollRet::WaitUntil(until),
        };
        let _ended = self.outstanding.remove(id);
        counting::count_end(&mut self.stats, repeats);
        if repeats {
            StunAgentPollRet::TransactionTimedOut(id)
        } else {
            StunAgentPollRet::TransactionCancelled(id)
        }
    }
}
