//! Polls a client: returns the messages to send and the requests that have ended.
ghost use Rattle.std.specs.Prelude.{◌≡◌, Some};
ghost use Rattle.stun_client_calls.specs.Clients.{given_up, handed_out, timed_out, told, told_of};
ghost use Rattle.stun_client_calls.specs.Messages.{AskedSeen};
ghost use Rattle.stun_client_requests.specs.Requests.{datum_of};

use crate::asked::{Asked, Change, End};
use crate::endpoint::ClientEndpoint;
use crate::endpoint::changing::change;
use crate::told::Polled;
use std::alloc::Allocator;
use stun_base::instant::Instant;
use stun_client_endpoint::ended::RequestEnd;
use stun_client_requests::requests::Polled as OfRequests;

impl<A: Allocator + Copy> ClientEndpoint<A> {
    /// Returns the next thing to do. After each `request`, `receive` and `cancel`, and when the
    /// wait is over, call it until it returns `Wait`. It does not allocate.
    ///
    /// It returns first the messages that it has not returned yet, in the order of the numbers of
    /// their requests, and then the messages that are due for retransmission, in the order of their
    /// transaction IDs. After these come the requests that have ended, in the order of their
    /// numbers, and last the requests that time out, in the order of their transaction IDs. If a
    /// message is due after the first plan of its request, the request ends instead.
    pub fn poll(&mut self, now: Instant) -> Polled<A>
        ensures { (told_of result, self.new) ≡ told now self.old }
    {
        match self.requests.poll(now) {
            OfRequests::Transmit(number) => self.hand_out(number, now),
            OfRequests::Ended(number, end) => Polled::Ended(number, end),
            OfRequests::TimedOut(number, asked) => self.time_out(number, asked),
            OfRequests::Wait(until) => Polled::Wait(until),
        }
    }

    /// Handles a request whose message is due: returns `Transmit` with its number, or ends the
    /// request if its first plan is over.
    fn hand_out(&mut self, number: u64, now: Instant) -> Polled<A>
        ensures { (told_of result, self.new) ≡ handed_out now number self.old }
    {
        let Some(asked) = self.requests.datum_of(number) else {
            return Polled::Transmit(number);
        };
        if asked.is_late(now) {
            return self.give_up(number);
        }
        change(&mut self.requests, self.alloc, number, Change::SentOut(now));
        Polled::Transmit(number)
    }

    /// Ends a request whose first plan is over.
    fn give_up(&mut self, number: u64) -> Polled<A>
        ensures { (a : AskedSeen) → datum_of number self.old.requests ≡ Some a
            → (told_of result, self.new) ≡ given_up number a self.old }
    {
        match self.requests.remove(number) {
            Some(asked) => self.time_out(number, asked),
            None => Polled::Transmit(number),
        }
    }

    /// Ends a request that has timed out: steps back from a challenge that may be forged, forgets
    /// the earlier messages, and returns `Polled::Ended` with `RequestEnd::TimedOut`.
    fn time_out(&mut self, number: u64, asked: Asked<A>) -> Polled<A>
        ensures { (told_of result, self.new) ≡ timed_out number asked self.old }
    {
        asked.step_back(&mut self.standing);
        let end = End::bare(self.alloc, RequestEnd::TimedOut(asked.drops()));
        asked.forget(&mut self.earlier);
        Polled::Ended(number, end)
    }
}
