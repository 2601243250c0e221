//! The statistics of an agent: how many messages and bytes it sent and received, how its requests
//! ended, and how long round trips took.
ghost use Rattle.std.specs.Prelude.{◌≡◌, ◌≤◌, ◌+◌, ℕ, List};
ghost use Rattle.std.specs.Option.{option_map};
ghost use Rattle.std.specs.Duration.{as_nanos};
ghost use Rattle.stun_agent.specs.Statistics.{Statistics, Tally, new_statistics, statistics_after};
ghost use Rattle.stun_agent.specs.Statistics.{average, outstanding_requests, request_sent};
ghost use Rattle.stun_agent.specs.Statistics.{request_sent_again, response_sent, indication_sent};
ghost use Rattle.stun_agent.specs.Statistics.{request_received, response_received};
ghost use Rattle.stun_agent.specs.Statistics.{indication_received, request_timed_out};
ghost use Rattle.stun_agent.specs.Statistics.{request_cancelled};
ghost use Rattle.stun_agent.specs.Statistics.{together, total, counted_in_turn, saturating_sum};
ghost use Rattle.stun_agent.specs.Statistics.{last_count};
ghost use Rattle.stun_agent.specs.Statistics.{IsLeast, IsGreatest, LeavesOutstanding, IsNotFull};

use std::marker::Model;
use std::time::Duration;

pub(crate) mod counting;

/// The statistics of an agent since it was built, or since the last `reset`.
///
/// The bytes of a message include its header. Counters do not wrap around: each counter stops at
/// the greatest 64-bit number, and the sum of the round trips stops at the greatest 128-bit number.
/// The calls do not allocate.
#[derive(Clone, Debug, Default, Drop, PartialEq, Eq)]
pub struct StunAgentStats {
    requests_sent: u64,
    requests_received: u64,
    responses_sent: u64,
    responses_received: u64,
    indications_sent: u64,
    indications_received: u64,
    transactions_timed_out: u64,
    transactions_cancelled: u64,
    bytes_sent: u64,
    bytes_received: u64,
    // Round trips are in nanoseconds.
    rtt_count: u64,
    rtt_min: Option<u64>,
    rtt_max: Option<u64>,
    rtt_total: u128,
}

impl Model for StunAgentStats {
    ghost use Rattle.stun_agent.specs.Statistics.{Statistics};

    ghost Value = { Statistics };

    ghost use Rattle.stun_agent.specs.code.StatisticsFields.{FitsFields, statistics_of, fields_of};

    ghost view = { statistics_of };

    ghost invariant = { λ stats. FitsFields (statistics_of stats) };

    ghost inverse = { fields_of };
}

impl StunAgentStats {
    /// Returns the number of requests sent. A request counts once, however often it was
    /// retransmitted.
    pub fn requests_sent(&self) -> u64
        ensures { result ≡ self.now.requests_sent }
    {
        self.requests_sent
    }

    /// Returns the number of requests received.
    pub fn requests_received(&self) -> u64
        ensures { result ≡ self.now.requests_received }
    {
        self.requests_received
    }

    /// Returns the number of responses sent, successes and errors.
    pub fn responses_sent(&self) -> u64
        ensures { result ≡ self.now.responses_sent }
    {
        self.responses_sent
    }

    /// Returns the number of responses received, successes and errors. Only responses that answered
    /// an outstanding request count.
    pub fn responses_received(&self) -> u64
        ensures { result ≡ self.now.responses_received }
    {
        self.responses_received
    }

    /// Returns the number of indications sent.
    pub fn indications_sent(&self) -> u64
        ensures { result ≡ self.now.indications_sent }
    {
        self.indications_sent
    }

    /// Returns the number of indications received.
    pub fn indications_received(&self) -> u64
        ensures { result ≡ self.now.indications_received }
    {
        self.indications_received
    }

    /// Returns the number of requests that ended because no response arrived in time (RFC 8489,
    /// section 6.2.1).
    pub fn transactions_timed_out(&self) -> u64
        ensures { result ≡ self.now.transactions_timed_out }
    {
        self.transactions_timed_out
    }

    /// Returns the number of requests that ended because you canceled them or their
    /// retransmissions.
    pub fn transactions_cancelled(&self) -> u64
        ensures { result ≡ self.now.transactions_cancelled }
    {
        self.transactions_cancelled
    }

    /// Returns the number of bytes of the messages sent, retransmissions included.
    pub fn bytes_sent(&self) -> u64
        ensures { result ≡ self.now.bytes_sent }
    {
        self.bytes_sent
    }

    /// Returns the number of bytes of the messages received. Responses that were not accepted do
    /// not count.
    pub fn bytes_received(&self) -> u64
        ensures { result ≡ self.now.bytes_received }
    {
        self.bytes_received
    }

    /// Returns the number of round trips measured. A round trip is measured if the response was
    /// passed to `handle_stun_message_with_time` before `poll_transmit` advanced its request past
    /// any timeout.
    pub fn rtt_count(&self) -> u64
        ensures { result ≡ self.now.rtt_count }
    {
        self.rtt_count
    }

    /// Returns the shortest round trip, or `None` if no round trip was measured.
    pub fn rtt_min(&self) -> Option<Duration>
        ensures { option_map as_nanos result ≡ self.now.rtt_min }
    {
        self.rtt_min.map(|nanos| Duration::from_nanos(nanos))
    }

    /// Returns the longest round trip, or `None` if no round trip was measured.
    pub fn rtt_max(&self) -> Option<Duration>
        ensures { option_map as_nanos result ≡ self.now.rtt_max }
    {
        self.rtt_max.map(|nanos| Duration::from_nanos(nanos))
    }

    /// Returns the mean round trip, or `None` if no round trip was measured. The mean is the sum of
    /// all round trips divided by their number, rounded down to whole nanoseconds.
    pub fn rtt_average(&self) -> Option<Duration>
        ensures { option_map as_nanos result ≡ average self.now }
    {
        if self.rtt_count == 0 {
            return None;
        }
        let nanos = self.rtt_total / u128::from(self.rtt_count);
        Some(Duration::from_nanos_u128(nanos))
    }

    /// Returns the number of requests sent, minus those that were answered, timed out or were
    /// canceled. Returns 0 if more requests ended than were sent, which can be the case after
    /// `reset`.
    pub fn outstanding_requests(&self) -> u64
        ensures { result ≡ outstanding_requests self.now }
    {
        self.requests_sent
            .saturating_sub(self.responses_received)
            .saturating_sub(self.transactions_timed_out)
            .saturating_sub(self.transactions_cancelled)
    }

    /// Resets all counters to zero.
    pub fn reset(&mut self)
        ensures { self.new ≡ new_statistics }
    {
        *self = Self::default();
    }

    pub(crate) fn count_request_sent(&mut self, bytes: u64)
        ensures { self.new ≡ statistics_after (request_sent bytes) self.old }
    {
        self.requests_sent = self.requests_sent.saturating_add(1);
        self.bytes_sent = self.bytes_sent.saturating_add(bytes);
    }

    pub(crate) fn count_request_sent_again(&mut self, bytes: u64)
        ensures { self.new ≡ statistics_after (request_sent_again bytes) self.old }
    {
        self.bytes_sent = self.bytes_sent.saturating_add(bytes);
    }

    pub(crate) fn count_response_sent(&mut self, bytes: u64)
        ensures { self.new ≡ statistics_after (response_sent bytes) self.old }
    {
        self.responses_sent = self.responses_sent.saturating_add(1);
        self.bytes_sent = self.bytes_sent.saturating_add(bytes);
    }

    pub(crate) fn count_indication_sent(&mut self, bytes: u64)
        ensures { self.new ≡ statistics_after (indication_sent bytes) self.old }
    {
        self.indications_sent = self.indications_sent.saturating_add(1);
        self.bytes_sent = self.bytes_sent.saturating_add(bytes);
    }

    pub(crate) fn count_request_received(&mut self, bytes: u64)
        ensures { self.new ≡ statistics_after (request_received bytes) self.old }
    {
        self.requests_received = self.requests_received.saturating_add(1);
        self.bytes_received = self.bytes_received.saturating_add(bytes);
    }

    /// Counts a response to an outstanding request, and its round trip in nanoseconds if
    /// `round_trip` is not `None`.
    pub(crate) fn count_response_received(&mut self, bytes: u64, round_trip: Option<u64>)
        ensures { self.new ≡ statistics_after (response_received bytes round_trip) self.old }
    {
        self.responses_received = self.responses_received.saturating_add(1);
        self.bytes_received = self.bytes_received.saturating_add(bytes);
        if let Some(nanos) = round_trip {
            self.rtt_count = self.rtt_count.saturating_add(1);
            self.rtt_min = Some(self.rtt_min.map_or(nanos, |least| nanos.min(least)));
            self.rtt_max = Some(self.rtt_max.map_or(nanos, |greatest| nanos.max(greatest)));
            self.rtt_total = self.rtt_total.saturating_add(u128::from(nanos));
        }
    }

    pub(crate) fn count_indication_received(&mut self, bytes: u64)
        ensures { self.new ≡ statistics_after (indication_received bytes) self.old }
    {
        self.indications_received = self.indications_received.saturating_add(1);
        self.bytes_received = self.bytes_received.saturating_add(bytes);
    }

    pub(crate) fn count_timed_out(&mut self)
        ensures { self.new ≡ statistics_after request_timed_out self.old }
    {
        self.transactions_timed_out = self.transactions_timed_out.saturating_add(1);
    }

    pub(crate) fn count_cancelled(&mut self)
        ensures { self.new ≡ statistics_after request_cancelled self.old }
    {
        self.transactions_cancelled = self.transactions_cancelled.saturating_add(1);
    }
}

/// Counting is addition: counting one tally after another has the same effect as counting the sum
/// of both. If a list of tallies is counted from the start, each counter is the sum over the list,
/// capped once at the end, and `rtt_min` and `rtt_max` are the shortest and the longest round trip
/// of the list. A counter is exact up to the greatest 64-bit number, and stays at that number from
/// then on. The same holds for the sum of the round trips, with the greatest 128-bit number.
pub fn counting_is_adding()
    ensures both { (first second : Tally) (statistics : Statistics)
        → statistics_after second (statistics_after first statistics)
        ≡ statistics_after (together first second) statistics }
    ensures all { (tallies : List Tally) → counted_in_turn tallies new_statistics
        ≡ statistics_after (total tallies) new_statistics }
    ensures shortest { (tallies : List Tally)
        → IsLeast (total tallies).round_trips (counted_in_turn tallies new_statistics).rtt_min }
    ensures longest { (tallies : List Tally)
        → IsGreatest (total tallies).round_trips (counted_in_turn tallies new_statistics).rtt_max }
    ensures exact { (counter more : ℕ) → counter + more ≤ last_count
        → saturating_sum counter more ≡ counter + more }
    ensures full { (counter more : ℕ) → last_count ≤ counter + more
        → saturating_sum counter more ≡ last_count }
{}

/// While no counter is full, the number of outstanding requests is the number of requests that were
/// sent, minus those that were answered, timed out or were canceled. Before anything is counted, it
/// is 0.
pub fn outstanding_requests_are_those_left()
    ensures none { LeavesOutstanding new_statistics 0 }
    ensures left { (statistics : Statistics) (n : ℕ) → LeavesOutstanding statistics n
        → outstanding_requests statistics ≡ n }
    ensures kept { (tally : Tally) (statistics : Statistics) (before after : ℕ)
        → LeavesOutstanding statistics before → IsNotFull (statistics_after tally statistics)
        → before + tally.requests_sent ≡ after +
        (tally.responses_received + tally.timed_out + tally.cancelled)
        → LeavesOutstanding (statistics_after tally statistics) after }
{}
