//! Laws about an agent that hold for every sequence of calls, even if the time that is passed to a
//! call is earlier than the time that was passed to the call before it.
ghost use Rattle.std.specs.Prelude.{◌≡◌, ◌≤◌, ◌<◌, ◌&&◌, ◌||◌, ◌↔◌, ℕ, true, not, min};
ghost use Rattle.std.specs.declared.net.socket_addr.SocketAddr.{SocketAddr};
ghost use Rattle.stun_base.specs.Address.{same_address};
ghost use Rattle.stun_agent.specs.Laws.{IsNeverEarly, WaitsAsTold, IgnoresUnknown};
ghost use Rattle.stun_agent.specs.Laws.{IgnoresElsewhere, EndsAlike, EndsOnce};
ghost use Rattle.stun_agent.specs.Laws.{IsTransmittedAtMost, KeepsCount};
ghost use Rattle.stun_agent.specs.Timing.{Settings, cut, plan_length, repetitions, timeout};
ghost use Rattle.stun_agent.specs.Timing.{sum_of_timeouts};
ghost use Rattle.stun_agent.specs.Transcript.{CountsCalls, CountsNothing};
ghost use Rattle.stun_agent.specs.Peers.{Peers, is_peer, with_peer, without_peer};

/// A request is retransmitted only after its timeout has passed. The timeout starts when the
/// request is sent, or when its previous timeout has passed (RFC 8489, section 6.2.1).
pub fn a_request_is_never_sent_early()
    ensures { IsNeverEarly }
{}

/// A request is never transmitted more often than its settings allow (RFC 8489, section 6.2.1). If
/// the settings change while the request is outstanding, the largest number of transmissions that
/// they have allowed counts. 0 counts as 1, and over TCP a request is transmitted once (section
/// 6.2.2). This holds for every sequence of calls, if the agent starts without outstanding
/// requests.
pub fn a_request_is_transmitted_at_most_as_often_as_set()
    ensures { IsTransmittedAtMost }
{}

/// If `poll` returns `WaitUntil`, it has changed nothing. The time that it returns is at or after
/// the time of the call, and at most one hour later. Until then, no retransmission is due and no
/// request ends, unless another call is made.
pub fn a_poll_tells_how_long_all_is_quiet()
    ensures { WaitsAsTold }
{}

/// Each request that `send_request` accepted is outstanding, or has ended exactly once: by a
/// response, a timeout, or a cancellation. This holds for every sequence of calls, if the agent
/// starts without outstanding requests.
pub fn a_request_ends_once()
    ensures { EndsOnce }
{}

/// A response that answers no outstanding request is not accepted, and leaves requests, peers and
/// statistics unchanged (RFC 8489, section 6.3).
pub fn a_response_to_no_request_changes_nothing()
    ensures { IgnoresUnknown }
{}

/// A response from an address other than the one that its request was sent to is not accepted, and
/// leaves requests, peers and statistics unchanged.
pub fn a_response_from_elsewhere_changes_nothing()
    ensures { IgnoresElsewhere }
{}

/// If two requests are sent at the same time with the same timeouts, one over UDP and one over TCP,
/// they time out at the same time (RFC 8489, section 6.2.2).
pub fn both_transports_end_at_one_moment()
    ensures { EndsAlike }
{}

/// While no counter is full, each call preserves this equation: the number of requests that were
/// sent equals the number of requests that were answered, have timed out or were canceled, plus the
/// number of outstanding requests.
pub fn statistics_tell_how_many_requests_are_outstanding()
    ensures { KeepsCount }
{}

/// If the counters of an agent begin at zero, each counter is the sum of the amounts that the calls
/// add to it (`tally_of`), which are numbers of messages or of bytes. Each counter saturates at its
/// greatest value. The statistics of round trips are the shortest, the longest and the sum of all
/// round trips (`counts`). An agent without statistics never starts to keep them (`nothing`).
pub fn statistics_count_the_calls()
    ensures counts { CountsCalls }
    ensures nothing { CountsNothing }
{}

/// Validating an address adds only this address to the validated peers (`added`). Two addresses
/// count as the same if and only if all their parts are equal (`exact`).
pub fn validating_adds_one_peer()
    ensures added { (address other : SocketAddr) (peers : Peers)
        → is_peer other (with_peer address peers)
        ≡ (same_address other address || is_peer other peers) }
    ensures exact { (address other : SocketAddr)
        → (same_address address other ≡ true) ↔ (address ≡ other) }
{}

/// Forgetting an address removes only this address from the validated peers.
pub fn forgetting_removes_one_peer()
    ensures { (address other : SocketAddr) (peers : Peers)
        → is_peer other (without_peer address peers)
        ≡ (not (same_address other address) && is_peer other peers) }
{}

/// States how `RequestRto::within` shortens a plan. The new plan ends after the given time or when
/// the original plan ends, whichever is earlier (`ends`). It has the same waits between
/// transmissions as the original plan (`alike`), and at most as many retransmissions (`fewer`). It
/// has all retransmissions of the original plan that come before the given time (`all`).
pub fn a_plan_is_cut_at_a_time()
    ensures ends { (time : ℕ) (settings : Settings)
        → plan_length (cut time settings) ≡ min time (plan_length settings) }
    ensures alike { (time i : ℕ) (settings : Settings)
        → timeout (cut time settings) i ≡ timeout settings i }
    ensures fewer { (time : ℕ) (settings : Settings)
        → repetitions (cut time settings) ≤ repetitions settings }
    ensures all { (time i : ℕ) (settings : Settings) → i ≤ repetitions settings
        → sum_of_timeouts settings i < time → i ≤ repetitions (cut time settings) }
{}
