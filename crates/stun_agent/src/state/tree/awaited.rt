//! The times that requests await: the times of their next slots, and the times at which they end.
//!
//! The times are private to this module. A counted search can look at the times of a link in two
//! ways, `is_over` and `look_at_first`, and each counts one look. The calls that do not count, and
//! those that join times, are visible only in `tree.rt` and the modules below it.
ghost use Rattle.std.specs.Prelude.{◌≡◌, ◌+◌, ◌||◌, false, if◌then◌else◌, Some, None};
ghost use Rattle.stun_base.specs.Moments.{last_moment};
ghost use Rattle.stun_agent.specs.code.Awaited.{Awaited, nothing, slot_at, end_at, cancelled_one};
ghost use Rattle.stun_agent.specs.code.Awaited.{joined, first_awaited, some_due, some_over, lesser};

use crate::poll::reads::Reads;
use std::marker::Model;
use std::sync::ledger::Ledger;
use stun_base::instant::Instant;

/// The earliest slot and the earliest end of some requests, and whether one of the requests is
/// canceled. An absent time is stored as `Instant::MAX`, so joining two values takes two minima.
#[derive(Drop)]
pub(crate) struct Awaited {
    slot: Instant,
    end: Instant,
    has_slot: bool,
    has_end: bool,
    is_cancelled: bool,
}

impl Model for Awaited {
    ghost use Rattle.std.specs.Prelude.{◌≡◌, false, if◌then◌else◌, Some, None};
    ghost use Rattle.stun_base.specs.Moments.{last_moment};
    ghost use Rattle.stun_agent.specs.code.Awaited.{Awaited};

    ghost Value = { Awaited };

    ghost view = { λ a. record {
      slot = if a.has_slot then Some a.slot else None;
      end = if a.has_end then Some a.end else None;
      cancelled = a.is_cancelled;
    } };

    ghost invariant = { λ a. (a.has_slot ≡ false → a.slot ≡ last_moment)
        × (a.has_end ≡ false → a.end ≡ last_moment) };
}

impl Awaited {
    /// Creates the value for no requests.
    pub(crate) fn new() -> Self
        ensures { result ≡ nothing }
    {
        Awaited {
            slot: Instant::MAX,
            end: Instant::MAX,
            has_slot: false,
            has_end: false,
            is_cancelled: false,
        }
    }

    /// Creates the value for a request whose next slot is at this time. At that time it is
    /// retransmitted, unless its retransmissions are canceled.
    pub(crate) fn with_slot(slot: Instant) -> Self
        ensures { result ≡ slot_at slot }
    {
        Awaited {
            slot,
            end: Instant::MAX,
            has_slot: true,
            has_end: false,
            is_cancelled: false,
        }
    }

    /// Creates the value for a request that ends at this time, after its last wait.
    pub(crate) fn with_end(end: Instant) -> Self
        ensures { result ≡ end_at end }
    {
        Awaited {
            slot: Instant::MAX,
            end,
            has_slot: false,
            has_end: true,
            is_cancelled: false,
        }
    }

    /// Creates the value for a canceled request, which ends at the next poll that reaches it.
    pub(crate) fn with_cancelled() -> Self
        ensures { result ≡ cancelled_one }
    {
        Awaited {
            slot: Instant::MAX,
            end: Instant::MAX,
            has_slot: false,
            has_end: false,
            is_cancelled: true,
        }
    }

    pub(super) fn copy(&self) -> Self
        ensures { result ≡ self.now }
    {
        Awaited {
            slot: self.slot,
            end: self.end,
            has_slot: self.has_slot,
            has_end: self.has_end,
            is_cancelled: self.is_cancelled,
        }
    }

    /// Returns the earliest slot of the requests, even if it belongs to a request whose
    /// retransmissions are canceled.
    fn slot(&self) -> Option<Instant>
        ensures { result ≡ self.now.slot }
    {
        if self.has_slot { Some(self.slot) } else { None }
    }

    /// Returns the earliest time at which one of the requests ends.
    fn end(&self) -> Option<Instant>
        ensures { result ≡ self.now.end }
    {
        if self.has_end { Some(self.end) } else { None }
    }

    /// Returns the earlier of the earliest slot and the earliest end, without a count.
    pub(super) fn find_earliest(&self) -> Option<Instant>
        ensures { result ≡ first_awaited self.now }
    {
        choose_earlier(self.slot(), self.end())
    }

    /// Returns the earlier of the earliest slot and the earliest end, and counts one look.
    pub(crate) fn look_at_first<L: Ledger>(&self, reads: &mut Reads<L>) -> Option<Instant>
        ensures first { result ≡ first_awaited self.now }
        ensures counts { reads.new ≡ record reads.old { looks = reads.old.looks + 1 } }
    {
        reads.count_look();
        self.find_earliest()
    }

    /// Joins another value to this one, which then covers the requests of both.
    pub(super) fn join(&mut self, other: &Awaited)
        ensures { self.new ≡ joined self.old other.now }
    {
        self.slot = choose_earlier_time(self.has_slot, self.slot, other.has_slot, other.slot);
        self.end = choose_earlier_time(self.has_end, self.end, other.has_end, other.end);
        self.has_slot |= other.has_slot;
        self.has_end |= other.has_end;
        self.is_cancelled |= other.is_cancelled;
    }

    /// Returns whether one of these requests may await the earliest slot or the earliest end in
    /// `all`. If not, `all` stays the same without these requests.
    pub(super) fn may_be_first_of(&self, all: &Awaited) -> bool
        ensures { result ≡ false → (others : Awaited)
            → all.now ≡ joined others self.now → all.now ≡ others }
    {
        self.is_cancelled
            || (self.has_slot && self.slot <= all.slot)
            || (self.has_end && self.end <= all.end)
    }

    /// Returns whether the slot of one of the requests is due.
    pub(super) fn is_due(&self, now: Instant) -> bool
        ensures { result ≡ some_due now self.now }
    {
        self.has_slot && self.slot <= now
    }

    /// Returns whether one of the requests is over, and counts one look.
    pub(crate) fn is_over<L: Ledger>(&self, now: Instant, reads: &mut Reads<L>) -> bool
        ensures over { result ≡ some_over now self.now }
        ensures counts { reads.new ≡ record reads.old { looks = reads.old.looks + 1 } }
    {
        reads.count_look();
        self.is_cancelled || (self.has_end && self.end <= now)
    }
}

/// Returns the earlier of two times, each of which may be absent.
fn choose_earlier(one: Option<Instant>, other: Option<Instant>) -> Option<Instant>
    ensures { result ≡ lesser one other }
{
    match (one, other) {
        (Some(one), Some(other)) => Some(one.min(other)),
        (Some(one), None) => Some(one),
        (None, other) => other,
    }
}

/// Returns the earlier of two times. A time that is absent must be `Instant::MAX`.
///
/// Contracts: only contracts read `_is_there` and `_is_other_there`, which state whether the times
/// are present.
fn choose_earlier_time(
    _is_there: bool,
    one: Instant,
    _is_other_there: bool,
    other: Instant,
) -> Instant
    requires one { _is_there ≡ false → one ≡ last_moment }
    requires other { _is_other_there ≡ false → other ≡ last_moment }
    ensures earlier { (if _is_there || _is_other_there then Some result else None)
        ≡ lesser (if _is_there then Some one else None)
        (if _is_other_there then Some other else None) }
    ensures absent { (_is_there || _is_other_there) ≡ false → result ≡ last_moment }
{
    one.min(other)
}
