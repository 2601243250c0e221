//! Times. The caller passes them, because no call reads a clock.

ghost use Rattle.std.specs.Prelude.{◌≡◌, ◌-◌};
ghost use Rattle.std.specs.Duration.{as_nanos};
ghost use Rattle.stun_base.specs.Moments.{moment_after};

use std::marker::Model;
use std::ops::{Add, Sub};
use std::time::Duration;

/// A time, in whole nanoseconds since a start that the caller chooses.
///
/// Arithmetic on times never overflows: a sum is at most `Instant::MAX`, and a difference is at
/// least zero.
///
/// Contracts: the value is the number of nanoseconds, and times are ordered as numbers.
#[derive(Clone, Copy, Debug, PartialEq, Eq, PartialOrd, Ord, Hash)]
pub struct Instant {
    nanos: u64,
}

impl Model for Instant {
    ghost use Rattle.std.specs.Prelude.{ℕ};

    ghost Value = { ℕ };

    ghost view = { λ moment. moment.nanos };

    ghost inverse = { λ nanos. record { nanos = nanos } };
}

impl Instant {
    /// The start, at zero nanoseconds.
    pub const ZERO: Instant = Instant { nanos: 0 };
    /// The greatest time, 2^64 - 1 nanoseconds after the start.
    pub const MAX: Instant = Instant { nanos: u64::MAX };

    /// Returns the time that is `nanos` nanoseconds after the start.
    pub fn from_nanos(nanos: u64) -> Instant
        ensures { result ≡ nanos }
    {
        Instant { nanos }
    }

    /// Returns the number of nanoseconds since the start.
    pub fn as_nanos(self) -> u64
        ensures { result ≡ self }
    {
        self.nanos
    }
}

/// Adds a duration. The sum is at most `Instant::MAX`.
impl Add<Duration> for Instant {
    type Output = Instant;

    ghost add_gives = { λ moment span result. result ≡ moment_after moment (as_nanos span) };

    fn add(self, span: Duration) -> Instant {
        let nanos = (self.nanos as u128 + span.as_nanos()).min(u64::MAX as u128);
        Instant {
            nanos: nanos as u64,
        }
    }
}

/// Returns the time elapsed since `earlier`, or zero if `earlier` is later than this time.
impl Sub for Instant {
    type Output = Duration;

    ghost sub_gives = { λ later earlier span. as_nanos span ≡ later - earlier };

    fn sub(self, earlier: Instant) -> Duration {
        Duration::from_nanos(self.nanos.saturating_sub(earlier.nanos))
    }
}
