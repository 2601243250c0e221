//! The time of the wall clock, which a caller passes to a server.

ghost use Rattle.std.specs.Prelude.{◌≡◌, ◌<◌, ◌/◌};

use std::marker::Model;

/// A time of the wall clock, in whole seconds since the beginning of 1970 (UTC).
///
/// A server needs the wall clock. With a clock that starts at zero, the nonces of an earlier run of
/// the program would be current again, and so would requests that an attacker has recorded.
///
/// If the clock is set back, no call fails. Time is divided into periods of one nonce lifetime. A
/// nonce whose period has not begun again is refused with a 438, which costs its client one more
/// exchange, and is accepted again once its period begins. So the nonces that were sent before, and
/// the requests that an attacker has recorded, stay valid for as much longer as the clock was set
/// back.
#[derive(Clone, Copy, Debug, PartialEq, Eq, PartialOrd, Ord, Hash)]
pub struct UnixTime {
    seconds: u64,
}

impl Model for UnixTime {
    ghost use Rattle.std.specs.Prelude.{ℕ};

    ghost Value = { ℕ };

    ghost view = { λ time. time.seconds };

    ghost inverse = { λ seconds. record { seconds = seconds } };
}

impl UnixTime {
    /// Returns the time that is `seconds` seconds after the beginning of 1970.
    pub fn from_secs(seconds: u64) -> UnixTime
        ensures { result ≡ seconds }
    {
        UnixTime { seconds }
    }

    /// Returns the seconds since the beginning of 1970.
    pub fn as_secs(self) -> u64
        ensures { result ≡ self }
    {
        self.seconds
    }

    /// Returns the number of whole spans of `span` seconds since the beginning of 1970.
    pub(crate) fn epoch(self, span: u64) -> u64
        requires { 0 < span }
        ensures { result ≡ self / span }
    {
        self.seconds / span
    }
}
