//! The timeouts of an outstanding request, in fewer bytes than a `RequestRto` has.
ghost use Rattle.std.specs.Prelude.{◌≡◌};
ghost use Rattle.stun_agent.specs.Timing.{settings_of};

use crate::state::rto::RequestRto;
use std::marker::Model;
use std::time::Duration;

/// The fields of a `RequestRto`, with each `Duration` divided into its two parts. The parts of a
/// `Duration` take 12 bytes, but a `Duration` is padded to 16.
#[derive(Debug, Drop)]
pub(crate) struct Timeouts {
    initial_seconds: u64,
    max_seconds: u64,
    last_seconds: u64,
    initial_nanos: u32,
    max_nanos: u32,
    last_nanos: u32,
    pub(crate) transmissions: u32,
}

impl Model for Timeouts {
    ghost use Rattle.std.specs.Prelude.{◌+◌, ◌*◌, ◌<◌};
    ghost use Rattle.stun_agent.specs.Timing.{Settings};

    ghost Value = { Settings };

    ghost view = { λ t. record {
      initial = t.initial_seconds * 1_000_000_000 + t.initial_nanos;
      maximum = t.max_seconds * 1_000_000_000 + t.max_nanos;
      transmissions = t.transmissions;
      last_wait = t.last_seconds * 1_000_000_000 + t.last_nanos;
    } };

    ghost invariant = { λ t. (t.initial_nanos < 1_000_000_000)
        × ((t.max_nanos < 1_000_000_000) × (t.last_nanos < 1_000_000_000)) };
}

impl Timeouts {
    /// Creates the timeouts of these settings.
    pub(crate) fn of(settings: RequestRto) -> Self
        ensures { result ≡ settings_of settings }
    {
        Timeouts {
            initial_seconds: settings.initial.as_secs(),
            max_seconds: settings.max.as_secs(),
            last_seconds: settings.last_retransmit.as_secs(),
            initial_nanos: settings.initial.subsec_nanos(),
            max_nanos: settings.max.subsec_nanos(),
            last_nanos: settings.last_retransmit.subsec_nanos(),
            transmissions: settings.retransmits,
        }
    }

    /// Returns the settings that have these timeouts.
    pub(crate) fn to_settings(&self) -> RequestRto
        ensures { settings_of result ≡ self.now }
    {
        RequestRto {
            initial: Duration::new(self.initial_seconds, self.initial_nanos),
            max: Duration::new(self.max_seconds, self.max_nanos),
            retransmits: self.transmissions,
            last_retransmit: Duration::new(self.last_seconds, self.last_nanos),
        }
    }
}
