//! The timeouts of a request: when it is retransmitted, and when it ends.
ghost use Rattle.std.specs.Prelude.{◌≡◌, ◌≤◌, ◌<◌, ◌+◌, ◌*◌, ◌^◌, ◌⊎◌};
ghost use Rattle.std.specs.Duration.{as_nanos, max_nanos};
ghost use Rattle.stun_agent.specs.Timing.{settings_of, default_settings, timeout, slots};
ghost use Rattle.stun_agent.specs.Timing.{final_wait, repetitions, sum_of_timeouts};
ghost use Rattle.stun_agent.specs.Timing.{timeouts_before, cut};

use std::time::Duration;
use stun_base::transport::TransportType;

/// After this many doublings even one nanosecond exceeds the longest `Duration`.
const DOUBLINGS: u32 = 94;

/// The timeouts of a request: when it is retransmitted, and when it ends (RFC 8489, sections 6.2.1
/// and 6.2.2).
#[derive(Clone, Copy, Debug, PartialEq, Eq)]
pub struct RequestRto {
    /// The wait after the first transmission (RTO in section 6.2.1). Each further wait is twice the
    /// one before.
    pub initial: Duration,
    /// An upper bound on the waits between transmissions.
    pub max: Duration,
    /// The number of transmissions over UDP, the first one included (Rc in section 6.2.1). 0 counts
    /// as 1.
    pub retransmits: u32,
    /// The wait after the last transmission over UDP (Rm times RTO in section 6.2.1).
    pub last_retransmit: Duration,
}

/// The default timeouts: a first wait of 500 ms, no upper bound on waits, 7 transmissions, and a
/// wait of 8 s after the last transmission (RFC 8489, section 6.2.1).
impl Default for RequestRto {
    ghost is_default = { λ rto. settings_of rto ≡ default_settings };

    fn default() -> RequestRto {
        RequestRto {
            initial: Duration::from_millis(500),
            max: Duration::MAX,
            retransmits: 7,
            last_retransmit: Duration::from_secs(8),
        }
    }
}

impl RequestRto {
    /// Returns how many times the request is retransmitted. Over TCP this is 0, because TCP loses
    /// nothing.
    pub fn slots(&self, transport: TransportType) -> u32
        ensures { result ≡ slots transport (settings_of self.now) }
    {
        match transport {
            TransportType::Udp => self.count_repetitions(),
            TransportType::Tcp => 0,
        }
    }

    /// Returns the wait after transmission `i`, counted from 0: `initial * 2^i`, but at most `max`.
    pub fn timeout(&self, i: u32) -> Duration
        ensures { as_nanos result ≡ timeout (settings_of self.now) i }
    {
        Duration::from_nanos_u128(self.count_timeout_nanos(i))
    }

    /// Returns the wait from the last transmission until the request ends. Over TCP this is the sum
    /// of all waits over UDP, but at most `Duration::MAX`.
    pub fn final_wait(&self, transport: TransportType) -> Duration
        ensures { as_nanos result ≡ final_wait transport (settings_of self.now) }
    {
        match transport {
            TransportType::Udp => self.last_retransmit,
            TransportType::Tcp => {
                let all = count_nanos(self.last_retransmit) + self.sum_timeouts();
                Duration::from_nanos_u128(all.min(count_nanos(Duration::MAX)))
            }
        }
    }

    /// Returns these settings, cut short so that the request ends once `time` has passed since it
    /// was sent. Retransmissions that are due before then keep their times, and later ones are left
    /// out. The last wait lasts until `time` has passed. If the request ends within `time` anyway,
    /// returns the settings unchanged.
    pub fn within(&self, time: Duration) -> RequestRto
        ensures { settings_of result ≡ cut (as_nanos time) (settings_of self.now) }
    {
        let end = count_nanos(time);
        if self.sum_timeouts() + count_nanos(self.last_retransmit) <= end {
            return *self;
        }
        let (count, passed) = self.count_timeouts_before(end);
        RequestRto {
            initial: self.initial,
            max: self.max,
            retransmits: count + 1,
            last_retransmit: Duration::from_nanos_u128(end - passed),
        }
    }

    /// Returns how many times the request is retransmitted over UDP.
    fn count_repetitions(&self) -> u32
        ensures { result ≡ repetitions (settings_of self.now) }
    {
        self.retransmits.max(1) - 1
    }

    fn count_timeout_nanos(&self, i: u32) -> u128
        ensures value { result ≡ timeout (settings_of self.now) i }
        ensures bound { result ≤ max_nanos }
    {
        let initial = count_nanos(self.initial);
        let max = count_nanos(self.max);
        let doublings = i.min(DOUBLINGS);
        if initial <= max >> doublings {
            initial << doublings
        } else {
            max
        }
    }

    /// Returns the sum of the waits between transmissions. From transmission `DOUBLINGS` on, all
    /// waits are equal, so a short loop adds them up.
    fn sum_timeouts(&self) -> u128
        ensures value { result ≡ sum_of_timeouts (settings_of self.now)
            (repetitions (settings_of self.now)) }
        ensures bound { result ≤ 2 ^ 32 * max_nanos }
    {
        let all = self.count_repetitions();
        let rising = all.min(DOUBLINGS);
        let mut sum = 0;
        for i in 0..rising {
            sum += self.count_timeout_nanos(i);
        }
        sum + (all - rising) as u128 * self.count_timeout_nanos(DOUBLINGS)
    }

    /// Returns how many of the waits between transmissions end before `time`, and the sum of those
    /// waits.
    fn count_timeouts_before(&self, time: u128) -> (u32, u128)
        ensures count { result.0
            ≡ timeouts_before time (settings_of self.now) (repetitions (settings_of self.now)) }
        ensures most { result.0 ≤ repetitions (settings_of self.now) }
        ensures sum { result.1 ≡ sum_of_timeouts (settings_of self.now) result.0 }
        ensures within { result.1 ≤ time }
    {
        let all = self.count_repetitions();
        let rising = all.min(DOUBLINGS);
        let mut passed = 0;
        for i in 0..rising {
            let next = passed + self.count_timeout_nanos(i);
            if next >= time {
                return (i, passed);
            }
            passed = next;
        }
        let wait = self.count_timeout_nanos(DOUBLINGS);
        let more = count_waits_before(wait, all - rising, time - passed);
        (rising + more, passed + more as u128 * wait)
    }
}

/// Returns how many of `most` waits of the same length end before `time`.
fn count_waits_before(wait: u128, most: u32, time: u128) -> u32
    ensures most { result ≤ most }
    ensures fit { (result ≡ 0) ⊎ (result * wait < time) }
    ensures next { (result ≡ most) ⊎ (time ≤ result * wait + wait) }
{
    if time == 0 {
        return 0;
    }
    if wait == 0 {
        return most;
    }
    let count = (time - 1) / wait;
    if count < most as u128 {
        count as u32
    } else {
        most
    }
}

fn count_nanos(span: Duration) -> u128
    ensures value { result ≡ as_nanos span }
    ensures bound { result ≤ max_nanos }
{
    span.as_nanos()
}
