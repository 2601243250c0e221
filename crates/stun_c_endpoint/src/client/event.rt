//! The structs in which a caller receives what to do next, and the number of dropped responses to a
//! request.

ghost use Rattle.std.specs.Duration.{as_nanos};
ghost use Rattle.std.specs.Option.{option_map};
ghost use Rattle.std.specs.Prelude.{◌≡◌, true};
ghost use Rattle.stun_c_endpoint.specs.Events.{drop_told, drops_told, end_told, ended_told};
ghost use Rattle.stun_c_endpoint.specs.Events.{event_blank, event_failed, event_unless};
ghost use Rattle.stun_c_endpoint.specs.Events.{outcome_told, sent_told, trip_told, wait_told};

use crate::received::{FAILED, integrity_number};
use std::alloc::Global;
use std::time::Duration;
use stun_client::judged::Outcome;
use stun_client_calls::asked::End;
use stun_client_endpoint::ended::{DropReason, Drops, RequestEnd};

/// The size of `Event` in bytes, which its first field must state.
pub const EVENT_SIZE: usize = 80;

/// The responses that were dropped for a request.
#[repr(C)]
#[derive(Clone, Copy)]
pub struct Dropped {
    /// The number of responses that were dropped.
    pub count: u32,
    /// The `stunp_drop` of the last dropped response, or 0 if none was dropped.
    pub why: u32,
    /// The error code of the last dropped response, or 0 if that response had none.
    pub code: u32,
}

/// What a caller has to do next: send a request, wait, or note how a request has ended.
#[repr(C)]
pub struct Event {
    /// The size of this struct in the caller's program.
    pub size: usize,
    /// What to do, a `stunp_event_kind`.
    pub kind: u32,
    /// How a request has ended, a `stunp_result`.
    pub result: u32,
    /// The number of the request that has ended, or whose bytes must be sent.
    pub request: u64,
    /// The time to wait until, in nanoseconds.
    pub until: u64,
    /// The number of bytes that were written to the buffer.
    pub length: usize,
    /// The length of the message that did not fit into the buffer and is lost.
    pub needed: usize,
    /// The code of an error response.
    pub code: u32,
    /// The type of a comprehension-required attribute in the response that the client does not
    /// understand.
    pub not_understood: u16,
    /// The algorithm of the response's signature, or 0 if no signature was verified.
    pub signed_by: u16,
    /// The responses that were dropped for a request that has timed out.
    pub dropped: Dropped,
    /// The time in nanoseconds between the transmission of the answered message and the arrival of
    /// its response, or `u64::MAX` if this time is not known.
    pub round_trip: u64,
}

/// Returns the `stunp_drop` of a reason to drop a response.
pub fn drop_number(why: DropReason) -> u32
    ensures { result ≡ drop_told why }
{
    match why {
        DropReason::WrongFingerprint => 3,
        DropReason::MissingFingerprint => 13,
        DropReason::NotVerified => 9,
        DropReason::UnanswerableChallenge => 10,
        DropReason::WeakerChallenge => 11,
        DropReason::OutOfMemory => 12,
        DropReason::LateChallenge => 14,
        DropReason::Refused => 15,
    }
}

/// Converts a round-trip time to nanoseconds. Returns `u64::MAX` if the time is not known, or does
/// not fit into 64 bits.
fn convert_round_trip(round_trip: Option<Duration>) -> u64
    ensures { result ≡ trip_told (option_map as_nanos round_trip) }
{
    match round_trip {
        Some(time) => time.as_nanos().min(u128::from(u64::MAX)) as u64,
        None => u64::MAX,
    }
}

impl Dropped {
    /// Converts the number of dropped responses, and the reason and the code of the last one.
    pub fn of(drops: Drops) -> Dropped
        ensures { result ≡ drops_told drops }
    {
        let why = match drops.last {
            Some(why) => drop_number(why),
            None => 0,
        };
        let code = match drops.code {
            Some(code) => u32::from(code),
            None => 0,
        };
        Dropped {
            count: drops.count,
            why,
            code,
        }
    }
}

impl Event {
    /// Sets the kind, and resets all other fields except the size.
    fn begin(&mut self, kind: u32)
        ensures { self.new ≡ event_blank kind self.old }
    {
        self.kind = kind;
        self.result = 0;
        self.request = 0;
        self.until = 0;
        self.length = 0;
        self.needed = 0;
        self.code = 0;
        self.not_understood = 0;
        self.signed_by = 0;
        self.dropped = Dropped {
            count: 0,
            why: 0,
            code: 0,
        };
        self.round_trip = 0;
    }

    /// Sets the kind to `FAILED`, until another event is set. If the size is wrong, sets only the
    /// kind and the length, because the struct may lack the fields after them.
    pub fn fails(&mut self)
        ensures { self.new ≡ event_failed self.old }
    {
        if self.size == EVENT_SIZE {
            self.begin(FAILED);
        } else {
            self.kind = FAILED;
            self.length = 0;
        }
    }

    /// Marks the event as failed because its bytes did not fit into the buffer, and sets `needed`
    /// to `count`, the number of these bytes.
    pub fn loses(&mut self, count: usize)
        ensures { self.new ≡ event_unless true count self.old }
    {
        self.kind = FAILED;
        self.length = 0;
        self.needed = count;
    }

    /// Sets the event to a wait until this time.
    pub fn waits(&mut self, until: u64)
        ensures { self.new ≡ wait_told until self.old }
    {
        self.begin(0);
        self.until = until;
    }

    /// Sets the event to a request to send, with the number of the request and the number of its
    /// bytes.
    pub fn sends(&mut self, number: u64, length: usize)
        ensures { self.new ≡ sent_told number length self.old }
    {
        self.begin(1);
        self.request = number;
        self.length = length;
    }

    /// Sets the event to a request that has ended, with the number of the request and how it ended.
    pub fn ends(&mut self, request: u64, end: &End<Global>)
        ensures { self.new ≡ ended_told request end.now self.old }
    {
        self.begin(2);
        self.request = request;
        self.length = end.response.len();
        self.round_trip = convert_round_trip(end.round_trip);
        self.set_end(end.end);
    }

    /// Sets how the request has ended.
    fn set_end(&mut self, end: RequestEnd)
        ensures { self.new ≡ end_told end self.old }
    {
        match end {
            RequestEnd::Answered(outcome, by) => {
                self.signed_by = u16::from(integrity_number(by));
                self.set_outcome(outcome);
            }
            RequestEnd::TimedOut(drops) => {
                self.result = 4;
                self.dropped = Dropped::of(drops);
            }
            RequestEnd::Unauthorized => self.result = 5,
            RequestEnd::TooManyChallenges => self.result = 9,
            RequestEnd::Cancelled => self.result = 8,
        }
    }

    /// Sets the result for a response that was accepted.
    fn set_outcome(&mut self, outcome: Outcome)
        ensures { self.new ≡ outcome_told outcome self.old }
    {
        match outcome {
            Outcome::Success => self.result = 1,
            Outcome::Refused(code) => {
                self.result = 2;
                self.code = u32::from(code);
            }
            Outcome::Redirected => {
                self.result = 3;
                self.code = 300;
            }
            Outcome::NotUnderstood(kind) => {
                self.result = 6;
                self.not_understood = kind.value();
            }
            Outcome::Malformed => self.result = 7,
        }
    }
}
