//! The options of a single request, which override the settings of its client. This module also
//! counts how often `poll` returned the bytes of a message, because the message's round-trip time
//! is known only if that happened once.
ghost use Rattle.std.specs.Duration.{as_nanos};
ghost use Rattle.std.specs.Option.{option_map};
ghost use Rattle.std.specs.Prelude.{◌≡◌};
ghost use Rattle.stun_agent.specs.Timing.{settings_of};
ghost use Rattle.stun_client_calls.specs.Options.{handed_out_at, options_of, plan_by};
ghost use Rattle.stun_client_calls.specs.Options.{round_trip};

use std::net::SocketAddr;
use std::time::Duration;
use stun_agent::agent::RequestRto;
use stun_base::instant::Instant;

/// The options of a single request, which override the settings of its client: whether the request
/// is signed, its timeouts, and the address that answers it (see `ClientEndpoint::request_with`).
#[derive(Clone, Copy, Drop)]
pub struct RequestOptions {
    /// Whether the request is signed, and its responses are verified, with the credentials of the
    /// client (RFC 8489, section 9).
    ///
    /// If this is `false`, the request is written without USERNAME, USERHASH, REALM, NONCE and a
    /// signature. The first response from `from` that has the request's method and transaction ID
    /// is believed, unless its FINGERPRINT is wrong, or missing although the client requires it.
    /// The client answers no challenge for the request, and the response confirms no challenge.
    pub is_signed: bool,
    /// The times after which the request is retransmitted, and after which it times out (RFC 8489,
    /// section 6.2.1).
    pub timeouts: RequestRto,
    /// The address that the responses come from. This is the server's address, unless the request
    /// has CHANGE-REQUEST (RFC 5780, section 7.2). A datagram from any other address is not
    /// accepted as a response to this request.
    pub from: SocketAddr,
}

/// Returns the plan of each message of a request: the plan in these options or, if there are none,
/// `of_client`, which is the plan of the client.
pub(crate) fn choose_plan(options: Option<RequestOptions>, of_client: RequestRto) -> RequestRto
    ensures { settings_of result ≡ plan_by (option_map options_of options) (settings_of of_client) }
{
    match options {
        Some(options) => options.timeouts,
        None => of_client,
    }
}

/// How often `poll` returned the bytes of a message.
#[derive(Clone, Copy)]
pub enum HandedOut {
    /// `poll` never returned the bytes.
    Never,
    /// `poll` returned the bytes once, at this time.
    Once(Instant),
    /// `poll` returned the bytes more than once, or it is not known how often.
    Again,
}

impl HandedOut {
    /// Returns the value after `poll` has returned the bytes once more, at this time.
    pub fn handed_out_at(self, now: Instant) -> HandedOut
        ensures { result ≡ handed_out_at now self }
    {
        match self {
            HandedOut::Never => HandedOut::Once(now),
            HandedOut::Once(_) => HandedOut::Again,
            HandedOut::Again => HandedOut::Again,
        }
    }

    /// Returns the round-trip time of a message whose response arrives at this time, or `None` if
    /// it is not known. If the message was retransmitted, it is not known which transmission the
    /// response answers (RFC 8489, section 6.2.1, and RFC 6298, section 3).
    pub fn round_trip(self, now: Instant) -> Option<Duration>
        ensures { option_map as_nanos result ≡ round_trip now self }
    {
        match self {
            HandedOut::Never => None,
            HandedOut::Once(before) => Some(now - before),
            HandedOut::Again => None,
        }
    }
}
