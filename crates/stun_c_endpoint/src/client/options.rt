//! The options of a single request, as a caller passes them.

ghost use Rattle.std.specs.Duration.{as_nanos};
ghost use Rattle.std.specs.Prelude.{◌≡◌, Err, IfErr, IfOk, None, Ok, Some};
ghost use Rattle.stun_agent.specs.Timing.{settings_of};
ghost use Rattle.stun_client_calls.specs.Options.{options_of};
ghost use Rattle.stun_c_endpoint.specs.ClientsGiven.{or_else};
ghost use Rattle.stun_c_endpoint.specs.RequestsGiven.{options_given, plan_given, source_given};

use std::alloc::Global;
use std::net::SocketAddr;
use std::time::Duration;
use stun_agent::agent::RequestRto;
use stun_client_calls::endpoint::ClientEndpoint;
use stun_client_calls::options::RequestOptions as Options;
use stun_handles::address::Address;
use stun_numbers::refusal::Refusal;

/// The size of `RequestOptions` in bytes, which its first field must state.
pub const OPTIONS_SIZE: usize = 64;

/// The options of a single request: how it is sent, and from which address its response is
/// accepted. If a number is 0, or the length of the address is 0, the setting of the client is
/// used.
#[repr(C)]
pub struct RequestOptions {
    /// The size of this struct in the caller's program.
    pub size: usize,
    /// The address from which responses are accepted.
    pub from: Address,
    /// The number of transmissions of each message.
    pub transmissions: u32,
    /// The wait after the first transmission, in nanoseconds.
    pub initial: u64,
    /// The longest wait between two transmissions, in nanoseconds.
    pub longest: u64,
    /// The wait after the last transmission, in nanoseconds.
    pub last: u64,
    /// Whether the request is sent without credentials, so that its response need not be signed.
    pub is_unsigned: bool,
}

/// Converts nanoseconds to a duration. Returns the default if the number is 0.
fn choose_time(nanos: u64, default: Duration) -> Duration
    ensures { as_nanos result ≡ or_else nanos (as_nanos default) }
{
    if nanos == 0 {
        default
    } else {
        Duration::from_nanos(nanos)
    }
}

impl RequestOptions {
    /// Returns the retransmission timeouts of the request. Each number that is 0 is replaced by the
    /// client's number in `plan`.
    fn choose_timeouts(&self, plan: RequestRto) -> RequestRto
        ensures { settings_of result ≡ plan_given self.now (settings_of plan) }
    {
        let transmissions = if self.transmissions == 0 {
            plan.retransmits
        } else {
            self.transmissions
        };
        RequestRto {
            initial: choose_time(self.initial, plan.initial),
            max: choose_time(self.longest, plan.max),
            retransmits: transmissions,
            last_retransmit: choose_time(self.last, plan.last_retransmit),
        }
    }

    /// Returns the address from which responses are accepted. `server` is the address of the
    /// client's server, which is used if the caller passes no address. Fails with `BadArgument` if
    /// the length of the caller's address is not 0, 4 or 16.
    fn choose_source(&self, server: SocketAddr) -> Result<SocketAddr, Refusal>
        ensures ok { IfOk result (λ from. source_given self.now.from server ≡ Some from) }
        ensures err { IfErr result (λ refusal. (source_given self.now.from server ≡ None)
            × (refusal ≡ Refusal.BadArgument)) }
    {
        if self.from.length == 0 {
            Ok(server)
        } else {
            self.from.socket()
        }
    }

    /// Converts the options for a request of this client. Fails with `BadArgument` if the size is
    /// wrong, or if the length of the address is not 0, 4 or 16.
    pub fn for_client(&self, client: &ClientEndpoint<Global>) -> Result<Options, Refusal>
        ensures ok { IfOk result (λ options. options_given self.now client.now
            ≡ Ok (options_of options)) }
        ensures err { IfErr result (λ refusal. options_given self.now client.now ≡ Err refusal) }
    {
        if self.size != OPTIONS_SIZE {
            return Err(Refusal::BadArgument);
        }
        let from = self.choose_source(client.server())?;
        Ok(Options {
            is_signed: !self.is_unsigned,
            timeouts: self.choose_timeouts(client.timeouts()),
            from,
        })
    }
}
