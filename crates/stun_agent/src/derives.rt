//! The derived impls of an agent (comparisons, copies and default values), each behind a function
//! whose contract states what it does.
ghost use Rattle.std.specs.Prelude.{◌≡◌, ◌↔◌, IsTrue, Ok};
ghost use Rattle.stun_agent.specs.Statistics.{new_statistics};
ghost use Rattle.stun_agent.specs.Timing.{settings_of, default_settings};

use crate::agent::StunAgentPollRet;
use crate::calls::request::StunRequest;
use crate::error::{NoRoom, StunError};
use crate::state::rto::RequestRto;
use crate::stats::StunAgentStats;
use std::alloc::{AllocError, Allocator};

/// Returns the default settings, which are those of RFC 8489, section 6.2.1.
pub fn default_retransmissions() -> RequestRto
    ensures { settings_of result ≡ default_settings }
{
    RequestRto::default()
}

/// Returns the default statistics, in which every counter is 0.
pub fn default_statistics() -> StunAgentStats
    ensures { result ≡ new_statistics }
{
    StunAgentStats::default()
}

/// Copies statistics. Does not allocate.
pub fn copied_statistics(statistics: &StunAgentStats) -> Result<StunAgentStats, AllocError>
    ensures { result ≡ Ok statistics.now }
{
    statistics.clone()
}

/// Copies the timeouts of a request, a result of `poll`, and one error of each type.
pub fn copied_parts(
    settings: &RequestRto,
    answer: &StunAgentPollRet,
    error: &StunError,
    no_room: &NoRoom,
) -> Result<(RequestRto, StunAgentPollRet, StunError, NoRoom), AllocError>
    ensures { result ≡ Ok (settings.now, answer.now, error.now, no_room.now) }
{
    Ok((
        settings.clone()?,
        answer.clone()?,
        error.clone()?,
        no_room.clone()?,
    ))
}

/// Copies a `StunRequest`. The copy is a handle to the same request of the same agent.
pub fn copied_request<'a, A: Allocator>(
    request: &StunRequest<'a, A>,
) -> Result<StunRequest<'a, A>, AllocError>
    ensures { result ≡ Ok request.now }
{
    request.clone()
}

/// Returns whether two `StunAgentStats` are equal: the same counters and the same round trips.
pub fn are_same_statistics(one: &StunAgentStats, other: &StunAgentStats) -> bool
    ensures { IsTrue result ↔ (one.now ≡ other.now) }
{
    one == other
}

/// Returns whether two `RequestRto`s are equal: the same waits and the same number of
/// transmissions.
pub fn are_same_settings(one: RequestRto, other: RequestRto) -> bool
    ensures { IsTrue result ↔ (one ≡ other) }
{
    one == other
}

/// Returns whether two `StunAgentPollRet`s are equal: the same variant with the same transaction ID
/// or the same time.
pub fn is_same_poll(one: StunAgentPollRet, other: StunAgentPollRet) -> bool
    ensures { IsTrue result ↔ (one ≡ other) }
{
    one == other
}

/// Returns whether two `StunError`s are equal: the same variant and, for `ParseError` and
/// `WriteError`, equal inner errors.
pub fn is_same_error(one: StunError, other: StunError) -> bool
    ensures { IsTrue result ↔ (one ≡ other) }
{
    one == other
}

/// Returns whether two `NoRoom`s are equal, which they always are.
pub fn is_same_want_of_room(one: NoRoom, other: NoRoom) -> bool
    ensures { IsTrue result ↔ (one ≡ other) }
{
    one == other
}
