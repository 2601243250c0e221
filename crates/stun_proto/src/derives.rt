//! The derived impls of calls and replies (comparisons and copies), each behind a function whose
//! contract states what it does.
ghost use Rattle.std.specs.Prelude.{◌≡◌, ◌-◌, ◌↔◌, IsTrue, Ok};
ghost use Rattle.stun_proto.specs.CallValues.{call_value};
ghost use Rattle.stun_proto.specs.EventValues.{event_value};
ghost use Rattle.stun_proto.specs.Serving.{reply_of};
ghost use Rattle.stun_proto.specs.Steps.{step_of};

use crate::replay::{
    AgentEvent, AgentStep, NegotiateError, Outcome, ServerCall, ServerReply, Stopped,
};
use std::alloc::{AllocError, Allocator};

/// Returns whether two `Outcome`s are equal: the same variant with the same algorithm or the same
/// reason.
pub fn is_same_outcome(one: Outcome, other: Outcome) -> bool
    ensures { IsTrue result ↔ (one ≡ other) }
{
    one == other
}

/// Returns whether two `NegotiateError`s are equal: the same variant and, for `Write`, equal inner
/// errors.
pub fn is_same_negotiate_error(one: NegotiateError, other: NegotiateError) -> bool
    ensures { IsTrue result ↔ (one ≡ other) }
{
    one == other
}

/// Returns whether two `ServerReply`s are equal: the same variant with equal contents. Signed
/// messages are compared by their bytes.
pub fn is_same_reply<A: Allocator>(one: &ServerReply<A>, other: &ServerReply<A>) -> bool
    ensures { IsTrue result ↔ (reply_of one.now ≡ reply_of other.now) }
{
    one == other
}

/// Returns whether two `ServerCall`s are equal: the same variant with equal fields. Messages, names
/// and passwords are compared by their bytes.
pub fn is_same_call(one: &ServerCall, other: &ServerCall) -> bool
    ensures { IsTrue result ↔ (call_value one.now ≡ call_value other.now) }
{
    one == other
}

/// Returns whether two `AgentEvent`s are equal: the same variant with equal fields.
pub fn is_same_event(one: &AgentEvent, other: &AgentEvent) -> bool
    ensures { IsTrue result ↔ (event_value one.now ≡ event_value other.now) }
{
    one == other
}

/// Returns whether two `Stopped`s are equal: the same number of events or calls is complete.
pub fn is_same_stop(one: Stopped, other: Stopped) -> bool
    ensures { IsTrue result ↔ (one ≡ other) }
{
    one == other
}

/// Copies an outcome and two errors.
pub fn copied_outcomes(
    outcome: &Outcome,
    error: &NegotiateError,
    stopped: &Stopped,
) -> Result<(Outcome, NegotiateError, Stopped), AllocError>
    ensures { result ≡ Ok (outcome.now, error.now, stopped.now) }
{
    Ok((outcome.clone()?, error.clone()?, stopped.clone()?))
}

/// Returns whether two `AgentStep`s are equal: the same variant with equal fields. Messages are
/// compared by their bytes.
pub fn is_same_step<A: Allocator>(one: &AgentStep<A>, other: &AgentStep<A>) -> bool
    ensures { IsTrue result ↔ (step_of one.now ≡ step_of other.now) }
{
    one == other
}
