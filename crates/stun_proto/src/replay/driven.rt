//! Driven runs of an agent: each event happens at its time, and there is a turn at each time that a
//! request waits for.
ghost use Rattle.std.specs.Prelude.{◌+◌, List, IfOk, IfErr, IsOk, OnOk, OnErr};
ghost use Rattle.stun_proto.specs.code.Calls.{IsKept, kept_steps, HasPassed, TakesTurns};
ghost use Rattle.stun_proto.specs.code.Calls.{TakesWhole};
ghost use Rattle.stun_proto.specs.Headline.{IsDrivenByPlan};
ghost use Rattle.stun_proto.specs.Run.{IsDriven, Turns};
ghost use Rattle.stun_proto.specs.RunLaws.{KeepPlans};
ghost use Rattle.stun_proto.specs.Schedule.{AreInOrder};
ghost use Rattle.stun_proto.specs.Steps.{Step, steps_of};
ghost use Rattle.stun_proto.specs.Stopped.{HasStopped};

use crate::replay::apply::apply;
use crate::replay::event::{AgentEvent, AgentStep, Stopped};
use crate::replay::step_log::StepLog;
use crate::replay::turn::take_turn;
use std::alloc::AllocError;
use stun_agent::agent::StunAgent;
use stun_base::instant::Instant;
use stun_base::memory::Memory;

/// Drives an agent through a list of events, each at its time, and returns what the agent did, in
/// order.
///
/// The times of the events must not decrease, and must be at most `until`. The run goes like this:
///
/// 1. Before an event, there is a turn at each earlier time that a request waits for, in order.
/// 2. Then the event happens, and there is a turn at its time.
/// 3. After the last event, there is a turn at each time up to `until` that a request waits for.
///
/// Without events nothing happens. A turn calls `poll_transmit` until it returns `None`, and then
/// `poll` until it returns `WaitUntil`. It repeats this as long as `WaitUntil` has the time of the
/// turn, except at `Instant::MAX`.
///
/// A request is undisturbed if all of these hold:
///
/// - Exactly one event sends a request with its transaction ID, to an address that the agent may
///   send to. No request with this ID is outstanding when the run begins.
/// - Until the request ends, no event cancels or changes it, and no response to it arrives from the
///   address that it was sent to.
///
/// An undisturbed request is sent at the time of its event and after each of its timeouts, and only
/// then, as far as the run reaches. It times out once, unless its plan ends after `until` (RFC
/// 8489, section 6.2.1). This holds whatever arrives from other addresses.
///
/// Contracts: the clause `headline` states this, and that the returned steps are exactly those that
/// the agent made. The clause `run` states only the steps. The clause `plans` states when requests
/// are sent, even if their IDs are used again.
///
/// # Errors
///
/// `Stopped`: an allocation failed, and the steps are lost. The agent has then gone through the
/// first `done` events, with the turns before and after each of them, and through the turns before
/// the next event, or up to `until` if no event is left. To make the rest of the run, call `drive`
/// with this agent and the events from `done` on: each event then happens exactly once
/// (law `stopped_runs_go_on`).
///
/// # Examples
///
/// A request that nobody answers:
///
/// ```
/// use seatcrane_stun::replay::proved::agent::StunAgent;
/// use seatcrane_stun::replay::proved::types::TransportType;
/// use seatcrane_stun::replay::proved::{Global, Instant, Vec};
/// use seatcrane_stun::replay::{AgentEvent, AgentStep, drive};
///
/// let (local, to) = ("192.0.2.1:4242".parse().unwrap(), "198.51.100.7:3478".parse().unwrap());
/// let mut agent = StunAgent::builder(Global, TransportType::Udp, local).build();
/// let request = b"\0\x01\0\0\x21\x12\xa4\x42 any 12 byte";
/// let bytes = Vec::from_slice(Global, request).unwrap();
/// let events = [(Instant::ZERO, AgentEvent::SendRequest { bytes, to })];
///
/// let steps = drive(Global, &mut agent, &events, Instant::MAX).unwrap();
/// let times = steps.iter().map(|step| match step {
///     AgentStep::Transmitted { at, .. } | AgentStep::TimedOut { at, .. } => at.as_nanos(),
///     _ => unreachable!("nothing else happens"),
/// });
/// let half_seconds = times.map(|time| time / 500_000_000);
/// assert!(half_seconds.eq([0, 1, 3, 7, 15, 31, 63, 79])); // 0, 0.5, 1.5 .. 31.5 and 39.5 s
/// ```
pub fn drive<A: Memory>(
    alloc: A,
    agent: &mut StunAgent<A>,
    events: &[(Instant, AgentEvent)],
    until: Instant,
) -> Result<Vec<AgentStep<A>, A>, Stopped>
    requires { AreInOrder until 0 events.now }
    ensures run { IfOk result (λ steps. IsDriven until agent.old events.now
        (steps_of steps.items) agent.new) }
    ensures headline { IfOk result (λ steps. IsDrivenByPlan (IsDriven until) until agent.old
        events.now (steps_of steps.items) agent.new) }
    ensures plans { IfOk result (λ steps. KeepPlans until agent.old events.now
        (steps_of steps.items)) }
    ensures stopped { IfErr result (λ stopped. HasStopped until stopped.done agent.old events.now
        agent.new) }
    ensures granted { A.grants → IsOk result }
{
    // For the proof alone: the clause `kept` of this call states that IDs ascend, and that each
    // request is stored under its own ID.
    let _awaited = agent.next_awaited();
    let mut log = StepLog::new(alloc);
    if events.is_empty() {
        return Ok(log.steps);
    }
    let mut from = 0;
    let mut done = 0;
    for (moment, event) in events {
        match take_event(alloc, agent, from, *moment, event, &mut log) {
            Ok(()) => {}
            Err(_refused) => return Err(Stopped { done }),
        }
        from = moment.as_nanos() as u128 + 1;
        done += 1;
    }
    let bound = until.as_nanos() as u128 + 1;
    take_turns(alloc, agent, from, bound, &mut log);
    if log.is_lost {
        return Err(Stopped { done });
    }
    Ok(log.steps)
}

/// Makes the turns before an event, the call of the event, and the turn at its time. If this fails,
/// the event has not happened.
fn take_event<A: Memory>(
    alloc: A,
    agent: &mut StunAgent<A>,
    from: u128,
    now: Instant,
    event: &AgentEvent,
    log: &mut StepLog<A>,
) -> Result<(), AllocError>
    requires { HasPassed from agent.old }
    ensures whole { OnOk result
        (TakesWhole from now event.now agent.old agent.new (kept_steps log.old)
        (kept_steps log.new)) }
    ensures passed { OnOk result (HasPassed (now + 1) agent.new) }
    ensures broken { OnErr result ((lost : List Step) × Turns now from agent.old lost agent.new) }
    ensures granted { A.grants → IsKept log.old → IsOk result }
    ensures kept { A.grants → IsKept log.old → IsKept log.new }
{
    take_turns(alloc, agent, from, now.as_nanos() as u128, log);
    if log.is_lost {
        return Err(AllocError);
    }
    apply(alloc, agent, now, event, log)?;
    take_turn(alloc, agent, now, log);
    Ok(())
}

/// Makes a turn at each time that a request waits for and that is at least `from` and less than
/// `bound`, both in nanoseconds.
fn take_turns<A: Memory>(
    alloc: A,
    agent: &mut StunAgent<A>,
    from: u128,
    bound: u128,
    log: &mut StepLog<A>,
)
    requires { HasPassed from agent.old }
    ensures turns { TakesTurns bound from agent.old agent.new (kept_steps log.old) (kept_steps log.new) }
    ensures granted { A.grants → IsKept log.old → IsKept log.new }
{
    let mut from = from;
    loop {
        let Some(moment) = agent.next_awaited() else {
            return;
        };
        let nanos = moment.as_nanos() as u128;
        if nanos < from {
            return;
        }
        if bound <= nanos {
            return;
        }
        take_turn(alloc, agent, moment, log);
        from = nanos + 1;
    }
}
