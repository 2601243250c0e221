//! One turn of a run: retransmits the requests that are due at a time, and ends those that are
//! over.
ghost use Rattle.std.specs.Prelude.{◌≡◌, IfOk, IsOk};
ghost use Rattle.stun_base.specs.Header.{BeginsWithHeader, transaction_id_field};
ghost use Rattle.stun_proto.specs.code.Calls.{IsKept, kept_steps, SendsOne, EndsOne};
ghost use Rattle.stun_proto.specs.code.Calls.{SendsAll, EndsAll, TakesTurn};
ghost use Rattle.stun_proto.specs.Steps.{Transmitted, step_of};

use crate::replay::event::AgentStep;
use crate::replay::step_log::StepLog;
use std::alloc::AllocError;
use std::net::SocketAddr;
use stun_agent::agent::{StunAgent, StunAgentPollRet};
use stun_base::header::MessageHeader;
use stun_base::instant::Instant;
use stun_base::memory::Memory;

/// Makes one turn: retransmits the requests that are due at the time `now`, ends those that are
/// over, and repeats this as long as `poll` returns this time. At `Instant::MAX` it does not
/// repeat. The agent's calls do not allocate, so a turn is always complete.
pub(crate) fn take_turn<A: Memory>(
    alloc: A,
    agent: &mut StunAgent<A>,
    now: Instant,
    log: &mut StepLog<A>,
)
    ensures turn { TakesTurn now agent.old agent.new (kept_steps log.old) (kept_steps log.new) }
    ensures granted { A.grants → IsKept log.old → IsKept log.new }
{
    loop {
        send_all(alloc, agent, now, log);
        let wait = end_all(agent, now, log);
        if now.as_nanos() < wait.as_nanos() {
            return;
        }
        if now.as_nanos() == u64::MAX {
            return;
        }
    }
}

/// Calls `poll_transmit` at the time `now` until nothing is left to send.
fn send_all<A: Memory>(alloc: A, agent: &mut StunAgent<A>, now: Instant, log: &mut StepLog<A>)
    ensures sends { SendsAll now agent.old agent.new (kept_steps log.old) (kept_steps log.new) }
    ensures granted { A.grants → IsKept log.old → IsKept log.new }
{
    loop {
        if !send_one(alloc, agent, now, log) {
            return;
        }
    }
}

/// Calls `poll` at the time `now` until it returns `WaitUntil`, and returns the time in this
/// `WaitUntil`.
fn end_all<A: Memory>(agent: &mut StunAgent<A>, now: Instant, log: &mut StepLog<A>) -> Instant
    ensures ends { EndsAll now agent.old agent.new (kept_steps log.old) (kept_steps log.new) result }
    ensures granted { A.grants → IsKept log.old → IsKept log.new }
{
    loop {
        match end_one(agent, now, log) {
            Some(moment) => return moment,
            None => {}
        }
    }
}

/// Makes one call of `poll_transmit`. If a request must be sent, adds the step to `log` and returns
/// `true`. Otherwise returns `false`.
fn send_one<A: Memory>(
    alloc: A,
    agent: &mut StunAgent<A>,
    now: Instant,
    log: &mut StepLog<A>,
) -> bool
    ensures sends { SendsOne now agent.old agent.new (kept_steps log.old) (kept_steps log.new) result }
    ensures granted { A.grants → IsKept log.old → IsKept log.new }
{
    let step = match agent.poll_transmit(now) {
        Some(transmit) => make_transmitted_step(alloc, now, transmit.to, transmit.data),
        None => return false,
    };
    log.add(step);
    true
}

/// Makes one call of `poll`. If a request ended, adds the step to `log` and returns `None`.
/// Otherwise returns the time in `WaitUntil`.
fn end_one<A: Memory>(
    agent: &mut StunAgent<A>,
    now: Instant,
    log: &mut StepLog<A>,
) -> Option<Instant>
    ensures ends { EndsOne now agent.old agent.new (kept_steps log.old) (kept_steps log.new) result }
    ensures granted { A.grants → IsKept log.old → IsKept log.new }
{
    match agent.poll(now) {
        StunAgentPollRet::TransactionTimedOut(id) => {
            log.add(Ok(AgentStep::TimedOut { at: now, id }));
            None
        }
        StunAgentPollRet::TransactionCancelled(id) => {
            log.add(Ok(AgentStep::Cancelled { at: now, id }));
            None
        }
        StunAgentPollRet::WaitUntil(moment) => Some(moment),
    }
}

/// Returns the step of a transmission. The transaction ID in the step comes from the bytes of the
/// request.
pub(crate) fn make_transmitted_step<A: Memory>(
    alloc: A,
    now: Instant,
    to: SocketAddr,
    bytes: &[u8],
) -> Result<AgentStep<A>, AllocError>
    requires { BeginsWithHeader bytes.now }
    ensures step { IfOk result (λ step. step_of step
        ≡ Transmitted now (transaction_id_field bytes.now) to bytes.now) }
    ensures granted { A.grants → IsOk result }
{
    let id = MessageHeader::from_bytes(bytes).unwrap().transaction_id();
    let bytes = A::copied(alloc, bytes)?;
    Ok(AgentStep::Transmitted {
        at: now,
        id,
        to,
        bytes,
    })
}
