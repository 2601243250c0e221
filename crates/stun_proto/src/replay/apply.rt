//! Applies the events of a run: makes one call of the agent for each event, and adds its step to
//! the log.
ghost use Rattle.std.specs.Prelude.{◌≡◌, ◌≢◌, ◌∷◌, [], None, IfOk, IsOk, OnOk, OnErr};
ghost use Rattle.stun_agent.specs.Agent.{request_refusal};
ghost use Rattle.stun_agent.specs.Transactions.{with_cancellation};
ghost use Rattle.stun_proto.specs.code.Calls.{IsKept, Keeps, kept_steps, TakesEvent};
ghost use Rattle.stun_proto.specs.Run.{after_change, after_sending, step_of_sending, after_asking};
ghost use Rattle.stun_proto.specs.Run.{step_of_asking, after_receiving, step_of_receiving};
ghost use Rattle.stun_proto.specs.Steps.{Sent, step_of};

use crate::replay::event::{AgentEvent, AgentStep};
use crate::replay::step_log::StepLog;
use crate::replay::turn::make_transmitted_step;
use std::alloc::{AllocError, Allocator};
use std::net::SocketAddr;
use stun_agent::agent::{StunAgent, StunError};
use stun_base::instant::Instant;
use stun_base::memory::Memory;
use stun_base::transaction_id::TransactionId;
use stun_types::message::Message;

/// Makes the call of an event, and adds its step to `log`. Fails if an allocation of the agent
/// fails, and the agent is then unchanged.
pub(crate) fn apply<A: Memory>(
    alloc: A,
    agent: &mut StunAgent<A>,
    now: Instant,
    event: &AgentEvent,
    log: &mut StepLog<A>,
) -> Result<(), AllocError>
    ensures whole { OnOk result (TakesEvent now event.now agent.old agent.new (kept_steps log.old)
        (kept_steps log.new)) }
    ensures broken { OnErr result (agent.new ≡ agent.old) }
    ensures granted { A.grants → IsOk result }
    ensures kept { A.grants → IsKept log.old → IsKept log.new }
{
    match event {
        AgentEvent::Send { bytes, to } => send(alloc, agent, now, bytes.as_slice(), *to, log),
        AgentEvent::SendRequest { bytes, to } => {
            ask(alloc, agent, now, bytes.as_slice(), *to, log)?;
        }
        AgentEvent::Receive { bytes, from } => {
            receive(agent, now, bytes.as_slice(), *from, log)?;
        }
        AgentEvent::Cancel(id) => cancel(agent, *id),
        AgentEvent::CancelRetransmissions(id) => {
            if let Some(mut request) = agent.mut_request_transaction(*id) {
                request.cancel_retransmissions();
            }
        }
        AgentEvent::Configure {
            id,
            initial,
            retransmits,
            last,
            max,
        } => {
            if let Some(mut request) = agent.mut_request_transaction(*id) {
                request.configure_timeout_with_max(*initial, *retransmits, *last, *max);
            }
        }
        AgentEvent::ValidatePeer(address) => agent.validated_peer(*address)?,
    }
    Ok(())
}

/// Cancels a request, if it is outstanding.
fn cancel<A: Allocator + Copy>(agent: &mut StunAgent<A>, id: TransactionId)
    ensures { agent.new ≡ after_change with_cancellation id agent.old }
{
    if let Some(mut request) = agent.mut_request_transaction(id) {
        request.cancel();
    }
}

fn send<A: Memory>(
    alloc: A,
    agent: &mut StunAgent<A>,
    now: Instant,
    bytes: &[u8],
    to: SocketAddr,
    log: &mut StepLog<A>,
)
    ensures after { agent.new ≡ after_sending bytes.now to agent.old }
    ensures added { Keeps (kept_steps log.old) (step_of_sending now bytes.now to agent.old ∷ [])
        (kept_steps log.new) }
    ensures granted { A.grants → IsKept log.old → IsKept log.new }
{
    match agent.send(bytes, to, now) {
        Ok(transmit) => log.add(make_sent_step(alloc, now, transmit.to, transmit.data)),
        Err(error) => log.add(Ok(AgentStep::Refused { at: now, error })),
    }
}

/// Returns the step of an indication or a response that was sent.
fn make_sent_step<A: Memory>(
    alloc: A,
    now: Instant,
    to: SocketAddr,
    bytes: &[u8],
) -> Result<AgentStep<A>, AllocError>
    ensures step { IfOk result (λ step. step_of step ≡ Sent now to bytes.now) }
    ensures granted { A.grants → IsOk result }
{
    let bytes = A::copied(alloc, bytes)?;
    Ok(AgentStep::Sent { at: now, to, bytes })
}

/// Sends a request, and adds the step to `log`. A refusal by the agent is also a step. Fails only
/// if an allocation of the agent fails, which cannot happen if the agent refuses the request.
fn ask<A: Memory>(
    alloc: A,
    agent: &mut StunAgent<A>,
    now: Instant,
    bytes: &[u8],
    to: SocketAddr,
    log: &mut StepLog<A>,
) -> Result<(), AllocError>
    ensures after { OnOk result (agent.new ≡ after_asking now bytes.now to agent.old) }
    ensures added { OnOk result (Keeps (kept_steps log.old)
        (step_of_asking now bytes.now to agent.old ∷ []) (kept_steps log.new)) }
    ensures broken { OnErr result (agent.new ≡ agent.old) }
    ensures refused { request_refusal agent.old bytes.now to ≢ None → IsOk result }
    ensures granted { A.grants → IsOk result }
    ensures kept { A.grants → IsKept log.old → IsKept log.new }
{
    match agent.send_request(bytes, to, now) {
        Ok(transmit) => {
            log.add(make_transmitted_step(alloc, now, transmit.to, transmit.data));
            Ok(())
        }
        Err(StunError::OutOfMemory) => Err(AllocError),
        Err(error) => {
            log.add(Ok(AgentStep::Refused { at: now, error }));
            Ok(())
        }
    }
}

fn receive<A: Memory>(
    agent: &mut StunAgent<A>,
    now: Instant,
    bytes: &[u8],
    from: SocketAddr,
    log: &mut StepLog<A>,
) -> Result<(), AllocError>
    ensures whole { OnOk result (agent.new ≡ after_receiving now bytes.now from agent.old) }
    ensures added { OnOk result (Keeps (kept_steps log.old)
        (step_of_receiving now bytes.now from agent.old ∷ []) (kept_steps log.new)) }
    ensures broken { OnErr result (agent.new ≡ agent.old) }
    ensures granted { A.grants → IsOk result }
    ensures kept { A.grants → IsKept log.old → IsKept log.new }
{
    let step = match Message::from_bytes(bytes) {
        Ok(message) => AgentStep::Received {
            at: now,
            accepted: agent.handle_stun_message_with_time(&message, from, now)?,
        },
        Err(error) => AgentStep::Refused {
            at: now,
            error: StunError::ParseError(error),
        },
    };
    log.add(Ok(step));
    Ok(())
}
