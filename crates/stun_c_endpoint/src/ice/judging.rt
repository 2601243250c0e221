//! Judges a datagram with an ICE agent.

ghost use Rattle.std.specs.Prelude.{◌≡◌, IfOk, IfErr, None, Ok, Some, length};
ghost use Rattle.stun_ice.specs.Received.{given_of, responded};
ghost use Rattle.stun_handles.specs.Numbers.{number_answer};
ghost use Rattle.stun_c_endpoint.specs.Checks.{check_given};
ghost use Rattle.stun_c_endpoint.specs.Judged.{LeavesSeen, SeesAs, TellsMapped, ice_blank};
ghost use Rattle.stun_c_endpoint.specs.Judged.{missing_room, outcome_told, seen_at};
ghost use Rattle.stun_c_endpoint.specs.Kept.{agent_of};
ghost use Rattle.stun_c_endpoint.specs.declared.handle.endpoint.Kept.TheVariants as kind;

use crate::handle::endpoint::Kept;
use crate::ice::agent::role_if;
use crate::ice::told::{ICE_RECEIVED_SIZE, IceCheck, IceReceived};
use std::alloc::Global;
use stun_handles::address::Address;
use stun_ice::check::Check;
use stun_ice::checker::Checker;
use stun_ice::received::{Outcome, Received};
use stun_ice::role::Role;
use stun_numbers::buffer::put;
use stun_numbers::id::transaction_id;
use stun_numbers::refusal::Refusal;

/// Converts the check that a caller passes. Returns `None` if `has_check` is false. Otherwise fails
/// with `BadArgument` if the address in the check is not an IPv4 or IPv6 address.
fn convert_check(
    alloc: Global,
    has_check: bool,
    check: &IceCheck,
) -> Result<Option<Check<Global>>, Refusal>
    ensures ok { IfOk result (λ given. check_given has_check check.now ≡ Some given) }
    ensures err { IfErr result (λ refusal. (check_given has_check check.now ≡ None)
        × (refusal ≡ Refusal.BadArgument)) }
{
    if !has_check {
        return Ok(None);
    }
    let to = check.to.socket()?;
    let id = transaction_id(&check.id)?;
    let role = role_if(check.is_controlling);
    Ok(Some(Check::without_bytes(alloc, id, to, role, check.nominates)))
}

/// Judges a datagram with the agent. Writes the outcome to `received`, and the answer to a check of
/// the peer to `out`. Returns the `stunp_kind`. Fails with `WrongHandle` if the value is not an
/// agent.
pub fn judge_at(
    alloc: Global,
    kept: &mut Kept,
    message: &[u8],
    from: &Address,
    has_check: bool,
    check: &IceCheck,
    out: &mut [u8],
    received: &mut IceReceived,
) -> Result<u32, Refusal>
    ensures { SeesAs (seen_at (agent_of kept.old) has_check check.now from.now message.now
        received.old) (number_answer result) out.old out.new received.old received.new
        (Some kept.old) (Some kept.new) }
{
    match kept {
        Kept::Checker(checker) => judge(
            alloc, checker, message, from, has_check, check, out, received,
        ),
        _ => Err(Refusal::WrongHandle),
    }
}

/// Judges a datagram with this agent. Writes the outcome to `received`, and the answer to a check
/// of the peer to `out`. Returns the `stunp_kind`.
fn judge(
    alloc: Global,
    checker: &mut Checker<Global>,
    message: &[u8],
    from: &Address,
    has_check: bool,
    check: &IceCheck,
    out: &mut [u8],
    received: &mut IceReceived,
) -> Result<u32, Refusal>
    ensures { SeesAs (seen_at (Ok checker.old) has_check check.now from.now message.now
        received.old) (number_answer result) out.old out.new received.old received.new
        (Some (kind.Checker checker.old)) (Some (kind.Checker checker.new)) }
{
    if received.size != ICE_RECEIVED_SIZE {
        return Err(Refusal::BadArgument);
    }
    let from = from.socket()?;
    let check = convert_check(alloc, has_check, check)?;
    let before = checker.role();
    let seen = checker.receive(message, from, check.as_ref())?;
    tell(checker, before, seen, out, received)
}

/// Writes the outcome of a datagram to `received`, and the answer to a check of the peer to `out`.
/// `before` is the role that the agent had before the datagram. If the answer does not fit into
/// `out`, the agent gets this role back.
fn tell(
    checker: &mut Checker<Global>,
    before: Role,
    seen: Received<'_, Global>,
    out: &mut [u8],
    received: &mut IceReceived,
) -> Result<u32, Refusal>
    ensures { LeavesSeen (missing_room (length out.old) (given_of seen.entry))
        (record { agent = checker.old; given = given_of seen.entry }) (number_answer result)
        out.old out.new received.old received.new
        (Some (kind.Checker (record checker.old { role = before })))
        (Some (kind.Checker checker.new)) }
{
    match seen {
        Received::Check { answer, judged, .. } => {
            // An error must leave the agent unchanged, so the agent gets back its former role.
            if out.len() < answer.len() {
                checker.set_role(before);
                received.needed = answer.len();
                return Err(Refusal::BufferTooSmall);
            }
            put(out, answer.as_slice());
            received.checked(judged, answer.len());
            Ok(1)
        }
        Received::Response(outcome) => {
            tell_outcome(&outcome, received);
            Ok(4)
        }
        Received::Indication(_) => {
            received.indicated();
            Ok(3)
        }
        Received::Dropped(why) => {
            received.dropped(why);
            Ok(0)
        }
    }
}

/// Writes to `received` the outcome of a check of this agent that its answer has ended.
fn tell_outcome(outcome: &Outcome, received: &mut IceReceived)
    ensures told { received.new ≡ outcome_told outcome.now received.new.mapped
        (ice_blank 4 received.old) }
    ensures mapped { TellsMapped (responded outcome.now) received.new.mapped }
{
    match outcome {
        Outcome::Valid(mapped) => received.valid(mapped),
        Outcome::RoleConflict { switched } => received.conflict(*switched),
        Outcome::Failed(failure) => received.failed(*failure),
    }
}
