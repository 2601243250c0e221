//! The calls on an ICE agent (RFC 8445, sections 7.2 and 7.3).
//!
//! A call fails first with `EmptyHandle` if its handle is empty, and with `WrongHandle` if the
//! handle has no agent.

ghost use Rattle.std.specs.Prelude.{◌≡◌, None};
ghost use Rattle.stun_c_endpoint.specs.Agents.{MakesAgent, MakesOffering, SetsPeer};
ghost use Rattle.stun_c_endpoint.specs.Agents.{SetsRole, SetsTieBreaker, controlling_answer};
ghost use Rattle.stun_c_endpoint.specs.Checks.{WritesCheck, check_asked};
ghost use Rattle.stun_c_endpoint.specs.Extended.{WritesExtended};
ghost use Rattle.stun_c_endpoint.specs.Given.{Fills};
ghost use Rattle.stun_c_endpoint.specs.Judged.{SeesAs, ice_failed, seen_at};
ghost use Rattle.stun_c_endpoint.specs.Kept.{agent_in};

use crate::handle::endpoint::EndpointHandle;
use crate::ice::agent::{Given, Side, controlling, set_role, set_tie_breaker};
use crate::ice::extended::write_extended_of;
use crate::ice::judging::judge_at;
use crate::ice::told::{IceCheck, IceReceived};
use crate::ice::writing::write_of;
use std::alloc::Global;
use stun_handles::address::Address;
use stun_handles::answers;
use stun_numbers::passed::is_impossible;
use stun_numbers::refusal::Refusal;

/// Creates an ICE agent with the credentials of both sides: username fragments and passwords.
/// `tie_breaker` is a random number of 64 bits, which decides role conflicts. The agent begins in
/// the controlling role if `is_controlling` is true, and otherwise in the controlled role.
///
/// # Errors
///
/// The first of these that applies:
///
/// - `FullHandle`: the handle is not empty.
/// - `NotText`: a name or a password is not UTF-8.
/// - `BadArgument`: a name has fewer than 4 or more than 256 bytes or contains a colon, or a
///   password has fewer than 22 or more than 256 bytes.
/// - `OutOfMemory`: an allocation failed.
#[unsafe(no_mangle)]
pub extern "C" fn stunp_ice_checker_new_with(
    alloc: Global,
    checker: &mut EndpointHandle,
    name: &[u8],
    password: &[u8],
    peer_name: &[u8],
    peer_password: &[u8],
    tie_breaker: u64,
    is_controlling: bool,
) -> i64
    ensures { Fills checker.old.kept checker.new.kept result (MakesAgent (record {
      name = name.now;
      password = password.now;
      peer_name = peer_name.now;
      peer_password = peer_password.now;
      tie_breaker = tie_breaker;
      controls = is_controlling;
    })) }
{
    if let Some(kept) = checker.take(alloc) {
        checker.put(alloc, kept);
        return Refusal::FullHandle.code();
    }
    let given = Given {
        name,
        password,
        peer_name,
        peer_password,
        tie_breaker,
        is_controlling,
    };
    given.place(alloc, checker)
}

/// Creates an ICE agent that does not know its peer yet, with its own username fragment and
/// password. `tie_breaker` is a random number of 64 bits, which decides role conflicts. The agent
/// begins in the controlling role if `is_controlling` is true, and otherwise in the controlled
/// role.
///
/// # Errors
///
/// The first of these that applies:
///
/// - `FullHandle`: the handle is not empty.
/// - `NotText`: the name or the password is not UTF-8.
/// - `BadArgument`: the name has fewer than 4 or more than 256 bytes or contains a colon, or the
///   password has fewer than 22 or more than 256 bytes.
/// - `OutOfMemory`: an allocation failed.
#[unsafe(no_mangle)]
pub extern "C" fn stunp_ice_checker_offer_with(
    alloc: Global,
    checker: &mut EndpointHandle,
    name: &[u8],
    password: &[u8],
    tie_breaker: u64,
    is_controlling: bool,
) -> i64
    ensures { Fills checker.old.kept checker.new.kept result (MakesOffering (record {
      name = name.now;
      password = password.now;
    }) tie_breaker is_controlling) }
{
    if let Some(kept) = checker.take(alloc) {
        checker.put(alloc, kept);
        return Refusal::FullHandle.code();
    }
    let own = Side { name, password };
    own.place(alloc, tie_breaker, is_controlling, checker)
}

/// Sets the credentials of the agent's peer, in place of any that were set before.
///
/// # Errors
///
/// The first of these that applies:
///
/// - `NotText`: the name or the password is not UTF-8.
/// - `BadArgument`: the name has fewer than 4 or more than 256 bytes or contains a colon, or the
///   password has fewer than 22 or more than 256 bytes.
/// - `OutOfMemory`: an allocation failed.
#[unsafe(no_mangle)]
pub extern "C" fn stunp_ice_checker_set_peer_with(
    alloc: Global,
    checker: &mut EndpointHandle,
    peer_name: &[u8],
    peer_password: &[u8],
) -> i64
    ensures { SetsPeer (agent_in checker.old.kept) (record {
      name = peer_name.now;
      password = peer_password.now;
    }) result checker.old.kept checker.new.kept }
{
    let Some(mut kept) = checker.take(alloc) else {
        return Refusal::EmptyHandle.code();
    };
    let peer = Side {
        name: peer_name,
        password: peer_password,
    };
    let answer = answers::done(peer.set_at(&mut kept));
    checker.put(alloc, kept);
    answer
}

/// Frees the agent, and makes the handle empty.
#[unsafe(no_mangle)]
pub extern "C" fn stunp_ice_checker_clear(alloc: Global, checker: &mut EndpointHandle)
    ensures { checker.new.kept ≡ None }
{
    let _kept = checker.take(alloc);
}

/// Returns 1 if the agent has the controlling role, and otherwise 0.
#[unsafe(no_mangle)]
pub extern "C" fn stunp_ice_checker_is_controlling(
    alloc: Global,
    checker: &mut EndpointHandle,
) -> i64
    ensures answer { result ≡ controlling_answer (agent_in checker.old.kept) }
    ensures same { checker.new.kept ≡ checker.old.kept }
{
    let Some(kept) = checker.take(alloc) else {
        return Refusal::EmptyHandle.code();
    };
    let answer = answers::number(controlling(&kept));
    checker.put(alloc, kept);
    answer
}

/// Sets the role of the agent: controlling if `is_controlling` is true, and otherwise controlled.
#[unsafe(no_mangle)]
pub extern "C" fn stunp_ice_checker_set_role(
    alloc: Global,
    checker: &mut EndpointHandle,
    is_controlling: bool,
) -> i64
    ensures { SetsRole (agent_in checker.old.kept) is_controlling result checker.old.kept
        checker.new.kept }
{
    let Some(mut kept) = checker.take(alloc) else {
        return Refusal::EmptyHandle.code();
    };
    let answer = answers::done(set_role(&mut kept, is_controlling));
    checker.put(alloc, kept);
    answer
}

/// Sets the tie-breaker of the agent. After a role conflict, an agent must have a new random
/// tie-breaker before it writes its next check (RFC 8445, section 16.1).
#[unsafe(no_mangle)]
pub extern "C" fn stunp_ice_checker_set_tie_breaker(
    alloc: Global,
    checker: &mut EndpointHandle,
    tie_breaker: u64,
) -> i64
    ensures { SetsTieBreaker (agent_in checker.old.kept) tie_breaker result checker.old.kept
        checker.new.kept }
{
    let Some(mut kept) = checker.take(alloc) else {
        return Refusal::EmptyHandle.code();
    };
    let answer = answers::done(set_tie_breaker(&mut kept, tie_breaker));
    checker.put(alloc, kept);
    answer
}

/// Writes a check to the front of `out`, and returns its length. `id` is its transaction ID, which
/// must be random and new, because otherwise the answer to one check could end another. `to` is the
/// address to which you send the check. If the peer learns a new peer-reflexive candidate from the
/// check, `priority` is the priority of this candidate. The check nominates its pair if `nominate`
/// is true and the agent has the controlling role. The call writes to `check` the data that the
/// agent needs to judge the answer.
///
/// Fails with `BadArgument` if `to` is not an IPv4 or IPv6 address, then with `CannotSign` if the
/// credentials of the peer are not known yet, then with `OutOfMemory`, then with `BufferTooSmall`
/// if the check does not fit into `out`.
#[unsafe(no_mangle)]
pub extern "C" fn stunp_ice_checker_check_with(
    alloc: Global,
    checker: &mut EndpointHandle,
    id: &[u8; 12],
    to: &Address,
    priority: u32,
    nominate: bool,
    out: &mut [u8],
    check: &mut IceCheck,
) -> i64
    ensures answer { WritesCheck (check_asked (agent_in checker.old.kept) id.now to.now priority
        nominate) result out.old out.new check.old check.new }
    ensures same { checker.new.kept ≡ checker.old.kept }
{
    let Some(kept) = checker.take(alloc) else {
        return Refusal::EmptyHandle.code();
    };
    let answer = answers::length(write_of(&kept, id, to, priority, nominate, out, check));
    checker.put(alloc, kept);
    answer
}

/// Writes a check like `stunp_ice_checker_check_with`, but with the attributes of `body` before its
/// signature. `body` has the attributes one after the other, each with its header and its padding,
/// as in a message.
///
/// # Errors
///
/// The first of these that applies. If an allocation fails, the call may return `OutOfMemory` in
/// place of the error of an attribute, or of any later error.
///
/// - `BadArgument`: `to` is not an IPv4 or IPv6 address.
/// - `CannotSign`: the credentials of the peer are not known yet.
/// - `NotAllowed`, `AttributeExists`, `MessageTooLong` or `BadArgument`: the error of the first
///   attribute of the body that cannot be added. `NotAllowed` means that no caller may add this
///   type, `AttributeExists` that the check has the attribute already, `MessageTooLong` that the
///   check becomes too long, and `BadArgument` that the attribute is incomplete.
/// - `MessageTooLong`: the whole check is too long.
/// - `BufferTooSmall`: the check does not fit into `out`.
#[unsafe(no_mangle)]
pub extern "C" fn stunp_ice_checker_check_body_with(
    alloc: Global,
    checker: &mut EndpointHandle,
    id: &[u8; 12],
    to: &Address,
    priority: u32,
    nominate: bool,
    body: &[u8],
    out: &mut [u8],
    check: &mut IceCheck,
) -> i64
    ensures answer { WritesExtended (agent_in checker.old.kept) id.now to.now priority nominate
        body.now result out.old out.new check.old check.new }
    ensures same { checker.new.kept ≡ checker.old.kept }
{
    let Some(kept) = checker.take(alloc) else {
        return Refusal::EmptyHandle.code();
    };
    let written = write_extended_of(&kept, id, to, priority, nominate, body, out, check);
    let answer = answers::length(written);
    checker.put(alloc, kept);
    answer
}

/// Judges a datagram that arrived from the address `from`. Writes the outcome to `received` and
/// returns its `stunp_kind`. If the datagram is a check of the peer, writes the answer to the front
/// of `out`. If `has_check` is true, `check` is the check of this agent that has the transaction ID
/// of the datagram, as `stunp_ice_checker_check_with` wrote it.
///
/// # Errors
///
/// The first of these that applies. After an error the agent is unchanged, and `received` has the
/// kind 7 and the length 0.
///
/// - `BadArgument`: `received.size` is wrong, or `from` or the address in `check` is not an IPv4 or
///   IPv6 address.
/// - `OutOfMemory`: an allocation failed.
/// - `BufferTooSmall`: the answer does not fit into `out`. Its length is then in `received.needed`.
#[unsafe(no_mangle)]
pub extern "C" fn stunp_ice_checker_receive_with(
    alloc: Global,
    checker: &mut EndpointHandle,
    message: &[u8],
    from: &Address,
    has_check: bool,
    check: &IceCheck,
    out: &mut [u8],
    received: &mut IceReceived,
) -> i64
    ensures { SeesAs (seen_at (agent_in checker.old.kept) has_check check.now from.now message.now
        (ice_failed received.old)) result out.old out.new (ice_failed received.old) received.new
        checker.old.kept checker.new.kept }
{
    received.fails();
    if is_impossible(message) {
        return Refusal::BadArgument.code();
    }
    let Some(mut kept) = checker.take(alloc) else {
        return Refusal::EmptyHandle.code();
    };
    let told = judge_at(
        alloc, &mut kept, message, from, has_check, check, out, received,
    );
    let answer = answers::number(told);
    checker.put(alloc, kept);
    answer
}
