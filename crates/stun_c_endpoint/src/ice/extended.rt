//! Writes a check with further attributes, which the caller passes.

ghost use Rattle.std.specs.Prelude.{◌≡◌, ◌≤◌, ◌⊎◌, Err, IfErr, IfOk, Ok, OnOk, length};
ghost use Rattle.stun_handles.specs.Numbers.{length_answer};
ghost use Rattle.stun_c_endpoint.specs.Extended.{AddsFurther, Extends, WritesExtended};
ghost use Rattle.stun_c_endpoint.specs.Extended.{is_kept_from_checks, with_further};
ghost use Rattle.stun_c_endpoint.specs.Kept.{agent_of};

use crate::client::body::after;
use crate::handle::endpoint::Kept;
use crate::ice::told::IceCheck;
use crate::ice::writing::{convert_check_error, hand_out};
use std::alloc::Global;
use std::net::SocketAddr;
use stun_handles::address::Address;
use stun_ice::check::Check;
use stun_ice::checker::Checker;
use stun_numbers::id::transaction_id;
use stun_numbers::refusal::Refusal;
use stun_types::attribute::{AttributeType, RawAttribute};
use stun_types::message::{MessageWriteVec, TransactionId};
use stun_types::prelude::*;

/// The types of the attributes that a caller cannot add to a check: USE-CANDIDATE, ICE-CONTROLLED
/// and ICE-CONTROLLING, because the agent writes them itself, and XOR-PEER-ADDRESS, because a body
/// stores its address without the XOR.
const KEPT_FROM_CHECKS: [u16; 4] = [0x0025, 0x8029, 0x802A, 0x0012];

/// Returns `true` if a caller cannot add attributes of this type to a check (`KEPT_FROM_CHECKS`).
fn is_kept_from_checks(kind: AttributeType) -> bool
    ensures { result ≡ is_kept_from_checks kind.0 }
{
    KEPT_FROM_CHECKS.contains(&kind.value())
}

/// Adds one of the caller's attributes to a check. Fails with `NotAllowed` if the caller cannot add
/// attributes of this type, and otherwise with the error of the writer.
fn add(page: &mut MessageWriteVec<Global>, attribute: &RawAttribute<'_>) -> Result<(), Refusal>
    requires { 20 ≤ length page.old.bytes }
    ensures header { OnOk result (20 ≤ length page.new.bytes) }
    ensures ok { OnOk result (with_further page.old.bytes attribute.now ≡ Ok page.new.bytes) }
    ensures refused { IfErr result (λ refusal. (refusal ≡ Refusal.OutOfMemory)
        ⊎ (with_further page.old.bytes attribute.now ≡ Err refusal)) }
{
    if is_kept_from_checks(attribute.get_type()) {
        return Err(Refusal::NotAllowed);
    }
    match page.add_attribute(attribute) {
        Ok(()) => Ok(()),
        Err(error) => Err(Refusal::of_write(error, true)),
    }
}

/// Adds to a check the attributes that `bytes` encode. Fails with the error of the first attribute
/// that cannot be added, or with `BadArgument` if some of the bytes are not an attribute.
fn with_all(page: MessageWriteVec<Global>, bytes: &[u8]) -> Result<MessageWriteVec<Global>, Refusal>
    requires { 20 ≤ length page.bytes }
    ensures header { IfOk result (λ whole. 20 ≤ length whole.bytes) }
    ensures ok { IfOk result (λ whole. AddsFurther page.bytes bytes.now (Ok whole.bytes)) }
    ensures refused { IfErr result (λ refusal. (refusal ≡ Refusal.OutOfMemory)
        ⊎ AddsFurther page.bytes bytes.now (Err refusal)) }
{
    let mut whole = page;
    let mut rest = bytes;
    while !rest.is_empty() {
        let Some(attribute) = RawAttribute::at(rest, 0) else {
            return Err(Refusal::BadArgument);
        };
        match add(&mut whole, &attribute) {
            Ok(()) => {}
            Err(refusal) => return Err(refusal),
        }
        rest = after(rest, &attribute);
    }
    Ok(whole)
}

/// Creates a check with the attributes that `body` encodes.
fn make_extended(
    checker: &Checker<Global>,
    id: TransactionId,
    to: SocketAddr,
    priority: u32,
    nominate: bool,
    body: &[u8],
) -> Result<Check<Global>, Refusal>
    ensures { Extends checker.now id to priority nominate body.now result }
{
    let begun = match checker.begin_check(id, priority, nominate) {
        Ok(page) => page,
        Err(error) => return Err(convert_check_error(error)),
    };
    let page = match with_all(begun, body) {
        Ok(page) => page,
        Err(refusal) => return Err(refusal),
    };
    match checker.finish_check(page, id, to, nominate) {
        Ok(check) => Ok(check),
        Err(error) => Err(Refusal::of_write(error, true)),
    }
}

/// Writes a check of this agent with the attributes of a body to the front of `out`, and writes to
/// `check` the data that the agent needs to judge the answer. Returns the length of the check.
fn write(
    checker: &Checker<Global>,
    id: &[u8; 12],
    to: &Address,
    priority: u32,
    nominate: bool,
    body: &[u8],
    out: &mut [u8],
    check: &mut IceCheck,
) -> Result<usize, Refusal>
    ensures { WritesExtended (Ok checker.now) id.now to.now priority nominate body.now
        (length_answer result) out.old out.new check.old check.new }
{
    let to = to.socket()?;
    let id = transaction_id(id)?;
    match make_extended(checker, id, to, priority, nominate, body) {
        Ok(written) => hand_out(&written, out, check),
        Err(refusal) => Err(refusal),
    }
}

/// Writes a check with the attributes of a body to the front of `out`, and writes to `check` the
/// data that the agent needs to judge the answer. Returns the length of the check. Fails with
/// `WrongHandle` if the value is not an agent.
pub fn write_extended_of(
    kept: &Kept,
    id: &[u8; 12],
    to: &Address,
    priority: u32,
    nominate: bool,
    body: &[u8],
    out: &mut [u8],
    check: &mut IceCheck,
) -> Result<usize, Refusal>
    ensures { WritesExtended (agent_of kept.now) id.now to.now priority nominate body.now
        (length_answer result) out.old out.new check.old check.new }
{
    match kept {
        Kept::Checker(checker) => write(checker, id, to, priority, nominate, body, out, check),
        _ => Err(Refusal::WrongHandle),
    }
}
