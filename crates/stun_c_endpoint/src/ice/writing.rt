//! Writes a check.

ghost use Rattle.std.specs.Prelude.{◌≡◌, Ok, length, nat_lt};
ghost use Rattle.stun_handles.specs.Numbers.{length_answer};
ghost use Rattle.stun_c_endpoint.specs.Checks.{WritesByRoom, WritesCheck, check_asked};
ghost use Rattle.stun_c_endpoint.specs.Kept.{agent_of};
ghost use Rattle.stun_c_endpoint.specs.code.Unwritten.{refusal_of_check};

use crate::handle::endpoint::Kept;
use crate::ice::told::IceCheck;
use std::alloc::Global;
use stun_handles::address::Address;
use stun_ice::check::Check;
use stun_ice::checker::{CheckError, Checker};
use stun_numbers::buffer::put;
use stun_numbers::id::transaction_id;
use stun_numbers::refusal::Refusal;

/// Converts the library's error for a check that could not be written.
pub(crate) fn convert_check_error(error: CheckError) -> Refusal
    ensures { result ≡ refusal_of_check error }
{
    match error {
        CheckError::NoRemote => Refusal::CannotSign,
        CheckError::OutOfMemory => Refusal::OutOfMemory,
    }
}

/// Writes a check to the front of `out`, and writes to `check` the data that the agent needs to
/// judge the answer. Returns the length of the check. Fails with `WrongHandle` if the value is not
/// an agent.
pub fn write_of(
    kept: &Kept,
    id: &[u8; 12],
    to: &Address,
    priority: u32,
    nominate: bool,
    out: &mut [u8],
    check: &mut IceCheck,
) -> Result<usize, Refusal>
    ensures { WritesCheck (check_asked (agent_of kept.now) id.now to.now priority nominate)
        (length_answer result) out.old out.new check.old check.new }
{
    match kept {
        Kept::Checker(checker) => write(checker, id, to, priority, nominate, out, check),
        _ => Err(Refusal::WrongHandle),
    }
}

/// Writes a check of this agent to the front of `out`, and writes to `check` the data that the
/// agent needs to judge the answer. Returns the length of the check.
fn write(
    checker: &Checker<Global>,
    id: &[u8; 12],
    to: &Address,
    priority: u32,
    nominate: bool,
    out: &mut [u8],
    check: &mut IceCheck,
) -> Result<usize, Refusal>
    ensures { WritesCheck (check_asked (Ok checker.now) id.now to.now priority nominate)
        (length_answer result) out.old out.new check.old check.new }
{
    let to = to.socket()?;
    let id = transaction_id(id)?;
    match checker.check(id, to, priority, nominate) {
        Ok(written) => hand_out(&written, out, check),
        Err(error) => Err(convert_check_error(error)),
    }
}

/// Copies the bytes of a check to the front of `out`, and writes to `check` the data that the agent
/// needs to judge the answer. Returns the length of the check. Fails with `BufferTooSmall` if the
/// bytes do not fit, and then writes nothing.
pub fn hand_out(
    written: &Check<Global>,
    out: &mut [u8],
    check: &mut IceCheck,
) -> Result<usize, Refusal>
    ensures { WritesByRoom (nat_lt (length out.old) (length written.now.bytes)) written.now
        (length_answer result) out.old out.new check.old check.new }
{
    let bytes = written.bytes();
    if out.len() < bytes.len() {
        return Err(Refusal::BufferTooSmall);
    }
    put(out, bytes);
    *check = IceCheck::of(written);
    Ok(bytes.len())
}
