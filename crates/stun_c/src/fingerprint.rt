//! Checks FINGERPRINT, and adds it to messages (RFC 8489, section 14.7).

ghost use Rattle.std.specs.Prelude.{◌≡◌, ◌≤◌, ◌+◌, ◌++◌, length, pos, take, drop, IfErr, OnOk};
ghost use Rattle.std.specs.Prelude.{Some, None};
ghost use Rattle.stun_c.specs.Answers.{Writes};
ghost use Rattle.stun_c.specs.code.Ended.{ended_message, fingerprint_after, fingerprint_value};
ghost use Rattle.stun_c.specs.code.Room.{HasRoom};
ghost use Rattle.stun_c.specs.Extra.{ending_refusal, fingerprint_answer, fingerprint_number};
ghost use Rattle.stun_c.specs.Extra.{fingerprinted_message};

use crate::writing::{fits, set_length, shows_kind, spell};
use stun_base::attribute_type::AttributeType;
use stun_base::header::HEADER_LENGTH;
use stun_extra::crc32::crc32;
use stun_extra::fingerprint::{FINGERPRINT_LENGTH, Fingerprint, check_fingerprint};
use stun_numbers::refusal::Refusal;
use stun_types::message::Message;

/// The number with which the CRC-32 of a message is XORed.
const FINGERPRINT_XOR: u32 = 0x5354_554E;

/// Returns the `stunp_fingerprint` for the result of a check of FINGERPRINT.
fn to_fingerprint_number(fingerprint: Fingerprint) -> i64
    ensures { result ≡ pos (fingerprint_number fingerprint) }
{
    match fingerprint {
        Fingerprint::Absent => 0,
        Fingerprint::Right => 1,
        Fingerprint::Wrong => 2,
        Fingerprint::Misplaced => 3,
    }
}

/// Checks the FINGERPRINT of a message. Returns a `stunp_fingerprint`, or a negative error code.
pub fn check(message: &[u8]) -> i64
    ensures { result ≡ fingerprint_answer message.now }
{
    match Message::from_bytes(message) {
        Ok(message) => to_fingerprint_number(check_fingerprint(&message)),
        Err(error) => Refusal::from(error).code(),
    }
}

/// Checks that FINGERPRINT can be added to the message in the first `count` bytes of the buffer.
///
/// # Errors
///
/// The first of these that applies:
///
/// - `BadArgument`: the buffer has fewer than `count` bytes.
/// - The errors of `Message::from_bytes`.
/// - `AttributeExists`: the message has FINGERPRINT.
/// - `MessageTooLong` or `BufferTooSmall`: FINGERPRINT does not fit (`fits`).
fn check_ending(buffer: &[u8], count: usize) -> Result<(), Refusal>
    ensures ok { OnOk result (ending_refusal buffer.now count ≡ None) }
    ensures room { OnOk result (HasRoom count 4 (length buffer.now)) }
    ensures err { IfErr result (λ refusal. ending_refusal buffer.now count ≡ Some refusal) }
{
    let Some(bytes) = buffer.get(..count) else {
        return Err(Refusal::BadArgument);
    };
    let message = Message::from_bytes(bytes)?;
    if shows_kind(&message, AttributeType::FINGERPRINT) {
        return Err(Refusal::AttributeExists);
    }
    fits(&message, buffer.len() - count, 4)
}

/// Returns the value of a FINGERPRINT that follows these bytes of a message.
#[tactic(auto, unfolding(crate::specs::code::Ended::fingerprint_value))]
fn compute_value(bytes: &[u8]) -> [u8; 4]
    ensures { result ≡ fingerprint_value bytes.now }
{
    (crc32(bytes) ^ FINGERPRINT_XOR).to_be_bytes()
}

/// Writes to the front of a buffer the FINGERPRINT that follows these bytes of a message. The
/// buffer must have room for it.
fn spell_after(bytes: &[u8], buffer: &mut [u8])
    requires { 8 ≤ length buffer.old }
    ensures { buffer.new ≡ fingerprint_after bytes.now ++ drop 8 buffer.old }
{
    let value = compute_value(bytes);
    spell(buffer, AttributeType::FINGERPRINT, &value);
}

/// Appends FINGERPRINT to the message in the first `count` bytes of the buffer: sets the length
/// field of the message to include FINGERPRINT, and writes FINGERPRINT after the message. Returns
/// the new length.
fn append(buffer: &mut [u8], count: usize) -> i64
    requires { HasRoom count 4 (length buffer.old) }
    ensures answer { result ≡ pos (count + 8) }
    ensures written { buffer.new
        ≡ ended_message (take count buffer.old) ++ drop (count + 8) buffer.old }
{
    let end = count + FINGERPRINT_LENGTH;
    let (message, rest) = buffer.split_at_mut(count);
    set_length(message, (end - HEADER_LENGTH) as u16);
    spell_after(message, rest);
    end as i64
}

/// Adds FINGERPRINT to the message in the first `count` bytes of the buffer. Returns the new
/// length, or a negative error code.
pub fn add(buffer: &mut [u8], count: usize) -> i64
    ensures { Writes (fingerprinted_message buffer.old count) buffer.old result buffer.new }
{
    match check_ending(buffer, count) {
        Ok(()) => append(buffer, count),
        Err(refusal) => refusal.code(),
    }
}
