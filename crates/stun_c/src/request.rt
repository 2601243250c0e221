//! Writes the request of `stunp_build_signed`.

ghost use Rattle.std.specs.Prelude.{◌≡◌, ◌≤◌, length, IfOk, OnOk, IfErr, Some, None, Ok, Err};
ghost use Rattle.stun_types.specs.Limits.{USERNAME_LIMIT};
ghost use Rattle.stun_numbers.specs.Algorithms.{algorithm_numbered};
ghost use Rattle.stun_c.specs.Requests.{signed_request, username_refusal};

use stun_base::message_type::BINDING;
use stun_numbers::algorithm::algorithm_numbered;
use stun_numbers::id::transaction_id;
use stun_numbers::refusal::Refusal;
use stun_numbers::text::text;
use stun_types::attribute::Username;
use stun_types::message::{Message, MessageWriteMutSlice};
use stun_types::prelude::*;

/// The length of the longest request: a header, a USERNAME of 513 bytes with its padding, and an
/// HMAC-SHA256 signature of 32 bytes.
pub const LONGEST_REQUEST: usize = 20 + 4 + 516 + 4 + 32;

/// Converts bytes to a USERNAME. Fails with `NotText` if they are not UTF-8, and with `TextTooLong`
/// if there are more than 513 bytes.
fn to_username(bytes: &[u8]) -> Result<Username<'_>, Refusal>
    ensures ok { IfOk result (λ username. (username_refusal bytes.now ≡ None)
        × (username ≡ bytes.now)) }
    ensures short { OnOk result (length bytes.now ≤ USERNAME_LIMIT) }
    ensures err { IfErr result (λ refusal. username_refusal bytes.now ≡ Some refusal) }
{
    match Username::new(text(bytes)?) {
        Ok(username) => Ok(username),
        Err(_) => Err(Refusal::TextTooLong),
    }
}

/// Writes a Binding request with this transaction ID and this USERNAME, signed with the key, to a
/// buffer that has room for the longest request. Returns the bytes of the request.
#[tactic(auto, using(crate::proofs::Sizes::request_length, crate::proofs::Sizes::signing_fits))]
pub fn signed_request<'a>(
    algorithm: u32,
    id: &[u8],
    name: &[u8],
    key: &[u8],
    buffer: &'a mut [u8],
) -> Result<&'a [u8], Refusal>
    requires { LONGEST_REQUEST ≤ length buffer.old }
    ensures ok { IfOk result (λ request. signed_request
        (algorithm_numbered algorithm) id.now name.now key.now ≡ Ok request.now) }
    ensures err { IfErr result (λ refusal. signed_request
        (algorithm_numbered algorithm) id.now name.now key.now ≡ Err refusal) }
{
    let algorithm = algorithm_numbered(algorithm)?;
    let id = transaction_id(id)?;
    let username = to_username(name)?;
    let writer = MessageWriteMutSlice::new(buffer);
    let mut writer = Message::builder_request(BINDING, id, writer).unwrap();
    writer.add_attribute(&username).unwrap();
    writer
        .add_message_integrity_with_key_bytes(key, algorithm)
        .unwrap();
    Ok(writer.finish())
}
