//! Writes addresses, plain or XORed with a transaction ID (RFC 8489, sections 14.1 and 14.2).

ghost use Rattle.std.specs.Prelude.{◌≡◌, ◌≤◌, ◌<◌, ◌+◌, length, take, true, IfOk, IfErr, Some};
ghost use Rattle.stun_base.specs.Header.{transaction_id_field};
ghost use Rattle.stun_types.specs.XorMappedAddress.{xor_bytes, xor_key};
ghost use Rattle.stun_numbers.specs.Messages.{base_refusal};
ghost use Rattle.stun_c.specs.Answers.{Writes};
ghost use Rattle.stun_c.specs.Writing.{added_attribute, added_address, added_plain_address};
ghost use Rattle.stun_c.specs.Writing.{hidden_value, is_address, plain_value};

use crate::writing::{add, add_numbered};
use stun_base::attribute_type::AttributeType;
use stun_base::header::MAGIC_COOKIE;
use stun_base::transaction_id::TransactionId;
use stun_numbers::message::base_message;
use stun_numbers::refusal::Refusal;

/// The number with which a port is XORed: the first half of the magic cookie.
pub const PORT_KEY: u16 = 0x2112;

/// The address family of IPv4.
pub const IPV4: u8 = 1;

/// The address family of IPv6.
pub const IPV6: u8 = 2;

/// XORs each octet with the byte of the key at the same index.
pub fn xor_with(octets: &mut [u8], key: &[u8])
    requires { length octets.old ≤ length key.now }
    ensures { octets.new ≡ xor_bytes octets.old key.now }
{
    for i in 0..octets.len() {
        octets[i] ^= key[i];
    }
}

/// Returns the key with which addresses are XORed: the magic cookie, followed by the transaction
/// ID.
pub fn xor_key(id: TransactionId) -> [u8; 16]
    ensures { result ≡ xor_key id }
{
    let mut key = id.as_u128().to_be_bytes();
    key[..4].copy_from_slice(&MAGIC_COOKIE.to_be_bytes());
    key
}

/// Writes the value of an attribute with this address and port, which are not XORed.
fn write_address(value: &mut [u8], octets: &[u8], port: u16)
    requires { length value.old ≡ 4 + length octets.now }
    ensures { value.new ≡ plain_value octets.now port }
{
    let family = if octets.len() == 4 { IPV4 } else { IPV6 };
    let (front, back) = value.split_at_mut(4);
    front[..2].copy_from_slice(&[0, family]);
    front[2..].copy_from_slice(&port.to_be_bytes());
    back.copy_from_slice(octets);
}

/// Writes the value of an attribute with this address and port, XORed with the magic cookie and the
/// transaction ID `id`.
#[tactic(auto, unfolding(crate::specs::Writing::hidden_value))]
fn write_hidden(value: &mut [u8], octets: &[u8], port: u16, id: TransactionId)
    requires short { length octets.now ≤ 16 }
    requires room { length value.old ≡ 4 + length octets.now }
    ensures { value.new ≡ hidden_value octets.now port id }
{
    write_address(value, octets, port ^ PORT_KEY);
    let (_, back) = value.split_at_mut(4);
    xor_with(back, &xor_key(id));
}

/// Returns `true` if `octets` has the length of an IPv4 or IPv6 address and `port` is below 65536.
fn is_address(octets: &[u8], port: u32) -> bool
    ensures answer { result ≡ is_address octets.now port }
    ensures limits { result ≡ true → (port < 65536) × (length octets.now ≤ 16) }
{
    if port >= 65536 {
        return false;
    }
    match octets.len() {
        4 => true,
        16 => true,
        _ => false,
    }
}

/// Returns the transaction ID of the message in the first `count` bytes of the buffer. Fails with
/// the error of `base_message` if no attribute may be added to this message.
fn read_base_id(buffer: &[u8], count: usize) -> Result<TransactionId, Refusal>
    ensures ok { IfOk result (λ id. id ≡ transaction_id_field (take count buffer.now)) }
    ensures err { IfErr result (λ refusal. base_refusal buffer.now count ≡ Some refusal) }
{
    let message = base_message(buffer, count)?;
    Ok(message.transaction_id())
}

/// Adds an attribute of this type, with the XORed address of these octets and this port, to the
/// message in the first `count` bytes of the buffer.
fn add_hidden(buffer: &mut [u8], count: usize, kind: AttributeType, octets: &[u8], port: u16) -> i64
    requires { length octets.now ≤ 16 }
    ensures { Writes (added_attribute buffer.old count kind.0 (hidden_value octets.now port
        (transaction_id_field (take count buffer.old)))) buffer.old result buffer.new }
{
    match read_base_id(buffer, count) {
        Ok(id) => {
            let mut longest = [0; 20];
            let value = &mut longest[..4 + octets.len()];
            write_hidden(value, octets, port, id);
            add(buffer, count, kind, value)
        }
        Err(refusal) => refusal.code(),
    }
}

/// Adds an attribute of this type, with an address in the form of XOR-MAPPED-ADDRESS, to the
/// message in the first `count` bytes of the buffer. Returns the new length, or a negative error
/// code.
pub fn add_address(
    buffer: &mut [u8],
    count: usize,
    kind: AttributeType,
    octets: &[u8],
    port: u32,
) -> i64
    ensures { Writes (added_address buffer.old count kind.0 octets.now port) buffer.old result
        buffer.new }
{
    if !is_address(octets, port) {
        return Refusal::BadArgument.code();
    }
    add_hidden(buffer, count, kind, octets, port as u16)
}

/// Adds an attribute of this type, with an address in the form of MAPPED-ADDRESS, to the message in
/// the first `count` bytes of the buffer. Returns the new length, or a negative error code.
pub fn add_plain(buffer: &mut [u8], count: usize, kind: u32, octets: &[u8], port: u32) -> i64
    ensures { Writes (added_plain_address buffer.old count kind octets.now port) buffer.old result
        buffer.new }
{
    if !is_address(octets, port) {
        return Refusal::BadArgument.code();
    }
    let mut longest = [0; 20];
    let value = &mut longest[..4 + octets.len()];
    write_address(value, octets, port as u16);
    add_numbered(buffer, count, kind, value)
}
