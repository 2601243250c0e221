//! Decodes the body of a request, which a caller passes as encoded attributes.

ghost use Rattle.std.specs.Prelude.{◌≡◌, ◌⊎◌, Err, IfErr, IfOk, Ok, OnOk, [], drop, length};
ghost use Rattle.stun_types.specs.Attribute.{attribute_length};
ghost use Rattle.stun_c_endpoint.specs.Attributes.{Reads, peer_of, refusal_of_attribute};
ghost use Rattle.stun_c_endpoint.specs.Attributes.{with_attribute};

use byteorder::{BigEndian, ByteOrder};
use std::alloc::Global;
use std::net::{Ipv4Addr, Ipv6Addr, SocketAddr, SocketAddrV4, SocketAddrV6};
use stun_client_endpoint::body::{Body, BodyError};
use stun_numbers::refusal::Refusal;
use stun_types::attribute::RawAttribute;

/// The type of XOR-PEER-ADDRESS. In a message, the address in this attribute is XORed with the
/// transaction ID. A caller does not know this ID, so a body stores the address without the XOR.
const XOR_PEER_ADDRESS: u16 = 0x0012;

/// Converts the library's error for an attribute that cannot be added to a body.
fn convert_body_error(error: BodyError) -> Refusal
    ensures { result ≡ refusal_of_attribute error }
{
    match error {
        BodyError::NotAllowed => Refusal::NotAllowed,
        BodyError::TooLarge => Refusal::MessageTooLong,
        BodyError::OutOfMemory => Refusal::OutOfMemory,
    }
}

/// Returns the address in the value of a XOR-PEER-ADDRESS, whose address is not XORed, or `None` if
/// the value is malformed.
fn read_peer_address(value: &[u8]) -> Option<SocketAddr>
    ensures { result ≡ peer_of value.now }
{
    if value.len() == 8 && BigEndian::read_u16(value) == 1 {
        let mut octets = [0; 4];
        octets.copy_from_slice(&value[4..]);
        let port = BigEndian::read_u16(&value[2..]);
        return Some(SocketAddr::V4(SocketAddrV4::new(Ipv4Addr::from_octets(octets), port)));
    }
    if value.len() == 20 && BigEndian::read_u16(value) == 2 {
        let mut octets = [0; 16];
        octets.copy_from_slice(&value[4..]);
        let port = BigEndian::read_u16(&value[2..]);
        return Some(SocketAddr::V6(SocketAddrV6::new(Ipv6Addr::from_octets(octets), port, 0, 0)));
    }
    None
}

/// Adds an attribute to a body. Fails with `NotAllowed` if the caller may not add attributes of
/// this type, with `MessageTooLong` if the body becomes too long, with `BadArgument` for a
/// XOR-PEER-ADDRESS without an address, and with `OutOfMemory` if an allocation fails.
fn add(body: &mut Body<Global>, attribute: &RawAttribute<'_>) -> Result<(), Refusal>
    ensures ok { OnOk result (with_attribute body.old attribute.now ≡ Ok body.new) }
    ensures refused { IfErr result (λ refusal. (refusal ≡ Refusal.OutOfMemory)
        ⊎ (with_attribute body.old attribute.now ≡ Err refusal)) }
{
    let added = if attribute.get_type().value() == XOR_PEER_ADDRESS {
        match read_peer_address(attribute.value()) {
            Some(address) => body.add_xor_peer_address(address),
            None => return Err(Refusal::BadArgument),
        }
    } else {
        body.add(attribute.get_type(), attribute.value())
    };
    match added {
        Ok(()) => Ok(()),
        Err(error) => Err(convert_body_error(error)),
    }
}

/// Returns the bytes after the attribute at the front of `bytes`, and after its padding.
pub fn after<'a>(bytes: &'a [u8], attribute: &RawAttribute<'_>) -> &'a [u8]
    ensures { result.now ≡ drop (attribute_length (length attribute.now.value)) bytes.now }
{
    match bytes.get(attribute.padded_len()..) {
        Some(after) => after,
        None => &[],
    }
}

/// Decodes the body that `bytes` encode. Fails with the error of the first attribute that cannot be
/// added, or with `BadArgument` if some of the bytes are not an attribute.
pub fn body_of(alloc: Global, bytes: &[u8]) -> Result<Body<Global>, Refusal>
    ensures ok { IfOk result (λ body. Reads [] bytes.now (Ok body)) }
    ensures refused { IfErr result (λ refusal. (refusal ≡ Refusal.OutOfMemory)
        ⊎ Reads [] bytes.now (Err refusal)) }
{
    let mut body = Body::new(alloc);
    let mut rest = bytes;
    while !rest.is_empty() {
        let Some(attribute) = RawAttribute::at(rest, 0) else {
            return Err(Refusal::BadArgument);
        };
        match add(&mut body, &attribute) {
            Ok(()) => {}
            Err(refusal) => return Err(refusal),
        }
        rest = after(rest, &attribute);
    }
    Ok(body)
}
