//! Attributes whose value is an address that is not XORed (RFC 8489, section 14.1).
ghost use Rattle.std.specs.Prelude.{◌≡◌, ◌≤◌, ◌+◌, ◌%◌, ◌++◌, ◌∷◌, length};
ghost use Rattle.std.specs.Net.Socket.{IsPlainSocket, socket_ip, socket_port};
ghost use Rattle.byteorder.specs.Endian.{big_bytes};
ghost use Rattle.stun_types.specs.Attribute.{attribute_length};
ghost use Rattle.stun_types.specs.Grammar.{spelled_attribute};
ghost use Rattle.stun_types.specs.Reading.{attribute_answer};
ghost use Rattle.stun_attributes.specs.Address.{IsAddress, address_of, address_of-written};
ghost use Rattle.stun_attributes.specs.Address.{address_value, ip_of};

use byteorder::{BigEndian, ByteOrder};
use std::marker::Model;
use std::net::{IpAddr, Ipv4Addr, Ipv6Addr, SocketAddr};
use stun_base::error::StunParseError;
use stun_types::attribute::{AttributeType, RawAttribute, append_header};
use stun_types::prelude::*;

/// The number of bytes of the value before the port: a reserved byte, and the family.
const FAMILY_LENGTH: usize = 2;

/// The number of bytes of the value before the octets.
const FAMILY_AND_PORT_LENGTH: usize = FAMILY_LENGTH + 2;

/// The family number of IPv4 (RFC 8489, section 14.1).
const IPV4: u8 = 1;

/// The family number of IPv6 (RFC 8489, section 14.1).
const IPV6: u8 = 2;

/// An address and a port.
#[derive(Clone, Copy, Debug, PartialEq, Eq)]
struct Address {
    ip: IpAddr,
    port: u16,
}

impl Address {
    /// Creates the address from a socket address. The flow information and the scope are left out.
    fn new(addr: SocketAddr) -> Address
        ensures { result ≡ record { ip = socket_ip addr; port = socket_port addr } }
    {
        Address {
            ip: addr.ip(),
            port: addr.port(),
        }
    }

    /// Returns the socket address, with the flow information and the scope set to 0.
    fn socket(&self) -> SocketAddr
        ensures ip { socket_ip result ≡ self.now.ip }
        ensures port { IsPlainSocket result self.now.port }
    {
        SocketAddr::new(self.ip, self.port)
    }

    /// Returns the number of bytes of the value.
    fn count_bytes(&self) -> usize
        ensures value { result ≡ length (address_value self.now) }
        ensures whole { IsAddress self.now }
    {
        let before_octets = FAMILY_LENGTH + self.port.to_be_bytes().as_slice().len();
        match self.ip {
            IpAddr::V4(ip) => before_octets + ip.octets().as_slice().len(),
            IpAddr::V6(ip) => before_octets + ip.octets().as_slice().len(),
        }
    }
}

/// An attribute of type `KIND` whose value is an address and a port that are not XORed.
///
/// Contracts: the value is a record of the address and the port.
#[derive(Clone, Copy, Debug, PartialEq, Eq)]
pub struct PlainAddress<const KIND: u16> {
    address: Address,
}

impl<const KIND: u16> Model for PlainAddress<KIND> {
    ghost use Rattle.stun_attributes.specs.declared.address.Address.{Address};

    ghost Value = { Address };

    ghost view = { λ attribute. attribute.address };

    ghost inverse = { λ address. record { address = address } };
}

impl<const KIND: u16> PlainAddress<KIND> {
    /// Creates the attribute from an address. The flow information and the scope of an IPv6 address
    /// are left out.
    pub fn new(addr: SocketAddr) -> Self
        ensures { result ≡ record { ip = socket_ip addr; port = socket_port addr } }
    {
        PlainAddress {
            address: Address::new(addr),
        }
    }

    /// Returns the address. The flow information and the scope of an IPv6 address are 0.
    pub fn addr(&self) -> SocketAddr
        ensures ip { socket_ip result ≡ self.now.ip }
        ensures port { IsPlainSocket result self.now.port }
    {
        self.address.socket()
    }
}

impl<const KIND: u16> AttributeStaticType for PlainAddress<KIND> {
    const TYPE: AttributeType = AttributeType(KIND);

    ghost static_kind = { KIND };

    fn static_type() -> AttributeType
        ensures { result.0 ≡ KIND }
    {
        AttributeType(KIND)
    }
}

impl<const KIND: u16> Attribute for PlainAddress<KIND> {
    ghost kind = { λ _. KIND };

    ghost value = { address_value };

    ghost is_well_formed = { IsAddress };

    fn get_type(&self) -> AttributeType {
        AttributeType(KIND)
    }

    fn length(&self) -> usize {
        self.address.count_bytes()
    }

    fn write_into<W: MessageWrite>(&self, writer: &mut W) {
        append_address(writer, AttributeType(KIND), &self.address);
    }
}

impl<'a, const KIND: u16> AttributeFromRaw<'a> for PlainAddress<KIND> {
    ghost reading = { address_of KIND };

    ghost reads_back = { address_of-written KIND };

    fn from_raw(raw: RawAttribute<'a>) -> Result<Self, StunParseError> {
        let address = read_address(&raw, AttributeType(KIND))?;
        Ok(PlainAddress { address })
    }
}

/// Appends an attribute of this type whose value is this address. The caller must have reserved the
/// bytes of the attribute.
fn append_address<W: MessageWrite>(writer: &mut W, kind: AttributeType, address: &Address)
    requires { attribute_length (length (address_value address.now)) ≤ W.reserved writer.old }
    ensures bytes { W.bytes writer.new ≡ W.bytes writer.old
        ++ spelled_attribute (record { kind = kind.0; value = address_value address.now }) }
    ensures room { W.room writer.new + attribute_length (length (address_value address.now))
        ≡ W.room writer.old }
    ensures reserved { W.reserved writer.new + attribute_length (length (address_value address.now))
        ≡ W.reserved writer.old }
{
    match address.ip {
        IpAddr::V4(ip) => append_octets(writer, kind, IPV4, address.port, &ip.octets()),
        IpAddr::V6(ip) => append_octets(writer, kind, IPV6, address.port, &ip.octets()),
    }
}

/// Appends an attribute of this type whose value is the address with this family, this port and
/// these octets. The caller must have reserved the bytes of the attribute.
fn append_octets<W: MessageWrite>(
    writer: &mut W,
    kind: AttributeType,
    family: u8,
    port: u16,
    octets: &[u8],
)
    requires whole { length octets.now % 4 ≡ 0 }
    requires short { length octets.now ≤ 16 }
    requires reserved { 8 + length octets.now ≤ W.reserved writer.old }
    ensures bytes { W.bytes writer.new ≡ W.bytes writer.old
        ++ spelled_attribute (record {
          kind = kind.0;
          value = 0 ∷ family ∷ big_bytes 2 port ++ octets.now;
        }) }
    ensures room { W.room writer.new + (8 + length octets.now) ≡ W.room writer.old }
    ensures reserved { W.reserved writer.new + (8 + length octets.now) ≡ W.reserved writer.old }
{
    append_header(writer, kind, FAMILY_AND_PORT_LENGTH + octets.len());
    writer.append(&[0, family]);
    writer.append(&port.to_be_bytes());
    writer.append(octets);
}

/// Parses the address in a raw attribute of this type. Fails with `InvalidAttributeData` if the
/// attribute is of a different type, if the family is unknown, or if the address has the wrong
/// length for the family.
fn read_address(raw: &RawAttribute<'_>, kind: AttributeType) -> Result<Address, StunParseError>
    ensures { result ≡ attribute_answer (address_of kind.0 raw.now) }
{
    let value = raw.value();
    if raw.get_type() != kind || value.len() < FAMILY_AND_PORT_LENGTH {
        return Err(StunParseError::InvalidAttributeData);
    }
    let port = BigEndian::read_u16(&value[FAMILY_LENGTH..]);
    match read_ip(value[1], &value[FAMILY_AND_PORT_LENGTH..]) {
        Some(ip) => Ok(Address { ip, port }),
        None => Err(StunParseError::InvalidAttributeData),
    }
}

/// Returns the address of this family with these octets. Returns `None` if the family is unknown,
/// or if its addresses do not have this number of octets.
fn read_ip(family: u8, octets: &[u8]) -> Option<IpAddr>
    ensures { result ≡ ip_of family octets.now }
{
    if family == IPV4 && octets.len() == 4 {
        let mut ipv4 = [0; 4];
        ipv4.copy_from_slice(octets);
        return Some(IpAddr::V4(Ipv4Addr::from_octets(ipv4)));
    }
    if family == IPV6 && octets.len() == 16 {
        let mut ipv6 = [0; 16];
        ipv6.copy_from_slice(octets);
        return Some(IpAddr::V6(Ipv6Addr::from_octets(ipv6)));
    }
    None
}
