//! XOR-MAPPED-ADDRESS (RFC 8489, section 14.2).

ghost use Rattle.std.specs.Prelude.{◌≡◌, ◌≤◌, ◌+◌, ◌%◌, ◌++◌, false, true, MatchOption, length};
ghost use Rattle.std.specs.Net.Socket.{IsPlainSocket, socket_ip, socket_port};
ghost use Rattle.stun_base.specs.Attributes.{XOR_MAPPED_ADDRESS};
ghost use Rattle.stun_types.specs.Attribute.{attribute_length};
ghost use Rattle.stun_types.specs.Grammar.{spelled_attribute};
ghost use Rattle.stun_types.specs.XorMappedAddress.{FAMILY_AND_PORT_LENGTH, IsHidden, IsXored};
ghost use Rattle.stun_types.specs.XorMappedAddress.{has_octets, xor_bytes, xor_key, xor_port};
ghost use Rattle.stun_types.specs.XorMappedAddress.{xored_address, xored_of, xored_value};
ghost use Rattle.stun_types.specs.XorMappedAddressLaws.{xored_of-written};
ghost use Rattle.stun_types.specs.code.XoredOctets.{HasOctetsOfFamily, family_of_octets, octets_of};

use crate::attribute::{
    Attribute, AttributeFromRaw, AttributeStaticType, AttributeType, RawAttribute,
};
use crate::write::MessageWrite;
use crate::write::append::append_header;
use byteorder::{BigEndian, ByteOrder};
use std::marker::Model;
use std::net::{IpAddr, Ipv4Addr, Ipv6Addr, SocketAddr};
use stun_base::error::StunParseError;
use stun_base::header::MAGIC_COOKIE;
use stun_base::transaction_id::TransactionId;

/// The first half of the magic cookie, with which the port is XORed.
const PORT_KEY: u16 = (MAGIC_COOKIE >> 16) as u16;

/// The number of bytes of the value before the octets: a reserved byte, the family and the port.
const FAMILY_AND_PORT_LENGTH: usize = 4;

/// The family number of IPv4 (RFC 8489, section 14.1).
const IPV4: u8 = 1;

/// The family number of IPv6 (RFC 8489, section 14.1).
const IPV6: u8 = 2;

/// The octets of an address, each XORed with the byte of the key at the same index.
#[derive(Clone, Copy, Debug, PartialEq, Eq)]
enum XoredOctets {
    V4([u8; 4]),
    V6([u8; 16]),
}

/// XOR-MAPPED-ADDRESS (RFC 8489, section 14.2): the address that a request came from. The port and
/// the octets are XORed with the magic cookie, and the octets of an IPv6 address also with the
/// transaction ID of the message.
///
/// Contracts: the value is a record of the family, the XORed port and the XORed octets.
#[derive(Clone, Copy, Debug, PartialEq, Eq)]
pub struct XorMappedAddress {
    port: u16,
    octets: XoredOctets,
}

impl Model for XorMappedAddress {
    ghost use Rattle.std.specs.Prelude.{◌<◌, ◌^◌};
    ghost use Rattle.stun_types.specs.XorMappedAddress.{XoredAddress};

    ghost Value = { XoredAddress };

    ghost use Rattle.stun_types.specs.code.XoredOctets.{family_of_octets, octets_of, with_family};
    ghost use Rattle.stun_types.specs.code.XoredOctets.{with_family-of, HasOctetsOfFamily};

    ghost view = { λ address. record {
      family = family_of_octets address.octets;
      port = address.port;
      octets = octets_of address.octets;
    } };

    ghost invariant = { λ address. (address.port < 2 ^ 16) × HasOctetsOfFamily address.octets };

    ghost inverse = { λ parts.
        record { port = parts.port; octets = with_family parts.family parts.octets } };

    ghost inverse_ok = { λ address whole i.
        record { port = address.port; octets = with_family-of address.octets i } };
}

/// XORs each octet with the byte of `key` at the same index.
fn xor_with(octets: &mut [u8], key: &[u8])
    requires { length octets.old ≤ length key.now }
    ensures { octets.new ≡ xor_bytes octets.old key.now }
{
    for i in 0..octets.len() {
        octets[i] ^= key[i];
    }
}

/// Returns the key for the octets: the magic cookie, followed by the transaction ID.
fn make_xor_key(id: TransactionId) -> [u8; 16]
    ensures { result ≡ xor_key id }
{
    let mut key = id.as_u128().to_be_bytes();
    key[..4].copy_from_slice(&MAGIC_COOKIE.to_be_bytes());
    key
}

/// Reads the octets of an address of this family. Returns `None` if the family is unknown, or if
/// `octets` does not have the length of an address of this family.
fn read_octets(family: u8, octets: &[u8]) -> Option<XoredOctets>
    ensures { MatchOption result (has_octets family (length octets.now) ≡ false)
        (λ read. (has_octets family (length octets.now) ≡ true)
        × (family_of_octets read ≡ family)
        × (octets_of read ≡ octets.now) × HasOctetsOfFamily read) }
{
    if family == IPV4 && octets.len() == 4 {
        let mut ipv4 = [0; 4];
        ipv4.copy_from_slice(octets);
        return Some(XoredOctets::V4(ipv4));
    }
    if family == IPV6 && octets.len() == 16 {
        let mut ipv6 = [0; 16];
        ipv6.copy_from_slice(octets);
        return Some(XoredOctets::V6(ipv6));
    }
    None
}

impl XorMappedAddress {
    /// Creates the attribute for a message with this transaction ID. The flow information and the
    /// scope ID of an IPv6 address are dropped.
    pub fn new(addr: SocketAddr, id: TransactionId) -> Self
        ensures { result ≡ xored_address (socket_ip addr) (socket_port addr) id }
    {
        let key = make_xor_key(id);
        let octets = match addr.ip() {
            IpAddr::V4(ip) => {
                let mut octets = ip.octets();
                xor_with(&mut octets, &key);
                XoredOctets::V4(octets)
            }
            IpAddr::V6(ip) => {
                let mut octets = ip.octets();
                xor_with(&mut octets, &key);
                XoredOctets::V6(octets)
            }
        };
        XorMappedAddress {
            port: addr.port() ^ PORT_KEY,
            octets,
        }
    }

    /// Returns the address. `id` must be the transaction ID of the message that contains the
    /// attribute, because with any other ID the result may be a different address. The flow
    /// information and the scope ID of an IPv6 address are 0.
    pub fn addr(&self, id: TransactionId) -> SocketAddr
        ensures ip { IsHidden id self.now (socket_ip result) }
        ensures port { IsPlainSocket result (xor_port self.now.port) }
    {
        let key = make_xor_key(id);
        let ip = match self.octets {
            XoredOctets::V4(octets) => {
                let mut octets = octets;
                xor_with(&mut octets, &key);
                IpAddr::V4(Ipv4Addr::from_octets(octets))
            }
            XoredOctets::V6(octets) => {
                let mut octets = octets;
                xor_with(&mut octets, &key);
                IpAddr::V6(Ipv6Addr::from_octets(octets))
            }
        };
        SocketAddr::new(ip, self.port ^ PORT_KEY)
    }
}

impl AttributeStaticType for XorMappedAddress {
    const TYPE: AttributeType = AttributeType::XOR_MAPPED_ADDRESS;

    ghost static_kind = { XOR_MAPPED_ADDRESS };

    fn static_type() -> AttributeType
        ensures { result.0 ≡ XOR_MAPPED_ADDRESS }
    {
        Self::TYPE
    }
}

impl Attribute for XorMappedAddress {
    ghost kind = { λ _. XOR_MAPPED_ADDRESS };

    ghost value = { xored_value };

    ghost is_well_formed = { IsXored };

    fn get_type(&self) -> AttributeType {
        Self::TYPE
    }

    fn length(&self) -> usize {
        match &self.octets {
            XoredOctets::V4(octets) => FAMILY_AND_PORT_LENGTH + octets.as_slice().len(),
            XoredOctets::V6(octets) => FAMILY_AND_PORT_LENGTH + octets.as_slice().len(),
        }
    }

    fn write_into<W: MessageWrite>(&self, writer: &mut W) {
        match &self.octets {
            XoredOctets::V4(octets) => append_address(writer, IPV4, self.port, octets),
            XoredOctets::V6(octets) => append_address(writer, IPV6, self.port, octets),
        }
    }
}

/// Appends an XOR-MAPPED-ADDRESS with this family. The caller must have XORed `port` and `octets`,
/// and reserved the bytes of the attribute.
fn append_address<W: MessageWrite>(writer: &mut W, family: u8, port: u16, octets: &[u8])
    requires whole { length octets.now % 4 ≡ 0 }
    requires short { length octets.now ≤ 16 }
    requires reserved { attribute_length (FAMILY_AND_PORT_LENGTH + length octets.now)
        ≤ W.reserved writer.old }
    ensures bytes { W.bytes writer.new ≡ W.bytes writer.old
        ++ spelled_attribute (record {
          kind = XOR_MAPPED_ADDRESS;
          value = xored_value (record { family = family; port = port; octets = octets.now });
        }) }
    ensures room { W.room writer.new + attribute_length (FAMILY_AND_PORT_LENGTH + length octets.now)
        ≡ W.room writer.old }
    ensures reserved { W.reserved writer.new
        + attribute_length (FAMILY_AND_PORT_LENGTH + length octets.now) ≡ W.reserved writer.old }
{
    append_header(
        writer,
        AttributeType::XOR_MAPPED_ADDRESS,
        FAMILY_AND_PORT_LENGTH + octets.len(),
    );
    let [port_high, port_low] = port.to_be_bytes();
    writer.append(&[0, family, port_high, port_low]);
    writer.append(octets);
}

impl<'a> AttributeFromRaw<'a> for XorMappedAddress {
    ghost reading = { xored_of };

    ghost reads_back = { xored_of-written };

    fn from_raw(raw: RawAttribute<'a>) -> Result<Self, StunParseError> {
        let value = raw.value();
        if raw.get_type() != Self::TYPE || value.len() < FAMILY_AND_PORT_LENGTH {
            return Err(StunParseError::InvalidAttributeData);
        }
        let port = BigEndian::read_u16(&value[2..]);
        match read_octets(value[1], &value[FAMILY_AND_PORT_LENGTH..]) {
            Some(octets) => Ok(XorMappedAddress { port, octets }),
            None => Err(StunParseError::InvalidAttributeData),
        }
    }
}
