//! Attributes whose value is an address that is XORed as in XOR-MAPPED-ADDRESS (RFC 8489, section
//! 14.2).
ghost use Rattle.std.specs.Prelude.{◌≡◌, ◌≤◌, ◌+◌, ◌++◌, length};
ghost use Rattle.std.specs.Net.Socket.{IsPlainSocket, socket_ip, socket_port};
ghost use Rattle.stun_types.specs.Attribute.{attribute_length};
ghost use Rattle.stun_types.specs.Grammar.{spelled_attribute};
ghost use Rattle.stun_types.specs.Reading.{attribute_answer};
ghost use Rattle.stun_types.specs.XorMappedAddress.{IsHidden, IsXored, xor_port};
ghost use Rattle.stun_types.specs.XorMappedAddress.{xored_address, xored_value};
ghost use Rattle.stun_extra.specs.Turn.{xored_address_of, xored_address_of-written};

use std::marker::Model;
use std::net::SocketAddr;
use stun_base::error::StunParseError;
use stun_base::transaction_id::TransactionId;
use stun_types::attribute::{
    ATTRIBUTE_HEADER_LENGTH, AttributeType, RawAttribute, XorMappedAddress,
};
use stun_types::message::MessageWriteMutSlice;
use stun_types::prelude::*;

/// The largest number of bytes of an XOR-MAPPED-ADDRESS, with its type and its length.
const LONGEST: usize = 24;

/// An attribute of type `KIND` whose value is an address, XORed as in XOR-MAPPED-ADDRESS.
///
/// Contracts: the value is a record of the family, the XORed port and the XORed octets.
#[derive(Clone, Copy, Debug, PartialEq, Eq)]
pub struct XorAddress<const KIND: u16> {
    hidden: XorMappedAddress,
}

impl<const KIND: u16> Model for XorAddress<KIND> {
    ghost use Rattle.stun_types.specs.XorMappedAddress.{XoredAddress};

    ghost Value = { XoredAddress };

    ghost view = { λ attribute. attribute.hidden };

    ghost inverse = { λ hidden. record { hidden = hidden } };
}

impl<const KIND: u16> XorAddress<KIND> {
    /// Creates the attribute from an address, for a message with this transaction ID. The flow
    /// information and the scope of an IPv6 address are left out.
    pub fn new(addr: SocketAddr, id: TransactionId) -> Self
        ensures { result ≡ xored_address (socket_ip addr) (socket_port addr) id }
    {
        XorAddress {
            hidden: XorMappedAddress::new(addr, id),
        }
    }

    /// Returns the address. `id` must be the transaction ID of the message that contains the
    /// attribute, because with any other ID the result may be a different address. The flow
    /// information and the scope of an IPv6 address are 0.
    pub fn addr(&self, id: TransactionId) -> SocketAddr
        ensures ip { IsHidden id self.now (socket_ip result) }
        ensures port { IsPlainSocket result (xor_port self.now.port) }
    {
        self.hidden.addr(id)
    }
}

impl<const KIND: u16> AttributeStaticType for XorAddress<KIND> {
    const TYPE: AttributeType = AttributeType(KIND);

    ghost static_kind = { KIND };

    fn static_type() -> AttributeType
        ensures { result.0 ≡ KIND }
    {
        AttributeType(KIND)
    }
}

impl<const KIND: u16> Attribute for XorAddress<KIND> {
    ghost kind = { λ _. KIND };

    ghost value = { xored_value };

    ghost is_well_formed = { IsXored };

    fn get_type(&self) -> AttributeType {
        AttributeType(KIND)
    }

    fn length(&self) -> usize {
        self.hidden.length()
    }

    fn write_into<W: MessageWrite>(&self, writer: &mut W) {
        append_xored(writer, AttributeType(KIND), &self.hidden);
    }
}

impl<'a, const KIND: u16> AttributeFromRaw<'a> for XorAddress<KIND> {
    ghost reading = { xored_address_of KIND };

    ghost reads_back = { xored_address_of-written KIND };

    fn from_raw(raw: RawAttribute<'a>) -> Result<Self, StunParseError> {
        let hidden = read_xored(&raw, AttributeType(KIND))?;
        Ok(XorAddress { hidden })
    }
}

/// Parses the XORed address in a raw attribute of this type. Fails with `InvalidAttributeData` if
/// the attribute is of a different type, or its value is malformed.
fn read_xored(
    raw: &RawAttribute<'_>,
    kind: AttributeType,
) -> Result<XorMappedAddress, StunParseError>
    ensures { result ≡ attribute_answer (xored_address_of kind.0 raw.now) }
{
    if raw.get_type() != kind {
        return Err(StunParseError::InvalidAttributeData);
    }
    XorMappedAddress::from_raw(RawAttribute::new(AttributeType::XOR_MAPPED_ADDRESS, raw.value()))
}

/// Appends an attribute of this type with the value of an XOR-MAPPED-ADDRESS. The caller must have
/// reserved the bytes of the attribute.
fn append_xored<W: MessageWrite>(writer: &mut W, kind: AttributeType, address: &XorMappedAddress)
    requires { attribute_length (length (xored_value address.now)) ≤ W.reserved writer.old }
    ensures bytes { W.bytes writer.new ≡ W.bytes writer.old
        ++ spelled_attribute (record { kind = kind.0; value = xored_value address.now }) }
    ensures room { W.room writer.new + attribute_length (length (xored_value address.now))
        ≡ W.room writer.old }
    ensures reserved { W.reserved writer.new + attribute_length (length (xored_value address.now))
        ≡ W.reserved writer.old }
{
    let mut buffer = [0; LONGEST];
    let mut under_its_type = MessageWriteMutSlice::new(&mut buffer);
    let length = address.length();
    address.write_into(&mut under_its_type);
    let value = &under_its_type.data()[ATTRIBUTE_HEADER_LENGTH..][..length];
    RawAttribute::new(kind, value).write_into(writer);
}
