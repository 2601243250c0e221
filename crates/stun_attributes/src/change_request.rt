//! CHANGE-REQUEST (RFC 5780, section 7.2).
ghost use Rattle.std.specs.Prelude.{◌≡◌};
ghost use Rattle.stun_attributes.specs.AttributeTypes.{CHANGE_REQUEST};
ghost use Rattle.stun_attributes.specs.Discovery.{change_request_of, change_request_of-written};
ghost use Rattle.stun_attributes.specs.Discovery.{change_request_value};

use stun_base::error::StunParseError;
use stun_types::attribute::{AttributeType, RawAttribute};
use stun_types::prelude::*;

/// The number of bytes of the value.
const LENGTH: usize = 4;

/// The bit A in the last byte of the value: the response should come from a different address.
const CHANGE_IP: u8 = 0x04;

/// The bit B in the last byte of the value: the response should come from a different port.
const CHANGE_PORT: u8 = 0x02;

/// CHANGE-REQUEST (RFC 5780, section 7.2): asks a server to send the response to a Binding request
/// from an address, or a port, or both, that differ from those to which the request was sent. From
/// the responses that arrive, a client learns which packets its NAT lets in.
///
/// # Examples
///
/// ```
/// use seatcrane_stun::extra::attribute::ChangeRequest;
/// use seatcrane_stun::types::message::*;
/// use seatcrane_stun::types::prelude::*;
///
/// # let id = TransactionId::from(*b"any 12 bytes");
/// let mut message = Message::builder_request_with_id(BINDING, id, MessageWriteVec::new());
/// message.add_attribute(&ChangeRequest::new(false, true))?; // the same address, another port
/// let bytes = message.finish();
///
/// let message = Message::from_bytes(&bytes).unwrap();
/// let request = message.attribute::<ChangeRequest>().unwrap();
/// assert_eq!((request.change_ip(), request.change_port()), (false, true));
/// # Ok::<(), StunWriteError>(())
/// ```
#[derive(Clone, Copy, Debug, PartialEq, Eq)]
pub struct ChangeRequest {
    ip: bool,
    port: bool,
}

impl ChangeRequest {
    /// Creates the attribute from its two flags: whether the response should come from a different
    /// address, and whether it should come from a different port.
    pub fn new(ip: bool, port: bool) -> Self
        ensures { result ≡ record { ip = ip; port = port } }
    {
        ChangeRequest { ip, port }
    }

    /// Returns `true` if the response should come from a different address.
    pub fn change_ip(&self) -> bool
        ensures { result ≡ self.now.ip }
    {
        self.ip
    }

    /// Returns `true` if the response should come from a different port.
    pub fn change_port(&self) -> bool
        ensures { result ≡ self.now.port }
    {
        self.port
    }

    /// Returns the bytes of the value.
    fn bytes(&self) -> [u8; LENGTH]
        ensures { result ≡ change_request_value self.now }
    {
        let ip = if self.ip { CHANGE_IP } else { 0 };
        let port = if self.port { CHANGE_PORT } else { 0 };
        [0, 0, 0, ip + port]
    }
}

impl AttributeStaticType for ChangeRequest {
    const TYPE: AttributeType = AttributeType(0x0003);

    ghost static_kind = { CHANGE_REQUEST };

    fn static_type() -> AttributeType
        ensures { result.0 ≡ CHANGE_REQUEST }
    {
        Self::TYPE
    }
}

impl Attribute for ChangeRequest {
    ghost kind = { λ _. CHANGE_REQUEST };

    ghost value = { change_request_value };

    ghost is_well_formed = { λ _. Unit {0} };

    fn get_type(&self) -> AttributeType {
        Self::TYPE
    }

    fn length(&self) -> usize {
        LENGTH
    }

    fn write_into<W: MessageWrite>(&self, writer: &mut W) {
        RawAttribute::new(Self::TYPE, &self.bytes()).write_into(writer);
    }
}

impl<'a> AttributeFromRaw<'a> for ChangeRequest {
    ghost reading = { change_request_of };

    ghost reads_back = { change_request_of-written };

    fn from_raw(raw: RawAttribute<'a>) -> Result<Self, StunParseError> {
        if raw.get_type() != Self::TYPE || raw.length() != LENGTH {
            return Err(StunParseError::InvalidAttributeData);
        }
        let flags = raw.value()[3];
        Ok(ChangeRequest {
            ip: flags & CHANGE_IP != 0,
            port: flags & CHANGE_PORT != 0,
        })
    }
}
