//! REQUESTED-TRANSPORT (RFC 8656, section 18.8).
ghost use Rattle.std.specs.Prelude.{◌≡◌, ◌<◌, ◌^◌};
ghost use Rattle.stun_extra.specs.AttributeTypes.{REQUESTED_TRANSPORT};
ghost use Rattle.stun_extra.specs.Turn.{transport_of, transport_of-written, transport_value};

use std::marker::Model;
use stun_base::error::StunParseError;
use stun_types::attribute::{AttributeType, RawAttribute};
use stun_types::prelude::*;

/// The number of bytes of the value: one for the protocol, and three that are reserved.
const LENGTH: usize = 4;

/// REQUESTED-TRANSPORT (RFC 8656, section 18.8): the protocol between the server and the peers, as
/// its number in the IP header.
///
/// Contracts: the value is the number.
///
/// # Examples
///
/// ```
/// use seatcrane_stun::extra::attribute::RequestedTransport;
/// use seatcrane_stun::extra::turn::TurnMethod;
/// use seatcrane_stun::types::message::*;
/// use seatcrane_stun::types::prelude::*;
///
/// # let id = TransactionId::from(*b"any 12 bytes");
/// let method = TurnMethod::Allocate.method();
/// let mut message = Message::builder_request_with_id(method, id, MessageWriteVec::new());
/// message.add_attribute(&RequestedTransport::new(RequestedTransport::UDP))?;
/// let bytes = message.finish();
///
/// let message = Message::from_bytes(&bytes).unwrap();
/// assert_eq!(message.attribute::<RequestedTransport>().unwrap().protocol(), 17);
/// # Ok::<(), StunWriteError>(())
/// ```
#[derive(Clone, Copy, Debug, PartialEq, Eq)]
pub struct RequestedTransport {
    protocol: u8,
}

impl Model for RequestedTransport {
    ghost use Rattle.std.specs.Prelude.{◌<◌, ◌^◌, ℕ};

    ghost Value = { ℕ };

    ghost view = { λ attribute. attribute.protocol };

    ghost invariant = { λ attribute. attribute.protocol < 2 ^ 8 };

    ghost inverse = { λ protocol. record { protocol = protocol } };
}

impl RequestedTransport {
    /// The number of UDP, the only protocol that RFC 8656 allows.
    pub const UDP: u8 = 17;
    /// The number of TCP, which RFC 6062 allows in addition.
    pub const TCP: u8 = 6;

    /// Creates the attribute from the number of a protocol.
    pub fn new(protocol: u8) -> Self
        ensures { result ≡ protocol }
    {
        RequestedTransport { protocol }
    }

    /// Returns the number of the protocol.
    pub fn protocol(&self) -> u8
        ensures { result ≡ self.now }
    {
        self.protocol
    }

    /// Returns the bytes of the value: the protocol, and three reserved bytes, which are 0.
    fn bytes(&self) -> [u8; LENGTH]
        ensures value { result ≡ transport_value self.now }
        ensures protocol { self.now < 2 ^ 8 }
    {
        [self.protocol, 0, 0, 0]
    }
}

impl AttributeStaticType for RequestedTransport {
    const TYPE: AttributeType = AttributeType(0x0019);

    ghost static_kind = { REQUESTED_TRANSPORT };

    fn static_type() -> AttributeType
        ensures { result.0 ≡ REQUESTED_TRANSPORT }
    {
        Self::TYPE
    }
}

impl Attribute for RequestedTransport {
    ghost kind = { λ _. REQUESTED_TRANSPORT };

    ghost value = { transport_value };

    ghost is_well_formed = { λ protocol. protocol < 2 ^ 8 };

    fn get_type(&self) -> AttributeType {
        Self::TYPE
    }

    fn length(&self) -> usize {
        self.bytes().as_slice().len()
    }

    fn write_into<W: MessageWrite>(&self, writer: &mut W) {
        RawAttribute::new(Self::TYPE, &self.bytes()).write_into(writer);
    }
}

impl<'a> AttributeFromRaw<'a> for RequestedTransport {
    ghost reading = { transport_of };

    ghost reads_back = { transport_of-written };

    fn from_raw(raw: RawAttribute<'a>) -> Result<Self, StunParseError> {
        if raw.get_type() != Self::TYPE || raw.length() != LENGTH {
            return Err(StunParseError::InvalidAttributeData);
        }
        Ok(RequestedTransport {
            protocol: raw.value()[0],
        })
    }
}
