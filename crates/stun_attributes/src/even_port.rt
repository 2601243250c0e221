//! EVEN-PORT (RFC 8656, section 18.7).
ghost use Rattle.std.specs.Prelude.{◌≡◌};
ghost use Rattle.stun_attributes.specs.AttributeTypes.{EVEN_PORT};
ghost use Rattle.stun_attributes.specs.Turn.{even_port_of, even_port_of-written, even_port_value};

use std::marker::Model;
use stun_base::error::StunParseError;
use stun_types::attribute::{AttributeType, RawAttribute};
use stun_types::prelude::*;

/// The bit R in the only byte of the value, which asks the server to reserve the next higher port.
const RESERVE_NEXT: u8 = 0x80;

/// EVEN-PORT (RFC 8656, section 18.7): asks the server for an even port. The bit R also asks the
/// server to reserve the next higher port.
///
/// Contracts: the value is the bit R.
///
/// # Examples
///
/// ```
/// use seatcrane_stun::extra::attribute::EvenPort;
/// use seatcrane_stun::extra::turn::TurnMethod;
/// use seatcrane_stun::types::message::*;
/// use seatcrane_stun::types::prelude::*;
///
/// # let id = TransactionId::from(*b"any 12 bytes");
/// let method = TurnMethod::Allocate.method();
/// let mut message = Message::builder_request_with_id(method, id, MessageWriteVec::new());
/// message.add_attribute(&EvenPort::new(true))?; // and reserve the next port
/// let bytes = message.finish();
///
/// let message = Message::from_bytes(&bytes).unwrap();
/// assert_eq!(message.attribute::<EvenPort>().unwrap().requested(), true);
/// # Ok::<(), StunWriteError>(())
/// ```
#[derive(Clone, Copy, Debug, PartialEq, Eq)]
pub struct EvenPort {
    requested: bool,
}

impl Model for EvenPort {
    ghost use Rattle.std.specs.Prelude.{Bool};

    ghost Value = { Bool };

    ghost view = { λ attribute. attribute.requested };

    ghost inverse = { λ requested. record { requested = requested } };
}

impl EvenPort {
    /// Creates the attribute. If `requested` is `true`, it has the bit R, which asks the server to
    /// reserve the next higher port.
    pub fn new(requested: bool) -> Self
        ensures { result ≡ requested }
    {
        EvenPort { requested }
    }

    /// Returns `true` if the server should reserve the next higher port.
    pub fn requested(&self) -> bool
        ensures { result ≡ self.now }
    {
        self.requested
    }
}

impl AttributeStaticType for EvenPort {
    const TYPE: AttributeType = AttributeType(0x0018);

    ghost static_kind = { EVEN_PORT };

    fn static_type() -> AttributeType
        ensures { result.0 ≡ EVEN_PORT }
    {
        Self::TYPE
    }
}

impl Attribute for EvenPort {
    ghost kind = { λ _. EVEN_PORT };

    ghost value = { even_port_value };

    ghost is_well_formed = { λ _. Unit {0} };

    fn get_type(&self) -> AttributeType {
        Self::TYPE
    }

    fn length(&self) -> usize {
        1
    }

    fn write_into<W: MessageWrite>(&self, writer: &mut W) {
        let bits = if self.requested { RESERVE_NEXT } else { 0 };
        RawAttribute::new(Self::TYPE, &[bits]).write_into(writer);
    }
}

impl<'a> AttributeFromRaw<'a> for EvenPort {
    ghost reading = { even_port_of };

    ghost reads_back = { even_port_of-written };

    fn from_raw(raw: RawAttribute<'a>) -> Result<Self, StunParseError> {
        if raw.get_type() != Self::TYPE || raw.length() != 1 {
            return Err(StunParseError::InvalidAttributeData);
        }
        Ok(EvenPort {
            requested: raw.value()[0] >= RESERVE_NEXT,
        })
    }
}
