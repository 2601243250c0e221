//! RESERVATION-TOKEN (RFC 8656, section 18.10).
ghost use Rattle.std.specs.Prelude.{◌≡◌, length};
ghost use Rattle.stun_attributes.specs.AttributeTypes.{RESERVATION_TOKEN};
ghost use Rattle.stun_attributes.specs.Values.{value_of_length, value_of_length-written};

use std::marker::Model;
use stun_base::error::StunParseError;
use stun_types::attribute::{AttributeType, RawAttribute};
use stun_types::prelude::*;

/// The number of bytes of a token.
const LENGTH: usize = 8;

/// RESERVATION-TOKEN (RFC 8656, section 18.10): 8 bytes that identify a port that the server has
/// reserved.
///
/// Contracts: the value is the list of its bytes.
///
/// # Examples
///
/// ```
/// use seatcrane_stun::extra::attribute::ReservationToken;
/// use seatcrane_stun::extra::turn::TurnMethod;
/// use seatcrane_stun::types::message::*;
/// use seatcrane_stun::types::prelude::*;
///
/// # let id = TransactionId::from(*b"any 12 bytes");
/// let method = TurnMethod::Allocate.method();
/// let mut message = Message::builder_request_with_id(method, id, MessageWriteVec::new());
/// message.add_attribute(&ReservationToken::new(*b"reserved"))?;
/// let bytes = message.finish();
///
/// let message = Message::from_bytes(&bytes).unwrap();
/// assert_eq!(message.attribute::<ReservationToken>().unwrap().token(), b"reserved");
/// # Ok::<(), StunWriteError>(())
/// ```
#[derive(Clone, Copy, Debug, PartialEq, Eq)]
pub struct ReservationToken {
    token: [u8; LENGTH],
}

impl Model for ReservationToken {
    ghost use Rattle.std.specs.Prelude.{ℕ, List};

    ghost Value = { List ℕ };

    ghost view = { λ attribute. attribute.token };

    ghost inverse = { λ token. record { token = token } };
}

impl ReservationToken {
    /// Creates the attribute from a token.
    pub fn new(token: [u8; 8]) -> Self
        ensures { result ≡ token }
    {
        ReservationToken { token }
    }

    /// Returns the bytes of the token.
    pub fn token(&self) -> &[u8; 8]
        ensures { result.now ≡ self.now }
    {
        &self.token
    }
}

impl AttributeStaticType for ReservationToken {
    const TYPE: AttributeType = AttributeType(0x0022);

    ghost static_kind = { RESERVATION_TOKEN };

    fn static_type() -> AttributeType
        ensures { result.0 ≡ RESERVATION_TOKEN }
    {
        Self::TYPE
    }
}

impl Attribute for ReservationToken {
    ghost kind = { λ _. RESERVATION_TOKEN };

    ghost value = { λ token. token };

    ghost is_well_formed = { λ token. length token ≡ 8 };

    fn get_type(&self) -> AttributeType {
        Self::TYPE
    }

    fn length(&self) -> usize {
        self.token.as_slice().len()
    }

    fn write_into<W: MessageWrite>(&self, writer: &mut W) {
        RawAttribute::new(Self::TYPE, &self.token).write_into(writer);
    }
}

impl<'a> AttributeFromRaw<'a> for ReservationToken {
    ghost reading = { value_of_length RESERVATION_TOKEN 8 };

    ghost reads_back = { value_of_length-written RESERVATION_TOKEN 8 };

    fn from_raw(raw: RawAttribute<'a>) -> Result<Self, StunParseError> {
        if raw.get_type() != Self::TYPE || raw.length() != LENGTH {
            return Err(StunParseError::InvalidAttributeData);
        }
        let mut token = [0; LENGTH];
        token.copy_from_slice(raw.value());
        Ok(ReservationToken { token })
    }
}
