//! TRANSACTION_TRANSMIT_COUNTER (RFC 7982, section 3.2).
ghost use Rattle.std.specs.Prelude.{◌≡◌};
ghost use Rattle.stun_attributes.specs.AttributeTypes.{TRANSACTION_TRANSMIT_COUNTER};
ghost use Rattle.stun_attributes.specs.TransmitCounter.{AreCounts, counts_of, counts_of-written};
ghost use Rattle.stun_attributes.specs.TransmitCounter.{counts_value};

use std::marker::Model;
use stun_base::error::StunParseError;
use stun_types::attribute::{AttributeType, RawAttribute};
use stun_types::prelude::*;

/// The number of bytes of the value: two that are reserved, and one for each of the two numbers.
const LENGTH: usize = 4;

/// TRANSACTION_TRANSMIT_COUNTER (RFC 7982, section 3.2): how many times the request of a
/// transaction was sent, and how many times its response.
///
/// A client adds the attribute to each request, and counts its transmissions of the request in it.
/// The server copies this number to its response, and adds how often it has sent the response. From
/// the two numbers the client learns in which direction packets were lost, and which transmission
/// of the request was answered, so that it can measure the round-trip time.
///
/// The first two bytes of the value are reserved. They are written as zeros and ignored when the
/// attribute is parsed.
///
/// Contracts: the value is a record of the two numbers.
///
/// # Examples
///
/// ```
/// use seatcrane_stun::extra::attribute::TransactionTransmitCounter;
/// use seatcrane_stun::types::message::*;
/// use seatcrane_stun::types::prelude::*;
///
/// # let id = TransactionId::from(*b"any 12 bytes");
/// let mut message = Message::builder_request_with_id(BINDING, id, MessageWriteVec::new());
/// message.add_attribute(&TransactionTransmitCounter::new(2, 0))?; // the first retransmission
/// let bytes = message.finish();
///
/// let message = Message::from_bytes(&bytes).unwrap();
/// let counter = message.attribute::<TransactionTransmitCounter>().unwrap();
/// assert_eq!((counter.requests(), counter.responses()), (2, 0));
/// # Ok::<(), StunWriteError>(())
/// ```
#[derive(Clone, Copy, Debug, PartialEq, Eq)]
pub struct TransactionTransmitCounter {
    requests: u8,
    responses: u8,
}

impl Model for TransactionTransmitCounter {
    ghost use Rattle.stun_attributes.specs.TransmitCounter.{AreCounts, TransmitCounts};

    ghost Value = { TransmitCounts };

    ghost view = { λ counter. record {
      requests = counter.requests;
      responses = counter.responses;
    } };

    ghost invariant = { λ counter. AreCounts (record {
      requests = counter.requests;
      responses = counter.responses;
    }) };

    ghost inverse = { λ counts. record {
      requests = counts.requests;
      responses = counts.responses;
    } };
}

impl TransactionTransmitCounter {
    /// Creates the attribute from the number of times that the request was sent (Req), and the
    /// number of times that the response was sent (Resp), which is 0 in a request.
    pub fn new(requests: u8, responses: u8) -> Self
        ensures { result ≡ record { requests = requests; responses = responses } }
    {
        TransactionTransmitCounter {
            requests,
            responses,
        }
    }

    /// Returns the number of times that the request was sent.
    pub fn requests(&self) -> u8
        ensures { result ≡ self.now.requests }
    {
        self.requests
    }

    /// Returns the number of times that the response was sent. A server ignores it in a request.
    pub fn responses(&self) -> u8
        ensures { result ≡ self.now.responses }
    {
        self.responses
    }

    /// Returns the bytes of the value.
    fn bytes(&self) -> [u8; LENGTH]
        ensures value { result ≡ counts_value self.now }
        ensures numbers { AreCounts self.now }
    {
        [0, 0, self.requests, self.responses]
    }
}

impl AttributeStaticType for TransactionTransmitCounter {
    const TYPE: AttributeType = AttributeType(0x8025);

    ghost static_kind = { TRANSACTION_TRANSMIT_COUNTER };

    fn static_type() -> AttributeType
        ensures { result.0 ≡ TRANSACTION_TRANSMIT_COUNTER }
    {
        Self::TYPE
    }
}

impl Attribute for TransactionTransmitCounter {
    ghost kind = { λ _. TRANSACTION_TRANSMIT_COUNTER };

    ghost value = { counts_value };

    ghost is_well_formed = { AreCounts };

    fn get_type(&self) -> AttributeType {
        Self::TYPE
    }

    fn length(&self) -> usize {
        self.bytes().as_slice().len()
    }

    fn write_into<W: MessageWrite>(&self, writer: &mut W) {
        RawAttribute::new(Self::TYPE, &self.bytes()).write_into(writer);
    }
}

impl<'a> AttributeFromRaw<'a> for TransactionTransmitCounter {
    ghost reading = { counts_of };

    ghost reads_back = { counts_of-written };

    fn from_raw(raw: RawAttribute<'a>) -> Result<Self, StunParseError> {
        if raw.get_type() != Self::TYPE || raw.length() != LENGTH {
            return Err(StunParseError::InvalidAttributeData);
        }
        let value = raw.value();
        Ok(TransactionTransmitCounter {
            requests: value[2],
            responses: value[3],
        })
    }
}
