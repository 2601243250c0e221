//! ICMP (RFC 8656, section 18.13).
ghost use Rattle.std.specs.Prelude.{◌≡◌, ◌<◌, ◌^◌};
ghost use Rattle.stun_attributes.specs.AttributeTypes.{ICMP};
ghost use Rattle.stun_attributes.specs.TurnErrors.{IsReport, icmp_of, icmp_of-written, icmp_value};
ghost use Rattle.stun_attributes.specs.TurnErrors.{report_answer};

use byteorder::{BigEndian, ByteOrder};
use std::marker::Model;
use stun_base::error::{StunParseError, StunWriteError};
use stun_types::attribute::{AttributeType, RawAttribute};
use stun_types::prelude::*;

/// The number of bytes of the value: two that are reserved, two for the type and the code, and four
/// for the error data.
const LENGTH: usize = 8;

/// The number of ICMP types that fit in the 7 bits of the attribute.
const TYPES: u8 = 128;

/// The number of ICMP codes that fit in the 9 bits of the attribute.
const CODES: u16 = 512;

/// ICMP (RFC 8656, section 18.13): the ICMP message that a server received for a datagram that it
/// had sent to a peer. The attribute is in a Data indication, in place of DATA.
///
/// The type and the code are those of ICMP if the peer has an IPv4 address, and those of ICMPv6 if
/// it has an IPv6 address. The first two bytes of the value are reserved. They are written as zeros
/// and ignored when the attribute is parsed.
///
/// Contracts: the value is a record of the type, the code and the error data.
///
/// # Examples
///
/// ```
/// use seatcrane_stun::extra::attribute::Icmp;
/// use seatcrane_stun::types::message::{Message, StunParseError};
///
/// /// Returns the MTU of the next hop, if an IPv4 router reported that a datagram was too big.
/// fn next_hop_mtu(indication: &Message<'_>) -> Result<Option<u32>, StunParseError> {
///     let icmp = indication.attribute::<Icmp>()?;
///     let too_big = icmp.icmp_type() == 3 && icmp.code() == 4;
///     Ok(too_big.then_some(icmp.error_data()))
/// }
/// # let indication = b"\0\x17\0\x0c\x21\x12\xa4\x42 any 12 byte\
/// #                    \x80\x04\0\x08\0\0\x06\x04\0\0\x05\0";
/// # let indication = Message::from_bytes(indication).unwrap();
/// # assert_eq!(next_hop_mtu(&indication), Ok(Some(1280)));
/// ```
#[derive(Clone, Copy, Debug, PartialEq, Eq)]
pub struct Icmp {
    icmp_type: u8,
    code: u16,
    error_data: u32,
}

impl Model for Icmp {
    ghost use Rattle.stun_attributes.specs.TurnErrors.{IcmpReport, IsReport};

    ghost Value = { IcmpReport };

    ghost view = { λ icmp. record {
      icmp_type = icmp.icmp_type;
      code = icmp.code;
      error_data = icmp.error_data;
    } };

    ghost invariant = { λ icmp. IsReport (record {
      icmp_type = icmp.icmp_type;
      code = icmp.code;
      error_data = icmp.error_data;
    }) };

    ghost inverse = { λ report. record {
      icmp_type = report.icmp_type;
      code = report.code;
      error_data = report.error_data;
    } };
}

impl Icmp {
    /// Creates the attribute from the type, the code and the error data of an ICMP message. The
    /// error data is the MTU of the next hop if the message reports that a datagram was too big,
    /// and otherwise 0 (RFC 8656, section 18.13). This call does not check it.
    ///
    /// # Errors
    ///
    /// - [`StunWriteError::NotAllowed`]: the type is 128 or more, or the code is 512 or more. The
    ///   attribute has only 7 bits for the type, and 9 for the code.
    pub fn new(icmp_type: u8, code: u16, error_data: u32) -> Result<Self, StunWriteError>
        ensures { result ≡ report_answer icmp_type code error_data }
    {
        if icmp_type >= TYPES || code >= CODES {
            return Err(StunWriteError::NotAllowed);
        }
        Ok(Icmp {
            icmp_type,
            code,
            error_data,
        })
    }

    /// Returns the type of the ICMP message, which is less than 128.
    pub fn icmp_type(&self) -> u8
        ensures icmp_type { result ≡ self.now.icmp_type }
        ensures fits { result < 2 ^ 7 }
    {
        self.icmp_type
    }

    /// Returns the code of the ICMP message, which is less than 512.
    pub fn code(&self) -> u16
        ensures code { result ≡ self.now.code }
        ensures fits { result < 2 ^ 9 }
    {
        self.code
    }

    /// Returns the error data: the MTU of the next hop if the ICMP message reports that a datagram
    /// was too big. Otherwise a sender sets it to 0.
    pub fn error_data(&self) -> u32
        ensures { result ≡ self.now.error_data }
    {
        self.error_data
    }

    /// Returns the bytes of the value.
    fn bytes(&self) -> [u8; LENGTH]
        ensures value { result ≡ icmp_value self.now }
        ensures report { IsReport self.now }
    {
        let both = CODES * u16::from(self.icmp_type) + self.code;
        let [high, low] = both.to_be_bytes();
        let [first, second, third, fourth] = self.error_data.to_be_bytes();
        [0, 0, high, low, first, second, third, fourth]
    }
}

impl AttributeStaticType for Icmp {
    const TYPE: AttributeType = AttributeType(0x8004);

    ghost static_kind = { ICMP };

    fn static_type() -> AttributeType
        ensures { result.0 ≡ ICMP }
    {
        Self::TYPE
    }
}

impl Attribute for Icmp {
    ghost kind = { λ _. ICMP };

    ghost value = { icmp_value };

    ghost is_well_formed = { IsReport };

    fn get_type(&self) -> AttributeType {
        Self::TYPE
    }

    fn length(&self) -> usize {
        self.bytes().as_slice().len()
    }

    fn write_into<W: MessageWrite>(&self, writer: &mut W) {
        RawAttribute::new(Self::TYPE, &self.bytes()).write_into(writer);
    }
}

impl<'a> AttributeFromRaw<'a> for Icmp {
    ghost reading = { icmp_of };

    ghost reads_back = { icmp_of-written };

    fn from_raw(raw: RawAttribute<'a>) -> Result<Self, StunParseError> {
        if raw.get_type() != Self::TYPE || raw.length() != LENGTH {
            return Err(StunParseError::InvalidAttributeData);
        }
        let value = raw.value();
        let both = BigEndian::read_u16(&value[2..]);
        Ok(Icmp {
            icmp_type: (both / CODES) as u8,
            code: both % CODES,
            error_data: BigEndian::read_u32(&value[4..]),
        })
    }
}
