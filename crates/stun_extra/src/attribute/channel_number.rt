//! CHANNEL-NUMBER (RFC 8656, section 18.1).
ghost use Rattle.std.specs.Prelude.{◌≡◌, ◌≤◌, ◌<◌, ◌↔◌, false, IfOk, IsOkUnless, IsErrOf};
ghost use Rattle.stun_extra.specs.AttributeTypes.{CHANNEL_NUMBER};
ghost use Rattle.stun_extra.specs.Turn.{IsAnyChannel, channel_of, channel_of-written};
ghost use Rattle.stun_extra.specs.Turn.{channel_value, is_any_channel_number, is_channel_number};

use byteorder::{BigEndian, ByteOrder};
use std::marker::Model;
use stun_base::error::{StunParseError, StunWriteError};
use stun_types::attribute::{AttributeType, RawAttribute};
use stun_types::prelude::*;

/// The number of bytes of the value: two for the channel number, and two that are reserved.
const LENGTH: usize = 4;

/// CHANNEL-NUMBER (RFC 8656, section 18.1): the number of a channel.
///
/// RFC 8656 allows the channels 0x4000 to 0x4FFF, and [`new`](ChannelNumber::new) accepts only
/// these. All of 0x4000 to 0x7FFF can be parsed, because RFC 5766 allowed them and clients of that
/// RFC still bind them.
///
/// Contracts: the value is the number.
///
/// # Examples
///
/// ```
/// use seatcrane_stun::extra::attribute::ChannelNumber;
/// use seatcrane_stun::types::message::StunWriteError;
///
/// assert_eq!(ChannelNumber::new(0x4000)?.channel(), 0x4000);
/// assert!(ChannelNumber::new(0x3fff).is_err());
/// # Ok::<(), StunWriteError>(())
/// ```
#[derive(Clone, Copy, Debug, PartialEq, Eq)]
pub struct ChannelNumber {
    channel: u16,
}

impl Model for ChannelNumber {
    ghost use Rattle.std.specs.Prelude.{ℕ};
    ghost use Rattle.stun_extra.specs.Turn.{IsAnyChannel};

    ghost Value = { ℕ };

    ghost view = { λ attribute. attribute.channel };

    ghost invariant = { λ attribute. IsAnyChannel attribute.channel };

    ghost inverse = { λ channel. record { channel = channel } };
}

/// Returns `true` if RFC 8656 allows a channel with this number.
fn is_channel_number(number: u16) -> bool
    ensures { result ≡ is_channel_number number }
{
    0x4000 <= number && number < 0x5000
}

/// Returns `true` if RFC 5766 allows a channel with this number.
fn is_any_channel_number(number: u16) -> bool
    ensures { result ≡ is_any_channel_number number }
{
    0x4000 <= number && number < 0x8000
}

impl ChannelNumber {
    /// Creates the attribute from the number of a channel.
    ///
    /// # Errors
    ///
    /// - [`StunWriteError::NotAllowed`]: the number is not from 0x4000 to 0x4FFF.
    pub fn new(channel: u16) -> Result<Self, StunWriteError>
        ensures ok { IfOk result (λ number. number ≡ channel) }
        ensures only_not_allowed { IsOkUnless result StunWriteError.NotAllowed }
        ensures not_allowed { IsErrOf result StunWriteError.NotAllowed
            ↔ (is_channel_number channel ≡ false) }
    {
        if !is_channel_number(channel) {
            return Err(StunWriteError::NotAllowed);
        }
        Ok(ChannelNumber { channel })
    }

    /// Returns the number of the channel, 0x4000 to 0x7FFF.
    pub fn channel(&self) -> u16
        ensures number { result ≡ self.now }
        ensures from { 0x4000 ≤ result }
        ensures below { result < 0x8000 }
    {
        self.channel
    }

    /// Returns the bytes of the value: the channel number, and two reserved bytes, which are 0.
    fn bytes(&self) -> [u8; LENGTH]
        ensures value { result ≡ channel_value self.now }
        ensures channel { IsAnyChannel self.now }
    {
        let [high, low] = self.channel.to_be_bytes();
        [high, low, 0, 0]
    }
}

impl AttributeStaticType for ChannelNumber {
    const TYPE: AttributeType = AttributeType(0x000C);

    ghost static_kind = { CHANNEL_NUMBER };

    fn static_type() -> AttributeType
        ensures { result.0 ≡ CHANNEL_NUMBER }
    {
        Self::TYPE
    }
}

impl Attribute for ChannelNumber {
    ghost kind = { λ _. CHANNEL_NUMBER };

    ghost value = { channel_value };

    ghost is_well_formed = { IsAnyChannel };

    fn get_type(&self) -> AttributeType {
        Self::TYPE
    }

    fn length(&self) -> usize {
        self.bytes().as_slice().len()
    }

    fn write_into<W: MessageWrite>(&self, writer: &mut W) {
        RawAttribute::new(Self::TYPE, &self.bytes()).write_into(writer);
    }
}

impl<'a> AttributeFromRaw<'a> for ChannelNumber {
    ghost reading = { channel_of };

    ghost reads_back = { channel_of-written };

    fn from_raw(raw: RawAttribute<'a>) -> Result<Self, StunParseError> {
        if raw.get_type() != Self::TYPE || raw.length() != LENGTH {
            return Err(StunParseError::InvalidAttributeData);
        }
        let channel = BigEndian::read_u16(raw.value());
        if !is_any_channel_number(channel) {
            return Err(StunParseError::InvalidAttributeData);
        }
        Ok(ChannelNumber { channel })
    }
}
