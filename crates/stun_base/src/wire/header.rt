//! The header of a message.

ghost use Rattle.std.specs.Prelude.{◌≡◌, ◌%◌, ◌↔◌, IsOk, IfOk, IfErr, MatchOption, Some, Ok, Err};
ghost use Rattle.stun_base.specs.Header.{header_of, header_refusal, BeginsWithHeader};

use crate::wire::error::StunParseError;
use crate::wire::message_type::MessageType;
use crate::wire::transaction_id::TransactionId;
use byteorder::{BigEndian, ByteOrder};
use std::marker::Model;

/// The number of bytes of a header.
pub const HEADER_LENGTH: usize = 20;

/// The magic cookie: the four bytes that follow the type and the length in every message, in
/// network order (RFC 8489, section 5).
pub const MAGIC_COOKIE: u32 = 0x2112_A442;

/// The header of a message: its first 20 bytes, without the magic cookie (RFC 8489, section 5).
///
/// Contracts: the value is a record of the three fields.
#[derive(Debug, Clone, Copy, PartialEq, Eq)]
pub struct MessageHeader {
    message_type: MessageType,
    data_length: u16,
    transaction_id: TransactionId,
}

impl Model for MessageHeader {
    ghost use Rattle.std.specs.Prelude.{◌≡◌, ◌%◌};
    ghost use Rattle.stun_base.specs.Header.{HeaderFields};

    ghost Value = { HeaderFields };

    ghost view = { λ header. record {
      message_type = header.message_type;
      data_length = header.data_length;
      transaction_id = header.transaction_id;
    } };

    ghost invariant = { λ header. header.data_length % 4 ≡ 0 };

    ghost inverse = { λ fields. record {
      message_type = fields.message_type;
      data_length = fields.data_length;
      transaction_id = fields.transaction_id;
    } };
}

impl MessageHeader {
    /// Parses the header at the start of `bytes`. The bytes after the first 20 are ignored.
    ///
    /// This does not allocate.
    ///
    /// # Errors
    ///
    /// The first of these that applies:
    ///
    /// - `Truncated`: there are fewer than 20 bytes.
    /// - `NotStun`: the first two bits are not zero, the magic cookie is wrong, or the length is
    ///   not a multiple of 4.
    pub fn from_bytes(bytes: &[u8]) -> Result<MessageHeader, StunParseError>
        ensures ok { IsOk result ↔ BeginsWithHeader bytes.now }
        ensures value { IfOk result (λ header. header ≡ header_of bytes.now) }
        ensures refused { IfErr result (λ error. header_refusal bytes.now ≡ Some error) }
        ensures answer { MatchOption (header_refusal bytes.now)
            (result ≡ Ok (header_of bytes.now))
            (λ error. result ≡ Err error) }
    {
        if bytes.len() < HEADER_LENGTH {
            return Err(StunParseError::Truncated);
        }
        let Some(message_type) = MessageType::from_number(BigEndian::read_u16(bytes)) else {
            return Err(StunParseError::NotStun);
        };
        let data_length = BigEndian::read_u16(&bytes[2..]);
        let cookie = BigEndian::read_u32(&bytes[4..]);
        if cookie != MAGIC_COOKIE || data_length % 4 != 0 {
            return Err(StunParseError::NotStun);
        }
        let transaction_id = TransactionId::from_bytes(&bytes[8..]);
        Ok(MessageHeader {
            message_type,
            data_length,
            transaction_id,
        })
    }

    /// Returns the type of the message, which combines its class and its method.
    pub fn get_type(&self) -> MessageType
        ensures { result ≡ self.now.message_type }
    {
        self.message_type
    }

    /// Returns the length field of the header: the number of bytes that follow the header, which is
    /// a multiple of 4.
    pub fn data_length(&self) -> u16
        ensures value { result ≡ self.now.data_length }
        ensures aligned { result % 4 ≡ 0 }
    {
        self.data_length
    }

    /// Returns the transaction ID.
    pub fn transaction_id(&self) -> TransactionId
        ensures { result ≡ self.now.transaction_id }
    {
        self.transaction_id
    }
}
