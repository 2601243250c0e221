//! Parses and inspects messages, and starts new ones in a writer.

ghost use Rattle.std.specs.Prelude.{◌≡◌, ◌^◌, ◌<◌, ◌↔◌, ◌≤◌, length, [], IsTrue, IsOk, IfOk};
ghost use Rattle.std.specs.Prelude.{OnOk, IfErr, MatchOption, Some, None, ⊤};
ghost use Rattle.std.specs.Cmp.{partial_equiv_from_equiv};
ghost use Rattle.stun_base.specs.Credentials.{same_text, same_text_equivalence};
ghost use Rattle.stun_base.specs.Header.{type_field, transaction_id_field};
ghost use Rattle.stun_base.specs.MessageType.{class_in, method_of, IsResponse};
ghost use Rattle.stun_types.specs.Grammar.{spelled_message};
ghost use Rattle.stun_types.specs.Integrity.{first_of as first_member_of};
ghost use Rattle.stun_types.specs.Limits.{LENGTH_LIMIT};
ghost use Rattle.stun_types.specs.Message.{IsMessage, refusal};
ghost use Rattle.stun_types.specs.Reading.{attribute_answer};
ghost use Rattle.stun_types.specs.Visible.{visible};
ghost use Rattle.stun_types.specs.WriterCalls.{Begins};
ghost use Rattle.stun_types.specs.Writing.{empty_message, empty_answer};

pub(crate) mod attributes_iter;
pub(crate) mod visibility;
pub(crate) mod walk;

use crate::attribute::{AttributeFromRaw, AttributeStaticType};
pub use crate::integrity::deciding_algorithm;
use crate::integrity::find_first;
pub use crate::message::attributes_iter::MessageAttributesIter;
pub use crate::message::visibility::Visibility;
use crate::message::walk::read_kind;
use crate::write::MessageWrite;
pub use crate::write::{MessageWriteMutSlice, MessageWriteVec};
use std::alloc::AllocError;
use std::marker::Model;
pub use stun_base::algorithm::IntegrityAlgorithm;
pub use stun_base::credentials::{
    LongTermCredentials, LongTermKeyCredentials, MessageIntegrityCredentials, ShortTermCredentials,
};
pub use stun_base::error::{StunParseError, StunWriteError, ValidateError};
pub use stun_base::header::MessageHeader;
use stun_base::header::{HEADER_LENGTH, MAGIC_COOKIE};
pub use stun_base::hmac::{hmac_sha1, hmac_sha256};
pub use stun_base::key::{IntegrityKey, long_term_key};
pub use stun_base::message_type::{BINDING, MessageClass, MessageType, Method};
pub use stun_base::prepared_key::PreparedKey;
pub use stun_base::transaction_id::TransactionId;

/// A STUN message that was parsed. It borrows its bytes.
///
/// Contracts: the value is the list of its bytes.
#[derive(Debug, Drop)]
pub struct Message<'a> {
    header: MessageHeader,
    bytes: &'a [u8],
}

impl<'a> Model for Message<'a> {
    ghost use Rattle.std.specs.Prelude.{ℕ, List};
    ghost use Rattle.stun_types.specs.code.Message.{IsRead};

    ghost Value = { List ℕ };

    ghost view = { λ message. message.bytes.now };

    ghost invariant = { λ message. IsRead message.header message.bytes.now };
}

/// Copies the reference, not the bytes. This does not allocate and never fails.
impl<'a> Clone for Message<'a> {
    ghost is_clone = { λ it copy. copy ≡ it };

    ghost is_infallible = { λ _. ⊤ };

    fn clone(&self) -> Result<Self, AllocError> {
        Ok(Message {
            header: self.header,
            bytes: self.bytes,
        })
    }
}

/// Two messages are equal if they have the same bytes.
impl<'a> PartialEq for Message<'a> {
    ghost eq = { same_text };

    ghost laws = { partial_equiv_from_equiv same_text_equivalence };

    fn eq(&self, other: &Self) -> bool {
        self.bytes == other.bytes
    }
}

impl<'a> Eq for Message<'a> {
    ghost laws = { same_text_equivalence };
}

impl<'a> Message<'a> {
    /// Parses a message (RFC 8489, sections 5 and 14).
    ///
    /// The bytes must be exactly one message. The values of its attributes are not parsed yet. This
    /// does not allocate.
    ///
    /// # Errors
    ///
    /// The first of these that applies:
    ///
    /// - `Truncated`: there are fewer than 20 bytes.
    /// - `NotStun`: the bytes do not start with a STUN header (see `MessageHeader::from_bytes`).
    /// - `Truncated`: there are fewer bytes than the header states.
    /// - `TooLarge`: there are more bytes than the header states.
    /// - `Truncated`: an attribute or its padding extends past the end of the message.
    pub fn from_bytes(bytes: &'a [u8]) -> Result<Message<'a>, StunParseError>
        ensures ok { IsOk result ↔ IsMessage bytes.now }
        ensures value { IfOk result (λ message. message ≡ bytes.now) }
        ensures accepted { OnOk result (refusal bytes.now ≡ None) }
        ensures refused { IfErr result (λ error. refusal bytes.now ≡ Some error) }
    {
        let header = MessageHeader::from_bytes(bytes)?;
        let end = HEADER_LENGTH + usize::from(header.data_length());
        if bytes.len() < end {
            return Err(StunParseError::Truncated);
        }
        if end < bytes.len() {
            return Err(StunParseError::TooLarge);
        }
        let mut place = HEADER_LENGTH;
        while place < end {
            let Some((_, behind)) = read_kind(bytes, place) else {
                return Err(StunParseError::Truncated);
            };
            place = behind;
        }
        Ok(Message { header, bytes })
    }

    /// Starts a message without attributes in `writer`, which must be empty.
    ///
    /// # Errors
    ///
    /// The first of these that applies. The writer is then dropped.
    ///
    /// - `TooSmall`: the writer has room for fewer than 20 bytes.
    /// - `OutOfMemory`: an allocation failed.
    pub fn builder<W: MessageWrite>(
        message_type: MessageType,
        id: TransactionId,
        mut writer: W,
    ) -> Result<W, StunWriteError>
        requires { W.bytes writer ≡ [] }
        ensures { Begins W.grants W.bytes W.room W.reserved writer
            (spelled_message message_type id []) result }
    {
        writer.reserve(HEADER_LENGTH)?;
        writer.append(&make_header(message_type, id));
        Ok(writer)
    }

    /// Starts a request with this transaction ID in `writer`, which must be empty.
    ///
    /// # Errors
    ///
    /// The errors of `builder`.
    pub fn builder_request<W: MessageWrite>(
        method: Method,
        id: TransactionId,
        writer: W,
    ) -> Result<W, StunWriteError>
        requires { W.bytes writer ≡ [] }
        ensures { Begins W.grants W.bytes W.room W.reserved writer
            (empty_message MessageClass.Request method id) result }
    {
        Message::builder(
            MessageType::from_class_method(MessageClass::Request, method),
            id,
            writer,
        )
    }

    /// Starts an indication with this transaction ID in `writer`, which must be empty.
    ///
    /// # Errors
    ///
    /// The errors of `builder`.
    pub fn builder_indication<W: MessageWrite>(
        method: Method,
        id: TransactionId,
        writer: W,
    ) -> Result<W, StunWriteError>
        requires { W.bytes writer ≡ [] }
        ensures { Begins W.grants W.bytes W.room W.reserved writer
            (empty_message MessageClass.Indication method id) result }
    {
        Message::builder(
            MessageType::from_class_method(MessageClass::Indication, method),
            id,
            writer,
        )
    }

    /// Starts a success response to `message`, with the same method and transaction ID, in
    /// `writer`, which must be empty.
    ///
    /// # Errors
    ///
    /// The errors of `builder`.
    pub fn builder_success<W: MessageWrite>(
        message: &Message<'_>,
        writer: W,
    ) -> Result<W, StunWriteError>
        requires { W.bytes writer ≡ [] }
        ensures { Begins W.grants W.bytes W.room W.reserved writer
            (empty_answer MessageClass.Success message.now) result }
    {
        Message::builder(
            MessageType::from_class_method(MessageClass::Success, message.method()),
            message.transaction_id(),
            writer,
        )
    }

    /// Starts an error response to `message`, with the same method and transaction ID, in `writer`,
    /// which must be empty.
    ///
    /// # Errors
    ///
    /// The errors of `builder`.
    pub fn builder_error<W: MessageWrite>(
        message: &Message<'_>,
        writer: W,
    ) -> Result<W, StunWriteError>
        requires { W.bytes writer ≡ [] }
        ensures { Begins W.grants W.bytes W.room W.reserved writer
            (empty_answer MessageClass.Error message.now) result }
    {
        Message::builder(
            MessageType::from_class_method(MessageClass::Error, message.method()),
            message.transaction_id(),
            writer,
        )
    }

    /// Returns the bytes of the message.
    pub fn as_bytes(&self) -> &'a [u8]
        ensures bytes { result.now ≡ self.now }
        ensures message { IsMessage result.now }
        ensures limit { length result.now ≤ LENGTH_LIMIT }
    {
        self.bytes
    }

    /// Returns the type of the message, which combines its class and its method.
    pub fn get_type(&self) -> MessageType
        ensures { result ≡ type_field self.now }
    {
        self.header.get_type()
    }

    /// Returns the class of the message.
    pub fn class(&self) -> MessageClass
        ensures { result ≡ class_in self.now }
    {
        self.get_type().class()
    }

    /// Returns the method of the message.
    pub fn method(&self) -> Method
        ensures { result ≡ method_of (type_field self.now) }
    {
        self.get_type().method()
    }

    /// Returns the transaction ID of the message.
    pub fn transaction_id(&self) -> TransactionId
        ensures { result ≡ transaction_id_field self.now }
    {
        self.header.transaction_id()
    }

    /// Returns `true` if the message has this class.
    pub fn has_class(&self, class: MessageClass) -> bool
        ensures { IsTrue result ↔ (class_in self.now ≡ class) }
    {
        self.class() == class
    }

    /// Returns `true` if the message is a response, either a success or an error.
    pub fn is_response(&self) -> bool
        ensures { IsTrue result ↔ IsResponse (class_in self.now) }
    {
        self.class().is_response()
    }

    /// Returns an iterator over the visible attributes in their order, each with its offset: the
    /// position of its first byte in the message.
    ///
    /// After MESSAGE-INTEGRITY only MESSAGE-INTEGRITY-SHA256 and FINGERPRINT are visible, after
    /// MESSAGE-INTEGRITY-SHA256 only FINGERPRINT, and after FINGERPRINT nothing (RFC 8489, sections
    /// 14.5 to 14.7).
    pub fn iter_attributes(&self) -> MessageAttributesIter<'a>
        ensures visible { result ≡ visible self.now }
        ensures few { length result < 2 ^ 14 }
    {
        MessageAttributesIter::new(self.as_bytes())
    }

    /// Parses the first visible attribute of type `A`.
    ///
    /// Do not use this call to find out who signed a message. If a message has several attributes
    /// of one type, this call returns the first visible one, but the authenticators use the last
    /// visible one. So the USERNAME that this call returns may not name the user who was validated.
    /// Use the user that the authenticator reports instead.
    ///
    /// # Errors
    ///
    /// - `MissingAttribute`: no attribute of this type is visible.
    /// - `InvalidAttributeData`: the first visible attribute of this type is malformed.
    pub fn attribute<A: AttributeFromRaw<'a> + AttributeStaticType>(
        &self,
    ) -> Result<A, StunParseError>
        ensures { MatchOption (first_member_of A.static_kind (visible self.now))
            (result ≡ Err (StunParseError.MissingAttribute (record { 0 = A.static_kind })))
            (λ m. result ≡ attribute_answer (A.reading m.1)) }
    {
        match find_first(self, A::static_type()) {
            Some((_, attribute)) => A::from_raw(attribute),
            None => Err(StunParseError::MissingAttribute(A::static_type())),
        }
    }
}

/// Returns the header of a message that has no attributes yet.
fn make_header(message_type: MessageType, id: TransactionId) -> [u8; HEADER_LENGTH]
    ensures bytes { result ≡ spelled_message message_type id [] }
    ensures fits { message_type < 2 ^ 14 }
{
    let mut header = [0; HEADER_LENGTH];
    header[..2].copy_from_slice(&message_type.value().to_be_bytes());
    header[4..8].copy_from_slice(&MAGIC_COOKIE.to_be_bytes());
    header[8..].copy_from_slice(&id.as_u128().to_be_bytes()[4..]);
    header
}
