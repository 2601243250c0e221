//! Reads the header of a message into a struct.

ghost use Rattle.std.specs.Prelude.{◌≡◌, IfOk, IfErr, Some, None, OnOk};
ghost use Rattle.stun_base.specs.Header.{header_refusal};
ghost use Rattle.stun_base.specs.MessageType.{class_number};
ghost use Rattle.stun_c.specs.Reading.{header_answer, header_after, header_in};

use stun_base::error::StunParseError;
use stun_base::header::{HEADER_LENGTH, MessageHeader};
use stun_base::message_type::MessageClass;
use stun_numbers::refusal::Refusal;

/// The fields of a message header.
#[repr(C)]
#[derive(Debug, Clone, Copy, PartialEq, Eq)]
pub struct Header {
    /// The class, from 0 to 3.
    pub message_class: u32,
    /// The method, below 4096.
    pub method: u32,
    /// The length of the message in bytes, including the header.
    pub length: usize,
    /// The transaction ID.
    pub id: [u8; 12],
}

/// Returns the number of a class: the value of its two bits.
pub fn class_number(class: MessageClass) -> u32
    ensures { result ≡ class_number class }
{
    match class {
        MessageClass::Request => 0,
        MessageClass::Indication => 1,
        MessageClass::Success => 2,
        MessageClass::Error => 3,
    }
}

/// Returns the fields of the message header at the front of `bytes`.
fn read_fields(bytes: &[u8]) -> Result<Header, StunParseError>
    ensures ok { IfOk result (λ header. header ≡ header_in bytes.now) }
    ensures accepted { OnOk result (header_refusal bytes.now ≡ None) }
    ensures err { IfErr result (λ error. header_refusal bytes.now ≡ Some error) }
{
    let header = MessageHeader::from_bytes(bytes)?;
    let message_type = header.get_type();
    let mut id = [0; 12];
    id.copy_from_slice(&bytes[8..20]);
    Ok(Header {
        message_class: class_number(message_type.class()),
        method: u32::from(message_type.method().value()),
        length: HEADER_LENGTH + usize::from(header.data_length()),
        id,
    })
}

/// Writes to `out` the fields of the message header at the front of `bytes`. Returns 0, or a
/// negative error code.
pub fn read_header(bytes: &[u8], out: &mut Header) -> i64
    ensures answer { result ≡ header_answer bytes.now }
    ensures written { out.new ≡ header_after (header_refusal bytes.now) bytes.now out.old }
{
    match read_fields(bytes) {
        Ok(header) => {
            *out = header;
            0
        }
        Err(error) => Refusal::from(error).code(),
    }
}
