//! The type of an attribute, with a constant for each registered type that this library reads or
//! writes.

ghost use Rattle.std.specs.Prelude.{◌≡◌, Some};
ghost use Rattle.stun_base.specs.AttributeText.{type_text};

use std::fmt;

/// The type of an attribute (RFC 8489, section 14): a 16-bit number.
///
/// A receiver must understand an attribute whose type is less than 0x8000, and may ignore any
/// other. The field is public, so that other crates can define constants such as
/// `AttributeType(0x8000)`. A type is displayed in hexadecimal, for example as `0x0008`.
#[derive(Debug, Clone, Copy, PartialEq, Eq, Hash)]
pub struct AttributeType(pub u16);

impl AttributeType {
    /// USERNAME (RFC 8489, section 14.3).
    pub const USERNAME: AttributeType = AttributeType(0x0006);
    /// MESSAGE-INTEGRITY (RFC 8489, section 14.5).
    pub const MESSAGE_INTEGRITY: AttributeType = AttributeType(0x0008);
    /// ERROR-CODE (RFC 8489, section 14.8).
    pub const ERROR_CODE: AttributeType = AttributeType(0x0009);
    /// REALM (RFC 8489, section 14.9).
    pub const REALM: AttributeType = AttributeType(0x0014);
    /// NONCE (RFC 8489, section 14.10).
    pub const NONCE: AttributeType = AttributeType(0x0015);
    /// MESSAGE-INTEGRITY-SHA256 (RFC 8489, section 14.6).
    pub const MESSAGE_INTEGRITY_SHA256: AttributeType = AttributeType(0x001C);
    /// PASSWORD-ALGORITHM (RFC 8489, section 14.12).
    pub const PASSWORD_ALGORITHM: AttributeType = AttributeType(0x001D);
    /// USERHASH (RFC 8489, section 14.4).
    pub const USERHASH: AttributeType = AttributeType(0x001E);
    /// XOR-MAPPED-ADDRESS (RFC 8489, section 14.2).
    pub const XOR_MAPPED_ADDRESS: AttributeType = AttributeType(0x0020);
    /// PASSWORD-ALGORITHMS (RFC 8489, section 14.11).
    pub const PASSWORD_ALGORITHMS: AttributeType = AttributeType(0x8002);
    /// FINGERPRINT (RFC 8489, section 14.7).
    pub const FINGERPRINT: AttributeType = AttributeType(0x8028);

    /// Creates a type from its number. Every 16-bit number is a type.
    pub const fn new(number: u16) -> AttributeType
        ensures { result.0 ≡ number }
    {
        AttributeType(number)
    }

    /// Returns the type as a number.
    pub const fn value(self) -> u16
        ensures { result ≡ self.0 }
    {
        self.0
    }
}

impl fmt::Display for AttributeType {
    ghost output = { λ kind. Some (type_text kind.0) };

    #[tactic(auto, using(crate::proofs::HexLemmas::hex_byte_written))]
    fn fmt<W: fmt::Write>(&self, f: &mut fmt::Formatter<W>) -> fmt::Result {
        write!(f, "0x{:02x}{:02x}", self.0 / 256, self.0 % 256)
    }
}
