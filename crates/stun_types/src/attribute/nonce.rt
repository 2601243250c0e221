//! NONCE (RFC 8489, section 14.10).

ghost use Rattle.std.specs.Prelude.{◌≡◌, ◌≤◌, length};
ghost use Rattle.stun_base.specs.Attributes.{NONCE};
ghost use Rattle.stun_types.specs.Limits.{TEXT_LIMIT};

use crate::attribute::text::Text;
use crate::attribute::{AttributeStaticType, AttributeType};
use crate::limits::TEXT_LIMIT;
use std::fmt;

/// The attribute type as a number, which is a parameter of `Text`.
const KIND: u16 = AttributeType::NONCE.0;

/// NONCE (RFC 8489, section 14.10): the nonce of a server, which is UTF-8 text of at most 763
/// bytes.
///
/// Contracts: the value is the list of its bytes.
pub type Nonce<'a> = Text<'a, KIND, TEXT_LIMIT>;

impl<'a> Nonce<'a> {
    /// Returns the nonce.
    pub fn nonce(&self) -> &'a str
        ensures text { result.now ≡ self.now }
        ensures within_limit { length result.now ≤ TEXT_LIMIT }
    {
        self.text()
    }
}

impl<'a> AttributeStaticType for Nonce<'a> {
    const TYPE: AttributeType = AttributeType::NONCE;

    ghost static_kind = { NONCE };

    fn static_type() -> AttributeType
        ensures { result.0 ≡ NONCE }
    {
        Self::TYPE
    }
}

impl<'a> fmt::Debug for Nonce<'a> {
    fn fmt<W: fmt::Write>(&self, f: &mut fmt::Formatter<W>) -> fmt::Result {
        f.debug_struct("Nonce").field("text", &self.text()).finish()
    }
}
