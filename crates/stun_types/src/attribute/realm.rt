//! REALM (RFC 8489, section 14.9).

ghost use Rattle.std.specs.Prelude.{◌≡◌, ◌≤◌, length};
ghost use Rattle.stun_base.specs.Attributes.{REALM};
ghost use Rattle.stun_types.specs.Limits.{TEXT_LIMIT};

use crate::attribute::text::Text;
use crate::attribute::{AttributeStaticType, AttributeType};
use crate::limits::TEXT_LIMIT;
use std::fmt;

/// The attribute type as a number, which is a parameter of `Text`.
const KIND: u16 = AttributeType::REALM.0;

/// REALM (RFC 8489, section 14.9): the realm in which users are registered, which is UTF-8 text of
/// at most 763 bytes.
///
/// Contracts: the value is the list of its bytes.
pub type Realm<'a> = Text<'a, KIND, TEXT_LIMIT>;

impl<'a> Realm<'a> {
    /// Returns the realm.
    pub fn realm(&self) -> &'a str
        ensures text { result.now ≡ self.now }
        ensures within_limit { length result.now ≤ TEXT_LIMIT }
    {
        self.text()
    }
}

impl<'a> AttributeStaticType for Realm<'a> {
    const TYPE: AttributeType = AttributeType::REALM;

    ghost static_kind = { REALM };

    fn static_type() -> AttributeType
        ensures { result.0 ≡ REALM }
    {
        Self::TYPE
    }
}

impl<'a> fmt::Debug for Realm<'a> {
    fn fmt<W: fmt::Write>(&self, f: &mut fmt::Formatter<W>) -> fmt::Result {
        f.debug_struct("Realm").field("text", &self.text()).finish()
    }
}
