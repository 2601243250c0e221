//! USERNAME (RFC 8489, section 14.3).

ghost use Rattle.std.specs.Prelude.{◌≡◌, ◌≤◌, length};
ghost use Rattle.stun_base.specs.Attributes.{USERNAME};
ghost use Rattle.stun_types.specs.Limits.{USERNAME_LIMIT};

use crate::attribute::text::Text;
use crate::attribute::{AttributeStaticType, AttributeType};
use crate::limits::USERNAME_LIMIT;
use std::fmt;

/// The attribute type as a number, which is a parameter of `Text`.
const KIND: u16 = AttributeType::USERNAME.0;

/// USERNAME (RFC 8489, section 14.3): the name of a user, which is UTF-8 text of at most 513 bytes.
///
/// Contracts: the value is the list of its bytes.
pub type Username<'a> = Text<'a, KIND, USERNAME_LIMIT>;

impl<'a> Username<'a> {
    /// Returns the user name.
    pub fn username(&self) -> &'a str
        ensures text { result.now ≡ self.now }
        ensures within_limit { length result.now ≤ USERNAME_LIMIT }
    {
        self.text()
    }
}

impl<'a> AttributeStaticType for Username<'a> {
    const TYPE: AttributeType = AttributeType::USERNAME;

    ghost static_kind = { USERNAME };

    fn static_type() -> AttributeType
        ensures { result.0 ≡ USERNAME }
    {
        Self::TYPE
    }
}

impl<'a> fmt::Debug for Username<'a> {
    fn fmt<W: fmt::Write>(&self, f: &mut fmt::Formatter<W>) -> fmt::Result {
        f.debug_struct("Username")
            .field("text", &self.text())
            .finish()
    }
}
