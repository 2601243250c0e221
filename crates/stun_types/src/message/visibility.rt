//! The rule that determines which attributes of a message are visible (RFC 8489, sections 14.5 to
//! 14.7).

ghost use Rattle.std.specs.Prelude.{◌≡◌};
ghost use Rattle.stun_types.specs.Visible.{after, hider, shows};

use crate::attribute::AttributeType;

/// The types of attributes that are visible at an offset of a message. They depend on the
/// attributes before the offset: a receiver ignores most of the attributes that follow
/// MESSAGE-INTEGRITY, MESSAGE-INTEGRITY-SHA256 or FINGERPRINT (RFC 8489, sections 14.5 to 14.7).
///
/// A walk over a message begins with `Everything`. At each attribute, `shows` returns whether this
/// attribute is visible, and `after` returns the visibility for the attributes after it.
#[derive(Debug, Clone, Copy, PartialEq, Eq)]
pub enum Visibility {
    /// All attributes are visible, because none of these three attributes came before.
    Everything,
    /// MESSAGE-INTEGRITY came before, so only MESSAGE-INTEGRITY-SHA256 and FINGERPRINT are visible.
    AfterIntegrity,
    /// MESSAGE-INTEGRITY-SHA256 came before, so only FINGERPRINT is visible.
    AfterIntegritySha256,
    /// FINGERPRINT came before, so no attribute is visible.
    Nothing,
}

impl Visibility {
    /// Returns `true` if an attribute of this type is visible.
    pub fn shows(self, kind: AttributeType) -> bool
        ensures { result ≡ shows self kind.0 }
    {
        match self {
            Visibility::Everything => true,
            Visibility::AfterIntegrity => {
                kind == AttributeType::MESSAGE_INTEGRITY_SHA256
                    || kind == AttributeType::FINGERPRINT
            }
            Visibility::AfterIntegritySha256 => kind == AttributeType::FINGERPRINT,
            Visibility::Nothing => false,
        }
    }

    /// Returns the type of the earlier attribute that hides an attribute of this type, or `None` if
    /// the attribute is visible. If several earlier attributes hide it, returns the type of the
    /// attribute that hides the most types.
    pub fn hider(self, kind: AttributeType) -> Option<AttributeType>
        ensures { result ≡ hider self kind.0 }
    {
        if self.shows(kind) {
            return None;
        }
        match self {
            Visibility::Everything => None,
            Visibility::AfterIntegrity => Some(AttributeType::MESSAGE_INTEGRITY),
            Visibility::AfterIntegritySha256 => Some(AttributeType::MESSAGE_INTEGRITY_SHA256),
            Visibility::Nothing => Some(AttributeType::FINGERPRINT),
        }
    }

    /// Returns the visibility after an attribute of this type, visible or not.
    pub fn after(self, kind: AttributeType) -> Visibility
        ensures { result ≡ after self kind.0 }
    {
        if self == Visibility::Nothing || kind == AttributeType::FINGERPRINT {
            return Visibility::Nothing;
        }
        if self == Visibility::AfterIntegritySha256
            || kind == AttributeType::MESSAGE_INTEGRITY_SHA256
        {
            return Visibility::AfterIntegritySha256;
        }
        if self == Visibility::AfterIntegrity || kind == AttributeType::MESSAGE_INTEGRITY {
            return Visibility::AfterIntegrity;
        }
        Visibility::Everything
    }
}
