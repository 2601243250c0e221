//! Finds out whether the attributes of a message are understood (RFC 8489, sections 6.3 and 14).

ghost use Rattle.std.specs.Prelude.{◌≡◌};
ghost use Rattle.stun_endpoint.specs.Received.{is_empty};
ghost use Rattle.stun_extra.specs.Unknown.{is_known, is_unknown, unknown_types};

use stun_base::attribute_type::AttributeType;
use stun_types::message::Message;

/// Returns whether the list `known` has the type `kind`.
fn is_known(known: &[AttributeType], kind: AttributeType) -> bool
    ensures { result ≡ is_known known.now kind.0 }
{
    known.iter().any(|one| one.value() == kind.value())
}

/// Returns whether attributes of the type `kind` must be understood, but `known` does not have the
/// type.
fn is_unknown(known: &[AttributeType], kind: AttributeType) -> bool
    ensures { result ≡ is_unknown known.now kind.0 }
{
    kind.value() < 0x8000 && !is_known(known, kind)
}

/// Returns whether the visible attributes of a message are understood: each comprehension-required
/// type (below 0x8000) is in `known`.
pub(crate) fn are_understood(known: &[AttributeType], message: &Message<'_>) -> bool
    ensures { result ≡ is_empty (unknown_types known.now message.now) }
{
    !message
        .iter_attributes()
        .any(|found| is_unknown(known, found.1.get_type()))
}
