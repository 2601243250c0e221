//! The derived impls and the constants of messages, each behind a function whose contract states
//! what it does.
ghost use Rattle.std.specs.Prelude.{◌≡◌, ◌↔◌, IsTrue, ◌<◌};
ghost use Rattle.std.specs.Prelude.{[], ◌∷◌};

use crate::limits::{LENGTH_LIMIT, MAX_LENGTH, TEXT_LIMIT, USERNAME_LIMIT};
use crate::message::Message;

/// Returns whether two messages are equal: they have the same bytes.
pub fn is_same_message(one: &Message<'_>, other: &Message<'_>) -> bool
    ensures { IsTrue result ↔ (one.now ≡ other.now) }
{
    one == other
}

/// Returns the limits of this crate, in bytes: for a text, for a USERNAME, for the part of a
/// message after its header, and for a whole message.
pub fn limits() -> [usize; 4]
    ensures { result ≡ 763 ∷ 513 ∷ 65532 ∷ 65552 ∷ [] }
{
    [TEXT_LIMIT, USERNAME_LIMIT, MAX_LENGTH, LENGTH_LIMIT]
}
