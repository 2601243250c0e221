//! Checks the FINGERPRINT of a message (RFC 8489, section 14.7).
ghost use Rattle.std.specs.Prelude.{◌≡◌};
ghost use Rattle.stun_inspect.specs.Fingerprint.{ending_of, fingerprint_text};

use crate::telling::Told;
use stun_extra::fingerprint::{Fingerprint, fingerprint_at};
use stun_types::attribute::AttributeType;

/// Returns the text that is printed after the value of a FINGERPRINT.
fn text_of(fingerprint: Fingerprint) -> &'static str
    ensures { result.now ≡ fingerprint_text fingerprint }
{
    match fingerprint {
        Fingerprint::Right => ", right",
        Fingerprint::Wrong => ", wrong",
        Fingerprint::Misplaced => ", misplaced",
        Fingerprint::Absent => "",
    }
}

/// Returns the text at the end of the line for an attribute of the message. For a FINGERPRINT, this
/// text states whether it is correct.
pub fn ending_of(message: &[u8], told: &Told<'_>) -> &'static str
    ensures { result.now ≡ ending_of message.now told.now }
{
    if told.attribute.get_type() == AttributeType::FINGERPRINT {
        text_of(fingerprint_at(message, told.place, &told.attribute))
    } else {
        ""
    }
}
