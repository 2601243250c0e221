//! The settings of a client, and the reasons to refuse them.
ghost use Rattle.std.specs.Prelude.{◌≡◌};
ghost use Rattle.stun_client_endpoint.specs.Settings.{settings_refusal};

use crate::form::Form;
use std::alloc::{Allocator, Global};
use stun_agent::agent::RequestRto;
use stun_types::attribute::AttributeType;
use stun_types::limits::{TEXT_LIMIT, USERNAME_LIMIT};

/// The settings of a client.
#[derive(Drop)]
pub struct Settings<A: Allocator = Global> {
    /// The parts that each request has in addition to its body and its signature.
    pub form: Form<A>,
    /// Whether a response without FINGERPRINT is dropped (RFC 8489, section 7.3).
    pub requires_fingerprint: bool,
    /// The types of attributes that the client understands in responses.
    pub understood: Vec<AttributeType, A>,
    /// How often another message of a request may become the current one, because of a challenge,
    /// or because an error has cast doubt on the current message. After that, the next challenge
    /// ends the request.
    pub challenges: u32,
    /// The times after which a request is retransmitted, and after which it times out.
    pub timeouts: RequestRto,
}

/// Why the settings of a client are refused.
#[derive(Clone, Copy, Debug, PartialEq, Eq)]
pub enum SettingsError {
    /// The user name has more than 513 bytes.
    NameTooLong,
    /// The text of SOFTWARE has more than 763 bytes.
    SoftwareTooLong,
}

/// Returns the first reason to refuse the user name or the text of SOFTWARE of a client, or `None`
/// if both are valid. Pass an empty text if the client has no user, or sends no SOFTWARE.
///
/// Check the settings before you create a client, because every request fails if a text is too
/// long.
pub fn settings_refusal(name: &str, software: &str) -> Option<SettingsError>
    ensures { result ≡ settings_refusal name.now software.now }
{
    if name.len() > USERNAME_LIMIT {
        return Some(SettingsError::NameTooLong);
    }
    if software.len() > TEXT_LIMIT {
        return Some(SettingsError::SoftwareTooLong);
    }
    None
}
