//! The names in IANA's registry of STUN parameters, and the form in which the value of each
//! attribute is printed.
ghost use Rattle.std.specs.Prelude.{◌≡◌, ◌<◌, false, IfSome, Some};
ghost use Rattle.std.specs.Option.{option_map};
ghost use Rattle.stun_cli.specs.Line.{has_line_feed};
ghost use Rattle.stun_inspect.specs.Names.{IsName};
ghost use Rattle.stun_inspect.specs.Registry.{entry_of, required_entry};

/// The form in which the value of an attribute is printed.
#[derive(Clone, Copy, Debug, PartialEq, Eq)]
pub enum Form {
    /// An address and a port (RFC 8489, section 14.1).
    Address,
    /// An address and a port, XORed with the magic cookie and the transaction ID (section 14.2).
    XorAddress,
    /// UTF-8 text.
    Text,
    /// UTF-8 text of at most 763 bytes (section 14.14).
    Software,
    /// UTF-8 text of at most 255 bytes (section 14.16).
    Domain,
    /// A nonce, which is a text that may carry security bits (sections 9.2 and 14.10).
    Nonce,
    /// A code and a phrase (section 14.8).
    Error,
    /// A list of attribute types (section 14.13).
    Types,
    /// One password algorithm (section 14.12).
    Algorithm,
    /// A list of password algorithms (section 14.11).
    Algorithms,
    /// A 32-bit number.
    Number,
    /// A 16-bit number.
    Short,
    /// A tie-breaker (RFC 8445, section 16.1).
    TieBreaker,
    /// An empty value: the attribute is a flag.
    Flag,
    /// A channel number (RFC 8656, section 18.1).
    Channel,
    /// A number of seconds (RFC 8656, section 18.2).
    Lifetime,
    /// The family of an address (RFC 8656, sections 18.6 and 18.11).
    Family,
    /// Whether the next port should be reserved (RFC 8656, section 18.7).
    EvenPort,
    /// The number of a protocol over IP (RFC 8656, section 18.8).
    Transport,
    /// The token of a reserved port (RFC 8656, section 18.10).
    Token,
    /// The family of an address that was not allocated, a code and a phrase (RFC 8656, section
    /// 18.12).
    AddressError,
    /// The type, the code and the data of an ICMP message (RFC 8656, section 18.13).
    Icmp,
    /// The number of times that a request and its response were sent (RFC 7982, section 3.2).
    Transmissions,
    /// Whether a response should come from another address or port (RFC 5780, section 7.2).
    ChangeRequest,
    /// The port to which a response should be sent (RFC 5780, section 7.5).
    ResponsePort,
    /// The 20 bytes of an HMAC-SHA1 (section 14.5).
    Sha1,
    /// The 16 to 32 bytes of an HMAC-SHA256, a multiple of 4 (section 14.6).
    Sha256,
    /// The 32 bytes of a hash (section 14.4).
    Userhash,
    /// Any bytes.
    Bytes,
}

/// An attribute of the registry.
#[derive(Clone, Copy, Debug)]
pub struct Registered {
    pub name: &'static str,
    pub form: Form,
}

fn entry(name: &'static str, form: Form) -> Option<Registered>
    requires { IsName name.now }
    ensures name { IfSome result (λ entry. IsName entry.name.now) }
    ensures entry { option_map entry_of result ≡ Some (name.now, form) }
{
    Some(Registered { name, form })
}

/// Returns the registered attribute with this type.
pub fn attribute(number: u16) -> Option<Registered>
    ensures name { IfSome result (λ entry. IsName entry.name.now) }
    ensures required { number < 0x8000 → IfSome (required_entry number) (λ entry.
        option_map entry_of result ≡ Some entry) }
{
    if number < 0x8000 {
        required(number)
    } else {
        optional(number)
    }
}

/// Returns the registered attribute with this comprehension-required type.
fn required(number: u16) -> Option<Registered>
    ensures name { IfSome result (λ entry. IsName entry.name.now) }
    ensures entry { IfSome (required_entry number) (λ entry.
        option_map entry_of result ≡ Some entry) }
{
    match number {
        0x0001 => entry("MAPPED-ADDRESS", Form::Address),
        0x0003 => entry("CHANGE-REQUEST", Form::ChangeRequest),
        0x0006 => entry("USERNAME", Form::Text),
        0x0008 => entry("MESSAGE-INTEGRITY", Form::Sha1),
        0x0009 => entry("ERROR-CODE", Form::Error),
        0x000A => entry("UNKNOWN-ATTRIBUTES", Form::Types),
        0x000C => entry("CHANNEL-NUMBER", Form::Channel),
        0x000D => entry("LIFETIME", Form::Lifetime),
        0x0012 => entry("XOR-PEER-ADDRESS", Form::XorAddress),
        0x0013 => entry("DATA", Form::Bytes),
        0x0014 => entry("REALM", Form::Text),
        0x0015 => entry("NONCE", Form::Nonce),
        0x0016 => entry("XOR-RELAYED-ADDRESS", Form::XorAddress),
        0x0017 => entry("REQUESTED-ADDRESS-FAMILY", Form::Family),
        0x0018 => entry("EVEN-PORT", Form::EvenPort),
        0x0019 => entry("REQUESTED-TRANSPORT", Form::Transport),
        0x001A => entry("DONT-FRAGMENT", Form::Flag),
        0x001B => entry("ACCESS-TOKEN", Form::Bytes),
        0x001C => entry("MESSAGE-INTEGRITY-SHA256", Form::Sha256),
        0x001D => entry("PASSWORD-ALGORITHM", Form::Algorithm),
        0x001E => entry("USERHASH", Form::Userhash),
        0x0020 => entry("XOR-MAPPED-ADDRESS", Form::XorAddress),
        0x0022 => entry("RESERVATION-TOKEN", Form::Token),
        0x0024 => entry("PRIORITY", Form::Number),
        0x0025 => entry("USE-CANDIDATE", Form::Flag),
        0x0026 => entry("PADDING", Form::Bytes),
        0x0027 => entry("RESPONSE-PORT", Form::ResponsePort),
        0x002A => entry("CONNECTION-ID", Form::Number),
        _ => reserved(number),
    }
}

/// Returns the attribute with this type from an older RFC, which the registry keeps reserved (RFC
/// 8489, section 18.3; RFC 5766, section 14.9; RFC 3489, section 11.2).
fn reserved(number: u16) -> Option<Registered>
    ensures { IfSome result (λ entry. IsName entry.name.now) }
{
    match number {
        0x0000 | 0x000E | 0x000F => entry("reserved", Form::Bytes),
        0x0002 => entry("RESPONSE-ADDRESS (reserved)", Form::Address),
        0x0004 => entry("SOURCE-ADDRESS (reserved)", Form::Address),
        0x0005 => entry("CHANGED-ADDRESS (reserved)", Form::Address),
        0x0007 => entry("PASSWORD (reserved)", Form::Text),
        0x000B => entry("REFLECTED-FROM (reserved)", Form::Address),
        0x0010 => entry("BANDWIDTH (reserved)", Form::Bytes),
        0x0011 => entry("reserved", Form::Bytes),
        0x0021 => entry("TIMER-VAL (reserved)", Form::Bytes),
        _ => None,
    }
}

/// Returns the registered attribute with this comprehension-optional type.
fn optional(number: u16) -> Option<Registered>
    ensures { IfSome result (λ entry. IsName entry.name.now) }
{
    match number {
        0x8000 => entry("ADDITIONAL-ADDRESS-FAMILY", Form::Family),
        0x8001 => entry("ADDRESS-ERROR-CODE", Form::AddressError),
        0x8002 => entry("PASSWORD-ALGORITHMS", Form::Algorithms),
        0x8003 => entry("ALTERNATE-DOMAIN", Form::Domain),
        0x8004 => entry("ICMP", Form::Icmp),
        0x8022 => entry("SOFTWARE", Form::Software),
        0x8023 => entry("ALTERNATE-SERVER", Form::Address),
        0x8025 => entry("TRANSACTION_TRANSMIT_COUNTER", Form::Transmissions),
        0x8027 => entry("CACHE-TIMEOUT", Form::Bytes),
        0x8028 => entry("FINGERPRINT", Form::Bytes),
        0x8029 => entry("ICE-CONTROLLED", Form::TieBreaker),
        0x802A => entry("ICE-CONTROLLING", Form::TieBreaker),
        0x802B => entry("RESPONSE-ORIGIN", Form::Address),
        0x802C => entry("OTHER-ADDRESS", Form::Address),
        0x802D => entry("ECN-CHECK STUN", Form::Number),
        0x802E => entry("THIRD-PARTY-AUTHORIZATION", Form::Text),
        0x8030 => entry("MOBILITY-TICKET", Form::Bytes),
        0xC000 => entry("CISCO-STUN-FLOWDATA", Form::Bytes),
        0xC001 => entry("ENF-FLOW-DESCRIPTION", Form::Bytes),
        0xC002 => entry("ENF-NETWORK-STATUS", Form::Bytes),
        0xC057 => entry("GOOG-NETWORK-INFO", Form::Bytes),
        0xC058 => entry("GOOG-LAST-ICE-CHECK-RECEIVED", Form::Bytes),
        0xC059 => entry("GOOG-MISC-INFO", Form::Bytes),
        0xC060 => entry("GOOG-MESSAGE-INTEGRITY-32", Form::Bytes),
        _ => None,
    }
}

/// Returns the name of the attribute with this type, or `unregistered`.
pub fn attribute_name(number: u16) -> &'static str
    ensures { has_line_feed result.now ≡ false }
{
    match attribute(number) {
        Some(registered) => registered.name,
        None => "unregistered",
    }
}

/// Returns the name of a method, or `unregistered`.
pub fn method_name(number: u16) -> &'static str
    ensures { has_line_feed result.now ≡ false }
{
    match number {
        0x001 => "Binding",
        0x003 => "Allocate",
        0x004 => "Refresh",
        0x006 => "Send",
        0x007 => "Data",
        0x008 => "CreatePermission",
        0x009 => "ChannelBind",
        0x00A => "Connect",
        0x00B => "ConnectionBind",
        0x00C => "ConnectionAttempt",
        0x080 => "GOOG-PING",
        _ => "unregistered",
    }
}

/// Returns the name of an error code, or `unregistered`.
pub fn error_name(code: u16) -> &'static str
    ensures { has_line_feed result.now ≡ false }
{
    match code {
        300 => "Try Alternate",
        400 => "Bad Request",
        401 => "Unauthenticated",
        403 => "Forbidden",
        405 => "Mobility Forbidden",
        420 => "Unknown Attribute",
        437 => "Allocation Mismatch",
        438 => "Stale Nonce",
        440 => "Address Family not Supported",
        441 => "Wrong Credentials",
        442 => "Unsupported Transport Protocol",
        443 => "Peer Address Family Mismatch",
        446 => "Connection Already Exists",
        447 => "Connection Timeout or Failure",
        486 => "Allocation Quota Reached",
        487 => "Role Conflict",
        500 => "Server Error",
        508 => "Insufficient Capacity",
        _ => "unregistered",
    }
}
