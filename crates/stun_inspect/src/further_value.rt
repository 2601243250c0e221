//! Writes the values of further attributes as text: those of STUN (RFC 8489, section 14), ICE (RFC
//! 8445, section 16.1), TURN (RFC 8656, section 18) and NAT behavior discovery (RFC 5780, section
//! 7). Each function returns `false`, and appends nothing, if the value is malformed.
ghost use Rattle.std.specs.Prelude.{◌≡◌, false};
ghost use Rattle.stun_cli.specs.Line.{has_line_feed};

use crate::registry::attribute_name;
use crate::value::{push_address, push_code, push_digits, push_quoted, read};
use std::alloc::{AllocError, Allocator};
use stun_attributes::{
    AddressErrorCode, AddressFamily, AlternateDomain, ChangeRequest, ChannelNumber, EvenPort,
    IceControlled, Icmp, Lifetime, MappedAddress, Priority, RequestedAddressFamily,
    RequestedTransport, ReservationToken, ResponsePort, Software, TransactionTransmitCounter,
    UseCandidate, XorPeerAddress,
};
use stun_cli::line::Line;
use stun_extra::unknown::UnknownAttributes;
use stun_types::message::TransactionId;

/// Appends an address that is not XORed, such as the address in MAPPED-ADDRESS.
pub fn push_plain_address<A: Allocator + Copy>(
    line: &mut Line<A>,
    value: &[u8],
) -> Result<bool, AllocError> {
    match read::<MappedAddress>(value) {
        Some(address) => push_address(line, address.addr()),
        None => Ok(false),
    }
}

/// Appends an address that is XORed with the magic cookie and the transaction ID.
pub fn push_xored_address<A: Allocator + Copy>(
    line: &mut Line<A>,
    value: &[u8],
    id: TransactionId,
) -> Result<bool, AllocError> {
    match read::<XorPeerAddress>(value) {
        Some(address) => push_address(line, address.addr(id)),
        None => Ok(false),
    }
}

pub fn push_software<A: Allocator + Copy>(
    line: &mut Line<A>,
    value: &[u8],
) -> Result<bool, AllocError> {
    let Some(software) = read::<Software>(value) else {
        return Ok(false);
    };
    push_quoted(line, software.software())?;
    Ok(true)
}

pub fn push_domain<A: Allocator + Copy>(
    line: &mut Line<A>,
    value: &[u8],
) -> Result<bool, AllocError> {
    let Some(alternate) = read::<AlternateDomain>(value) else {
        return Ok(false);
    };
    push_quoted(line, alternate.text())?;
    Ok(true)
}

/// Appends the name and the number of each attribute type of a list, or `none` if the list is
/// empty.
pub fn push_types<A: Allocator + Copy>(
    line: &mut Line<A>,
    value: &[u8],
) -> Result<bool, AllocError> {
    let Some(types) = read::<UnknownAttributes>(value) else {
        return Ok(false);
    };
    if types.is_empty() {
        line.push_str("none")?;
    }
    for i in 0..types.len() {
        if let Some(kind) = types.get(i) {
            if i > 0 {
                line.push_str(", ")?;
            }
            line.push_str(attribute_name(kind.value()))?;
            line.push_str(" 0x")?;
            push_digits(line, &kind.value().to_be_bytes())?;
        }
    }
    Ok(true)
}

/// Appends a 32-bit number, such as the number in PRIORITY.
pub fn push_number<A: Allocator + Copy>(
    line: &mut Line<A>,
    value: &[u8],
) -> Result<bool, AllocError> {
    let Some(priority) = read::<Priority>(value) else {
        return Ok(false);
    };
    line.push_number(u64::from(priority.number()))?;
    Ok(true)
}

/// Parses a 16-bit number, such as the number in RESPONSE-PORT.
fn short_in(value: &[u8]) -> Option<u16> {
    Some(read::<ResponsePort>(value)?.number())
}

/// Appends a 16-bit number.
pub fn push_short<A: Allocator + Copy>(
    line: &mut Line<A>,
    value: &[u8],
) -> Result<bool, AllocError> {
    let Some(number) = short_in(value) else {
        return Ok(false);
    };
    line.push_number(u64::from(number))?;
    Ok(true)
}

/// Appends a tie-breaker as hexadecimal digits.
pub fn push_tie_breaker<A: Allocator + Copy>(
    line: &mut Line<A>,
    value: &[u8],
) -> Result<bool, AllocError> {
    let Some(role) = read::<IceControlled>(value) else {
        return Ok(false);
    };
    push_digits(line, &role.tie_breaker().to_be_bytes())
}

pub fn push_flag<A: Allocator + Copy>(
    line: &mut Line<A>,
    value: &[u8],
) -> Result<bool, AllocError> {
    if read::<UseCandidate>(value).is_none() {
        return Ok(false);
    }
    line.push_str("set")?;
    Ok(true)
}

/// Appends a channel number in hexadecimal.
pub fn push_channel<A: Allocator + Copy>(
    line: &mut Line<A>,
    value: &[u8],
) -> Result<bool, AllocError> {
    let Some(number) = read::<ChannelNumber>(value) else {
        return Ok(false);
    };
    line.push_str("channel 0x")?;
    push_digits(line, &number.channel().to_be_bytes())
}

pub fn push_lifetime<A: Allocator + Copy>(
    line: &mut Line<A>,
    value: &[u8],
) -> Result<bool, AllocError> {
    let Some(lifetime) = read::<Lifetime>(value) else {
        return Ok(false);
    };
    line.push_number(u64::from(lifetime.number()))?;
    line.push_str(" seconds")?;
    Ok(true)
}

pub fn push_family<A: Allocator + Copy>(
    line: &mut Line<A>,
    value: &[u8],
) -> Result<bool, AllocError> {
    let Some(requested) = read::<RequestedAddressFamily>(value) else {
        return Ok(false);
    };
    line.push_str(family_name(requested.family()))?;
    Ok(true)
}

/// Returns the name of a family.
fn family_name(family: AddressFamily) -> &'static str
    ensures { has_line_feed result.now ≡ false }
{
    match family {
        AddressFamily::Ipv4 => "IPv4",
        AddressFamily::Ipv6 => "IPv6",
    }
}

/// Appends the family of an address that was not allocated, and the error code and the reason
/// phrase.
pub fn push_address_error<A: Allocator + Copy>(
    line: &mut Line<A>,
    value: &[u8],
) -> Result<bool, AllocError> {
    let Some(error) = read::<AddressErrorCode>(value) else {
        return Ok(false);
    };
    line.push_str(family_name(error.family()))?;
    line.push(' ')?;
    push_code(line, error.code(), error.reason())?;
    Ok(true)
}

/// Appends the type, the code and the data of an ICMP message.
pub fn push_icmp<A: Allocator + Copy>(
    line: &mut Line<A>,
    value: &[u8],
) -> Result<bool, AllocError> {
    let Some(icmp) = read::<Icmp>(value) else {
        return Ok(false);
    };
    line.push_str("type ")?;
    line.push_number(u64::from(icmp.icmp_type()))?;
    line.push_str(", code ")?;
    line.push_number(u64::from(icmp.code()))?;
    line.push_str(", data ")?;
    line.push_number(u64::from(icmp.error_data()))?;
    Ok(true)
}

/// Appends how many times a request and its response were sent.
pub fn push_transmissions<A: Allocator + Copy>(
    line: &mut Line<A>,
    value: &[u8],
) -> Result<bool, AllocError> {
    let Some(counter) = read::<TransactionTransmitCounter>(value) else {
        return Ok(false);
    };
    line.push_str("requests ")?;
    line.push_number(u64::from(counter.requests()))?;
    line.push_str(", responses ")?;
    line.push_number(u64::from(counter.responses()))?;
    Ok(true)
}

pub fn push_even_port<A: Allocator + Copy>(
    line: &mut Line<A>,
    value: &[u8],
) -> Result<bool, AllocError> {
    let Some(even) = read::<EvenPort>(value) else {
        return Ok(false);
    };
    if even.requested() {
        line.push_str("even, and the next reserved")?;
    } else {
        line.push_str("even")?;
    }
    Ok(true)
}

/// Appends the number of a protocol, and its name if it is UDP or TCP.
pub fn push_transport<A: Allocator + Copy>(
    line: &mut Line<A>,
    value: &[u8],
) -> Result<bool, AllocError> {
    let Some(requested) = read::<RequestedTransport>(value) else {
        return Ok(false);
    };
    let protocol = requested.protocol();
    match protocol {
        RequestedTransport::UDP => line.push_str("UDP ")?,
        RequestedTransport::TCP => line.push_str("TCP ")?,
        _ => line.push_str("protocol ")?,
    }
    line.push_number(u64::from(protocol))?;
    Ok(true)
}

pub fn push_token<A: Allocator + Copy>(
    line: &mut Line<A>,
    value: &[u8],
) -> Result<bool, AllocError> {
    let Some(reservation) = read::<ReservationToken>(value) else {
        return Ok(false);
    };
    push_digits(line, reservation.token())
}

pub fn push_change_request<A: Allocator + Copy>(
    line: &mut Line<A>,
    value: &[u8],
) -> Result<bool, AllocError> {
    let Some(request) = read::<ChangeRequest>(value) else {
        return Ok(false);
    };
    match (request.change_ip(), request.change_port()) {
        (true, true) => line.push_str("another address and another port")?,
        (true, false) => line.push_str("another address")?,
        (false, true) => line.push_str("another port")?,
        (false, false) => line.push_str("no change")?,
    }
    Ok(true)
}

pub fn push_response_port<A: Allocator + Copy>(
    line: &mut Line<A>,
    value: &[u8],
) -> Result<bool, AllocError> {
    let Some(port) = short_in(value) else {
        return Ok(false);
    };
    line.push_str("port ")?;
    line.push_number(u64::from(port))?;
    Ok(true)
}
