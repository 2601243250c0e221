//! Writes the values of attributes as text.
ghost use Rattle.std.specs.Prelude.{◌≡◌};

use crate::algorithms::{push_algorithm, push_algorithms};
use crate::further_value::{
    push_address_error, push_change_request, push_channel, push_domain, push_even_port,
    push_family, push_flag, push_icmp, push_lifetime, push_number, push_plain_address,
    push_response_port, push_short, push_software, push_tie_breaker, push_token,
    push_transmissions, push_transport, push_types, push_xored_address,
};
use crate::registry::{Form, error_name};
use std::alloc::{AllocError, Allocator};
use std::net::SocketAddr;
use stun_cli::line::Line;
use stun_judging::nonce::NonceSecurityBits;
use stun_types::attribute::{ErrorCode, RawAttribute};
use stun_types::message::TransactionId;
use stun_types::prelude::{AttributeFromRaw, AttributeStaticType};

/// Parses an attribute from its value. Returns `None` if the value is malformed.
pub fn read<'a, T: AttributeFromRaw<'a> + AttributeStaticType>(value: &'a [u8]) -> Option<T>
    ensures { result ≡ T.reading (record { kind = T.static_kind; value = value.now }) }
{
    match T::from_raw(RawAttribute::new(T::static_type(), value)) {
        Ok(attribute) => Some(attribute),
        Err(_) => None,
    }
}

/// Appends a value in this form, or as hexadecimal digits if the value is malformed. Fails if an
/// allocation fails.
pub fn push_value<A: Allocator + Copy>(
    line: &mut Line<A>,
    form: Form,
    value: &[u8],
    id: TransactionId,
) -> Result<(), AllocError> {
    if !push_form(line, form, value, id)? {
        line.push_str("malformed ")?;
        push_digits(line, value)?;
    }
    Ok(())
}

/// Appends a value in this form. Returns `false`, and appends nothing, if the value is malformed.
fn push_form<A: Allocator + Copy>(
    line: &mut Line<A>,
    form: Form,
    value: &[u8],
    id: TransactionId,
) -> Result<bool, AllocError> {
    match form {
        Form::Address => push_plain_address(line, value),
        Form::XorAddress => push_xored_address(line, value, id),
        Form::Text => push_text(line, value),
        Form::Software => push_software(line, value),
        Form::Domain => push_domain(line, value),
        Form::Nonce => push_nonce(line, value),
        Form::Error => push_error(line, value),
        Form::Types => push_types(line, value),
        Form::Algorithm => push_algorithm(line, value),
        Form::Algorithms => push_algorithms(line, value),
        Form::Sha1 | Form::Sha256 | Form::Userhash => {
            Ok(has_length_of(form, value.len()) && push_digits(line, value)?)
        }
        Form::Number => push_number(line, value),
        Form::Short => push_short(line, value),
        Form::TieBreaker => push_tie_breaker(line, value),
        Form::Flag => push_flag(line, value),
        Form::Channel => push_channel(line, value),
        Form::Lifetime => push_lifetime(line, value),
        Form::Family => push_family(line, value),
        Form::EvenPort => push_even_port(line, value),
        Form::Transport => push_transport(line, value),
        Form::Token => push_token(line, value),
        Form::AddressError => push_address_error(line, value),
        Form::Icmp => push_icmp(line, value),
        Form::Transmissions => push_transmissions(line, value),
        Form::ChangeRequest => push_change_request(line, value),
        Form::ResponsePort => push_response_port(line, value),
        Form::Bytes => push_digits(line, value),
    }
}

/// Appends bytes as hexadecimal digits, or `empty` if there are none.
pub fn push_digits<A: Allocator + Copy>(
    line: &mut Line<A>,
    bytes: &[u8],
) -> Result<bool, AllocError> {
    if bytes.is_empty() {
        line.push_str("empty")?;
    }
    for byte in bytes {
        line.push_byte(*byte)?;
    }
    Ok(true)
}

/// Appends a text in quotes. Every character that is not printable ASCII becomes `\u{..}`, so that
/// no text can control a terminal.
pub fn push_quoted<A: Allocator + Copy>(
    line: &mut Line<A>,
    quoted: &str,
) -> Result<(), AllocError> {
    line.push('"')?;
    for character in quoted.chars() {
        match character {
            '"' | '\\' => {
                line.push('\\')?;
                line.push(character)?;
            }
            ' '..='~' => line.push(character)?,
            other => {
                line.push_str("\\u{")?;
                line.push_hexadecimal(u32::from(other))?;
                line.push('}')?;
            }
        }
    }
    line.push('"')
}

/// Returns whether the value of a signature or a hash of this form may have this length.
fn has_length_of(form: Form, length: usize) -> bool {
    match form {
        Form::Sha1 => length == 20,
        Form::Sha256 => 16 <= length && length <= 32 && length % 4 == 0,
        _ => length == 32,
    }
}

fn push_text<A: Allocator + Copy>(line: &mut Line<A>, value: &[u8]) -> Result<bool, AllocError> {
    let Ok(quoted) = str::from_utf8(value) else {
        return Ok(false);
    };
    push_quoted(line, quoted)?;
    Ok(true)
}

fn push_nonce<A: Allocator + Copy>(line: &mut Line<A>, value: &[u8]) -> Result<bool, AllocError> {
    let Ok(nonce) = str::from_utf8(value) else {
        return Ok(false);
    };
    push_quoted(line, nonce)?;
    line.push_str(", ")?;
    push_security_bits(line, nonce)?;
    Ok(true)
}

/// Appends a description of a nonce's security bits (RFC 8489, sections 9.2 and 18.1).
pub fn push_security_bits<A: Allocator + Copy>(
    line: &mut Line<A>,
    nonce: &str,
) -> Result<(), AllocError> {
    let Some(bits) = NonceSecurityBits::from_nonce(nonce) else {
        return line.push_str("no security bits");
    };
    line.push_str("security bits ")?;
    push_digits(line, &bits.bytes())?;
    match (bits.password_algorithms(), bits.username_anonymity()) {
        (true, true) => line.push_str(": password algorithms, username anonymity"),
        (true, false) => line.push_str(": password algorithms"),
        (false, true) => line.push_str(": username anonymity"),
        (false, false) => line.push_str(": none that is known"),
    }
}

/// Appends an address and a port.
pub fn push_address<A: Allocator + Copy>(
    line: &mut Line<A>,
    address: SocketAddr,
) -> Result<bool, AllocError> {
    line.push_address(address)?;
    Ok(true)
}

fn push_error<A: Allocator + Copy>(line: &mut Line<A>, value: &[u8]) -> Result<bool, AllocError> {
    let Some(error) = read::<ErrorCode>(value) else {
        return Ok(false);
    };
    push_code(line, error.code(), error.reason())?;
    Ok(true)
}

/// Appends a code with its name, and a reason phrase in quotes.
pub fn push_code<A: Allocator + Copy>(
    line: &mut Line<A>,
    code: u16,
    reason: &str,
) -> Result<(), AllocError> {
    line.push_number(u64::from(code))?;
    line.push(' ')?;
    line.push_str(error_name(code))?;
    line.push_str(", ")?;
    push_quoted(line, reason)
}
