//! Parses numbers in the byte order of a capture.
ghost use Rattle.std.specs.Prelude.{◌≡◌, ◌+◌, ◌<◌, IfSome, IfNone, drop, length};
ghost use Rattle.captures.specs.Numbers.{number_in};

use byteorder::{BigEndian, ByteOrder, LittleEndian};

/// The order of the bytes of a number.
#[derive(Clone, Copy)]
pub enum Order {
    Big,
    Little,
}

/// Parses the 16-bit number at an offset. Returns `None` if the bytes end before it does.
pub fn number_16(order: Order, bytes: &[u8], place: usize) -> Option<u16>
    ensures none { IfNone result (length bytes.now < place + 2) }
    ensures some { IfSome result (λ number. number ≡ number_in order 2 (drop place bytes.now)) }
{
    let bytes = bytes.get(place..)?;
    if bytes.len() < 2 {
        return None;
    }
    Some(match order {
        Order::Big => BigEndian::read_u16(bytes),
        Order::Little => LittleEndian::read_u16(bytes),
    })
}

/// Parses the 32-bit number at an offset. Returns `None` if the bytes end before it does.
pub fn number_32(order: Order, bytes: &[u8], place: usize) -> Option<u32>
    ensures none { IfNone result (length bytes.now < place + 4) }
    ensures some { IfSome result (λ number. number ≡ number_in order 4 (drop place bytes.now)) }
{
    let bytes = bytes.get(place..)?;
    if bytes.len() < 4 {
        return None;
    }
    Some(match order {
        Order::Big => BigEndian::read_u32(bytes),
        Order::Little => LittleEndian::read_u32(bytes),
    })
}

/// Parses the 32-bit number at an offset as a count of bytes.
pub fn count_32(order: Order, bytes: &[u8], place: usize) -> Option<usize>
    ensures none { IfNone result (length bytes.now < place + 4) }
    ensures some { IfSome result (λ number. number ≡ number_in order 4 (drop place bytes.now)) }
{
    let number = number_32(order, bytes, place)?;
    Some(number as usize)
}
