//! CRC-32 (ITU-T V.42, section 8.1.1.6.2; RFC 1952, section 8), eight bytes at a time.
ghost use Rattle.std.specs.Prelude.{◌≡◌, ◌<◌, fold};
ghost use Rattle.stun_extra.specs.Crc32.{after_byte, crc32};
ghost use Rattle.stun_extra.specs.code.Crc32.{after_zeros};

/// Computes the CRC-32 of bytes.
///
/// # Examples
///
/// ```
/// use seatcrane_stun::extra::crc32;
///
/// assert_eq!(crc32(b"123456789"), 0xcbf4_3926); // the check value of this CRC
/// ```
pub fn crc32(bytes: &[u8]) -> u32
    ensures { result ≡ crc32 bytes.now }
{
    let mut remainder: u32 = 0xFFFF_FFFF;
    let mut left = bytes;
    while let Some((eight, rest)) = left.split_first_chunk::<8>() {
        remainder = update_eight(remainder, eight);
        left = rest;
    }
    for byte in left {
        remainder = update_byte(remainder, *byte);
    }
    remainder ^ 0xFFFF_FFFF
}

/// Returns the remainder after the bits of eight more bytes.
///
/// First, the four bytes of the remainder so far are XORed with the first four of the eight bytes.
/// Because the division is linear, the result is then the XOR of eight remainders, one for each of
/// the eight bytes: the remainder after this byte, followed by as many zero bytes as there are
/// bytes after it.
fn update_eight(remainder: u32, bytes: &[u8; 8]) -> u32
    ensures { result ≡ fold after_byte remainder bytes.now }
{
    let [a, b, c, d, e, f, g, h] = *bytes;
    let [p, q, r, s] = remainder.to_le_bytes();
    look_up(0, h)
        ^ look_up(1, g)
        ^ look_up(2, f)
        ^ look_up(3, e)
        ^ look_up(4, s ^ d)
        ^ look_up(5, r ^ c)
        ^ look_up(6, q ^ b)
        ^ look_up(7, p ^ a)
}

/// Returns the remainder after the bits of one more byte.
fn update_byte(remainder: u32, byte: u8) -> u32
    ensures { result ≡ after_byte remainder byte }
{
    remainder / 256 ^ look_up(0, (remainder % 256) as u8 ^ byte)
}

/// Returns the remainder after the bits of a single byte, followed by `zeros` zero bytes.
fn look_up(zeros: usize, byte: u8) -> u32
    requires { zeros < 8 }
    ensures { result ≡ after_zeros zeros (after_byte 0 byte) }
{
    TABLES[zeros][usize::from(byte)]
}

/// Makes a table of 256 entries from the entries of the eight bytes that have a single bit set, the
/// lowest bit first. The entry of any byte is the XOR of the entries of its bits.
macro_rules! table {
    ([$($entry:expr),*]) => {
        [$($entry),*]
    };
    ([$($entry:expr),*] $bit:literal $($higher:literal)*) => {
        table!([$($entry,)* $($entry ^ $bit),*] $($higher)*)
    };
}

/// The remainder after each byte, followed by 0 to 7 zero bytes: `TABLES[zeros][byte]`.
#[rattlefmt::skip]
static TABLES: [[u32; 256]; 8] = [
    table!([0] 0x77073096 0xEE0E612C 0x076DC419 0x0EDB8832
        0x1DB71064 0x3B6E20C8 0x76DC4190 0xEDB88320),
    table!([0] 0x191B3141 0x32366282 0x646CC504 0xC8D98A08
        0x4AC21251 0x958424A2 0xF0794F05 0x3B83984B),
    table!([0] 0x01C26A37 0x0384D46E 0x0709A8DC 0x0E1351B8
        0x1C26A370 0x384D46E0 0x709A8DC0 0xE1351B80),
    table!([0] 0xB8BC6765 0xAA09C88B 0x8F629757 0xC5B428EF
        0x5019579F 0xA032AF3E 0x9B14583D 0xED59B63B),
    table!([0] 0x3D6029B0 0x7AC05360 0xF580A6C0 0x30704BC1
        0x60E09782 0xC1C12F04 0x58F35849 0xB1E6B092),
    table!([0] 0xCB5CD3A5 0x4DC8A10B 0x9B914216 0xEC53826D
        0x03D6029B 0x07AC0536 0x0F580A6C 0x1EB014D8),
    table!([0] 0xA6770BB4 0x979F1129 0xF44F2413 0x33EF4E67
        0x67DE9CCE 0xCFBD399C 0x440B7579 0x8816EAF2),
    table!([0] 0xCCAA009E 0x4225077D 0x844A0EFA 0xD3E51BB5
        0x7CBB312B 0xF9766256 0x299DC2ED 0x533B85DA),
];
