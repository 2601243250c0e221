//! The greatest lengths of a message and of its texts, in bytes.

/// The greatest number of bytes of a REALM, of a NONCE, and of the reason phrase of an ERROR-CODE
/// (RFC 8489, sections 14.8 to 14.10). A sender must stay below 128 characters, which are at most
/// 509 bytes, but no call checks that.
pub const TEXT_LIMIT: usize = 763;

/// The greatest number of bytes of a USERNAME. The crate `stun-types`, which this library ports,
/// has the same limit. RFC 8489, section 14.3, allows a sender fewer than 509 bytes, and requires a
/// receiver to accept up to 763 bytes. This library treats a USERNAME of more than 513 bytes as
/// malformed.
pub const USERNAME_LIMIT: usize = 513;

/// The greatest value of the length field of a message: the greatest multiple of 4 that fits in 16
/// bits (RFC 8489, section 5).
pub const MAX_LENGTH: usize = 65532;

/// The greatest number of bytes of a message: 20 bytes of header and `MAX_LENGTH` bytes after it.
pub const LENGTH_LIMIT: usize = 65552;
