//! The user whom a message names.

/// The user whose key is needed to verify a message: named by USERNAME, or by the hash of the name
/// at the realm (USERHASH).
#[derive(Clone, Copy, Debug, PartialEq, Eq)]
pub enum NamedUser<'a> {
    /// The user with this name (USERNAME, RFC 8489, section 14.3).
    ByName(&'a str),
    /// The user whose name has this hash at the realm (USERHASH, RFC 8489, section 14.4).
    /// `Userhash::compute` computes this hash from name and realm, so a database can store it.
    ByHash([u8; 32]),
}
