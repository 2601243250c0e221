//! Why a message is refused under a nonce (RFC 8489, section 9.2.4).

use thiserror::Error;

/// Why a server refuses a message under a given nonce (RFC 8489, section 9.2.4). It has no variant
/// for a failed allocation, because judging under a given nonce does not allocate.
#[derive(Clone, Copy, Debug, PartialEq, Eq, Error)]
pub enum VerdictRefusal {
    /// Answer 401, which challenges the client. One of these applies:
    ///
    /// - There is no well-formed integrity attribute.
    /// - The message does not have the given nonce, and its security bits differ.
    /// - The user is not registered, or is named by a USERHASH while the realm does not accept
    ///   hashes.
    /// - The user has no key for the algorithm.
    /// - The signature is invalid.
    #[error("The message is not sufficiently authenticated")]
    Unauthorized,
    /// Answer 400, or 438 if `told_refusal` returns `StaleNonce` for it. REALM, NONCE or the user
    /// name is missing, or the algorithms disagree with those that were offered.
    #[error("The request message is not well-formed")]
    BadRequest,
    /// Answer 438. The message does not have the given nonce.
    #[error("The request presented with an out of date nonce.")]
    StaleNonce,
}
