//! Parts of STUN in addition to its core: FINGERPRINT, unknown attributes and messages in streams
//! (RFC 8489), and further attributes of STUN, of ICE (RFC 8445) and of TURN (RFC 8656).
#![tactic(auto)]

pub mod attribute;
pub mod canonical_address;
pub mod crc32;
pub mod fingerprint;
pub mod framing;
pub mod laws;
mod told;
pub mod turn;
pub mod unknown;
