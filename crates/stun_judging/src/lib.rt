//! Judges messages that are signed with long-term credentials (RFC 8489, section 9.2).
//!
//! A `Realm` has users with their keys. It makes nonces, judges a message under a nonce, and adds a
//! challenge to a response. A `ReadMessage` is a message whose attributes were read once, so that
//! it can be judged under several nonces. The other modules read the security bits of nonces, and
//! add the attributes that a client and a server send with a signature.
//!
//! No type of this crate stores anything about an address or about a message that was judged
//! before. The crate `stun_auth` has authenticators that store such records, and the crate
//! `stun_endpoint` has a server that needs no records.
#![tactic(auto)]

pub mod accepted;
pub mod addition;
pub mod algorithm_set;
mod claim;
pub mod derives;
pub mod feature;
pub mod found;
pub mod laws;
pub mod letters;
pub mod limited_text;
mod name_index;
pub mod named_user;
pub mod naming;
pub mod nonce;
pub mod read_message;
mod reading;
pub mod realm;
pub mod refusal;
mod registry;
pub mod stored_keys;
pub mod told;
pub mod user;
mod user_secret;
mod users_at;
mod verdict;
