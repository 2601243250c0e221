//! HMACs, the keys of HMACs, and the credentials that keys are derived from (RFC 8489, sections 9
//! and 14.5; RFC 2104).

pub mod algorithm;
pub(crate) mod begun_hash;
pub mod compare;
pub mod credentials;
pub(crate) mod hash;
pub mod hmac;
pub mod key;
pub(crate) mod no_memory;
pub mod prepared_key;
pub(crate) mod short_text;
