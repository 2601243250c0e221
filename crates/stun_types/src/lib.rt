//! STUN messages (RFC 8489) and their attributes.
#![tactic(auto)]

pub mod attribute;
pub mod data;
pub mod derives;
mod integrity;
pub mod laws;
pub mod limits;
pub mod message;
pub mod prelude;
mod write;

pub use stun_base::transport::TransportType;
