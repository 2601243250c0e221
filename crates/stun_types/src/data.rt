//! Bytes that are borrowed or owned, and values that contain bytes.

pub use stun_base::data::{Data, OwnedBytes};
