//! The state that an agent stores between calls: the outstanding requests, each with its timeouts.

pub(crate) mod address;
pub(crate) mod outstanding;
pub(crate) mod rto;
mod search;
pub(crate) mod timeouts;
pub(crate) mod transaction;
mod tree;
