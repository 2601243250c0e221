//! The calls of an agent, except `poll`: sending, receiving, retransmissions, and the handles to
//! requests. When these calls search the requests, nothing is counted (see `uncounted`).

pub(crate) mod builder;
pub(crate) mod receive;
pub(crate) mod request;
pub(crate) mod resend;
pub(crate) mod send;
pub(crate) mod table;
pub(crate) mod transmit;
pub(crate) mod uncounted;
