//! The fields of a message (RFC 8489, sections 5 and 18), and the values that are passed with
//! messages: times, transports, random numbers and errors.

pub mod attribute_type;
pub mod data;
pub mod error;
pub mod header;
pub mod instant;
pub mod message_type;
pub mod transaction_id;
pub mod transport;
pub mod words;
