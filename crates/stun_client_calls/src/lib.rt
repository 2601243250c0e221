//! A client of one server: the state of its outstanding requests, each of which may have several
//! messages, and how another message becomes the current one (RFC 8489, sections 5, 6.2.1 and
//! 9.2.5).
//!
//! A *message* of a request has one transaction ID, and may be sent several times. A request has a
//! message for each challenge that it answers, and may have an unsigned message. The message that
//! was sent last is the *current* one, and is retransmitted by its timer. The others are *earlier*
//! messages. They are no longer sent, but a response to one of them may still end the request.
//!
//! `asked` has the state of a request, and `options` the settings of the client that a single
//! request may override. `deciding` decides what happens after a response to a message, and
//! `turning` has the reasons why another message becomes the current one. `ids` finds the
//! transaction ID of the next message, and `writing` writes its bytes. `endpoint` is the client of
//! one server, built from these modules.
//!
//! `seatcrane_stun::endpoint::Client` in Rust and the calls of a client in C are built on
//! `ClientEndpoint`.
#![tactic(auto)]

pub mod asked;
pub mod deciding;
pub mod endpoint;
pub mod ids;
pub mod laws;
pub mod options;
pub mod told;
pub mod turning;
pub mod writing;
