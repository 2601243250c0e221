//! STUN (RFC 8489) without I/O. You pass message bytes, addresses, times and random numbers, and
//! get the bytes to send, the time to wait until, and the user who signed a message. No call reads
//! a socket, a clock or a random number generator, and each function is proved to meet its
//! contract.
//!
//! Import this crate: it exports the crates below it under one name. It also has `replay`, which
//! runs a server, an agent, or a client and a server that authenticate each other, over a list of
//! calls, and returns the results.
//!
//! ```text
//!   socket --- bytes, from ---> types::message::Message::from_bytes
//!      ^                             |                    |
//!      |                         a response           a request
//!      |                             v                    v
//!      |              auth::LongTermClientAuth    auth::LongTermServerAuth      who signed?
//!      |                             |                    |
//!      |                      once it is accepted     accepted or refused
//!      |                             v                    v
//!      +---- Transmit --- agent::StunAgent        Message::builder_success, builder_error
//!                           |        ^                    |
//!              WaitUntil(time)       |                    +--- signed bytes ---> socket
//!                           v        |
//!                           clock ---+   poll_transmit, poll
//! ```
//!
//! The smallest program checks whether a message is signed with a password:
//!
//! ```text
//! let message = Message::from_bytes(&bytes)?;                  // or why they are not a message
//! let user = ShortTermCredentials::new(password);
//! let algorithm = message.validate_integrity(&user.into())?;   // Sha1 or Sha256, or an error
//! ```
//!
//! | Path | What it has |
//! |---|---|
//! | `types` | messages, attributes, writers, credentials, digests (the crate `stun_types`) |
//! | `agent` | requests: when they are retransmitted, and when they end |
//! | `auth` | who signed: short-term, long-term client, long-term server |
//! | `stats` | the statistics of an agent |
//! | `replay` | whole runs: `serve`, `negotiate`, `drive` |
//! | `laws` | laws of all runs, each as a function that does nothing or makes one call |
//! | `Instant` | a time, in nanoseconds since a start that the caller chooses |
#![tactic(auto)]

pub mod derives;
pub mod laws;
pub mod prelude;
pub mod replay;

pub use stun_agent::{agent, stats};
pub use stun_auth::auth;
pub use stun_base::instant::Instant;
pub use stun_types as types;
