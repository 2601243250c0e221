//! The result of polling a client: a message to send, a request that has ended, or a time to wait
//! until.

use crate::asked::End;
use std::alloc::{Allocator, Global};
use stun_base::instant::Instant;

/// The next thing to do, as `ClientEndpoint::poll` returns it.
#[derive(Drop)]
pub enum Polled<A: Allocator = Global> {
    /// Send the bytes of the request with this number to the server (see
    /// `ClientEndpoint::bytes_of`).
    Transmit(u64),
    /// The request with this number has ended, with this outcome.
    Ended(u64, End<A>),
    /// Wait until a datagram arrives, or until this time. The time is `None` if no request is
    /// outstanding.
    Wait(Option<Instant>),
}
