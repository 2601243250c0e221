//! The calls to a server, and its replies.

ghost use Rattle.std.specs.Prelude.{Some};
ghost use Rattle.std.specs.Fmt.{WritesOnOk, WritesStyledOnOk};
ghost use Rattle.stun_proto.specs.CallValues.{call_shown};

use std::alloc::{Allocator, Global};
use std::fmt;
use std::net::SocketAddr;
use std::time::Duration;
use stun_auth::auth::{Feature, LongTermServerAuthErrorReason};
use stun_base::algorithm::IntegrityAlgorithm;
use stun_base::error::{StunParseError, StunWriteError};
use stun_base::instant::Instant;

/// A call to a server. See [`serve`], which takes a list of calls.
///
/// `Debug` shows the name of the call but none of its arguments, because one of them can be a
/// password.
///
/// [`serve`]: crate::replay::serve
#[derive(Drop)]
#[derive_where(PartialEq, Eq)]
pub enum ServerCall {
    /// Validates a message that arrived.
    Validate {
        /// The address that the message came from.
        from: SocketAddr,
        /// The current time.
        now: Instant,
        /// The bytes of the message.
        message: Vec<u8>,
        /// The random numbers for a new nonce, if the server makes one.
        words: [u32; 16],
    },
    /// Signs a message: writes its attributes again, followed by the attributes that signing adds.
    Sign {
        /// The address that the message is for.
        to: SocketAddr,
        /// The bytes of the message.
        message: Vec<u8>,
    },
    /// Adds a user, or replaces the password of an existing one.
    AddUser {
        /// The name of the user.
        name: String,
        /// The password of the user.
        password: String,
    },
    /// Removes the user with this name.
    RemoveUser(String),
    /// Adds a supported algorithm.
    AddIntegrity(IntegrityAlgorithm),
    /// Makes this the only supported algorithm.
    SetIntegrity(IntegrityAlgorithm),
    /// Sets whether clients may send a hash (USERHASH) in place of the user name.
    SetAnonymous(Feature),
    /// Removes the client of this address, but not its nonce.
    RemoveClient(SocketAddr),
    /// Sets how long new nonces are valid.
    SetExpiry(Duration),
    /// Removes every record that has no client and whose nonce expired before this time.
    ForgetExpired(Instant),
    /// Removes the record of this address.
    Forget(SocketAddr),
}

impl fmt::Debug for ServerCall {
    ghost debug_output = { λ call. Some (call_shown call) };

    fn fmt<W: fmt::Write>(&self, f: &mut fmt::Formatter<W>) -> fmt::Result
        ensures writes { WritesOnOk W.write_str_gives f.old result (call_shown self.now) f.new }

        // The options of the formatter, such as the width, do not change the text.
        ensures styled { WritesStyledOnOk W.write_str_gives f.old result
            (call_shown self.now) f.new }
    {
        match self {
            ServerCall::Validate { .. } => f.write_str("Validate { .. }"),
            ServerCall::Sign { .. } => f.write_str("Sign { .. }"),
            ServerCall::AddUser { .. } => f.write_str("AddUser { .. }"),
            ServerCall::RemoveUser(_) => f.write_str("RemoveUser(..)"),
            ServerCall::AddIntegrity(_) => f.write_str("AddIntegrity(..)"),
            ServerCall::SetIntegrity(_) => f.write_str("SetIntegrity(..)"),
            ServerCall::SetAnonymous(_) => f.write_str("SetAnonymous(..)"),
            ServerCall::RemoveClient(_) => f.write_str("RemoveClient(..)"),
            ServerCall::SetExpiry(_) => f.write_str("SetExpiry(..)"),
            ServerCall::ForgetExpired(_) => f.write_str("ForgetExpired(..)"),
            ServerCall::Forget(_) => f.write_str("Forget(..)"),
        }
    }
}

/// The reply of a server to a call.
#[derive(Drop)]
#[derive_where(Debug, PartialEq, Eq)]
pub enum ServerReply<A: Allocator = Global> {
    /// The bytes are not a STUN message, for this reason.
    NotAMessage(StunParseError),
    /// The message was validated, with this algorithm.
    Validated(IntegrityAlgorithm),
    /// The message was refused, for this reason, which is never `OutOfMemory`.
    Refused(LongTermServerAuthErrorReason),
    /// The signed message.
    Signed(Vec<u8, A>),
    /// The message could not be written or signed, for this reason, which is never `OutOfMemory`.
    SignRefused(StunWriteError),
    /// The call was made, and has no other result.
    Done,
    /// The nonce lifetime in the call is less than 30 seconds, so the call was not made.
    TooShort,
}
