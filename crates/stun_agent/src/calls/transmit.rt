//! The data that an agent returns for its caller to send, with the transport and the addresses.
ghost use Rattle.std.specs.Prelude.{◌≡◌, length, IsOk, IfOk, Ok, Some};
ghost use Rattle.stun_base.specs.Data.{IsOwned};

use std::alloc::AllocError;
use std::fmt;
use std::net::SocketAddr;
use stun_base::data::{Data, OwnedBytes};
use stun_base::memory::Memory;
use stun_base::transport::TransportType;

/// Bytes to send, with the transport to send them over and the addresses to send them from and to.
///
/// `StunAgent` returns a `Transmit` when a message must be sent. Sending it is up to you, because
/// an agent has no sockets.
#[derive(Debug, Drop)]
pub struct Transmit<T: OwnedBytes> {
    /// The bytes to send, borrowed or owned.
    pub data: T,
    /// The transport to send them over.
    pub transport: TransportType,
    /// The address to send them from.
    pub from: SocketAddr,
    /// The address to send them to.
    pub to: SocketAddr,
}

impl<T: OwnedBytes> Transmit<T> {
    ghost use Rattle.stun_agent.specs.Datagrams.{parts};

    /// Creates a `Transmit` from its four parts.
    pub fn new(data: T, transport: TransportType, from: SocketAddr, to: SocketAddr) -> Self
        ensures { parts result ≡ («data», transport, from, to) }
    {
        Transmit {
            data,
            transport,
            from,
            to,
        }
    }

    /// Replaces the data with the result of a closure, and keeps the transport and the addresses.
    pub fn reinterpret_data<O: OwnedBytes, F: FnOnce(T) -> O>(self, f: F) -> Transmit<O>
        requires { F.pre f (parts self).0 }
        ensures made { F.post f (parts self).0 (parts result).0 }
        ensures transport { (parts result).1 ≡ (parts self).1 }
        ensures from { (parts result).2 ≡ (parts self).2 }
        ensures to { (parts result).3 ≡ (parts self).3 }
    {
        let Transmit {
            data,
            transport,
            from,
            to,
        } = self;
        Transmit::new(f(data), transport, from, to)
    }
}

impl<'a, A: Memory> Transmit<Data<'a, A>> {
    ghost use Rattle.stun_agent.specs.Datagrams.{parts, datagram};

    /// Converts the bytes to owned bytes.
    ///
    /// Borrowed bytes are copied into memory from `alloc`. Owned bytes are moved, which does not
    /// allocate. The call fails only if its allocation fails, and the `Transmit` is then dropped.
    pub fn into_owned<'b>(self, alloc: A) -> Result<Transmit<Data<'b, A>>, AllocError>
        ensures same { IfOk result (λ owned. datagram owned ≡ datagram self.entry) }
        ensures owned { IfOk result (λ owned. IsOwned (parts owned).0) }
        ensures moves { IsOwned (parts self.entry).0 → IsOk result }
        ensures itself { IsOwned (parts self.entry).0 → result ≡ Ok self.entry }
        ensures granted { A.grants → IsOk result }
    {
        let Transmit {
            data,
            transport,
            from,
            to,
        } = self;
        Ok(Transmit::new(data.into_owned(alloc)?, transport, from, to))
    }
}

/// Displays everything but the bytes, for example as
/// `Transmit(UDP: 10.0.0.1:3478 -> 10.0.0.2:3478 of 20 bytes)`.
impl<T: OwnedBytes> fmt::Display for Transmit<T> {
    ghost use Rattle.stun_agent.specs.Datagrams.{text_of_datagram};

    ghost output = { λ t. Some (text_of_datagram t.transport t.from t.to
        (length (T.contents t.«data»))) };

    fn fmt<W: fmt::Write>(&self, f: &mut fmt::Formatter<W>) -> fmt::Result {
        let count = self.data.bytes().len();
        write!(
            f,
            "Transmit({}: {} -> {} of {} bytes)",
            self.transport, self.from, self.to, count
        )
    }
}
