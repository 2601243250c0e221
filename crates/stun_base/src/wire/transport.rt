//! The transport that messages are sent over.

ghost use Rattle.std.specs.Prelude.{Some};
ghost use Rattle.stun_base.specs.Transport.{transport_name};

use std::fmt;

/// The transport that messages are sent over. It is displayed as `UDP` or `TCP`.
#[derive(Clone, Copy, Debug, PartialEq, Eq, Hash)]
pub enum TransportType {
    /// Datagrams, which can be lost, so requests are retransmitted (RFC 8489, section 6.2.1).
    Udp,
    /// A reliable stream, over which each request is sent once (RFC 8489, section 6.2.2).
    Tcp,
}

impl fmt::Display for TransportType {
    ghost output = { λ transport. Some (transport_name transport) };

    // The options of the formatter, such as the width, do not change the text.
    ghost styled_output = { λ transport _. Some (transport_name transport) };

    fn fmt<W: fmt::Write>(&self, f: &mut fmt::Formatter<W>) -> fmt::Result {
        match self {
            TransportType::Udp => f.write_str("UDP"),
            TransportType::Tcp => f.write_str("TCP"),
        }
    }
}
