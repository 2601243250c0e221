//! Further attributes: of STUN (RFC 8489, section 14), of ICE (RFC 8445, section 16.1), of TURN
//! (RFC 8656, section 18; RFC 6062; RFC 8016), of third-party authorization (RFC 7635), of ECN (RFC
//! 6679), of counting the transmissions of a transaction (RFC 7982), and of NAT behavior discovery
//! (RFC 5780, section 7). The attributes that calls of this library read or write are in
//! `stun_extra`.
//!
//! Attributes whose values have the same form are aliases of one type, such as [`Number`]. Every
//! other attribute has a file of its own.
#![tactic(auto)]

ghost use Rattle.std.specs.Prelude.{◌≡◌, [], ◌∷◌};
ghost use Rattle.stun_attributes.specs.AttributeTypes.{ACCESS_TOKEN, ADDITIONAL_ADDRESS_FAMILY};
ghost use Rattle.stun_attributes.specs.AttributeTypes.{ALTERNATE_DOMAIN, ALTERNATE_SERVER};
ghost use Rattle.stun_attributes.specs.AttributeTypes.{CONNECTION_ID, DATA, DONT_FRAGMENT};
ghost use Rattle.stun_attributes.specs.AttributeTypes.{ECN_CHECK, LIFETIME, MAPPED_ADDRESS};
ghost use Rattle.stun_attributes.specs.AttributeTypes.{MOBILITY_TICKET, OTHER_ADDRESS, PADDING};
ghost use Rattle.stun_attributes.specs.AttributeTypes.{REQUESTED_ADDRESS_FAMILY, RESPONSE_ORIGIN};
ghost use Rattle.stun_attributes.specs.AttributeTypes.{RESPONSE_PORT, THIRD_PARTY_AUTHORIZATION};
ghost use Rattle.stun_attributes.specs.AttributeTypes.{XOR_RELAYED_ADDRESS};

mod address;
mod address_error_code;
mod address_family;
mod bytes;
mod change_request;
mod even_port;
mod icmp;
mod reservation_token;
mod short;
mod transmit_counter;

pub use address::PlainAddress;
pub use address_error_code::AddressErrorCode;
pub use address_family::{AddressFamily, Family};
pub use bytes::Bytes;
pub use change_request::ChangeRequest;
pub use even_port::EvenPort;
pub use icmp::Icmp;
pub use reservation_token::ReservationToken;
pub use short::Short;
pub use stun_extra::attribute::{
    AlgorithmEntries, AlgorithmEntry, AlgorithmList, ChannelNumber, Flag, IceControlled,
    IceControlling, Number, Priority, RequestedTransport, Software, Text, TieBreaker, UseCandidate,
    XorAddress, XorPeerAddress,
};
use stun_types::prelude::*;
pub use transmit_counter::TransactionTransmitCounter;

/// The largest number of bytes of an ALTERNATE-DOMAIN (RFC 8489, section 14.16).
pub const DOMAIN_LIMIT: usize = 255;

/// The largest number of bytes of any value (RFC 8489, section 14).
const VALUE_LIMIT: usize = 65535;

/// MAPPED-ADDRESS (RFC 8489, section 14.1): the address that a request came from, not XORed.
pub type MappedAddress = PlainAddress<0x0001>;

/// ALTERNATE-SERVER (RFC 8489, section 14.15): the server that a client should try instead.
pub type AlternateServer = PlainAddress<0x8023>;

/// ALTERNATE-DOMAIN (RFC 8489, section 14.16): the domain name of the server in ALTERNATE-SERVER,
/// which the TLS certificate of that server must contain. The name has at most 255 bytes. No call
/// checks that it is a domain name.
pub type AlternateDomain<'a> = Text<'a, 0x8003, DOMAIN_LIMIT>;

/// LIFETIME (RFC 8656, section 18.2): the number of seconds after which an allocation expires if it
/// is not refreshed.
pub type Lifetime = Number<0x000D>;

/// DATA (RFC 8656, section 18.4): the data of a datagram to or from a peer, borrowed.
pub type Data<'a> = Bytes<'a, 0x0013>;

/// XOR-RELAYED-ADDRESS (RFC 8656, section 18.5): the address that a server has allocated for a
/// client, XORed as in XOR-MAPPED-ADDRESS.
pub type XorRelayedAddress = XorAddress<0x0016>;

/// REQUESTED-ADDRESS-FAMILY (RFC 8656, section 18.6): the family of the address that a client asks
/// a server to allocate.
pub type RequestedAddressFamily = Family<0x0017>;

/// DONT-FRAGMENT (RFC 8656, section 18.9): asks the server to set the DF bit in the datagrams that
/// it sends to the peer. It has no value.
pub type DontFragment = Flag<0x001A>;

/// ADDITIONAL-ADDRESS-FAMILY (RFC 8656, section 18.11): in an Allocate request, the family of a
/// second relayed address, in addition to an IPv4 address.
///
/// Only IPv6 is allowed. This type can also be IPv4, so that a server can answer IPv4 with error
/// 400 (section 7.2).
pub type AdditionalAddressFamily = Family<0x8000>;

/// CONNECTION-ID (RFC 6062, section 6.2.1): the number of a TCP connection to a peer of a TURN
/// client.
pub type ConnectionId = Number<0x002A>;

/// MOBILITY-TICKET (RFC 8016, section 3.3): the ticket by which a TURN server recognizes an
/// allocation after the address of its client has changed. To request a ticket, a client sends the
/// attribute with an empty value.
pub type MobilityTicket<'a> = Bytes<'a, 0x8030>;

/// THIRD-PARTY-AUTHORIZATION (RFC 7635, section 6.1): the name of the STUN server, which a client
/// passes to an authorization server when it requests a token.
pub type ThirdPartyAuthorization<'a> = Text<'a, 0x802E, VALUE_LIMIT>;

/// ACCESS-TOKEN (RFC 7635, section 6.2): the token that an authorization server has issued. Only
/// the STUN server can decrypt it.
pub type AccessToken<'a> = Bytes<'a, 0x001B>;

/// ECN-CHECK (RFC 6679, section 7.2.2): the two bits of the ECN field with which a request arrived.
/// The server returns them in its response. The lowest bit is 1 if these two bits are valid, and
/// all other bits are reserved.
pub type EcnCheck = Number<0x802D>;

/// RESPONSE-ORIGIN (RFC 5780, section 7.3): the address that a response was sent from.
pub type ResponseOrigin = PlainAddress<0x802B>;

/// OTHER-ADDRESS (RFC 5780, section 7.4): the address and the port from which a server responds if
/// a client asks for both a different address and a different port.
pub type OtherAddress = PlainAddress<0x802C>;

/// RESPONSE-PORT (RFC 5780, section 7.5): the port, at the address of the client, to which a server
/// should send its response.
pub type ResponsePort = Short<0x0027>;

/// PADDING (RFC 5780, section 7.6): bytes without a meaning, which make a message long enough to be
/// sent in fragments.
pub type Padding<'a> = Bytes<'a, 0x0026>;

/// Returns the attribute types of the aliases above, in the order of the aliases.
pub fn types() -> [u16; 18]
    ensures { result
        ≡ MAPPED_ADDRESS ∷ ALTERNATE_SERVER ∷ ALTERNATE_DOMAIN ∷ LIFETIME ∷ DATA ∷
        XOR_RELAYED_ADDRESS ∷ REQUESTED_ADDRESS_FAMILY ∷ DONT_FRAGMENT ∷ ADDITIONAL_ADDRESS_FAMILY ∷
        CONNECTION_ID ∷ MOBILITY_TICKET ∷ THIRD_PARTY_AUTHORIZATION ∷ ACCESS_TOKEN ∷ ECN_CHECK ∷
        RESPONSE_ORIGIN ∷ OTHER_ADDRESS ∷ RESPONSE_PORT ∷ PADDING ∷ [] }
{
    [
        MappedAddress::static_type().value(),
        AlternateServer::static_type().value(),
        AlternateDomain::static_type().value(),
        Lifetime::static_type().value(),
        Data::static_type().value(),
        XorRelayedAddress::static_type().value(),
        RequestedAddressFamily::static_type().value(),
        DontFragment::static_type().value(),
        AdditionalAddressFamily::static_type().value(),
        ConnectionId::static_type().value(),
        MobilityTicket::static_type().value(),
        ThirdPartyAuthorization::static_type().value(),
        AccessToken::static_type().value(),
        EcnCheck::static_type().value(),
        ResponseOrigin::static_type().value(),
        OtherAddress::static_type().value(),
        ResponsePort::static_type().value(),
        Padding::static_type().value(),
    ]
}
