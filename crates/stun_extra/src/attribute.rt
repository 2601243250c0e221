//! Further attributes that calls of this library read or write: SOFTWARE and PASSWORD-ALGORITHMS of
//! STUN (RFC 8489, section 14), the attributes of ICE (RFC 8445, section 16.1), and CHANNEL-NUMBER,
//! XOR-PEER-ADDRESS and REQUESTED-TRANSPORT of TURN (RFC 8656, section 18). All other attributes
//! are in `stun_attributes`.
//!
//! Attributes whose values have the same form are aliases of one type, such as [`Number`]. Every
//! other attribute has a file of its own.
ghost use Rattle.std.specs.Prelude.{◌≡◌, ◌≤◌, [], ◌∷◌, length};
ghost use Rattle.stun_types.specs.Limits.{TEXT_LIMIT};
ghost use Rattle.stun_extra.specs.AttributeTypes.{ICE_CONTROLLED, ICE_CONTROLLING, PRIORITY};
ghost use Rattle.stun_extra.specs.AttributeTypes.{SOFTWARE, USE_CANDIDATE, XOR_PEER_ADDRESS};

mod algorithm_list;
mod channel_number;
mod flag;
mod number;
mod requested_transport;
mod text;
mod tie_breaker;
mod xored;

pub use algorithm_list::{AlgorithmEntries, AlgorithmEntry, AlgorithmList};
pub use channel_number::ChannelNumber;
pub use flag::Flag;
pub use number::Number;
pub use requested_transport::RequestedTransport;
use stun_types::limits::TEXT_LIMIT;
use stun_types::prelude::*;
pub use text::Text;
pub use tie_breaker::TieBreaker;
pub use xored::XorAddress;

/// SOFTWARE (RFC 8489, section 14.14): a description of the software that the sender uses, which is
/// UTF-8 text of at most 763 bytes.
pub type Software<'a> = Text<'a, 0x8022, TEXT_LIMIT>;

impl<'a> Software<'a> {
    /// Returns the text.
    pub fn software(&self) -> &'a str
        ensures text { result.now ≡ self.now }
        ensures within_limit { length result.now ≤ TEXT_LIMIT }
    {
        self.text()
    }
}

/// PRIORITY (RFC 8445, section 16.1): the priority of the peer-reflexive candidate that a
/// connectivity check with this attribute may discover.
pub type Priority = Number<0x0024>;

impl Priority {
    /// Returns the priority.
    pub fn priority(&self) -> u32
        ensures { result ≡ self.now }
    {
        self.number()
    }
}

/// USE-CANDIDATE (RFC 8445, section 16.1): with this attribute in a connectivity check, the
/// controlling agent nominates the candidate pair of the check. It has no value.
pub type UseCandidate = Flag<0x0025>;

/// ICE-CONTROLLED (RFC 8445, section 16.1): the sender is in the controlled role. The tie-breaker,
/// a random 64-bit number, resolves a role conflict.
pub type IceControlled = TieBreaker<0x8029>;

/// ICE-CONTROLLING (RFC 8445, section 16.1): the sender is in the controlling role. The
/// tie-breaker, a random 64-bit number, resolves a role conflict.
pub type IceControlling = TieBreaker<0x802A>;

/// XOR-PEER-ADDRESS (RFC 8656, section 18.3): the address of a peer, XORed as in
/// XOR-MAPPED-ADDRESS.
pub type XorPeerAddress = XorAddress<0x0012>;

/// Returns the attribute types of the aliases above, in the order of the aliases.
pub fn types() -> [u16; 6]
    ensures { result
        ≡ SOFTWARE ∷ PRIORITY ∷ USE_CANDIDATE ∷ ICE_CONTROLLED ∷ ICE_CONTROLLING ∷
        XOR_PEER_ADDRESS ∷ [] }
{
    [
        Software::static_type().value(),
        Priority::static_type().value(),
        UseCandidate::static_type().value(),
        IceControlled::static_type().value(),
        IceControlling::static_type().value(),
        XorPeerAddress::static_type().value(),
    ]
}
