//! Laws of writing attributes and parsing them again, on which other crates rely.
ghost use Rattle.std.specs.Prelude.{◌≡◌, ◌<◌, ◌^◌, ℕ};
ghost use Rattle.std.specs.Prelude.{List, slice_index};
ghost use Rattle.std.specs.Net.Socket.{socket_flowinfo, socket_ip, socket_port, socket_scope_id};
ghost use Rattle.stun_types.specs.Attribute.{TypedValue};
ghost use Rattle.stun_types.specs.AttributeLaws.{IgnoresFirstByte, IgnoresReservedBits};
ghost use Rattle.stun_types.specs.AttributeLaws.{ReadsSpelledEntries, TakesWhatIsSpelled};
ghost use Rattle.stun_types.specs.AttributeLaws.{WritesFirstZero, WritesReservedZeros};
ghost use Rattle.stun_types.specs.code.AttributeLaws.{HasOctets};
ghost use Rattle.stun_types.specs.ErrorCode.{CodeAndReason, IsError};
ghost use Rattle.stun_types.specs.XorMappedAddress.{XoredAddress};
ghost use Rattle.stun_types.specs.declared.attribute.password_algorithm.PasswordAlgorithmValue.{PasswordAlgorithmValue};

use crate::attribute::{PasswordAlgorithmValue, XorMappedAddress};
use std::net::{IpAddr, SocketAddr};
use stun_base::algorithm::IntegrityAlgorithm;
use stun_base::transaction_id::TransactionId;

/// An attribute that was written has the number of bytes that `attribute_length` returns for the
/// length of its value.
pub fn takes_what_is_spelled()
    ensures { (attribute : TypedValue) → TakesWhatIsSpelled attribute }
{}

/// Each list of password algorithms has exactly one encoding: if bytes can be parsed as a list,
/// writing this list gives the same bytes.
pub fn entries_are_spelled()
    ensures { (bytes : List ℕ) (list : List PasswordAlgorithmValue)
        → ((i : ℕ) → slice_index bytes i < 2 ^ 8) → ReadsSpelledEntries bytes list }
{}

/// Converts an algorithm to the hash function that derives its keys, and converts this hash
/// function back to the same algorithm.
pub fn same_integrity(integrity: IntegrityAlgorithm) -> IntegrityAlgorithm
    ensures { result ≡ integrity }
{
    PasswordAlgorithmValue::from_integrity(integrity).as_integrity()
}

/// Reserved bits are ignored when an attribute is read, and zero when it is written (RFC 8489,
/// sections 14.2 and 14.8).
pub fn reserved_bits()
    ensures error_read { (a b c : ℕ) (rest : List ℕ) → IgnoresReservedBits a b c rest }
    ensures address_read { (a : ℕ) (rest : List ℕ) → IgnoresFirstByte a rest }
    ensures error_written { (error : CodeAndReason) → IsError error → WritesReservedZeros error }
    ensures address_written { (address : XoredAddress) → WritesFirstZero address }
{}

/// XORs an address for a message with this transaction ID, and reads it again with the same ID.
/// Returns the same IP address and port, with the flow information and the scope ID set to 0.
pub fn hidden_and_read(addr: SocketAddr, id: TransactionId) -> SocketAddr
    ensures ip { socket_ip result ≡ socket_ip addr }
    ensures port { socket_port result ≡ socket_port addr }
    ensures flowinfo { socket_flowinfo result ≡ 0 }
    ensures scope_id { socket_scope_id result ≡ 0 }
{
    // For the proof of the clause `ip` alone, which needs the number of octets.
    let _octets = count_octets(addr.ip());
    XorMappedAddress::new(addr, id).addr(id)
}

/// Returns the number of octets of an address, which depends on its family.
fn count_octets(ip: IpAddr) -> usize
    ensures { HasOctets ip }
{
    match ip {
        IpAddr::V4(ip) => ip.octets().as_slice().len(),
        IpAddr::V6(ip) => ip.octets().as_slice().len(),
    }
}
