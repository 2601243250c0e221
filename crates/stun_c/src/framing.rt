//! Finds the end of the first message in a stream, and recognizes the packets that are for STUN.

ghost use Rattle.std.specs.Prelude.{◌≡◌, ◌↔◌, ◌⊎◌, ◌<◌, ◌^◌, ℕ, length, pos, slice_index};
ghost use Rattle.stun_extra.specs.Framing.{IsStunPacket, frame_of, packet_frame_of, turn_frame_of};
ghost use Rattle.stun_c.specs.code.Frames.{wanted_bytes};
ghost use Rattle.stun_c.specs.Extra.{wanted_number};

use stun_extra::framing::{Frame, is_stun};
use stun_numbers::refusal::Refusal;

/// Returns 1 if a packet is for STUN, and otherwise 0.
pub fn is_stun_packet(packet: &[u8]) -> i64
    ensures yes { (result ≡ pos 1) ↔ IsStunPacket packet.now }
    ensures no { (result ≡ pos 1) ⊎ (result ≡ pos 0) }
{
    if is_stun(packet) { 1 } else { 0 }
}

/// States for the proofs that bytes are below 256.
fn prove_bytes_fit(bytes: &[u8])
    ensures { (i : ℕ) → slice_index bytes.now i < 2 ^ 8 }
{}

/// Returns the number for a frame: its whole length if this is known, and otherwise the number of
/// bytes that are needed to determine its length. `there` is the number of bytes that have arrived.
/// Returns the code of `NotStun` if these bytes are not STUN.
fn count_wanted(there: usize, frame: Frame) -> i64
    requires { wanted_bytes there frame < 2 ^ 63 }
    ensures { result ≡ wanted_number there frame }
{
    match frame {
        Frame::Need(more) => (there + more) as i64,
        Frame::Message(whole) => whole as i64,
        Frame::NotStun => Refusal::NotStun.code(),
    }
}

/// Returns the length of the message at the front of the bytes, or 20 if there are fewer bytes than
/// a header has. Returns the code of `NotStun` if the bytes do not begin with a header.
#[tactic(auto, using(crate::proofs::Frames::few_of_message))]
pub fn next_frame(bytes: &[u8]) -> i64
    ensures { result ≡ wanted_number (length bytes.now) (frame_of bytes.now) }
{
    prove_bytes_fit(bytes);
    count_wanted(bytes.len(), stun_extra::framing::next_frame(bytes))
}

/// Returns the length of the packet at the front of the bytes, including the 2 bytes before the
/// packet that state its length (RFC 4571). If fewer than 2 bytes have arrived, returns 2.
#[tactic(auto, using(crate::proofs::Frames::few_of_packet))]
pub fn next_packet_frame(bytes: &[u8]) -> i64
    ensures { result ≡ wanted_number (length bytes.now) (packet_frame_of bytes.now) }
{
    prove_bytes_fit(bytes);
    count_wanted(bytes.len(), stun_extra::framing::next_packet_frame(bytes))
}

/// Returns the length of the STUN message or ChannelData message at the front of the bytes,
/// including the padding of ChannelData. If too few bytes have arrived, returns the number of bytes
/// that are needed to determine the length. Returns the code of `NotStun` if the bytes begin with
/// neither.
#[tactic(auto, using(crate::proofs::Frames::few_of_turn))]
pub fn next_turn_frame(bytes: &[u8]) -> i64
    ensures { result ≡ wanted_number (length bytes.now) (turn_frame_of bytes.now) }
{
    prove_bytes_fit(bytes);
    count_wanted(bytes.len(), stun_extra::framing::next_turn_frame(bytes))
}
