//! Laws of this crate. A law is a function that does nothing, and whose contract is the law.
ghost use Rattle.std.specs.Prelude.{◌≡◌, ◌≤◌, ◌<◌, ◌^◌, ◌↔◌, ℕ, Some, List, slice_index};
ghost use Rattle.std.specs.Prelude.{◌∷◌, ◌++◌, filter, length, cond, ◌==◌};
ghost use Rattle.std.specs.List.{AllByRecursion, concat, list_any};
ghost use Rattle.stun_base.specs.Attributes.{FINGERPRINT};
ghost use Rattle.stun_base.specs.Header.{BeginsWithHeader};
ghost use Rattle.stun_types.specs.Integrity.{first_of};
ghost use Rattle.stun_types.specs.Message.{IsMessage};
ghost use Rattle.stun_types.specs.Visible.{visible};
ghost use Rattle.stun_types.specs.Walk.{Member};
ghost use Rattle.stun_extra.specs.Crc32.{crc32};
ghost use Rattle.stun_extra.specs.Fingerprint.{fingerprint_in};
ghost use Rattle.stun_extra.specs.Framing.{BeginsWithTurnHeader, IsFramedPacket, IsLeftOver};
ghost use Rattle.stun_extra.specs.Framing.{IsPartBy, IsTurnItem, NeverBegins, channel_data, cut_of};
ghost use Rattle.stun_extra.specs.Framing.{cut_with_more, frame_of, framed_packet};
ghost use Rattle.stun_extra.specs.Framing.{packet_frame_of, turn_frame_of};
ghost use Rattle.stun_extra.specs.Unknown.{without_repeats};
ghost use Rattle.stun_extra.specs.declared.fingerprint.Fingerprint.{Fingerprint};
ghost use Rattle.stun_extra.specs.declared.framing.Frame.{Frame};

/// If two lists of bytes differ in exactly one byte, they have different CRC-32s.
pub fn one_changed_byte_changes_the_crc()
    ensures { (front behind : List ℕ) (byte other : ℕ) → byte < 256 → other < 256
        → crc32 (front ++ byte ∷ behind) ≡ crc32 (front ++ other ∷ behind) → byte ≡ other }
{}

/// If two messages have the same FINGERPRINT at the same offset, and the only byte in which they
/// differ is before that offset, at most one of the two messages has a valid FINGERPRINT.
pub fn one_changed_byte_makes_fingerprint_wrong()
    ensures { (front behind : List ℕ) (byte other : ℕ) (m : Member)
        → byte < 256 → other < 256 → length front < m.0
        → first_of FINGERPRINT (visible (front ++ byte ∷ behind)) ≡ Some m
        → first_of FINGERPRINT (visible (front ++ other ∷ behind)) ≡ Some m
        → fingerprint_in (front ++ byte ∷ behind) ≡ Fingerprint.Right
        → fingerprint_in (front ++ other ∷ behind) ≡ Fingerprint.Right
        → byte ≡ other }
{}

/// If the repetitions in a list are removed, each number of the list is left exactly once.
pub fn each_number_is_there_once()
    ensures { (x : ℕ) (xs : List ℕ) → length (filter (λ y. y == x) (without_repeats xs))
        ≡ cond (list_any (λ y. y == x) xs) 1 0 }
{}

/// A stream of messages is cut into exactly these messages (`cut`), whatever pieces it arrives in
/// (`fed`). A whole message is found whatever follows it (`whole`). For the beginning of a message,
/// the result is `Frame::Need` with at least 1 byte, and at most the number of bytes that are
/// missing (`begun`). A stream is refused as soon as no message can begin with the bytes that have
/// arrived (`refused`).
pub fn stream_is_cut_into_its_messages()
    ensures whole { (message rest : List ℕ) → IsMessage message
        → frame_of (message ++ rest) ≡ Frame.Message (length message) }
    ensures begun { (message : List ℕ) (n : ℕ) → IsMessage message
        → ((i : ℕ) → slice_index message i < 2 ^ 8) → n < length message
        → IsPartBy frame_of message n }
    ensures refused { (bytes : List ℕ) → (frame_of bytes ≡ Frame.NotStun)
        ↔ NeverBegins BeginsWithHeader bytes }
    ensures cut { (messages : List (List ℕ)) (rest : List ℕ)
        → AllByRecursion IsMessage messages → IsLeftOver frame_of rest
        → cut_of frame_of (concat messages ++ rest)
        ≡ record { messages = messages; rest = rest } }
    ensures fed { (bytes more : List ℕ) → cut_of frame_of (bytes ++ more)
        ≡ cut_with_more frame_of (cut_of frame_of bytes) more }
{}

/// A stream of packets, each of which follows its length, is cut into exactly these packets
/// (`cut`), whatever pieces it arrives in (`fed`). A whole packet is found whatever follows it
/// (`whole`). For the beginning of a packet, the result is `Frame::Need` with at least 1 byte, and
/// at most the number of bytes that are missing (`begun`). Premise: each packet has less than
/// 65,536 bytes.
pub fn packet_is_framed()
    ensures whole { (packet rest : List ℕ) → length packet < 2 ^ 16
        → packet_frame_of (framed_packet packet ++ rest)
        ≡ Frame.Message (length (framed_packet packet)) }
    ensures begun { (packet : List ℕ) (n : ℕ) → length packet < 2 ^ 16
        → n < length (framed_packet packet) → IsPartBy packet_frame_of (framed_packet packet) n }
    ensures cut { (packets : List (List ℕ)) (rest : List ℕ)
        → AllByRecursion IsFramedPacket packets → IsLeftOver packet_frame_of rest
        → cut_of packet_frame_of (concat packets ++ rest)
        ≡ record { messages = packets; rest = rest } }
    ensures fed { (bytes more : List ℕ) → cut_of packet_frame_of (bytes ++ more)
        ≡ cut_with_more packet_frame_of (cut_of packet_frame_of bytes) more }
{}

/// A stream of STUN messages and ChannelData messages is cut into exactly these messages (`cut`),
/// whatever pieces it arrives in (`fed`). A whole STUN message (`message`) or ChannelData message
/// (`channel`) is found whatever follows it. For the beginning of a STUN message (`message_begun`)
/// or of a ChannelData message (`begun`), the result is `Frame::Need` with at least 1 byte, and at
/// most the number of bytes that are missing. A stream is refused as soon as neither kind of
/// message can begin with the bytes that have arrived (`refused`).
pub fn turn_is_framed()
    ensures message { (message rest : List ℕ) → IsMessage message
        → turn_frame_of (message ++ rest) ≡ Frame.Message (length message) }
    ensures message_begun { (message : List ℕ) (n : ℕ) → IsMessage message
        → ((i : ℕ) → slice_index message i < 2 ^ 8) → n < length message
        → IsPartBy turn_frame_of message n }
    ensures channel { (channel : ℕ) (bytes rest : List ℕ)
        → 0x4000 ≤ channel → channel < 0x8000 → length bytes < 2 ^ 16
        → turn_frame_of (channel_data channel bytes ++ rest)
        ≡ Frame.Message (length (channel_data channel bytes)) }
    ensures begun { (channel : ℕ) (bytes : List ℕ) (n : ℕ)
        → 0x4000 ≤ channel → channel < 0x8000 → length bytes < 2 ^ 16
        → n < length (channel_data channel bytes)
        → IsPartBy turn_frame_of (channel_data channel bytes) n }
    ensures refused { (bytes : List ℕ) → (turn_frame_of bytes ≡ Frame.NotStun)
        ↔ NeverBegins BeginsWithTurnHeader bytes }
    ensures cut { (items : List (List ℕ)) (rest : List ℕ)
        → AllByRecursion IsTurnItem items → IsLeftOver turn_frame_of rest
        → cut_of turn_frame_of (concat items ++ rest)
        ≡ record { messages = items; rest = rest } }
    ensures fed { (bytes more : List ℕ) → cut_of turn_frame_of (bytes ++ more)
        ≡ cut_with_more turn_frame_of (cut_of turn_frame_of bytes) more }
{}
