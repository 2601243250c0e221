//! The calls for programs in C and Rust, which `include/stunp.h` declares.
//!
//! Each call does its work with the crates below, and its contract cites the definitions of those
//! crates. No call allocates, and calls share no state. A call that fails returns the code of its
//! error, which is negative (`Refusal::code`). The header lists the errors of each call, in the
//! order in which they are tested.
#![tactic(auto)]

ghost use Rattle.std.specs.Prelude.{◌≡◌, ◌↔◌, ◌⊎◌, drop, length, pos, slice_get, IfNone, IfSome};
ghost use Rattle.std.specs.Prelude.{Ok, true};
ghost use Rattle.byteorder.specs.Endian.{big_number};
ghost use Rattle.stun_base.specs.Attributes.{XOR_MAPPED_ADDRESS};
ghost use Rattle.stun_base.specs.Header.{header_refusal};
ghost use Rattle.stun_types.specs.Integrity.{first_of};
ghost use Rattle.stun_types.specs.Message.{refusal};
ghost use Rattle.stun_types.specs.Visible.{visible};
ghost use Rattle.stun_extra.specs.Framing.{IsStunPacket, frame_of, packet_frame_of, turn_frame_of};
ghost use Rattle.stun_numbers.specs.Buffers.{within_room};
ghost use Rattle.stun_numbers.specs.Algorithms.{algorithm_numbered};
ghost use Rattle.stun_c.specs.Answers.{Writes, WritesWithin, parse_answer, verify_answer};
ghost use Rattle.stun_c.specs.Answers.{written_number};
ghost use Rattle.stun_c.specs.Codes.{error_text};
ghost use Rattle.stun_c.specs.Extra.{fingerprint_answer, fingerprinted_message, known_refusal};
ghost use Rattle.stun_c.specs.Extra.{told_number, types_after, unknown_made, unknown_of};
ghost use Rattle.stun_c.specs.Extra.{wanted_number, held_after, held_number, types_at};
ghost use Rattle.stun_c.specs.Reading.{attribute_place, text_answer, text_at, text_length_after};
ghost use Rattle.stun_c.specs.Reading.{address_at, octets_at, class_answer, method_answer};
ghost use Rattle.stun_c.specs.Reading.{id_of_message};
ghost use Rattle.stun_c.specs.Reading.{next_member, next_answer, number_after, error_answer};
ghost use Rattle.stun_c.specs.Reading.{address_in, octets_of_message, plain_octets};
ghost use Rattle.stun_c.specs.Reading.{plain_port_after, port_after, sized_after, sized_at};
ghost use Rattle.stun_c.specs.Reading.{find_answer, finding_refusal, header_answer, header_after};
ghost use Rattle.stun_c.specs.Requests.{signed_request, key_of_texts, userhash_of_texts};
ghost use Rattle.stun_c.specs.Turn.{built_channel_data, channel_answer, channel_number_answer};
ghost use Rattle.stun_c.specs.Turn.{channel_refusal, stated_data, transport_answer};
ghost use Rattle.stun_c.specs.Turn.{set_by_data};
ghost use Rattle.stun_c.specs.Walking.{ahead, cursor_refusal, walk_answer};
ghost use Rattle.stun_c.specs.Writing.{begun_message, added_number, added_sized, added_address};
ghost use Rattle.stun_c.specs.Writing.{added_numbered_address, added_plain_address, added_error};
ghost use Rattle.stun_c.specs.Writing.{signed_message};

mod address;
mod buffer;
mod error_text;
mod fingerprint;
mod framing;
mod header;
mod keys;
pub mod laws;
mod number;
mod reading;
mod request;
mod turn;
mod unknown;
mod value;
mod verdict;
mod walk;
mod writing;

use buffer::write;
use error_text::error_text;
use header::Header;
use keys::{userhash_of_texts, write_key};
use request::{LONGEST_REQUEST, signed_request};
use stun_base::attribute_type::AttributeType;
use stun_numbers::algorithm::algorithm_number;
use stun_numbers::passed::is_impossible;
use stun_numbers::refusal::Refusal;
use stun_types::message::Message;
use value::attribute_place;
use verdict::verdict;
use walk::Cursor;

/// Checks that `message` is one whole STUN message. Returns 0, or the code of the error.
#[unsafe(no_mangle)]
pub extern "C" fn stunp_parse(message: &[u8]) -> i64
    ensures { result ≡ parse_answer message.now }
{
    if is_impossible(message) {
        return Refusal::BadArgument.code();
    }
    match Message::from_bytes(message) {
        Ok(_) => 0,
        Err(error) => Refusal::from(error).code(),
    }
}

/// Verifies the signature of a message with a key, and returns the algorithm of the signature: 1
/// for HMAC-SHA1, and 2 for HMAC-SHA256.
#[unsafe(no_mangle)]
pub extern "C" fn stunp_verify(message: &[u8], key: &[u8]) -> i64
    ensures { result ≡ verify_answer message.now key.now }
{
    if is_impossible(message) {
        return Refusal::BadArgument.code();
    }
    match verdict(message, key) {
        Ok(algorithm) => i64::from(algorithm_number(algorithm)),
        Err(refusal) => refusal.code(),
    }
}

/// Writes to `out` a Binding request with this transaction ID and this USERNAME, signed with this
/// key, and returns its length.
#[unsafe(no_mangle)]
pub extern "C" fn stunp_build_signed(
    algorithm: u32,
    id: &[u8],
    username: &[u8],
    key: &[u8],
    out: &mut [u8],
) -> i64
    ensures { WritesWithin (signed_request (algorithm_numbered algorithm) id.now username.now
        key.now) out.old result out.new }
{
    let mut longest = [0; LONGEST_REQUEST];
    match signed_request(algorithm, id, username, key, &mut longest) {
        Ok(request) => write(out, request),
        Err(refusal) => refusal.code(),
    }
}

/// Writes to `out` the long-term key of a user in a realm for an algorithm, and returns its length:
/// 16 for HMAC-SHA1, and 32 for HMAC-SHA256.
#[unsafe(no_mangle)]
pub extern "C" fn stunp_long_term_key(
    algorithm: u32,
    username: &[u8],
    realm: &[u8],
    password: &[u8],
    out: &mut [u8],
) -> i64
    ensures { WritesWithin (key_of_texts (algorithm_numbered algorithm) username.now realm.now
        password.now) out.old result out.new }
{
    write_key(algorithm, username, realm, password, out)
}

/// Writes to `out` the USERHASH of a user in a realm, and returns its length, which is 32.
#[unsafe(no_mangle)]
pub extern "C" fn stunp_userhash(username: &[u8], realm: &[u8], out: &mut [u8]) -> i64
    ensures { WritesWithin (userhash_of_texts username.now realm.now) out.old result out.new }
{
    match userhash_of_texts(username, realm) {
        Ok(hash) => write(out, &hash),
        Err(refusal) => refusal.code(),
    }
}

/// `true` in the proved library, and `false` in the exported library. `stunp_is_proved` returns it.
const IS_PROVED: bool = true;

/// Returns `true` in the proved library, whose archive is built from the sources that were proved,
/// and `false` in the exported library.
#[unsafe(no_mangle)]
pub extern "C" fn stunp_is_proved() -> bool
    ensures { result ≡ true }
{
    IS_PROVED
}

/// Returns the version of this library, for example 300 for release 0.3.0: 10000 times the first
/// number, plus 100 times the second, plus the third.
#[unsafe(no_mangle)]
pub extern "C" fn stunp_version() -> i64
    ensures { result ≡ pos 300 }
{
    300
}

/// Returns the same number as `stunp_version`. Each release that breaks compatibility changes the
/// name of this call, so with `STUNP_CHECK_RELEASE` no program links with an incompatible release.
#[unsafe(no_mangle)]
pub extern "C" fn stunp_release_0_3() -> i64
    ensures { result ≡ pos 300 }
{
    300
}

/// Writes to `out` an English text for the result of a call, with a zero byte at its end, and
/// returns the number of bytes written.
#[unsafe(no_mangle)]
pub extern "C" fn stunp_error_text(answer: i64, out: &mut [u8]) -> i64
    ensures { WritesWithin (Ok (error_text answer)) out.old result out.new }
{
    write(out, error_text(answer))
}

/// Writes to `out` a message without attributes, with this class, method and transaction ID, and
/// returns its length, 20.
#[unsafe(no_mangle)]
pub extern "C" fn stunp_begin(class: u32, method: u32, id: &[u8], out: &mut [u8]) -> i64
    ensures { WritesWithin (begun_message class method id.now) out.old result out.new }
{
    writing::begin(class, method, id, out)
}

/// Appends an attribute to the message in the first `count` bytes of a buffer, and returns the new
/// length.
#[unsafe(no_mangle)]
pub extern "C" fn stunp_add(buffer: &mut [u8], count: usize, kind: u32, value: &[u8]) -> i64
    ensures { Writes (added_number buffer.old count kind value.now) buffer.old result buffer.new }
{
    writing::add_numbered(buffer, count, kind, value)
}

/// Appends an attribute whose value is a number of `size` bytes to the message in the first `count`
/// bytes of a buffer, and returns the new length.
#[unsafe(no_mangle)]
pub extern "C" fn stunp_add_number(
    buffer: &mut [u8],
    count: usize,
    kind: u32,
    number: u64,
    size: usize,
) -> i64
    ensures { Writes (added_sized buffer.old count kind size number) buffer.old result buffer.new }
{
    number::add_number(buffer, count, kind, number, size)
}

/// Appends an attribute whose value is a plain address, as in MAPPED-ADDRESS, to the message in the
/// first `count` bytes of a buffer, and returns the new length.
#[unsafe(no_mangle)]
pub extern "C" fn stunp_add_address(
    buffer: &mut [u8],
    count: usize,
    kind: u32,
    octets: &[u8],
    port: u32,
) -> i64
    ensures { Writes (added_plain_address buffer.old count kind octets.now port) buffer.old result
        buffer.new }
{
    address::add_plain(buffer, count, kind, octets, port)
}

/// Appends XOR-MAPPED-ADDRESS to the message in the first `count` bytes of a buffer, and returns
/// the new length.
#[unsafe(no_mangle)]
pub extern "C" fn stunp_add_xor_mapped_address(
    buffer: &mut [u8],
    count: usize,
    octets: &[u8],
    port: u32,
) -> i64
    ensures { Writes (added_address buffer.old count XOR_MAPPED_ADDRESS octets.now port) buffer.old
        result buffer.new }
{
    address::add_address(
        buffer,
        count,
        AttributeType::XOR_MAPPED_ADDRESS,
        octets,
        port,
    )
}

/// Appends an attribute whose value is an XORed address, as in XOR-MAPPED-ADDRESS, to the message
/// in the first `count` bytes of a buffer, and returns the new length.
#[unsafe(no_mangle)]
pub extern "C" fn stunp_add_xor_address(
    buffer: &mut [u8],
    count: usize,
    kind: u32,
    octets: &[u8],
    port: u32,
) -> i64
    ensures { Writes (added_numbered_address buffer.old count kind octets.now port) buffer.old
        result buffer.new }
{
    if kind >= 65536 {
        return Refusal::BadArgument.code();
    }
    address::add_address(buffer, count, AttributeType::new(kind as u16), octets, port)
}

/// Appends ERROR-CODE to the message in the first `count` bytes of a buffer, and returns the new
/// length.
#[unsafe(no_mangle)]
pub extern "C" fn stunp_add_error(buffer: &mut [u8], count: usize, code: u32, reason: &[u8]) -> i64
    ensures { Writes (added_error buffer.old count code reason.now) buffer.old result buffer.new }
{
    writing::add_error(buffer, count, code, reason)
}

/// Signs the message in the first `count` bytes of a buffer: appends MESSAGE-INTEGRITY or
/// MESSAGE-INTEGRITY-SHA256, as the algorithm requires, and returns the new length.
#[unsafe(no_mangle)]
pub extern "C" fn stunp_sign(buffer: &mut [u8], count: usize, algorithm: u32, key: &[u8]) -> i64
    ensures { Writes (signed_message buffer.old count (algorithm_numbered algorithm) key.now)
        buffer.old result buffer.new }
{
    writing::sign(buffer, count, algorithm, key)
}

/// Writes to `header` the fields of the message header at the front of `bytes`, and returns 0.
#[unsafe(no_mangle)]
pub extern "C" fn stunp_read_header(bytes: &[u8], header: &mut Header) -> i64
    ensures answer { result ≡ header_answer bytes.now }
    ensures written { header.new ≡ header_after (header_refusal bytes.now) bytes.now header.old }
{
    if is_impossible(bytes) {
        return Refusal::BadArgument.code();
    }
    header::read_header(bytes, header)
}

/// Returns the class of a message, a `stunp_message_class` from 0 to 3.
#[unsafe(no_mangle)]
pub extern "C" fn stunp_class(message: &[u8]) -> i64
    ensures { result ≡ class_answer message.now }
{
    if is_impossible(message) {
        return Refusal::BadArgument.code();
    }
    reading::class(message)
}

/// Returns the method of a message.
#[unsafe(no_mangle)]
pub extern "C" fn stunp_method(message: &[u8]) -> i64
    ensures { result ≡ method_answer message.now }
{
    if is_impossible(message) {
        return Refusal::BadArgument.code();
    }
    reading::method(message)
}

/// Writes to `out` the transaction ID of a message, and returns its length, 12.
#[unsafe(no_mangle)]
pub extern "C" fn stunp_id(message: &[u8], out: &mut [u8]) -> i64
    ensures { WritesWithin (id_of_message message.now) out.old result out.new }
{
    if is_impossible(message) {
        return Refusal::BadArgument.code();
    }
    reading::id(message, out)
}

/// Finds the first visible attribute after the attribute whose value has the offset `place`, or the
/// first of the message if `place` is 0. Writes the type of the attribute to `kind` and the length
/// of its value to `value_length`, and returns the offset of its value. Returns 0 if there is no
/// such attribute.
#[unsafe(no_mangle)]
pub extern "C" fn stunp_next(
    message: &[u8],
    place: usize,
    kind: &mut u16,
    value_length: &mut usize,
) -> i64
    ensures answer { result ≡ next_answer message.now (attribute_place place) }
    ensures kind { kind.new ≡ number_after (λ a. a.kind) (refusal message.now)
        (next_member (attribute_place place) message.now) kind.old }
    ensures value_length { value_length.new ≡ number_after (λ a. length a.value)
        (refusal message.now)
        (next_member (attribute_place place) message.now) value_length.old }
{
    if is_impossible(message) {
        return Refusal::BadArgument.code();
    }
    reading::next(message, attribute_place(place), kind, value_length)
}

/// Finds the first visible attribute at or after a cursor, and moves the cursor past it. Writes the
/// type of the attribute to `kind` and the length of its value to `value_length`, and returns the
/// offset of its value. Returns 0 if no visible attribute is left.
#[unsafe(no_mangle)]
pub extern "C" fn stunp_walk(
    message: &[u8],
    cursor: &mut Cursor,
    kind: &mut u16,
    value_length: &mut usize,
) -> i64
    ensures answer { result ≡ walk_answer (cursor_refusal cursor.old message.now)
        (slice_get (ahead cursor.old message.now) 0) }
    ensures kind { kind.new ≡ number_after (λ a. a.kind) (cursor_refusal cursor.old message.now)
        (slice_get (ahead cursor.old message.now) 0) kind.old }
    ensures value_length { value_length.new ≡ number_after (λ a. length a.value)
        (cursor_refusal cursor.old message.now)
        (slice_get (ahead cursor.old message.now) 0) value_length.old }
    ensures goes_on { IfNone (cursor_refusal cursor.old message.now)
        (cursor_refusal cursor.new message.now ≡ None) }
    ensures rest { IfNone (cursor_refusal cursor.old message.now)
        (ahead cursor.new message.now ≡ drop 1 (ahead cursor.old message.now)) }
    ensures refused { IfSome (cursor_refusal cursor.old message.now)
        (λ _. cursor.new ≡ cursor.old) }
{
    if is_impossible(message) {
        return Refusal::BadArgument.code();
    }
    walk::walk(message, cursor, kind, value_length)
}

/// Finds the first visible attribute of a type. Writes the length of its value to `value_length`,
/// and returns the offset of its value.
#[unsafe(no_mangle)]
pub extern "C" fn stunp_find(message: &[u8], kind: u32, value_length: &mut usize) -> i64
    ensures answer { result ≡ find_answer (finding_refusal kind message.now)
        (first_of kind (visible message.now)) }
    ensures value_length { value_length.new ≡ number_after (λ a. length a.value)
        (finding_refusal kind message.now)
        (first_of kind (visible message.now)) value_length.old }
{
    if is_impossible(message) {
        return Refusal::BadArgument.code();
    }
    reading::find(message, kind, value_length)
}

/// Returns the code in the first visible ERROR-CODE of a message.
#[unsafe(no_mangle)]
pub extern "C" fn stunp_error_code(message: &[u8]) -> i64
    ensures { result ≡ error_answer message.now }
{
    if is_impossible(message) {
        return Refusal::BadArgument.code();
    }
    reading::error_code(message)
}

/// Reads the first visible XOR-MAPPED-ADDRESS of a message. Writes the address to `out` and its
/// port to `port`, both without the XOR, and returns the length of the address, 4 or 16.
#[unsafe(no_mangle)]
pub extern "C" fn stunp_xor_mapped_address(message: &[u8], out: &mut [u8], port: &mut u16) -> i64
    ensures written { WritesWithin (octets_of_message message.now) out.old result out.new }
    ensures port { port.new ≡ port_after (within_room (octets_of_message message.now)
        (length out.old))
        (address_in message.now) port.old }
{
    if is_impossible(message) {
        return Refusal::BadArgument.code();
    }
    reading::mapped_address(message, out, port)
}

/// Reads an XORed address, as in XOR-MAPPED-ADDRESS, from the attribute whose value has the offset
/// `place`. Writes the address to `out` and its port to `port`, both without the XOR, and returns
/// the length of the address, 4 or 16.
#[unsafe(no_mangle)]
pub extern "C" fn stunp_read_xor_address(
    message: &[u8],
    place: usize,
    out: &mut [u8],
    port: &mut u16,
) -> i64
    ensures written { WritesWithin (octets_at message.now (attribute_place place)) out.old result
        out.new }
    ensures port { port.new ≡ port_after
        (within_room (octets_at message.now (attribute_place place)) (length out.old))
        (address_at message.now (attribute_place place)) port.old }
{
    if is_impossible(message) {
        return Refusal::BadArgument.code();
    }
    reading::address_at(message, attribute_place(place), out, port)
}

/// Reads an address that is not XORed, as in MAPPED-ADDRESS, from the attribute whose value has the
/// offset `place`. Writes the address to `out` and its port to `port`, and returns the length of
/// the address, 4 or 16.
#[unsafe(no_mangle)]
pub extern "C" fn stunp_read_address(
    message: &[u8],
    place: usize,
    out: &mut [u8],
    port: &mut u16,
) -> i64
    ensures written { WritesWithin (plain_octets (address_at message.now (attribute_place place)))
        out.old result out.new }
    ensures port { port.new ≡ plain_port_after
        (within_room (plain_octets (address_at message.now (attribute_place place)))
        (length out.old))
        (address_at message.now (attribute_place place)) port.old }
{
    if is_impossible(message) {
        return Refusal::BadArgument.code();
    }
    reading::plain_at(message, attribute_place(place), out, port)
}

/// Writes to `number` the number in the attribute whose value has the offset `place`, and returns
/// the length of the value in bytes, 1, 2, 4 or 8.
#[unsafe(no_mangle)]
pub extern "C" fn stunp_read_number(message: &[u8], place: usize, number: &mut u64) -> i64
    ensures answer { result ≡ written_number (sized_at message.now (attribute_place place)) }
    ensures number { number.new ≡ sized_after (sized_at message.now (attribute_place place))
        number.old }
{
    if is_impossible(message) {
        return Refusal::BadArgument.code();
    }
    number::number_at(message, attribute_place(place), number)
}

/// Checks that the attribute value at the offset `place` of a message is a UTF-8 text. Writes the
/// length of the text to `text_length`, and returns `place`.
#[unsafe(no_mangle)]
pub extern "C" fn stunp_read_text(message: &[u8], place: usize, text_length: &mut usize) -> i64
    ensures answer { result ≡ text_answer (text_at message.now (attribute_place place))
        (attribute_place place) }
    ensures text_length { text_length.new
        ≡ text_length_after (text_at message.now (attribute_place place)) text_length.old }
{
    if is_impossible(message) {
        return Refusal::BadArgument.code();
    }
    value::read_text(message, attribute_place(place), text_length)
}

/// Reads the list of attribute types in the value at the offset `place` of a message, as in
/// UNKNOWN-ATTRIBUTES. Writes as many types as fit into `types`, and returns how many types the
/// list has.
#[unsafe(no_mangle)]
pub extern "C" fn stunp_read_types(message: &[u8], place: usize, types: &mut [u16]) -> i64
    ensures answer { result ≡ held_number (types_at message.now (attribute_place place)) }
    ensures types { types.new ≡ held_after (types_at message.now (attribute_place place))
        types.old }
{
    if is_impossible(message) {
        return Refusal::BadArgument.code();
    }
    value::read_types(message, attribute_place(place), types)
}

/// Checks the FINGERPRINT of a message. Returns 0 if the message has no FINGERPRINT, 1 if
/// FINGERPRINT is valid, 2 if it is wrong, and 3 if it is not the last attribute or does not have 4
/// bytes.
#[unsafe(no_mangle)]
pub extern "C" fn stunp_check_fingerprint(message: &[u8]) -> i64
    ensures { result ≡ fingerprint_answer message.now }
{
    if is_impossible(message) {
        return Refusal::BadArgument.code();
    }
    fingerprint::check(message)
}

/// Appends FINGERPRINT to the message in the first `count` bytes of a buffer, and returns the new
/// length.
#[unsafe(no_mangle)]
pub extern "C" fn stunp_add_fingerprint(buffer: &mut [u8], count: usize) -> i64
    ensures { Writes (fingerprinted_message buffer.old count) buffer.old result buffer.new }
{
    fingerprint::add(buffer, count)
}

/// Lists the comprehension-required attribute types of a message that are not in `known`. Writes as
/// many of them as fit into `types`, and returns how many there are.
#[unsafe(no_mangle)]
pub extern "C" fn stunp_unknown_types(message: &[u8], known: &[u16], types: &mut [u16]) -> i64
    ensures answer { result ≡ told_number (known_refusal message.now known.now)
        (unknown_of message.now known.now) }
    ensures types { types.new ≡ types_after (known_refusal message.now known.now)
        (unknown_of message.now known.now) types.old }
{
    if is_impossible(message) {
        return Refusal::BadArgument.code();
    }
    unknown::types(message, known, types)
}

/// Writes to `out` the error response 420 that lists the comprehension-required attribute types of
/// a request that are not in `known`, and returns the length of the response. Returns 0 if the
/// request has no such attribute.
#[unsafe(no_mangle)]
pub extern "C" fn stunp_refuse_unknown(request: &[u8], known: &[u16], out: &mut [u8]) -> i64
    ensures { WritesWithin (unknown_made request.now known.now) out.old result out.new }
{
    if is_impossible(request) {
        return Refusal::BadArgument.code();
    }
    unknown::refuse(request, known, out)
}

/// Returns 1 if a packet that arrived on a port shared with other protocols is for STUN, and
/// otherwise 0.
#[unsafe(no_mangle)]
pub extern "C" fn stunp_is_stun(packet: &[u8]) -> i64
    ensures yes { (result ≡ pos 1) ↔ IsStunPacket packet.now }
    ensures no { (result ≡ pos 1) ⊎ (result ≡ pos 0) }
{
    if is_impossible(packet) {
        return 0;
    }
    framing::is_stun_packet(packet)
}

/// Finds the end of the message at the front of a stream, and returns the length of the message. If
/// fewer bytes than a header have arrived, returns 20: the number of bytes that are needed to
/// determine the length.
#[unsafe(no_mangle)]
pub extern "C" fn stunp_next_frame(bytes: &[u8]) -> i64
    ensures { result ≡ wanted_number (length bytes.now) (frame_of bytes.now) }
{
    if is_impossible(bytes) {
        return Refusal::BadArgument.code();
    }
    framing::next_frame(bytes)
}

/// Like `stunp_next_frame`, but for a stream in which 2 bytes before each packet state its length
/// (RFC 4571). The result includes these 2 bytes.
#[unsafe(no_mangle)]
pub extern "C" fn stunp_next_packet_frame(bytes: &[u8]) -> i64
    ensures { result ≡ wanted_number (length bytes.now) (packet_frame_of bytes.now) }
{
    if is_impossible(bytes) {
        return Refusal::BadArgument.code();
    }
    framing::next_packet_frame(bytes)
}

/// Like `stunp_next_frame`, but for a stream of TURN, which has ChannelData messages in addition to
/// STUN messages. The result includes the padding of a ChannelData message.
#[unsafe(no_mangle)]
pub extern "C" fn stunp_next_turn_frame(bytes: &[u8]) -> i64
    ensures { result ≡ wanted_number (length bytes.now) (turn_frame_of bytes.now) }
{
    if is_impossible(bytes) {
        return Refusal::BadArgument.code();
    }
    framing::next_turn_frame(bytes)
}

/// Writes to `out` a ChannelData message of TURN, and returns how many bytes were written. If
/// `is_padded` is true, zeros follow the data up to a multiple of 4 bytes, as a stream requires.
#[unsafe(no_mangle)]
pub extern "C" fn stunp_build_channel_data(
    channel: u32,
    data: &[u8],
    is_padded: bool,
    out: &mut [u8],
) -> i64
    ensures { WritesWithin (built_channel_data channel data.now is_padded) out.old result out.new }
{
    turn::build_channel_data(channel, data, is_padded, out)
}

/// Reads the ChannelData message of TURN at the front of `bytes`. Writes its channel number to
/// `channel` and the length of its data to `data_length`, and returns the offset of the data.
#[unsafe(no_mangle)]
pub extern "C" fn stunp_read_channel_data(
    bytes: &[u8],
    channel: &mut u16,
    data_length: &mut usize,
) -> i64
    ensures answer { result ≡ channel_answer (channel_refusal bytes.now) }
    ensures channel { channel.new
        ≡ set_by_data (channel_refusal bytes.now) (big_number 2 bytes.now) channel.old }
    ensures data_length { data_length.new
        ≡ set_by_data (channel_refusal bytes.now) (stated_data bytes.now) data_length.old }
{
    if is_impossible(bytes) {
        return Refusal::BadArgument.code();
    }
    turn::read_channel_data(bytes, channel, data_length)
}

/// Returns the channel number in the first visible CHANNEL-NUMBER of a message.
#[unsafe(no_mangle)]
pub extern "C" fn stunp_channel_number(message: &[u8]) -> i64
    ensures { result ≡ channel_number_answer message.now }
{
    if is_impossible(message) {
        return Refusal::BadArgument.code();
    }
    turn::channel_number(message)
}

/// Returns the number of the protocol in the first visible REQUESTED-TRANSPORT of a message.
#[unsafe(no_mangle)]
pub extern "C" fn stunp_requested_transport(message: &[u8]) -> i64
    ensures { result ≡ transport_answer message.now }
{
    if is_impossible(message) {
        return Refusal::BadArgument.code();
    }
    turn::requested_transport(message)
}
