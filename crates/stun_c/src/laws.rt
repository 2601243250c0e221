//! Laws about the definitions that the contracts of this crate cite. They state what
//! `include/stunp.h` says about several calls together. They do nothing when they run.

ghost use Rattle.std.specs.Prelude.{◌≡◌, ◌≢◌, ◌≤◌, ◌<◌, ◌^◌, ◌+◌, ◌-◌, ◌⊎◌, ℕ, ℤ, pos, suc};
ghost use Rattle.std.specs.Prelude.{Bool, List, [], ◌∷◌, ◌++◌, drop, take, length, map};
ghost use Rattle.std.specs.Prelude.{slice_get, cond, IfOk, Some, None, Result, Ok, true};
ghost use Rattle.std.specs.Option.{option_map};
ghost use Rattle.std.specs.Str.{is_utf8};
ghost use Rattle.byteorder.specs.Endian.{big_bytes, big_number};
ghost use Rattle.stun_base.specs.Algorithm.{digest_length};
ghost use Rattle.stun_base.specs.Attributes.{ERROR_CODE, FINGERPRINT, XOR_MAPPED_ADDRESS};
ghost use Rattle.stun_base.specs.Header.{header_refusal, transaction_id_field, type_field};
ghost use Rattle.stun_base.specs.Keys.{long_term_key, userhash_of};
ghost use Rattle.stun_base.specs.MessageType.{class_in, class_number, class_of_bits, method_of};
ghost use Rattle.stun_base.specs.MessageType.{type_number};
ghost use Rattle.stun_base.specs.declared.wire.attribute_type.AttributeType.{AttributeType};
ghost use Rattle.stun_base.specs.declared.wire.message_type.MessageClass.{MessageClass};
ghost use Rattle.stun_types.specs.Attribute.{TypedValue, padded_length};
ghost use Rattle.stun_types.specs.ErrorCode.{CodeAndReason, error_value};
ghost use Rattle.stun_types.specs.Grammar.{spelled_message};
ghost use Rattle.stun_types.specs.Integrity.{first_of, verified_algorithm};
ghost use Rattle.stun_types.specs.Message.{refusal};
ghost use Rattle.stun_types.specs.Visible.{visible};
ghost use Rattle.stun_types.specs.Walk.{Member};
ghost use Rattle.stun_types.specs.Writing.{with_attribute, with_integrity};
ghost use Rattle.stun_types.specs.XorMappedAddress.{XoredAddress, xor_bytes, xor_key, xor_port};
ghost use Rattle.stun_types.specs.XorMappedAddress.{xored_of};
ghost use Rattle.stun_extra.specs.Fingerprint.{fingerprint_in, fingerprint_refusal};
ghost use Rattle.stun_extra.specs.Fingerprint.{with_fingerprint};
ghost use Rattle.stun_extra.specs.Unknown.{unknown_attribute_error};
ghost use Rattle.stun_extra.specs.declared.fingerprint.Fingerprint.TheVariants.{Right};
ghost use Rattle.stun_numbers.specs.Algorithms.{algorithm_number};
ghost use Rattle.stun_numbers.specs.Buffers.{within_room};
ghost use Rattle.stun_numbers.specs.Messages.{base_refusal};
ghost use Rattle.stun_numbers.specs.Refusals.{refusal_of_write};
ghost use Rattle.stun_c.specs.declared.walk.Cursor.{Cursor};
ghost use Rattle.stun_c.specs.Answers.{Writes, WritesWithin, parse_answer, verify_answer};
ghost use Rattle.stun_c.specs.Codes.{error_text};
ghost use Rattle.stun_c.specs.Extra.{fingerprint_answer, fingerprinted_message, types_at};
ghost use Rattle.stun_c.specs.Extra.{types_attribute, types_of_value, unknown_answer, unknown_made};
ghost use Rattle.stun_c.specs.Extra.{held_after, held_number, known_refusal, told_number};
ghost use Rattle.stun_c.specs.Extra.{types_after, unknown_of, wanted_number};
ghost use Rattle.stun_c.specs.Laws.{IsComeTo};
ghost use Rattle.stun_c.specs.Reading.{address_at, address_in, attribute_place, class_answer};
ghost use Rattle.stun_c.specs.Reading.{error_answer, error_in, header_after, header_answer};
ghost use Rattle.stun_c.specs.Reading.{header_in, id_of_message, method_answer, octets_at};
ghost use Rattle.stun_c.specs.Reading.{octets_of_message, port_after, sized_at, text_at, value_at};
ghost use Rattle.stun_c.specs.Reading.{find_answer, finding_refusal, next_answer, next_member};
ghost use Rattle.stun_c.specs.Reading.{number_after, plain_octets, plain_port_after};
ghost use Rattle.stun_c.specs.Reading.{sized_after, text_answer, text_length_after};
ghost use Rattle.stun_c.specs.Requests.{binding_request, key_length, key_of_texts, signed_request};
ghost use Rattle.stun_c.specs.Requests.{userhash_of_texts};
ghost use Rattle.stun_c.specs.Turn.{IsReadAs, built_channel_data, channel_in, channel_item};
ghost use Rattle.stun_c.specs.Turn.{channel_answer, channel_refusal, set_by_data};
ghost use Rattle.stun_c.specs.Turn.{channel_number_answer, transport_answer, transport_in};
ghost use Rattle.stun_c.specs.Walking.{ahead, cursor_refusal, walk_answer};
ghost use Rattle.stun_c.specs.Writing.{added_error, added_number, added_numbered_address};
ghost use Rattle.stun_c.specs.Writing.{added_plain_address, added_sized, begun_message};
ghost use Rattle.stun_c.specs.Writing.{fit_refusal};
ghost use Rattle.stun_c.specs.Writing.{hidden_value, plain_value, shows_kind, signed_message};
ghost use Rattle.stun_c.specs.declared.header.Header.{Header};

use stun_base::algorithm::IntegrityAlgorithm;
use stun_extra::framing::Frame;
use stun_numbers::refusal::Refusal;

/// A long-term key has 16 bytes for HMAC-SHA1 and 32 for HMAC-SHA256 (`long_term_key`), and a
/// USERHASH has 32 bytes (`userhash`). A request of `stunp_build_signed` is as long as its header,
/// its USERNAME and its signature together (`request`).
pub fn stated_lengths()
    ensures long_term_key { (algorithm : IntegrityAlgorithm) (username realm password : List ℕ)
        → length (long_term_key algorithm username realm password) ≡ key_length algorithm }
    ensures userhash { (username realm : List ℕ) → length (userhash_of username realm) ≡ 32 }
    ensures request { (algorithm : IntegrityAlgorithm) (id username key : List ℕ)
        → length (with_integrity (binding_request id username) algorithm key)
        ≡ 28 + padded_length (length username) + digest_length algorithm }
{}

/// Suppose that `stunp_walk` is called several times for one message, first with a cursor of zeros,
/// and then each time with the cursor as the previous call left it. The calls then return each
/// visible attribute once, in the order of the message, and then report that no attribute is left.
pub fn a_walk_comes_to_what_is_visible()
    ensures { (bytes : List ℕ) (cursors : ℕ → Cursor) → (cursors 0).place ≡ 0
        → ((n : ℕ) → ahead (cursors (suc n)) bytes ≡ drop 1 (ahead (cursors n) bytes))
        → (n : ℕ) → slice_get (ahead (cursors n) bytes) 0 ≡ slice_get (visible bytes) n }
{}

/// `stunp_add_fingerprint` fails for the same messages, and with the same errors, as the call of
/// `stun_extra` that adds FINGERPRINT.
pub fn fingerprint_is_refused()
    ensures { (message : List ℕ) (room : ℕ)
        → option_map (refusal_of_write true) (fingerprint_refusal message room)
        ≡ cond (shows_kind FINGERPRINT message) (Some Refusal.AttributeExists)
        (fit_refusal message room 4) }
{}

/// The message that `stunp_refuse_unknown` writes is an error response with the method and the
/// transaction ID of the request. Its attributes are ERROR-CODE and UNKNOWN-ATTRIBUTES.
pub fn refusal_is_spelled()
    ensures { (request : List ℕ) (types : List AttributeType) → unknown_answer request types
        ≡ spelled_message (type_number MessageClass.Error (method_of (type_field request)))
        (transaction_id_field request) (unknown_attribute_error ∷ types_attribute types ∷ []) }
{}

/// The offset that the calls return for an attribute, and that they take as an argument, is the
/// offset of its value in the message.
pub fn a_value_is_where_it_begins()
    ensures { (bytes : List ℕ) (place : ℕ) → IfOk (value_at bytes (attribute_place place))
        (λ value. take (length value) (drop place bytes) ≡ value) }
{}

/// The text that `stunp_error_text` writes has at most `STUNP_LONGEST_ERROR_TEXT` bytes.
pub fn an_error_text_is_short()
    ensures { (answer : ℤ) → length (error_text answer) ≤ 64 }
{}

/// `stunp_read_channel_data` returns the channel number and the data that were passed to
/// `stunp_build_channel_data`, whether or not the message is padded, and whatever bytes follow it.
pub fn channel_data_is_read_back()
    ensures { (padded : Bool) (channel : ℕ) (data_bytes rest : List ℕ) → 0x4000 ≤ channel
        → channel < 0x8000 → length data_bytes < 2 ^ 16
        → IsReadAs channel data_bytes (channel_item padded channel data_bytes ++ rest) }
{}

/// States that `stunp_verify` returns an algorithm only if the library finds that the message's
/// signature with this algorithm is valid under the key (`valid`). `stunp_parse` returns 0 only if
/// the library parses the bytes as a message (`message`), and `stunp_check_fingerprint` returns 1
/// only if the bytes are a message with a valid FINGERPRINT (`fingerprint`).
pub fn verdicts_are_those_of_the_library()
    ensures valid { (bytes key : List ℕ) (n : ℕ) → verify_answer bytes key ≡ pos n
        → (algorithm : IntegrityAlgorithm) × (refusal bytes ≡ None)
        × (verified_algorithm bytes key ≡ Some algorithm) × (n ≡ algorithm_number algorithm) }
    ensures message { (bytes : List ℕ) → parse_answer bytes ≡ pos 0 → refusal bytes ≡ None }
    ensures fingerprint { (bytes : List ℕ) → fingerprint_answer bytes ≡ pos 1
        → (refusal bytes ≡ None) × (fingerprint_in bytes ≡ Right) }
{}

/// The calls that sign a message (`request`, `message`), add FINGERPRINT (`fingerprint`), or make a
/// key (`key`) or a USERHASH (`userhash`) write the same bytes as the library does for the same
/// arguments.
pub fn signatures_are_those_of_the_library()
    ensures request { (algorithm : IntegrityAlgorithm) (id username key bytes : List ℕ)
        → signed_request (Some algorithm) id username key ≡ Ok bytes
        → bytes ≡ with_integrity (binding_request id username) algorithm key }
    ensures message { (buffer : List ℕ) (count : ℕ) (algorithm : IntegrityAlgorithm)
        (key bytes : List ℕ) → signed_message buffer count (Some algorithm) key ≡ Ok bytes
        → bytes ≡ with_integrity (take count buffer) algorithm key }
    ensures key { (algorithm : IntegrityAlgorithm) (username realm password key : List ℕ)
        → key_of_texts (Some algorithm) username realm password ≡ Ok key
        → key ≡ long_term_key algorithm username realm password }
    ensures userhash { (username realm hash : List ℕ)
        → userhash_of_texts username realm ≡ Ok hash → hash ≡ userhash_of username realm }
    ensures fingerprint { (buffer : List ℕ) (count : ℕ) (bytes : List ℕ)
        → fingerprinted_message buffer count ≡ Ok bytes
        → bytes ≡ with_fingerprint (take count buffer) }
{}

/// A call that adds an attribute writes it after the message, and changes only the length field of
/// the message itself. A call that fails leaves the whole buffer unchanged (`buffer`).
pub fn attributes_are_added_behind_the_message()
    ensures any { (buffer : List ℕ) (count attribute : ℕ) (value bytes : List ℕ)
        → added_number buffer count attribute value ≡ Ok bytes
        → bytes ≡ with_attribute (take count buffer)
        (record { kind = attribute; value = value }) }
    ensures hidden { (buffer : List ℕ) (count attribute : ℕ) (octets : List ℕ) (port : ℕ)
        (bytes : List ℕ) → added_numbered_address buffer count attribute octets port ≡ Ok bytes
        → bytes ≡ with_attribute (take count buffer) (record {
          kind = attribute;
          value = hidden_value octets port (transaction_id_field (take count buffer));
        }) }
    ensures plain { (buffer : List ℕ) (count attribute : ℕ) (octets : List ℕ) (port : ℕ)
        (bytes : List ℕ) → added_plain_address buffer count attribute octets port ≡ Ok bytes
        → bytes ≡ with_attribute (take count buffer)
        (record { kind = attribute; value = plain_value octets port }) }
    ensures number { (buffer : List ℕ) (count attribute size number : ℕ) (bytes : List ℕ)
        → added_sized buffer count attribute size number ≡ Ok bytes
        → bytes ≡ with_attribute (take count buffer)
        (record { kind = attribute; value = big_bytes size number }) }
    ensures error { (buffer : List ℕ) (count code : ℕ) (reason bytes : List ℕ)
        → added_error buffer count code reason ≡ Ok bytes
        → bytes ≡ with_attribute (take count buffer) (record {
          kind = ERROR_CODE;
          value = error_value (record { code = code; reason = reason });
        }) }
    ensures buffer { (made : Result (List ℕ) Refusal) (before after : List ℕ) (result : ℤ)
        → Writes made before result after
        → ((bytes rest : List ℕ) × (made ≡ Ok bytes) × (result ≡ pos (length bytes))
        × (after ≡ bytes ++ rest)) ⊎ (after ≡ before) }
{}

/// A call that adds an attribute adds XOR-PEER-ADDRESS (`peer`) and XOR-RELAYED-ADDRESS (`relayed`)
/// also if the message has an attribute of the same type, as long as the message is open and there
/// is room. Any other attribute is refused if the message has one of its type (`once`).
pub fn addresses_of_turn_are_added_again()
    ensures peer { (buffer : List ℕ) (count : ℕ) (value : List ℕ)
        → base_refusal buffer count ≡ None
        → fit_refusal (take count buffer) (length buffer - count) (length value) ≡ None
        → added_number buffer count 0x0012 value
        ≡ Ok (with_attribute (take count buffer) (record { kind = 0x0012; value = value })) }
    ensures relayed { (buffer : List ℕ) (count : ℕ) (value : List ℕ)
        → base_refusal buffer count ≡ None
        → fit_refusal (take count buffer) (length buffer - count) (length value) ≡ None
        → added_number buffer count 0x0016 value
        ≡ Ok (with_attribute (take count buffer) (record { kind = 0x0016; value = value })) }
    ensures once { (buffer : List ℕ) (count attribute : ℕ) (value bytes : List ℕ)
        → attribute ≢ 0x0012 → attribute ≢ 0x0016
        → shows_kind attribute (take count buffer) ≡ true
        → added_number buffer count attribute value ≢ Ok bytes }
{}

/// States that `stunp_begin` writes a message with the class, the method and the transaction ID
/// that were passed, and without attributes (`message`). `stunp_build_channel_data` writes the same
/// ChannelData message as the library (`channel`). `stunp_refuse_unknown` writes nothing, or the
/// error response that lists those comprehension-required attribute types of the request that the
/// caller does not know (`unknown`).
pub fn what_is_begun_is_what_was_asked_for()
    ensures message { (class method : ℕ) (id bytes : List ℕ)
        → begun_message class method id ≡ Ok bytes
        → bytes ≡ spelled_message (type_number (class_of_bits class) method)
        (big_number 12 id) [] }
    ensures channel { (channel : ℕ) (data_bytes : List ℕ) (padded : Bool) (bytes : List ℕ)
        → built_channel_data channel data_bytes padded ≡ Ok bytes
        → bytes ≡ channel_item padded channel data_bytes }
    ensures unknown { (request known bytes : List ℕ) → unknown_made request known ≡ Ok bytes
        → (bytes ≡ []) ⊎ (bytes ≡ unknown_answer request (unknown_of request known)) }
{}

/// States that the values that calls return are those in the message: its class, its method, its
/// transaction ID, the fields of its header, and the values of ERROR-CODE, XOR-MAPPED-ADDRESS,
/// CHANNEL-NUMBER and REQUESTED-TRANSPORT.
pub fn what_is_read_is_in_the_message()
    ensures class { (bytes : List ℕ) (n : ℕ) → class_answer bytes ≡ pos n
        → (refusal bytes ≡ None) × (n ≡ class_number (class_in bytes)) }
    ensures method { (bytes : List ℕ) (n : ℕ) → method_answer bytes ≡ pos n
        → (refusal bytes ≡ None) × (n ≡ method_of (type_field bytes)) }
    ensures header { (bytes : List ℕ) (header : Header) → header_answer bytes ≡ pos 0
        → header_after (header_refusal bytes) bytes header ≡ header_in bytes }
    ensures id { (bytes id : List ℕ) → id_of_message bytes ≡ Ok id
        → (refusal bytes ≡ None) × (id ≡ take 12 (drop 8 bytes)) }
    ensures error { (bytes : List ℕ) (n : ℕ) → error_answer bytes ≡ pos n
        → (error : CodeAndReason) × (error_in bytes ≡ Ok error) × (n ≡ error.code) }
    ensures address { (bytes octets : List ℕ) (port : ℕ) → octets_of_message bytes ≡ Ok octets
        → (a : XoredAddress) × (address_in bytes ≡ Ok a)
        × (octets ≡ xor_bytes a.octets (xor_key (transaction_id_field bytes)))
        × (port_after (octets_of_message bytes) (address_in bytes) port ≡ xor_port a.port) }
    ensures channel { (bytes : List ℕ) (n : ℕ) → channel_number_answer bytes ≡ pos n
        → channel_in bytes ≡ Ok n }
    ensures transport { (bytes : List ℕ) (n : ℕ) → transport_answer bytes ≡ pos n
        → transport_in bytes ≡ Ok n }
{}

/// The calls that read the attribute at an offset, as a number, a text, a list of types or an
/// address, all read the same bytes, which are the value of the attribute.
pub fn attributes_are_read_from_their_value()
    ensures number { (bytes value : List ℕ) (place : ℕ) → sized_at bytes place ≡ Ok value
        → value_at bytes place ≡ Ok value }
    ensures text { (bytes text : List ℕ) (place : ℕ) → text_at bytes place ≡ Ok text
        → (value_at bytes place ≡ Ok text) × (is_utf8 text ≡ true) }
    ensures types { (bytes : List ℕ) (place : ℕ)
        → types_at bytes place ≡ types_of_value (value_at bytes place) }
    ensures address { (bytes octets : List ℕ) (place : ℕ) → octets_at bytes place ≡ Ok octets
        → (a : XoredAddress) × (address_at bytes place ≡ Ok a)
        × ((value : List ℕ) × (value_at bytes place ≡ Ok value)
        × (xored_of (record { kind = XOR_MAPPED_ADDRESS; value = value }) ≡ Some a))
        × (octets ≡ xor_bytes a.octets (xor_key (transaction_id_field bytes))) }
{}

/// States that a call that finds an attribute finds the same attribute as the library: the first
/// attribute of a type (`found`), the next attribute after an offset (`next`, `behind`), or the
/// next attribute at or after a cursor (`walked`). The call returns the offset of the value, and
/// writes the type of the attribute and the length of its value. If there is no such attribute, a
/// call for a type fails with `STUNP_MISSING_ATTRIBUTE`, and the other calls return 0.
pub fn attributes_that_are_found_are_in_the_message()
    ensures found { (bytes : List ℕ) (kind before : ℕ) (part : TypedValue → ℕ) (n : ℕ)
        → find_answer (finding_refusal kind bytes) (first_of kind (visible bytes)) ≡ pos n
        → (m : Member) × (refusal bytes ≡ None) × (first_of kind (visible bytes) ≡ Some m)
        × (n ≡ m.0 + 4) × (number_after part (finding_refusal kind bytes)
        (first_of kind (visible bytes)) before ≡ part m.1) }
    ensures next { (bytes : List ℕ) (place before : ℕ) (part : TypedValue → ℕ) (n : ℕ)
        → next_answer bytes place ≡ pos n
        → (refusal bytes ≡ None) × IsComeTo (next_member place bytes) part n before
        (number_after part (refusal bytes) (next_member place bytes) before) }
    ensures behind { (bytes : List ℕ) (place : ℕ) (m : Member)
        → next_member place bytes ≡ Some m → place < m.0 }
    ensures walked { (cursor : Cursor) (bytes : List ℕ) (before : ℕ) (part : TypedValue → ℕ)
        (n : ℕ)
        → walk_answer (cursor_refusal cursor bytes) (slice_get (ahead cursor bytes) 0) ≡ pos n
        → (cursor_refusal cursor bytes ≡ None)
        × IsComeTo (slice_get (ahead cursor bytes) 0) part n before
        (number_after part (cursor_refusal cursor bytes) (slice_get (ahead cursor bytes) 0)
        before) }
{}

/// States which values the calls write in addition to their results, and what the call for streams
/// returns.
///
/// - `text`, `number`, `address`, `channel`: a call writes the values that it has read. These are
///   the length of a text, a number, an address and its port, or the channel number and the data
///   length of a ChannelData message.
/// - `types`, `unknown`: a call that reads a list of types writes as many of them as fit into the
///   caller's array.
/// - `frame`: a call that finds the first message in a stream returns the length of this message.
///   If the message is incomplete, the call returns the number of bytes that the stream must have
///   before the next call.
/// - `room`: no call writes more than its buffer has room for.
pub fn what_is_written_is_what_was_read()
    ensures text { (x : Result (List ℕ) Refusal) (place before n : ℕ)
        → text_answer x place ≡ pos n → (text : List ℕ) × (x ≡ Ok text) × (n ≡ place + 4)
        × (text_length_after x before ≡ length text) }
    ensures number { (bytes value : List ℕ) (place before : ℕ) → sized_at bytes place ≡ Ok value
        → sized_after (sized_at bytes place) before ≡ big_number (length value) value }
    ensures address { (a : Result XoredAddress Refusal) (room before : ℕ) (octets : List ℕ)
        → within_room (plain_octets a) room ≡ Ok octets
        → (address : XoredAddress) × (a ≡ Ok address) × (octets ≡ address.octets)
        × (plain_port_after (within_room (plain_octets a) room) a before ≡ address.port) }
    ensures channel { (bytes : List ℕ) (n number before : ℕ)
        → channel_answer (channel_refusal bytes) ≡ pos n
        → (channel_refusal bytes ≡ None) × (n ≡ 4)
        × (set_by_data (channel_refusal bytes) number before ≡ number) }
    ensures types { (x : Result (List AttributeType) Refusal) (numbers : List ℕ) (n : ℕ)
        → held_number x ≡ pos n
        → (types : List AttributeType) × (rest : List ℕ) × (x ≡ Ok types) × (n ≡ length types)
        × (held_after x numbers
        ≡ take (length numbers) (map (λ kind. kind.0) types) ++ rest) }
    ensures unknown { (bytes known numbers : List ℕ) (n : ℕ)
        → told_number (known_refusal bytes known) (unknown_of bytes known) ≡ pos n
        → (rest : List ℕ) × (refusal bytes ≡ None) × (n ≡ length (unknown_of bytes known))
        × (types_after (known_refusal bytes known) (unknown_of bytes known) numbers
        ≡ take (length numbers) (map (λ kind. kind.0) (unknown_of bytes known)) ++ rest) }
    ensures frame { (there n : ℕ) (frame : Frame) → wanted_number there frame ≡ pos n
        → (frame ≡ Frame.Message n) ⊎ ((more : ℕ) × (frame ≡ Frame.Need more)
        × (n ≡ there + more)) }
    ensures room { (made : Result (List ℕ) Refusal) (before after : List ℕ) (result : ℤ)
        → WritesWithin made before result after
        → ((bytes : List ℕ) × (rest : List ℕ) × (made ≡ Ok bytes)
        × (length bytes ≤ length before) × (result ≡ pos (length bytes))
        × (after ≡ bytes ++ rest)) ⊎ (after ≡ before) }
{}
