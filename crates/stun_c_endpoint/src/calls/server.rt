//! The calls on a server (RFC 8489, sections 6.3 and 9.2.4).

ghost use Rattle.std.specs.Prelude.{◌≡◌, Some, None, if◌then◌else◌};
ghost use Rattle.stun_c_endpoint.specs.Causes.{CausedAs, IsCause, cause_at};
ghost use Rattle.stun_c_endpoint.specs.Causes.{caused_at, long_term_and_users};
ghost use Rattle.stun_c_endpoint.specs.Found.{judge_of_found};
ghost use Rattle.stun_c_endpoint.specs.Given.{Fills, MakesOpen, MakesServer, MakesShortTerm};
ghost use Rattle.stun_c_endpoint.specs.Kept.{judge_of};
ghost use Rattle.stun_c_endpoint.specs.Lookups.{IdentifiesAs, identified_at, long_term_in};
ghost use Rattle.stun_c_endpoint.specs.Told.{ReceivesAs, failed, outcome_at};

use crate::found::{self, Found};
use crate::handle::endpoint::EndpointHandle;
use crate::received::Received;
use crate::settings::{Given, GivenAlone};
use crate::{caused, server};
use std::alloc::Global;
use stun_handles::address::Address;
use stun_handles::answers;
use stun_numbers::passed::is_impossible;
use stun_numbers::refusal::Refusal;

/// Creates a server with long-term credentials. `secret` is 32 random bytes, from which the server
/// makes its nonces. If `has_previous_secret` is true, the server also accepts nonces that were
/// made from `previous_secret`. The server sends the same nonce to a client for `nonce_seconds`, or
/// for an hour if this is 0, and accepts a nonce for one to two times as long. If `algorithms` is
/// 0, the server supports both algorithms. If `anonymous_username` is 2, clients may not send a
/// hash in place of the user name. If the SOFTWARE text is empty, responses have no SOFTWARE.
///
/// `understood` lists the attribute types that the caller understands, in addition to those of
/// STUN. If `answers_binding` is true, the server itself answers an accepted Binding request. If
/// `requires_fingerprint` is true, it drops messages without FINGERPRINT.
///
/// # Errors
///
/// The first of these that applies:
///
/// - `FullHandle`: the handle is not empty.
/// - `BadArgument`: `algorithms` is above 3, `anonymous_username` is above 2, the nonce lifetime is
///   below 30 seconds or above 30 days, a secret is one repeated byte, both secrets are equal, or
///   the realm is empty.
/// - `NotText`: the realm or SOFTWARE is not UTF-8.
/// - `TextTooLong`: the realm or SOFTWARE has more than 763 bytes.
/// - `OutOfMemory`: an allocation failed.
#[unsafe(no_mangle)]
pub extern "C" fn stunp_endpoint_server_new_with(
    alloc: Global,
    server: &mut EndpointHandle,
    realm: &[u8],
    software: &[u8],
    secret: &[u8; 32],
    previous_secret: &[u8; 32],
    has_previous_secret: bool,
    understood: &[u16],
    nonce_seconds: u64,
    algorithms: u32,
    anonymous_username: u32,
    answers_binding: bool,
    requires_fingerprint: bool,
) -> i64
    ensures { Fills server.old.kept server.new.kept result (MakesServer (record {
      realm = realm.now;
      software = software.now;
      secret = secret.now;
      previous_secret = if has_previous_secret then Some previous_secret.now else None;
      understood = understood.now;
      nonce_seconds = nonce_seconds;
      algorithms = algorithms;
      anonymous_username = anonymous_username;
      answers_binding = answers_binding;
      requires_fingerprint = requires_fingerprint;
    })) }
{
    if let Some(kept) = server.take(alloc) {
        server.put(alloc, kept);
        return Refusal::FullHandle.code();
    }
    let given = Given {
        realm,
        software,
        secret: *secret,
        previous_secret: copy_previous_secret(previous_secret, has_previous_secret),
        understood,
        nonce_seconds,
        algorithms,
        anonymous_username,
        answers_binding,
        requires_fingerprint,
    };
    given.place(alloc, server)
}

/// Returns the previous secret, or `None` if the caller has passed none.
fn copy_previous_secret(secret: &[u8; 32], is_there: bool) -> Option<[u8; 32]>
    ensures { result ≡ (if is_there then Some secret.now else None) }
{
    if is_there {
        return Some(*secret);
    }
    None
}

/// Creates a server with short-term credentials (RFC 8489, section 9.1). If the SOFTWARE text is
/// empty, responses have no SOFTWARE. `understood` lists the attribute types that the caller
/// understands, in addition to those of STUN. If `answers_binding` is true, the server itself
/// answers an accepted Binding request. If `requires_fingerprint` is true, it drops messages
/// without FINGERPRINT.
///
/// Fails with `FullHandle` if the handle is not empty, then with `NotText` if SOFTWARE is not
/// UTF-8, then with `TextTooLong` if SOFTWARE has more than 763 bytes, then with `OutOfMemory`.
#[unsafe(no_mangle)]
pub extern "C" fn stunp_endpoint_server_new_short_term(
    alloc: Global,
    server: &mut EndpointHandle,
    software: &[u8],
    understood: &[u16],
    answers_binding: bool,
    requires_fingerprint: bool,
) -> i64
    ensures { Fills server.old.kept server.new.kept result (MakesShortTerm (record {
      software = software.now;
      understood = understood.now;
      answers_binding = answers_binding;
      requires_fingerprint = requires_fingerprint;
    })) }
{
    if let Some(kept) = server.take(alloc) {
        server.put(alloc, kept);
        return Refusal::FullHandle.code();
    }
    let given = GivenAlone {
        software,
        understood,
        answers_binding,
        requires_fingerprint,
    };
    given.place_short_term(alloc, server)
}

/// Creates a server without credentials, which responds to every client. If the SOFTWARE text is
/// empty, responses have no SOFTWARE. `understood` lists the attribute types that the caller
/// understands, in addition to those of STUN. If `answers_binding` is true, the server itself
/// answers a Binding request. If `requires_fingerprint` is true, it drops messages without
/// FINGERPRINT.
///
/// Fails with `FullHandle` if the handle is not empty, then with `NotText` if SOFTWARE is not
/// UTF-8, then with `TextTooLong` if SOFTWARE has more than 763 bytes, then with `OutOfMemory`.
#[unsafe(no_mangle)]
pub extern "C" fn stunp_endpoint_server_new_open(
    alloc: Global,
    server: &mut EndpointHandle,
    software: &[u8],
    understood: &[u16],
    answers_binding: bool,
    requires_fingerprint: bool,
) -> i64
    ensures { Fills server.old.kept server.new.kept result (MakesOpen (record {
      software = software.now;
      understood = understood.now;
      answers_binding = answers_binding;
      requires_fingerprint = requires_fingerprint;
    })) }
{
    if let Some(kept) = server.take(alloc) {
        server.put(alloc, kept);
        return Refusal::FullHandle.code();
    }
    let given = GivenAlone {
        software,
        understood,
        answers_binding,
        requires_fingerprint,
    };
    given.place_open(alloc, server)
}

/// Frees the server, and makes the handle empty.
#[unsafe(no_mangle)]
pub extern "C" fn stunp_endpoint_server_clear(alloc: Global, server: &mut EndpointHandle)
    ensures { server.new.kept ≡ None }
{
    let _kept = server.take(alloc);
}

/// Judges a datagram that arrived from the address `from`. Writes the outcome to `received` and
/// returns its `stunp_kind`. If the server responds by itself, this call writes the response to the
/// front of `out`. A server without credentials ignores the users.
///
/// `unix_seconds` is the time of the wall clock, in seconds since 1970. If the clock is set back,
/// no call fails, but clients may get one more 438, and requests that an attacker has recorded stay
/// valid longer, by as much as the clock was set back.
///
/// # Errors
///
/// The first of these that applies. After an error, `received` has the kind 7 and the length 0.
///
/// - `EmptyHandle`: the server's handle is empty.
/// - `WrongHandle`: the server's handle has no server.
/// - `EmptyHandle`: the server has credentials, but the users' handle is empty.
/// - `WrongHandle`: the server has credentials, but the users' handle has no table of users with
///   credentials of this kind.
/// - `BadArgument`: `received.size` is wrong, `unix_seconds` is too large, or `from` is not an IPv4
///   or IPv6 address.
/// - `OutOfMemory`: an allocation failed.
/// - `BufferTooSmall`: the response does not fit into `out`. Its length is then in
///   `received.needed`.
#[unsafe(no_mangle)]
pub extern "C" fn stunp_endpoint_server_receive_own(
    alloc: Global,
    server: &mut EndpointHandle,
    users: &mut EndpointHandle,
    message: &[u8],
    from: &Address,
    unix_seconds: u64,
    out: &mut [u8],
    received: &mut Received,
) -> i64
    ensures answer { ReceivesAs (outcome_at (judge_of server.old.kept users.old.kept) from.now
        unix_seconds message.now (failed received.old)) result out.old out.new (failed received.old)
        received.new }
    ensures server { server.new.kept ≡ server.old.kept }
    ensures users { users.new.kept ≡ users.old.kept }
{
    received.fails();
    if is_impossible(message) {
        return Refusal::BadArgument.code();
    }
    let Some(kept) = server.take(alloc) else {
        return Refusal::EmptyHandle.code();
    };
    let Some(table) = users.take(alloc) else {
        let told = server::receive_alone(&kept, message, from, unix_seconds, out, received);
        server.put(alloc, kept);
        return answers::number(told);
    };
    let told = server::receive(&kept, &table, message, from, unix_seconds, out, received);
    let answer = answers::number(told);
    users.put(alloc, table);
    server.put(alloc, kept);
    answer
}

/// Judges a datagram like `stunp_endpoint_server_receive_own`, and also writes to `cause` the
/// `stunp_cause` for which a server with long-term credentials refuses the datagram, or 0 if the
/// server does not refuse it or does not have long-term credentials.
///
/// Fails like `stunp_endpoint_server_receive_own`. After `BufferTooSmall`, `cause` is the cause of
/// the response that does not fit. After `OutOfMemory` it may be 0, and after any other error it is
/// 0.
#[unsafe(no_mangle)]
pub extern "C" fn stunp_endpoint_server_receive_with_cause_own(
    alloc: Global,
    server: &mut EndpointHandle,
    users: &mut EndpointHandle,
    message: &[u8],
    from: &Address,
    unix_seconds: u64,
    out: &mut [u8],
    received: &mut Received,
    cause: &mut u32,
) -> i64
    ensures answer { ReceivesAs (outcome_at (judge_of server.old.kept users.old.kept) from.now
        unix_seconds message.now (failed received.old)) result out.old out.new (failed received.old)
        received.new }
    ensures cause { IsCause (cause_at (judge_of server.old.kept users.old.kept) from.now
        unix_seconds message.now (failed received.old)) result cause.new }
    ensures server { server.new.kept ≡ server.old.kept }
    ensures users { users.new.kept ≡ users.old.kept }
{
    received.fails();
    *cause = 0;
    if is_impossible(message) {
        return Refusal::BadArgument.code();
    }
    let Some(kept) = server.take(alloc) else {
        return Refusal::EmptyHandle.code();
    };
    let Some(table) = users.take(alloc) else {
        let told = server::receive_alone(&kept, message, from, unix_seconds, out, received);
        server.put(alloc, kept);
        return answers::number(told);
    };
    let told = caused::receive(
        &kept,
        &table,
        message,
        from,
        unix_seconds,
        out,
        received,
        cause,
    );
    let answer = answers::number(told);
    users.put(alloc, table);
    server.put(alloc, kept);
    answer
}

/// Judges a datagram that arrived from the address `from`, as far as that is possible without its
/// user. Writes the outcome to `received` and returns its `stunp_kind`. The kind is 5
/// (`STUNP_LOOKUP`) for a request whose user must be looked up: pass the request and the user to
/// `stunp_endpoint_server_resume_own`. If the server responds by itself, this call writes the
/// response to the front of `out`. `unix_seconds` is the time of the wall clock, in seconds since
/// 1970.
///
/// # Errors
///
/// The first of these that applies. After an error, `received` has the kind 7 and the length 0.
///
/// - `EmptyHandle`: the handle is empty.
/// - `WrongHandle`: the handle has something other than a server with long-term credentials.
/// - `BadArgument`: `received.size` is wrong, `unix_seconds` is too large, or `from` is not an IPv4
///   or IPv6 address.
/// - `OutOfMemory`: an allocation failed.
/// - `BufferTooSmall`: the response does not fit into `out`. Its length is then in
///   `received.needed`.
#[unsafe(no_mangle)]
pub extern "C" fn stunp_endpoint_server_identify_own(
    alloc: Global,
    server: &mut EndpointHandle,
    message: &[u8],
    from: &Address,
    unix_seconds: u64,
    out: &mut [u8],
    received: &mut Received,
) -> i64
    ensures answer { IdentifiesAs (identified_at (long_term_in server.old.kept) from.now unix_seconds
        message.now (failed received.old)) result out.old out.new (failed received.old)
        received.new }
    ensures server { server.new.kept ≡ server.old.kept }
{
    received.fails();
    if is_impossible(message) {
        return Refusal::BadArgument.code();
    }
    let Some(kept) = server.take(alloc) else {
        return Refusal::EmptyHandle.code();
    };
    let told = server::identify(&kept, message, from, unix_seconds, out, received);
    let answer = answers::number(told);
    server.put(alloc, kept);
    answer
}

/// Judges a request for which `stunp_endpoint_server_identify_own` returned 5 (`STUNP_LOOKUP`),
/// with the user whom the caller has looked up: the name, and the password if `has_password` is
/// true, or otherwise the stored keys. Writes the outcome to `received` and returns its
/// `stunp_kind`. The outcome is the same as with a table that has only this user, but the call
/// makes only the key that the request needs. `sha1` has 16 bytes, and `sha256` has 32. An empty
/// key counts as missing. If the server responds by itself, this call writes the response to the
/// front of `out`. `from` and `unix_seconds` are the address and the time with which the request
/// was identified.
///
/// # Errors
///
/// The first of these that applies. After an error, `received` has the kind 7 and the length 0.
///
/// - `EmptyHandle`: the handle is empty.
/// - `WrongHandle`: the handle has something other than a server with long-term credentials.
/// - `NotText`: the name or the password is not UTF-8.
/// - `TextTooLong`: the name has more than 513 bytes.
/// - `BadArgument`: the name or the password is empty, both keys are missing, a key has a wrong
///   length, `received.size` is wrong, `unix_seconds` is too large, or `from` is not an IPv4 or IPv6
///   address.
/// - `OutOfMemory`: an allocation failed.
/// - `BufferTooSmall`: the response does not fit into `out`. Its length is then in
///   `received.needed`.
#[unsafe(no_mangle)]
pub extern "C" fn stunp_endpoint_server_resume_own(
    alloc: Global,
    server: &mut EndpointHandle,
    name: &[u8],
    password: &[u8],
    has_password: bool,
    sha1: &[u8],
    sha256: &[u8],
    message: &[u8],
    from: &Address,
    unix_seconds: u64,
    out: &mut [u8],
    received: &mut Received,
) -> i64
    ensures answer { ReceivesAs (outcome_at (judge_of_found name.now password.now has_password
        sha1.now sha256.now server.old.kept) from.now unix_seconds message.now
        (failed received.old)) result out.old out.new (failed received.old) received.new }
    ensures server { server.new.kept ≡ server.old.kept }
{
    received.fails();
    if is_impossible(message) {
        return Refusal::BadArgument.code();
    }
    let Some(kept) = server.take(alloc) else {
        return Refusal::EmptyHandle.code();
    };
    let user = Found {
        name,
        password,
        has_password,
        sha1,
        sha256,
    };
    let told = found::resume(&kept, &user, message, from, unix_seconds, out, received);
    let answer = answers::number(told);
    server.put(alloc, kept);
    answer
}

/// Returns the `stunp_cause` for which a server with long-term credentials refuses a datagram that
/// arrived from the address `from`, or 0 if the server does not refuse it. `unix_seconds` is the
/// time of the wall clock, in seconds since 1970. The call judges the datagram like
/// `stunp_endpoint_server_receive_own`, but writes no response.
///
/// # Errors
///
/// The first of these that applies:
///
/// - `EmptyHandle`: the server's handle is empty.
/// - `WrongHandle`: the server's handle has something other than a server with long-term
///   credentials.
/// - `EmptyHandle`: the users' handle is empty.
/// - `WrongHandle`: the users' handle has something other than a table of users with long-term
///   credentials.
/// - `BadArgument`: `unix_seconds` is too large, or `from` is not an IPv4 or IPv6 address.
/// - `OutOfMemory`: an allocation failed.
#[unsafe(no_mangle)]
pub extern "C" fn stunp_endpoint_server_cause_own(
    alloc: Global,
    server: &mut EndpointHandle,
    users: &mut EndpointHandle,
    message: &[u8],
    from: &Address,
    unix_seconds: u64,
) -> i64
    ensures answer { CausedAs (caused_at (long_term_and_users server.old.kept users.old.kept) from.now
        unix_seconds message.now) result }
    ensures server { server.new.kept ≡ server.old.kept }
    ensures users { users.new.kept ≡ users.old.kept }
{
    if is_impossible(message) {
        return Refusal::BadArgument.code();
    }
    let Some(kept) = server.take(alloc) else {
        return Refusal::EmptyHandle.code();
    };
    let Some(table) = users.take(alloc) else {
        let refusal = server::cause_alone(&kept);
        server.put(alloc, kept);
        return refusal.code();
    };
    let caused = server::cause(&kept, &table, message, from, unix_seconds);
    let answer = answers::number(caused);
    users.put(alloc, table);
    server.put(alloc, kept);
    answer
}
