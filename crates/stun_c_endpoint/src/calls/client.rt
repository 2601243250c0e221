//! The calls on a client (RFC 8489, sections 6.2, 6.3 and 9.2.5).
//!
//! A call fails first with `EmptyHandle` if its handle is empty, and with `WrongHandle` if the
//! handle has no client.

ghost use Rattle.std.specs.Prelude.{◌≡◌, None, Some};
ghost use Rattle.stun_c_endpoint.specs.Clients.{AsksAs, CancelsAs, HearsAs, PollsAs, TellsDropped};
ghost use Rattle.stun_c_endpoint.specs.Clients.{client_in};
ghost use Rattle.stun_c_endpoint.specs.ClientsGiven.{MakesClient};
ghost use Rattle.stun_c_endpoint.specs.Events.{event_failed};
ghost use Rattle.stun_c_endpoint.specs.Given.{Fills};

use crate::client::doing::{ask, cancel, hear, poll, tell_dropped};
use crate::client::event::{Dropped, Event};
use crate::client::options::RequestOptions;
use crate::client::settings::{ClientGiven, ClientOptions};
use crate::handle::endpoint::EndpointHandle;
use std::alloc::Global;
use stun_handles::address::Address;
use stun_handles::answers;
use stun_numbers::passed::is_impossible;
use stun_numbers::refusal::Refusal;

/// Creates a client of the server at the address `server`. `seed` is 32 random bytes. If the name
/// is empty, the client has no user. If the SOFTWARE text is empty, requests have no SOFTWARE.
/// `understood` lists the attribute types that the caller understands in responses, in addition to
/// those in `include/stunp.h`. An option that is 0 has its default.
///
/// # Errors
///
/// The first of these that applies:
///
/// - `FullHandle`: the handle is not empty.
/// - `BadArgument`: `server` is not an IPv4 or IPv6 address, an option is invalid, there is a name
///   without a password or a password without a name, or the seed is one repeated byte.
/// - `NotText`: the name, the password or SOFTWARE is not UTF-8.
/// - `TextTooLong`: the name has more than 513 bytes, or SOFTWARE has more than 763 bytes.
/// - `OutOfMemory`: an allocation failed.
#[unsafe(no_mangle)]
pub extern "C" fn stunp_endpoint_client_new_with(
    alloc: Global,
    client: &mut EndpointHandle,
    server: &Address,
    seed: &[u8; 32],
    name: &[u8],
    password: &[u8],
    software: &[u8],
    understood: &[u16],
    options: &ClientOptions,
) -> i64
    ensures { Fills client.old.kept client.new.kept result (MakesClient (record {
      server = server.now;
      seed = seed.now;
      name = name.now;
      password = password.now;
      software = software.now;
      understood = understood.now;
      options = options.now;
    })) }
{
    if let Some(kept) = client.take(alloc) {
        client.put(alloc, kept);
        return Refusal::FullHandle.code();
    }
    let given = ClientGiven {
        server,
        seed,
        name,
        password,
        software,
        understood,
        options,
    };
    given.place(alloc, client)
}

/// Frees the client, and makes the handle empty.
#[unsafe(no_mangle)]
pub extern "C" fn stunp_endpoint_client_clear(alloc: Global, client: &mut EndpointHandle)
    ensures { client.new.kept ≡ None }
{
    let _kept = client.take(alloc);
}

/// Starts a request with this method at the time `now`, in nanoseconds, and writes its number to
/// `request`. `body` has the attributes one after the other, each with its header and its padding,
/// as in a message; but the addresses of XOR-PEER-ADDRESS are not XORed.
///
/// # Errors
///
/// The first of these that applies. If an allocation fails, the call may return `OutOfMemory` in
/// place of any error after the first.
///
/// - `BadArgument`: the method is above 4095.
/// - `NotAllowed`, `MessageTooLong` or `BadArgument`: the error of the first attribute of the body
///   that cannot be added. `NotAllowed` means that the client writes this type itself or that no
///   caller may add it, `MessageTooLong` that the attributes are too long, and `BadArgument` that
///   the attribute is incomplete, or is a XOR-PEER-ADDRESS without an address.
/// - `AlreadyInProgress`: no transaction ID is left.
/// - `MessageTooLong`: the whole request is too long.
#[unsafe(no_mangle)]
pub extern "C" fn stunp_endpoint_client_request_with(
    alloc: Global,
    client: &mut EndpointHandle,
    method: u32,
    body: &[u8],
    now: u64,
    request: &mut u64,
) -> i64
    ensures { AsksAs (client_in client.old.kept) method body.now None now result request.old
        request.new client.old.kept client.new.kept }
{
    let Some(mut kept) = client.take(alloc) else {
        return Refusal::EmptyHandle.code();
    };
    let answer = answers::done(ask(alloc, &mut kept, method, body, None, now, request));
    client.put(alloc, kept);
    answer
}

/// Starts a request like `stunp_endpoint_client_request_with`, but with options that say how it is
/// sent, and from which address its response is accepted.
///
/// Fails like `stunp_endpoint_client_request_with`, and also with `BadArgument` if `options.size`
/// is wrong or the length of `options.from` is not 0, 4 or 16. This check comes right after the
/// check of `method`.
#[unsafe(no_mangle)]
pub extern "C" fn stunp_endpoint_client_request_as_with(
    alloc: Global,
    client: &mut EndpointHandle,
    method: u32,
    body: &[u8],
    options: &RequestOptions,
    now: u64,
    request: &mut u64,
) -> i64
    ensures { AsksAs (client_in client.old.kept) method body.now (Some options.now) now result
        request.old request.new client.old.kept client.new.kept }
{
    let Some(mut kept) = client.take(alloc) else {
        return Refusal::EmptyHandle.code();
    };
    let answer = answers::done(ask(alloc, &mut kept, method, body, Some(options), now, request));
    client.put(alloc, kept);
    answer
}

/// Processes a datagram that arrived from the address `from` at the time `now`, in nanoseconds, and
/// returns its `stunp_kind`. If the datagram is dropped, writes the `stunp_drop` to `why`.
///
/// Fails with `BadArgument` if `from` is not an IPv4 or IPv6 address.
#[unsafe(no_mangle)]
pub extern "C" fn stunp_endpoint_client_receive_with(
    alloc: Global,
    client: &mut EndpointHandle,
    message: &[u8],
    from: &Address,
    now: u64,
    why: &mut u32,
) -> i64
    ensures { HearsAs (client_in client.old.kept) from.now message.now now result why.old why.new
        client.old.kept client.new.kept }
{
    if is_impossible(message) {
        return Refusal::BadArgument.code();
    }
    let Some(mut kept) = client.take(alloc) else {
        return Refusal::EmptyHandle.code();
    };
    let answer = answers::number(hear(&mut kept, message, from, now, why));
    client.put(alloc, kept);
    answer
}

/// Writes what to do next at the time `now`, in nanoseconds, to `event`, and returns its
/// `stunp_event_kind`. Writes a request to send, or the response that ended a request, to the front
/// of `out`.
///
/// Fails with `BadArgument` if `event.size` is wrong. Fails with `BufferTooSmall` if the request or
/// the response does not fit into `out`. The request or the response is then lost, `event.needed`
/// is its length, and the other fields of `event` are set as if it had been written. After any
/// error, `event` has the kind 7 and the length 0.
#[unsafe(no_mangle)]
pub extern "C" fn stunp_endpoint_client_poll_with(
    alloc: Global,
    client: &mut EndpointHandle,
    now: u64,
    out: &mut [u8],
    event: &mut Event,
) -> i64
    ensures { PollsAs (client_in client.old.kept) now result out.old out.new (event_failed event.old)
        event.new client.old.kept client.new.kept }
{
    event.fails();
    let Some(mut kept) = client.take(alloc) else {
        return Refusal::EmptyHandle.code();
    };
    let answer = answers::number(poll(&mut kept, now, out, event));
    client.put(alloc, kept);
    answer
}

/// Cancels the request with this number. Returns 1, or 0 if the request has ended already.
#[unsafe(no_mangle)]
pub extern "C" fn stunp_endpoint_client_cancel(
    alloc: Global,
    client: &mut EndpointHandle,
    request: u64,
) -> i64
    ensures { CancelsAs (client_in client.old.kept) request result client.old.kept
        client.new.kept }
{
    let Some(mut kept) = client.take(alloc) else {
        return Refusal::EmptyHandle.code();
    };
    let answer = answers::number(cancel(&mut kept, request));
    client.put(alloc, kept);
    answer
}

/// Writes to `dropped` how many responses to the request with this number were dropped, and why the
/// last one was dropped. Returns 1. If the request has ended, returns 0 and writes nothing.
#[unsafe(no_mangle)]
pub extern "C" fn stunp_endpoint_client_dropped(
    alloc: Global,
    client: &mut EndpointHandle,
    request: u64,
    dropped: &mut Dropped,
) -> i64
    ensures answer { TellsDropped (client_in client.old.kept) request result dropped.old
        dropped.new }
    ensures same { client.new.kept ≡ client.old.kept }
{
    let Some(kept) = client.take(alloc) else {
        return Refusal::EmptyHandle.code();
    };
    let answer = answers::number(tell_dropped(&kept, request, dropped));
    client.put(alloc, kept);
    answer
}
