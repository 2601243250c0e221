//! Calls the client in a handle: starts and cancels requests, passes datagrams to the client and
//! polls it, and writes the results for the caller in C.

ghost use Rattle.std.specs.Option.{option_copied, option_map};
ghost use Rattle.std.specs.Prelude.{◌≡◌, ◌⊎◌, Err, IfOk, IsOkUnless, MatchOption, Ok, OnErr, OnOk};
ghost use Rattle.std.specs.Prelude.{Some, length, nat_lt};
ghost use Rattle.stun_handles.specs.Numbers.{done_answer, number_answer};
ghost use Rattle.stun_client_calls.specs.Clients.{refusal_to_start, started, told_of};
ghost use Rattle.stun_client_calls.specs.Clients.{transmit as transmitted};
ghost use Rattle.stun_client_calls.specs.Options.{options_of};
ghost use Rattle.stun_c_endpoint.specs.Clients.{AsksAs, CancelsAs, HearsAs, PollsAs};
ghost use Rattle.stun_c_endpoint.specs.Clients.{Tells, TellsDropped, WritesTold, client_of};
ghost use Rattle.stun_c_endpoint.specs.Clients.{received_number, refusal_of_request, why_told};
ghost use Rattle.stun_c_endpoint.specs.Events.{event_unless, or_for_ever};
ghost use Rattle.stun_c_endpoint.specs.declared.handle.endpoint.Kept.TheVariants as kind;

use crate::client::body::body_of;
use crate::client::event::{Dropped, EVENT_SIZE, Event, drop_number};
use crate::client::options::RequestOptions;
use crate::handle::endpoint::Kept;
use std::alloc::Global;
use stun_base::instant::Instant;
use stun_client_calls::endpoint::ClientEndpoint;
use stun_client_calls::options::RequestOptions as Options;
use stun_client_calls::told::Polled;
use stun_client_endpoint::body::Body;
use stun_client_endpoint::told::{Received, RequestError};
use stun_handles::address::Address;
use stun_numbers::buffer::put;
use stun_numbers::refusal::Refusal;
use stun_types::message::Method;

/// The greatest time, in nanoseconds. It is the time to wait until in an event if no request is
/// outstanding.
const FOR_EVER: u64 = 18_446_744_073_709_551_615;

/// Converts the library's error for a request that could not be started.
fn convert_request_error(error: RequestError) -> Refusal
    ensures { result ≡ refusal_of_request error }
{
    match error {
        RequestError::NoId => Refusal::AlreadyInProgress,
        RequestError::TooLarge => Refusal::MessageTooLong,
        RequestError::OutOfMemory => Refusal::OutOfMemory,
    }
}

/// Starts a request of the client, with options or without them, and writes its number to
/// `request`. Fails with `WrongHandle` if the value is not a client.
pub fn ask(
    alloc: Global,
    kept: &mut Kept,
    method: u32,
    body: &[u8],
    options: Option<&RequestOptions>,
    now: u64,
    request: &mut u64,
) -> Result<(), Refusal>
    ensures { AsksAs (client_of kept.old) method body.now (option_copied options.entry) now
        (done_answer result) request.old request.new (Some kept.old) (Some kept.new) }
{
    match kept {
        Kept::Client(client) => ask_of(alloc, client, method, body, options, now, request),
        _ => Err(Refusal::WrongHandle),
    }
}

/// Starts a request of this client, and writes its number to `request`.
fn ask_of(
    alloc: Global,
    client: &mut ClientEndpoint<Global>,
    method: u32,
    body: &[u8],
    options: Option<&RequestOptions>,
    now: u64,
    request: &mut u64,
) -> Result<(), Refusal>
    ensures { AsksAs (Ok client.old) method body.now (option_copied options.entry) now
        (done_answer result) request.old request.new (Some (kind.Client client.old))
        (Some (kind.Client client.new)) }
{
    if method > 4095 {
        return Err(Refusal::BadArgument);
    }
    let Some(method) = Method::new(method as u16) else {
        return Err(Refusal::BadArgument);
    };
    let options = match options {
        Some(options) => Some(options.for_client(client)?),
        None => None,
    };
    let body = body_of(alloc, body)?;
    match start(client, method, body, options, Instant::from_nanos(now)) {
        Ok(number) => {
            *request = number;
            Ok(())
        }
        Err(error) => Err(convert_request_error(error)),
    }
}

/// Starts a request, with options or without them, and returns its number.
fn start(
    client: &mut ClientEndpoint<Global>,
    method: Method,
    body: Body<Global>,
    options: Option<Options>,
    now: Instant,
) -> Result<u64, RequestError>
    ensures refused { MatchOption (refusal_to_start client.old method body
        (option_map options_of options))
        (IsOkUnless result RequestError.OutOfMemory)
        (λ why. (result ≡ Err why) ⊎ (result ≡ Err RequestError.OutOfMemory)) }
    ensures number { IfOk result (λ number. number ≡ client.old.requests.next) }
    ensures after { OnOk result (client.new
        ≡ started method body (option_map options_of options) now client.old) }
    ensures same { OnErr result (client.new ≡ client.old) }
{
    match options {
        Some(options) => client.request_with(method, body, options, now),
        None => client.request(method, body, now),
    }
}

/// Returns the `stunp_kind` of a datagram. If the datagram is dropped, writes the `stunp_drop` to
/// `why`.
fn tell_received(received: &Received<'_>, why: &mut u32) -> u32
    ensures number { result ≡ received_number received.now }
    ensures why { why.new ≡ why_told received.now why.old }
{
    match received {
        Received::Consumed => 4,
        Received::Indication(_) => 3,
        Received::NotOurs => 6,
        Received::Dropped(reason) => {
            *why = drop_number(*reason);
            0
        }
    }
}

/// Passes a datagram to the client, and returns its `stunp_kind`. If the datagram is dropped,
/// writes the `stunp_drop` to `why`. Fails with `WrongHandle` if the value is not a client.
pub fn hear(
    kept: &mut Kept,
    message: &[u8],
    from: &Address,
    now: u64,
    why: &mut u32,
) -> Result<u32, Refusal>
    ensures { HearsAs (client_of kept.old) from.now message.now now (number_answer result) why.old
        why.new (Some kept.old) (Some kept.new) }
{
    match kept {
        Kept::Client(client) => hear_by(client, message, from, now, why),
        _ => Err(Refusal::WrongHandle),
    }
}

/// Passes a datagram to this client, and returns its `stunp_kind`. If the datagram is dropped,
/// writes the `stunp_drop` to `why`.
fn hear_by(
    client: &mut ClientEndpoint<Global>,
    message: &[u8],
    from: &Address,
    now: u64,
    why: &mut u32,
) -> Result<u32, Refusal>
    ensures { HearsAs (Ok client.old) from.now message.now now (number_answer result) why.old
        why.new (Some (kind.Client client.old)) (Some (kind.Client client.new)) }
{
    let from = from.socket()?;
    let received = client.receive(message, from, Instant::from_nanos(now));
    Ok(tell_received(&received, why))
}

/// Returns the time to wait until in nanoseconds, or `FOR_EVER` if `until` is `None`.
fn convert_until(until: Option<Instant>) -> u64
    ensures { result ≡ or_for_ever until }
{
    match until {
        Some(until) => until.as_nanos(),
        None => FOR_EVER,
    }
}

/// Copies bytes to the front of `out`, and returns `number`, the kind of the event. If the bytes do
/// not fit, marks the event as failed, and fails with `BufferTooSmall`.
fn write_out(bytes: &[u8], number: u32, out: &mut [u8], event: &mut Event) -> Result<u32, Refusal>
    ensures event { event.new ≡ event_unless (nat_lt (length out.old) (length bytes.now))
        (length bytes.now) event.old }
    ensures written { WritesTold (nat_lt (length out.old) (length bytes.now)) bytes.now number
        (number_answer result) out.old out.new }
{
    if out.len() < bytes.len() {
        event.loses(bytes.len());
        return Err(Refusal::BufferTooSmall);
    }
    put(out, bytes);
    Ok(number)
}

/// Polls the client, and writes what to do next to `event`, and the bytes of a request or a
/// response to `out`. Returns the `stunp_event_kind`. Fails with `WrongHandle` if the value is not
/// a client.
pub fn poll(kept: &mut Kept, now: u64, out: &mut [u8], event: &mut Event) -> Result<u32, Refusal>
    ensures { PollsAs (client_of kept.old) now (number_answer result) out.old out.new event.old
        event.new (Some kept.old) (Some kept.new) }
{
    match kept {
        Kept::Client(client) => poll_by(client, now, out, event),
        _ => Err(Refusal::WrongHandle),
    }
}

/// Polls this client, and writes what to do next to `event`, and the bytes of a request or a
/// response to `out`. Fails with `BadArgument` if the size of the event is wrong.
fn poll_by(
    client: &mut ClientEndpoint<Global>,
    now: u64,
    out: &mut [u8],
    event: &mut Event,
) -> Result<u32, Refusal>
    ensures { PollsAs (Ok client.old) now (number_answer result) out.old out.new event.old
        event.new (Some (kind.Client client.old)) (Some (kind.Client client.new)) }
{
    if event.size != EVENT_SIZE {
        return Err(Refusal::BadArgument);
    }
    let polled = client.poll(Instant::from_nanos(now));
    tell(client, &polled, out, event)
}

/// Writes the result of a poll to `event`, and the bytes of a request or a response to `out`.
/// Returns the `stunp_event_kind`.
fn tell(
    client: &ClientEndpoint<Global>,
    polled: &Polled<Global>,
    out: &mut [u8],
    event: &mut Event,
) -> Result<u32, Refusal>
    ensures { Tells client.now (told_of polled.now) (number_answer result) out.old out.new
        event.old event.new }
{
    match polled {
        Polled::Transmit(number) => transmit(client, *number, out, event),
        Polled::Ended(number, end) => {
            event.ends(*number, end);
            write_out(&end.response, 2, out, event)
        }
        Polled::Wait(until) => {
            event.waits(convert_until(*until));
            write_out(&[], 0, out, event)
        }
    }
}

/// Writes the bytes of the request `number`, which must be sent, to `out`, and sets the event to
/// this request.
fn transmit(
    client: &ClientEndpoint<Global>,
    number: u64,
    out: &mut [u8],
    event: &mut Event,
) -> Result<u32, Refusal>
    ensures { Tells client.now (transmitted number) (number_answer result) out.old out.new
        event.old event.new }
{
    match client.bytes_of(number) {
        Some(bytes) => {
            event.sends(number, bytes.len());
            write_out(bytes, 1, out, event)
        }
        None => {
            event.sends(number, 0);
            write_out(&[], 1, out, event)
        }
    }
}

/// Cancels a request of the client, and returns 1, or 0 if the request has ended. Fails with
/// `WrongHandle` if the value is not a client.
pub fn cancel(kept: &mut Kept, number: u64) -> Result<u32, Refusal>
    ensures { CancelsAs (client_of kept.old) number (number_answer result) (Some kept.old)
        (Some kept.new) }
{
    match kept {
        Kept::Client(client) => Ok(u32::from(client.cancel(number))),
        _ => Err(Refusal::WrongHandle),
    }
}

/// Writes to `dropped` how many responses to the request with this number were dropped, and why the
/// last one was dropped. Returns 1. If the request has ended, returns 0 and writes nothing. Fails
/// with `WrongHandle` if the value is not a client.
pub fn tell_dropped(kept: &Kept, number: u64, dropped: &mut Dropped) -> Result<u32, Refusal>
    ensures { TellsDropped (client_of kept.now) number (number_answer result) dropped.old
        dropped.new }
{
    match kept {
        Kept::Client(client) => match client.dropped(number) {
            Some(drops) => {
                *dropped = Dropped::of(drops);
                Ok(1)
            }
            None => Ok(0),
        },
        _ => Err(Refusal::WrongHandle),
    }
}
