//! Laws about a client that hold for every sequence of calls. The time that is passed to a call may
//! be earlier than the time that was passed to the call before it.
ghost use Rattle.stun_client_runs.specs.Kept.{BeginsAsClient, StaysAClient};
ghost use Rattle.stun_client_runs.specs.Laws.{EndsOnce, StartsOne, StaysOver, TransmitsWhatIsThere};
ghost use Rattle.stun_client_runs.specs.Noted.{BeginsNoted, StaysNoted};
ghost use Rattle.stun_client_runs.specs.RoundTrips.{RoundTripsAreOfOnePoll};
ghost use Rattle.stun_client_runs.specs.Sent.{KeepsItsBytes, SendsItsBytes};

/// What a client stores of its outstanding requests is consistent. The following holds for each new
/// client (`begins`), and every call preserves it (`stays`):
///
/// - The client stores each outstanding request once, under the transaction ID of the request's
///   current message.
/// - The current message has this transaction ID, and the method and the body of the request. It is
///   sent to the address of the server.
/// - The current message is written with the client's credentials and signed for the challenge that
///   is stored with the message. If the options of the request say that it is not signed, the
///   message is written as by a client without credentials.
/// - The transaction IDs of all messages of the request are derived from the seed.
pub fn clients_stay_in_order()
    ensures begins { BeginsAsClient }
    ensures stays { StaysAClient }
{}

/// A client stores transaction IDs of earlier messages, each with the number of the request that
/// the message belongs to. This request is outstanding, and has an earlier message with this ID, so
/// the client stores no transaction ID of a request that has ended. This holds for each new client
/// (`begins`), and every call preserves it (`stays`).
///
/// Premise of `begins`: the limit on how often the current message of a request is replaced has 32
/// bits, as each `u32` does.
pub fn what_is_noted_is_an_earlier_message()
    ensures begins { BeginsNoted }
    ensures stays { StaysNoted }
{}

/// A request that `request` has started is stored (`starts`). It stays stored until `poll` returns
/// its outcome, whatever calls are made, and `poll` never returns the outcome twice (`once`). After
/// `poll` has returned the outcome, no call returns the number of the request again (`over`).
pub fn a_request_ends_once()
    ensures starts { StartsOne }
    ensures once { EndsOnce }
    ensures over { StaysOver }
{}

/// A request for which `poll` returns `Transmit` is outstanding, so `bytes_of` returns its bytes.
pub fn what_is_to_be_sent_is_there()
    ensures { TransmitsWhatIsThere }
{}

/// A request is sent with the method and the body with which it was started. This holds for all
/// options of the request and for every sequence of calls.
///
/// - `kept`: as long as a request is outstanding, its method, body and options are stored as they
///   were passed, and `bytes_of` returns a message with this method and this body. The transaction
///   ID of the message is derived from the seed. The message is signed for the challenge that is
///   stored with it, with the client's credentials, or without credentials if the options say that
///   the request is not signed. The client's table of requests stores the same bytes under this
///   transaction ID, to send them to the server.
/// - `sent`: a request for which `poll` returns `Transmit` is outstanding, so the bytes to send are
///   the ones that `kept` is about.
///
/// Premise: the method has 12 bits, as each `Method` does.
pub fn requests_are_sent_as_they_were_started()
    ensures kept { KeepsItsBytes }
    ensures sent { SendsItsBytes }
{}

/// The client stores a round-trip time with a response only if exactly one `poll` has returned the
/// message that the response answers, so that it is known which transmission was answered (RFC
/// 6298, section 3). The round-trip time is the time since that `poll`. This holds for every
/// sequence of calls of a new client.
///
/// Premise: the transaction IDs that the client has used are all different.
pub fn round_trips_are_of_messages_sent_once()
    ensures { RoundTripsAreOfOnePoll }
{}
