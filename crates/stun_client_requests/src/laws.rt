//! Laws about the requests of a client that hold for every sequence of calls. A call may be passed
//! an earlier time than the call before it.
ghost use Rattle.stun_client_requests.specs.Laws.{EndsOnce, StartsOne, StaysOver};
ghost use Rattle.stun_client_requests.specs.Timely.{PollsKeepTime, WaitsInTime};

/// A request that `start` has started is stored (`starts`). It stays stored until `poll` returns
/// its outcome or `remove` removes it, whatever calls are made, and only one of these happens, once
/// (`once`). After that, `poll` never returns the outcome of the request, and `remove` never
/// removes the request again (`over`).
pub fn a_request_ends_once<D, E>()
    ensures starts { StartsOne D E }
    ensures once { EndsOnce D E }
    ensures over { StaysOver D E }
{}

/// `poll` returns `Wait` only while each outstanding request is within its plan (RFC 8489, section
/// 6.2.1). Premise: the timer of each outstanding request follows the plan of the request
/// (`IsTimely`).
///
/// - `waits`: when `poll` returns `Wait`, the time of a whole plan has not yet passed since each
///   outstanding request was last sent, and the wait ends at the latest when this time has passed.
/// - `sends`: each `poll` preserves the premise, and sends only the request whose number it returns
///   in `Transmit`, if any.
pub fn a_wait_is_within_a_plan<D, E>()
    ensures sends { PollsKeepTime D E }
    ensures waits { WaitsInTime D E }
{}
