//! Laws about the plan of a request, and its outcome.
ghost use Rattle.stun_client_plans.specs.Ends.{AnswersEnd, CancelsEnd, EndsAreSaidAsTheyCame};
ghost use Rattle.stun_client_plans.specs.Ends.{OnlyRefusedRequestsAreUnauthorized};
ghost use Rattle.stun_client_plans.specs.Plan.{RequestsAreSentByPlan};

/// A request that gets no answer is sent and ends according to its plan. `poll` returns `Transmit`
/// for the request at its start, and again after each timeout of the plan: by default, over UDP,
/// 500, 1500, 3500 ms and so on after the start. At the end of the plan, `poll` returns the outcome
/// of the request once. The plan is the one in the options of the request or, if it has no options,
/// the one in the settings of its client.
///
/// `poll` returns nothing early, and if no poll is late, all times are exact. Up to the time at
/// which the client asks to be polled next, `poll` has returned everything that is due, and nothing
/// else about the request. If each poll comes at most `late` after the time that the client has
/// asked for, the following holds:
///
/// - The first transmission comes at most `late` after the start of the request. Each
///   retransmission and the outcome come at most `late` after they are due.
/// - The first retransmission is due one timeout after the start of the request, even if the first
///   transmission was late. Each later retransmission is due one timeout after the retransmission
///   before it. The outcome is due when the last wait of the plan has passed since the last
///   retransmission or, if there is none, since the start of the request.
/// - So retransmission k, counted from 1, comes at most k times `late` after the sum of the first k
///   timeouts. The outcome is late by at most one `late` more than the last retransmission may be.
///
/// The client sends nothing for a request after the end of its plan. If polls are so late that a
/// retransmission would come after this time, the request ends instead (`is_given_up`). This
/// happens for retransmission k only if k times `late` is longer than the last wait of the plan, or
/// if the plan ends at the last time that an `Instant` can have. By default, there are six
/// retransmissions and the last wait is 8 s, so the first condition can hold only if polls are more
/// than 1.3 s late. If even the first poll comes after the end of the plan, the request ends
/// without having been sent (`is_never_sent`).
///
/// Polls may also come earlier than the client asks for. Other requests may be outstanding at the
/// same time, each with a plan of its own.
///
/// Premises:
///
/// - The client is in order (`IsClient`). This holds for each client that `new` has created,
///   whatever calls are made.
/// - No poll has a time before the start of the request.
/// - The calls between the polls, at any times, do not change the transaction ID of the request.
///   This means that they do not answer or cancel the request, and that no other message of the
///   request becomes the current one. Another message becomes the current one because of a
///   challenge, or because of an error that casts doubt on the current message.
pub fn requests_are_sent_by_plan()
    ensures { RequestsAreSentByPlan }
{
    stun_client_runs::laws::clients_stay_in_order();
}

/// `poll` returns the outcome with which a request ended.
///
/// - `canceled`: `cancel` ends an outstanding request as `Cancelled`.
/// - `answered`: a response ends its request if the client believes the response, and it comes from
///   the address from which the request accepts responses. The client then stores the response, its
///   outcome, the algorithm of its signature, and the round-trip time. This time is known if the
///   response answers the current message of the request, and `poll` has returned the bytes of this
///   message exactly once.
/// - `said`: when `poll` later returns the outcome of such a request, it returns what was stored
///   when the request ended, whatever calls were made in between.
pub fn ends_are_said_as_they_came()
    ensures canceled { CancelsEnd }
    ensures answered { AnswersEnd }
    ensures said { EndsAreSaidAsTheyCame }
{
    stun_client_runs::laws::clients_stay_in_order();
}

/// `poll` returns `Unauthorized` for a request only if a 401 arrived that answers a signed message of
/// this request, while this message was the current one. The 401 may be forged. This holds for every
/// sequence of calls. A client that gets other challenges only, such as six 438s, ends the request as
/// `TooManyChallenges`.
pub fn only_refused_requests_are_unauthorized()
    ensures { OnlyRefusedRequestsAreUnauthorized }
{
    stun_client_runs::laws::clients_stay_in_order();
}
