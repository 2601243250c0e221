//! Adds to the statistics of an agent, if it keeps statistics.
ghost use Rattle.std.specs.Prelude.{◌≡◌, if◌then◌else◌};
ghost use Rattle.std.specs.Option.{option_map};
ghost use Rattle.stun_agent.specs.Agent.{sending_tally};
ghost use Rattle.stun_agent.specs.Statistics.{statistics_after, request_sent_again};
ghost use Rattle.stun_agent.specs.Statistics.{request_received, indication_received};
ghost use Rattle.stun_agent.specs.Statistics.{response_received, request_timed_out};
ghost use Rattle.stun_agent.specs.Statistics.{request_cancelled};

use crate::stats::StunAgentStats;
use stun_base::message_type::MessageClass;

/// Counts a message that is sent for the first time, by its class and its number of bytes.
pub(crate) fn count_sent(stats: &mut Option<StunAgentStats>, class: MessageClass, bytes: usize)
    ensures { stats.new ≡ option_map (statistics_after (sending_tally class bytes)) stats.old }
{
    let Some(stats) = stats else {
        return;
    };
    let bytes = bytes as u64;
    match class {
        MessageClass::Request => stats.count_request_sent(bytes),
        MessageClass::Indication => stats.count_indication_sent(bytes),
        MessageClass::Success | MessageClass::Error => stats.count_response_sent(bytes),
    }
}

/// Counts the bytes of a request that is retransmitted.
pub(crate) fn count_sent_again(stats: &mut Option<StunAgentStats>, bytes: usize)
    ensures { stats.new ≡ option_map (statistics_after (request_sent_again bytes)) stats.old }
{
    let Some(stats) = stats else {
        return;
    };
    stats.count_request_sent_again(bytes as u64);
}

/// Counts a request that is received, and its number of bytes.
pub(crate) fn count_request_received(stats: &mut Option<StunAgentStats>, bytes: usize)
    ensures { stats.new ≡ option_map (statistics_after (request_received bytes)) stats.old }
{
    let Some(stats) = stats else {
        return;
    };
    stats.count_request_received(bytes as u64);
}

/// Counts an indication that is received, and its number of bytes.
pub(crate) fn count_indication_received(stats: &mut Option<StunAgentStats>, bytes: usize)
    ensures { stats.new ≡ option_map (statistics_after (indication_received bytes)) stats.old }
{
    let Some(stats) = stats else {
        return;
    };
    stats.count_indication_received(bytes as u64);
}

/// Counts a response to an outstanding request and its number of bytes, and its round-trip time if
/// that is not `None`.
pub(crate) fn count_response_received(
    stats: &mut Option<StunAgentStats>,
    bytes: usize,
    round_trip: Option<u64>,
)
    ensures { stats.new
        ≡ option_map (statistics_after (response_received bytes round_trip)) stats.old }
{
    let Some(stats) = stats else {
        return;
    };
    stats.count_response_received(bytes as u64, round_trip);
}

/// Counts a request that ended without a response: as a timeout if it was still retransmitted, and
/// otherwise as a cancellation.
pub(crate) fn count_end(stats: &mut Option<StunAgentStats>, repeats: bool)
    ensures { stats.new
        ≡ option_map (statistics_after (if repeats then request_timed_out else request_cancelled))
        stats.old }
{
    let Some(stats) = stats else {
        return;
    };
    if repeats {
        stats.count_timed_out();
    } else {
        stats.count_cancelled();
    }
}
