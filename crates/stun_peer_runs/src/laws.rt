//! How a role conflict between two agents ends, as a law about the datagrams that they send each
//! other (RFC 8445, sections 7.2.5.1 and 7.3.1.1).
ghost use Rattle.stun_peer_runs.specs.Datagrams.{RolesEnd, RolesStay};

/// Two agents of one session that begin in the same role, with distinct tie-breakers, end in
/// opposite roles. The agent that began with the larger tie-breaker then has the controlling role.
/// The agents have these roles as soon as one of them has received the answer to one check, and
/// keep them. Before that, they either both have the role that they began in, or already have the
/// final roles (`settle`). Two agents that begin in opposite roles keep their roles (`stay`).
///
/// The law `roles_end_opposite` of `stun_ice` states this for messages, and this law states it for
/// datagrams: a check is the bytes that `Checker::check` writes, and an answer is the bytes that
/// `Checker::receive` returns for a check. The network may lose, repeat, delay and reorder
/// datagrams: any datagram may arrive at any time after it was sent, any number of times.
///
/// Premises:
///
/// - Each agent knows the other's credentials (`Correspond`, `IsAgent`). Law
///   `agents_of_one_session_know_each_other` of `stun_peers` shows which calls create such agents.
/// - Transaction IDs have 96 bits, priorities have 32 bits, and tie-breakers have 64 bits
///   (`IsUsual`).
/// - Each answer arrives from the address to which its check was sent. An answer from another
///   address does not change a role.
pub fn roles_end_opposite_of_datagrams()
    ensures settle { RolesEnd }
    ensures stay { RolesStay }
{
    stun_ice::laws::roles_end_opposite();
    stun_ice::laws::pairs_are_valid_exactly();
    stun_peers::laws::a_check_is_accepted_by_its_peer();
    stun_peers::laws::its_answer_makes_the_pair_valid();
}
