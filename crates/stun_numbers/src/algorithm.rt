//! The numbers of algorithms, which `include/stunp.h` lists.

ghost use Rattle.std.specs.Prelude.{◌≡◌, IfOk, IfErr, Some, None};
ghost use Rattle.stun_numbers.specs.Algorithms.{algorithm_number, algorithm_numbered};

use crate::refusal::Refusal;
use stun_base::algorithm::IntegrityAlgorithm;

/// Returns the number of an algorithm.
pub fn algorithm_number(algorithm: IntegrityAlgorithm) -> u32
    ensures { result ≡ algorithm_number algorithm }
{
    match algorithm {
        IntegrityAlgorithm::Sha1 => 1,
        IntegrityAlgorithm::Sha256 => 2,
    }
}

/// Returns the algorithm with this number.
///
/// # Errors
///
/// `BadArgument`: no algorithm has this number.
pub fn algorithm_numbered(number: u32) -> Result<IntegrityAlgorithm, Refusal>
    ensures ok { IfOk result (λ algorithm. algorithm_numbered number ≡ Some algorithm) }
    ensures err { IfErr result (λ refusal. (algorithm_numbered number ≡ None)
        × (refusal ≡ Refusal.BadArgument)) }
{
    match number {
        1 => Ok(IntegrityAlgorithm::Sha1),
        2 => Ok(IntegrityAlgorithm::Sha256),
        _ => Err(Refusal::BadArgument),
    }
}
