//! The nonce of an address: its security bits, and the sixteen numbers that its letters are made
//! from (RFC 8489, sections 9.2 and 18.1).

ghost use Rattle.std.specs.Prelude.{◌≡◌, ◌++◌, IfOk, IsOk, length, map, take};
ghost use Rattle.std.specs.String.{string_bytes};
ghost use Rattle.stun_judging.specs.Algorithms.{contains};
ghost use Rattle.stun_judging.specs.Feature.{is_possible};
ghost use Rattle.stun_judging.specs.Nonces.{letter};
ghost use Rattle.stun_base.specs.declared.keys.algorithm.IntegrityAlgorithm.TheVariants.{Sha256};
ghost use Rattle.stun_endpoint.specs.Nonces.{algorithms_number, front_of, words_of};
ghost use Rattle.stun_endpoint.specs.code.Bits.{bits_text};

use std::alloc::{AllocError, Allocator};
use std::net::SocketAddr;
use stun_base::algorithm::IntegrityAlgorithm;
use stun_base::memory::Memory;
use stun_base::prepared_key::PreparedKey;
use stun_extra::canonical_address::address_octets;
use stun_judging::algorithm_set::AlgorithmSet;
use stun_judging::feature::Feature;
use stun_judging::letters::{push_letters, text_with_room};
use stun_judging::nonce::LONG_TERM_RFC8489_NONCE_COOKIE;

/// The number of bytes of a nonce: the cookie, four characters for the security bits, and a letter
/// for each of sixteen numbers.
const NONCE_LENGTH: usize = 29;

/// Returns the security bits of a server's nonces, as four characters of base64. The first bit
/// (*Password algorithms*) is set if HMAC-SHA256 is supported, and the second (*Username
/// anonymity*) if names may be hashed. All others are zero.
fn spell_bits(algorithms: AlgorithmSet, feature: Feature) -> &'static str
    ensures bits { result.now ≡ bits_text (contains Sha256 algorithms) (is_possible feature) }
    ensures length { length result.now ≡ 4 }
{
    let has_sha256 = algorithms.contains(IntegrityAlgorithm::Sha256);
    match (has_sha256, feature.is_possible()) {
        (true, true) => "wAAA",
        (true, false) => "gAAA",
        (false, true) => "QAAA",
        (false, false) => "AAAA",
    }
}

/// Returns the nonce that a server with these settings makes with `secret` for the address `from`
/// and the epoch `epoch`: the nonce cookie, the security bits and a letter for each of sixteen
/// numbers. If the server uses no security feature, all bits are zero (RFC 8489, section 9.2). The
/// call allocates once, and fails if the allocation fails.
#[tactic(auto, using(crate::proofs::FrontLemmas::spelled_front))]
pub(crate) fn write_nonce<A: Memory>(
    alloc: A,
    secret: &PreparedKey<A>,
    from: SocketAddr,
    epoch: u64,
    algorithms: AlgorithmSet,
    feature: Feature,
) -> Result<String<A>, AllocError>
    ensures nonce { IfOk result (λ nonce. string_bytes nonce
        ≡ front_of algorithms feature ++ map letter (words_of algorithms secret.now from epoch)) }
    ensures granted { A.grants → IsOk result }
{
    let words = derive_words(secret, from, epoch, algorithms);
    let mut nonce = text_with_room(alloc, NONCE_LENGTH)?;
    nonce.push_str(LONG_TERM_RFC8489_NONCE_COOKIE)?;
    nonce.push_str(spell_bits(algorithms, feature))?;
    push_letters(&mut nonce, &words)?;
    Ok(nonce)
}

/// Returns the number that represents the supported algorithms in the HMAC of a nonce.
fn encode_algorithms(algorithms: AlgorithmSet) -> u8
    ensures { result ≡ algorithms_number algorithms }
{
    match algorithms {
        AlgorithmSet::OnlySha1 => 1,
        AlgorithmSet::OnlySha256 => 2,
        AlgorithmSet::Both => 3,
    }
}

/// Returns the sixteen numbers from which the nonce for an address and an epoch is made: the first
/// sixteen bytes of an HMAC-SHA1 of the address, the port, the epoch and the supported algorithms.
fn derive_words<A: Allocator>(
    secret: &PreparedKey<A>,
    from: SocketAddr,
    epoch: u64,
    algorithms: AlgorithmSet,
) -> [u32; 16]
    ensures { result ≡ words_of algorithms secret.now from epoch }
{
    let octets = address_octets(from.ip());
    let port = from.port().to_be_bytes();
    let epoch = epoch.to_be_bytes();
    let number = [encode_algorithms(algorithms)];
    take_sixteen(&secret.hmac_sha1(&[&octets, &port, &epoch, &number]))
}

/// Returns the first sixteen bytes of a digest, each as a number.
fn take_sixteen(digest: &[u8; 20]) -> [u32; 16]
    ensures { result ≡ take 16 digest.now }
{
    let [a, b, c, d, e, f, g, h, i, j, k, l, m, n, o, p, _, _, _, _] = *digest;
    [
        u32::from(a),
        u32::from(b),
        u32::from(c),
        u32::from(d),
        u32::from(e),
        u32::from(f),
        u32::from(g),
        u32::from(h),
        u32::from(i),
        u32::from(j),
        u32::from(k),
        u32::from(l),
        u32::from(m),
        u32::from(n),
        u32::from(o),
        u32::from(p),
    ]
}
