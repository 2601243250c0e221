//! The nonces that a server makes from random numbers (RFC 8489, section 9.2).

ghost use Rattle.std.specs.Prelude.{◌≡◌, IfOk, IsOk};
ghost use Rattle.std.specs.String.{string_bytes};
ghost use Rattle.stun_base.specs.Words.{after_words, next_words};
ghost use Rattle.stun_judging.specs.Nonces.{nonce_of};

use rand_core::Rng;
use std::alloc::AllocError;
use stun_base::memory::Memory;
use stun_judging::limited_text::LimitedText;
use stun_judging::realm::Realm;

/// Returns the next sixteen random numbers of a source.
fn draw_words<R: Rng>(rng: &mut R) -> [u32; 16]
    ensures words { result ≡ next_words 16 (R.stream rng.old) }
    ensures source { R.stream rng.new ≡ after_words 16 (R.stream rng.old) }
{
    let mut words = [0u32; 16];
    for i in 0..16 {
        words[i] = rng.next_u32();
    }
    words
}

/// Makes a new nonce of a realm from the next sixteen random numbers of a source. Fails if an
/// allocation fails, but only after it has read the numbers.
pub(crate) fn make_nonce<A: Memory, R: Rng>(
    realm: &Realm<A>,
    rng: &mut R,
) -> Result<LimitedText<A>, AllocError>
    ensures nonce { IfOk result (λ nonce. string_bytes nonce.text
        ≡ nonce_of realm.now.registered.algorithms realm.now.feature
        (next_words 16 (R.stream rng.old))) }
    ensures source { R.stream rng.new ≡ after_words 16 (R.stream rng.old) }
    ensures granted { A.grants → IsOk result }
{
    let words = draw_words(rng);
    let text = realm.nonce_of_words(&words)?;
    Ok(LimitedText::new(text))
}
