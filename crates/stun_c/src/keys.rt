//! Makes long-term keys and USERHASH values from texts.

ghost use Rattle.std.specs.Prelude.{◌≡◌, IfOk, IfErr, Ok, Err};
ghost use Rattle.stun_numbers.specs.Algorithms.{algorithm_numbered};
ghost use Rattle.stun_c.specs.Answers.{WritesWithin};
ghost use Rattle.stun_c.specs.Requests.{key_of_texts, userhash_of_texts};

use crate::buffer::write;
use stun_base::algorithm::IntegrityAlgorithm;
use stun_base::key::{md5_key_from_utf8, sha256_key_from_utf8, userhash};
use stun_numbers::algorithm::algorithm_numbered;
use stun_numbers::refusal::Refusal;
use stun_numbers::text::text;

/// Writes the long-term key of a user in a realm, for the algorithm with this number, to the front
/// of the buffer. Returns its length, or a negative error code.
pub fn write_key(
    algorithm: u32,
    username: &[u8],
    realm: &[u8],
    password: &[u8],
    buffer: &mut [u8],
) -> i64
    ensures { WritesWithin (key_of_texts (algorithm_numbered algorithm) username.now realm.now
        password.now) buffer.old result buffer.new }
{
    match algorithm_numbered(algorithm) {
        Ok(IntegrityAlgorithm::Sha1) => match md5_key_from_utf8(username, realm, password) {
            Some(key) => write(buffer, &key),
            None => Refusal::NotText.code(),
        },
        Ok(IntegrityAlgorithm::Sha256) => match sha256_key_from_utf8(username, realm, password) {
            Some(key) => write(buffer, &key),
            None => Refusal::NotText.code(),
        },
        Err(refusal) => refusal.code(),
    }
}

/// Returns the USERHASH of a user in a realm.
pub fn userhash_of_texts(username: &[u8], realm: &[u8]) -> Result<[u8; 32], Refusal>
    ensures ok { IfOk result (λ hash. userhash_of_texts username.now realm.now ≡ Ok hash) }
    ensures err { IfErr result (λ refusal. userhash_of_texts username.now realm.now ≡ Err refusal) }
{
    let username = text(username)?;
    let realm = text(realm)?;
    Ok(userhash(username, realm))
}
