//! The stored keys of a user, as a caller passes them.

ghost use Rattle.std.specs.Prelude.{◌≡◌};
ghost use Rattle.stun_handles.specs.Keys.{key_given, keys_given};

use stun_judging::stored_keys::StoredKeys;
use stun_numbers::refusal::Refusal;

/// Converts a key of `N` bytes that a caller passes. Returns `None` if the caller passes no bytes.
/// Fails with `BadArgument` if the number of bytes is neither 0 nor `N`.
fn to_key<const N: usize>(bytes: &[u8]) -> Result<Option<[u8; N]>, Refusal>
    ensures { result ≡ key_given N bytes.now }
{
    if bytes.is_empty() {
        return Ok(None);
    }
    if bytes.len() != N {
        return Err(Refusal::BadArgument);
    }
    let mut key = [0; N];
    key.copy_from_slice(bytes);
    Ok(Some(key))
}

/// Converts the stored keys that a caller passes: 16 bytes for HMAC-SHA1, and 32 for HMAC-SHA256.
/// An empty key counts as missing. Fails with `BadArgument` if a key has any other length.
pub fn keys_of(sha1: &[u8], sha256: &[u8]) -> Result<StoredKeys, Refusal>
    ensures { result ≡ keys_given (key_given 16 sha1.now) (key_given 32 sha256.now) }
{
    let sha1 = to_key(sha1)?;
    let sha256 = to_key(sha256)?;
    Ok(StoredKeys { sha1, sha256 })
}
