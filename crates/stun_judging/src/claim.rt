//! The claim of a message about its sender (RFC 8489, section 9.2.4).

ghost use Rattle.std.specs.Prelude.{◌≡◌, ◌||◌, false, Some};
ghost use Rattle.std.specs.Option.{ForSome, IfSome, is_none, is_some, option_map};
ghost use Rattle.stun_judging.specs.Reading.{is_malformed};
ghost use Rattle.stun_judging.specs.Named.{named_in, named_seen};
ghost use Rattle.stun_judging.specs.code.Claims.{IsNamed};
ghost use Rattle.stun_judging.specs.code.ReadingSeen.{reading_seen};

use crate::feature::Feature;
use crate::named_user::NamedUser;
use crate::reading::MessageReading;

/// The nonce and the user that a message with an integrity attribute and REALM claims. They are not
/// verified yet.
#[derive(Clone, Copy)]
pub(crate) struct Claim<'a> {
    pub(crate) nonce: &'a str,
    pub(crate) user: NamedUser<'a>,
}

/// A message that can be judged under a nonce: either it has no integrity attribute, or it has
/// REALM, NONCE and a user name too.
#[derive(Drop)]
pub(crate) struct JudgeableMessage<'a, 'm, 'r> {
    pub(crate) reading: &'r MessageReading<'a, 'm>,
    /// `None` if the message has no integrity attribute.
    pub(crate) claim: Option<Claim<'a>>,
    ghost signed: { is_some claim ≡ is_some (reading_seen reading.now).integrity },
    ghost whole: { is_malformed (reading_seen reading.now) ≡ false },
    ghost nonce: { ForSome claim (λ c. (reading_seen reading.now).nonce ≡ Some c.nonce.now) },
    ghost user: { ForSome claim (λ c. IsNamed (reading_seen reading.now) c.user) },
}

impl<'a, 'm, 'r> JudgeableMessage<'a, 'm, 'r> {
    /// Creates the value from the contents of a message. Returns `None` if the message has an
    /// integrity attribute but lacks REALM, NONCE or a user name.
    pub(crate) fn of(reading: &'r MessageReading<'a, 'm>) -> Option<Self>
        ensures malformed { is_none result ≡ is_malformed (reading_seen reading.now) }
        ensures reading { IfSome result (λ message. message.reading.now ≡ reading.now) }
    {
        if !reading.has_integrity {
            return Some(JudgeableMessage {
                reading,
                claim: None,
            });
        }
        reading.realm?;
        let nonce = reading.nonce?;
        let user = read_user(reading)?;
        Some(JudgeableMessage {
            reading,
            claim: Some(Claim { nonce, user }),
        })
    }
}

/// Returns the user whom a message names: by the hash in USERHASH or, without a USERHASH, by the
/// name in USERNAME. Returns `None` if the message has neither.
pub(crate) fn read_user<'a>(reading: &MessageReading<'a, '_>) -> Option<NamedUser<'a>>
    ensures named { IfSome result (IsNamed (reading_seen reading.now)) }
    ensures there { is_some result ≡ (is_some (reading_seen reading.now).userhash
        || is_some (reading_seen reading.now).username) }
{
    match reading.userhash {
        Some(hash) => Some(NamedUser::ByHash(hash)),
        None => match reading.username {
            Some(name) => Some(NamedUser::ByName(name)),
            None => None,
        },
    }
}

/// Returns the user whom a request or an indication names: by the hash in USERHASH or, without a
/// USERHASH, by the name in USERNAME. Returns `None` if it has neither, or if it has a USERHASH and
/// `feature` does not allow hashes.
pub(crate) fn read_allowed_user<'a>(
    reading: &MessageReading<'a, '_>,
    feature: Feature,
) -> Option<NamedUser<'a>>
    ensures { option_map named_seen result ≡ named_in (reading_seen reading.now).userhash
        (reading_seen reading.now).username feature }
{
    match reading.userhash {
        Some(hash) => {
            if feature.is_possible() {
                Some(NamedUser::ByHash(hash))
            } else {
                None
            }
        }
        None => match reading.username {
            Some(name) => Some(NamedUser::ByName(name)),
            None => None,
        },
    }
}
