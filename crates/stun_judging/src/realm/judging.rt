//! Judges a message under a nonce that the caller passes (RFC 8489, section 9.2.4).
//!
//! ```text
//! let read = ReadMessage::of(&message);
//! match realm.judge(&read, &nonce) {
//!     Ok(accepted) => .. sign the response under accepted.key() ..,
//!     Err(refusal) => .. a 401 or 438 with realm.add_challenge(response, &nonce)?, or a 400 ..,
//! }
//! ```

ghost use Rattle.std.specs.Option.{option_map};
ghost use Rattle.std.specs.Prelude.{◌≡◌, IfOk};
ghost use Rattle.stun_judging.specs.Judged.{HasVerifyingKey, JudgesAccepted, client_judged};
ghost use Rattle.stun_judging.specs.Named.{named_in, named_seen};
ghost use Rattle.stun_judging.specs.Reading.{reading_of};
ghost use Rattle.stun_judging.specs.Registered.{at_realm, without_users};
ghost use Rattle.stun_judging.specs.Verdict.{verdict, verdict_offering};

use crate::accepted::Accepted;
use crate::algorithm_set::AlgorithmSet;
use crate::claim::{JudgeableMessage, read_allowed_user};
use crate::named_user::NamedUser;
use crate::read_message::ReadMessage;
use crate::realm::Realm;
use crate::refusal::VerdictRefusal;
use crate::user::LongTermServerUser;
use crate::users_at::UsersAt;
use crate::verdict::{is_unoffered, judge_message};
use stun_base::memory::Memory;

impl<A: Memory> Realm<A> {
    /// Returns the user whom a request or an indication names. If the message has a visible
    /// USERHASH, this is the user with the hash in the last one. Otherwise it is the user with the
    /// name in the last visible USERNAME.
    ///
    /// Returns `None` if the message has neither, or if it has a USERHASH while the realm does not
    /// accept hashes, even if it also has a USERNAME. The call checks neither the signature nor
    /// whether the user is registered, so an attacker can name any user. It does not allocate.
    pub fn named_in<'a>(&self, read: &ReadMessage<'a, '_>) -> Option<NamedUser<'a>>
        ensures { option_map named_seen result ≡ named_in (reading_of read.now).userhash
            (reading_of read.now).username self.now.feature }
    {
        read_allowed_user(&read.reading, self.feature)
    }

    /// Judges a request or an indication under a nonce, with all supported algorithms as the offer,
    /// and returns the user who is accepted (RFC 8489, section 9.2.4). It does not allocate.
    ///
    /// Check the class of the message first, because a response is judged like a request. Pass a
    /// nonce that `nonce_of_words` made, because a message under a nonce without the security bit
    /// *Password algorithms* is judged with HMAC-SHA1 even if the realm supports HMAC-SHA256.
    ///
    /// If the message is not accepted, the call fails with the first of these refusals that
    /// applies:
    ///
    /// - `Unauthorized`: there is no well-formed integrity attribute.
    /// - `BadRequest`: REALM, NONCE or the user name is missing.
    /// - `BadRequest`: the algorithms disagree with those that the realm offers, which are all that
    ///   it supports, or no list if HMAC-SHA1 is the only one. Answer 438 in place of 400 if the
    ///   message does not have this nonce (`told_refusal`), because a client that repeats an old
    ///   offer could not continue after a 400, which is unsigned.
    /// - `Unauthorized`: the message has a different nonce, whose security bits differ too.
    /// - `StaleNonce`: the message has a different nonce.
    /// - `Unauthorized`: the user is unknown or has no key for the algorithm, or the signature is
    ///   invalid.
    pub fn judge<'a>(
        &'a self,
        read: &ReadMessage<'a, '_>,
        nonce: &str,
    ) -> Result<Accepted<'a, A>, VerdictRefusal>
        ensures verdict { client_judged result
            ≡ verdict_offering self.now.registered self.now.feature nonce.now
            self.now.registered.algorithms (reading_of read.now) }
        ensures accepted { JudgesAccepted self.now.registered self.now.feature nonce.now
            self.now.registered.algorithms (reading_of read.now) result }
        ensures key { IfOk result (HasVerifyingKey self.now.registered (reading_of read.now)) }
    {
        self.judge_by_offer(&UsersAt::own(&self.registry), read, nonce)
    }

    /// Judges a message like `judge`, with the users of `table` in place of the users of this
    /// realm. Of the table only the users count: the algorithms and the use of hashed names are
    /// those of this realm. If the table is of a realm with another name, nobody is accepted,
    /// because keys depend on the name of the realm.
    ///
    /// Fails like `judge`, and does not allocate.
    pub fn judge_among<'a>(
        &self,
        read: &ReadMessage<'a, '_>,
        nonce: &str,
        table: &'a Realm<A>,
    ) -> Result<Accepted<'a, A>, VerdictRefusal>
        ensures verdict { client_judged result
            ≡ verdict_offering (at_realm self.now.registered table.now.registered)
            self.now.feature nonce.now self.now.registered.algorithms (reading_of read.now) }
        ensures accepted { JudgesAccepted (at_realm self.now.registered table.now.registered)
            self.now.feature nonce.now self.now.registered.algorithms (reading_of read.now)
            result }
        ensures key { IfOk result (HasVerifyingKey
            (at_realm self.now.registered table.now.registered) (reading_of read.now)) }
    {
        self.judge_by_offer(&UsersAt::of(&self.registry, &table.registry), read, nonce)
    }

    /// Judges a message like `judge_among` does with a table whose only user is `user`.
    ///
    /// Pass the user whom `named_in` returned: the verdict is then the same as in a realm that has
    /// all users (law `the_named_user_is_enough_to_judge`). If your database has no such user, call
    /// `judge_by_nobody`.
    ///
    /// Fails like `judge`, and does not allocate.
    pub fn judge_of<'a>(
        &self,
        read: &ReadMessage<'a, '_>,
        nonce: &str,
        user: &'a LongTermServerUser<A>,
    ) -> Result<Accepted<'a, A>, VerdictRefusal>
        ensures verdict { client_judged result
            ≡ verdict_offering (at_realm self.now.registered user.now) self.now.feature nonce.now
            self.now.registered.algorithms (reading_of read.now) }
        ensures accepted { JudgesAccepted (at_realm self.now.registered user.now)
            self.now.feature nonce.now self.now.registered.algorithms (reading_of read.now)
            result }
        ensures key { IfOk result
            (HasVerifyingKey (at_realm self.now.registered user.now) (reading_of read.now)) }
    {
        self.judge_by_offer(&UsersAt::of(&self.registry, &user.registry), read, nonce)
    }

    /// Judges a message like `judge` does in a realm without users, so it accepts nobody.
    ///
    /// Fails like `judge`, and does not allocate.
    pub fn judge_by_nobody<'a>(
        &self,
        read: &ReadMessage<'a, '_>,
        nonce: &str,
    ) -> Result<Accepted<'a, A>, VerdictRefusal>
        ensures verdict { client_judged result
            ≡ verdict_offering (without_users self.now.registered) self.now.feature nonce.now
            self.now.registered.algorithms (reading_of read.now) }
        ensures key { IfOk result
            (HasVerifyingKey (without_users self.now.registered) (reading_of read.now)) }
    {
        self.judge_by_offer(&UsersAt::nobody(&self.registry), read, nonce)
    }

    /// Judges a message by these users of the realm, with the algorithms that the realm offers.
    fn judge_by_offer<'a>(
        &self,
        users: &UsersAt<'a, '_, A>,
        read: &ReadMessage<'a, '_>,
        nonce: &str,
    ) -> Result<Accepted<'a, A>, VerdictRefusal>
        ensures verdict { client_judged result
            ≡ verdict_offering users.now self.now.feature nonce.now
            self.now.registered.algorithms (reading_of read.now) }
        ensures key { IfOk result (HasVerifyingKey users.now (reading_of read.now)) }
    {
        let reading = &read.reading;
        if reading.has_integrity && is_unoffered(self.algorithms(), reading) {
            return Err(VerdictRefusal::BadRequest);
        }
        self.judge_by(users, read, nonce, Some(self.algorithms()))
    }

    /// Judges a message like `judge`, with `offered` as the algorithms that its sender was offered,
    /// or `None` if there was no offer. Call it if you store what you offered to each address.
    ///
    /// Fails like `judge`, but with `BadRequest` if the algorithms of the message disagree with
    /// `offered`. If there was no offer, but the message's nonce has the security bit *Password
    /// algorithms*, every signed message that has PASSWORD-ALGORITHMS or PASSWORD-ALGORITHM is
    /// refused with `BadRequest`. The call does not allocate.
    pub fn judge_offered<'a>(
        &'a self,
        read: &ReadMessage<'a, '_>,
        nonce: &str,
        offered: Option<AlgorithmSet>,
    ) -> Result<Accepted<'a, A>, VerdictRefusal>
        ensures verdict { client_judged result ≡ verdict self.now.registered self.now.feature
            nonce.now offered (reading_of read.now) }
        ensures key { IfOk result (HasVerifyingKey self.now.registered (reading_of read.now)) }
    {
        self.judge_by(&UsersAt::own(&self.registry), read, nonce, offered)
    }

    /// Judges a message like `judge_offered`, with `users` in place of the users of this realm.
    fn judge_by<'a>(
        &self,
        users: &UsersAt<'a, '_, A>,
        read: &ReadMessage<'a, '_>,
        nonce: &str,
        offered: Option<AlgorithmSet>,
    ) -> Result<Accepted<'a, A>, VerdictRefusal>
        ensures verdict { client_judged result
            ≡ verdict users.now self.now.feature nonce.now offered (reading_of read.now) }
        ensures key { IfOk result (HasVerifyingKey users.now (reading_of read.now)) }
    {
        let Some(message) = JudgeableMessage::of(&read.reading) else {
            return Err(VerdictRefusal::BadRequest);
        };
        judge_message(users, self.feature, &message, nonce, offered)
    }
}
