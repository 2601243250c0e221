//! Judges a message with a user whom the caller looks up elsewhere, for example in a database (RFC
//! 8489, section 9.2.4). The first step returns the user whom a message names, and the second
//! judges the message.
//!
//! ```text
//! let Some(named) = server.named_user(&message, from) else { .. validate_incoming_message .. };
//! let mut user = server.as_realm().prepare_user(look_up(named)?)?; // or prepare_user_with_keys
//! let verdict = server.validate_incoming_message_of(&message, from, now, &mut rng, &mut user);
//! let answer = server.sign_outgoing_message_of(answer, from, &mut user)?;
//! ```

ghost use Rattle.std.specs.Prelude.{◌≡◌, ◌≤◌, ◌+◌, ⊤, IfOk, IsOk};
ghost use Rattle.std.specs.Prelude.{OnOk, OnErr, if◌then◌else◌, length};
ghost use Rattle.std.specs.Option.{option_map};
ghost use Rattle.stun_base.specs.Header.{BeginsWithHeader};
ghost use Rattle.stun_base.specs.MessageType.{class_in, is_response as is_response_class};
ghost use Rattle.stun_base.specs.Words.{next_words, after_words};
ghost use Rattle.stun_judging.specs.Additions.{UnlessMemory, WantsMemory, page_in, written_page};
ghost use Rattle.stun_auth.specs.Handed.{judged_by, with_users};
ghost use Rattle.stun_judging.specs.Named.{named_seen};
ghost use Rattle.stun_judging.specs.Reading.{reading_of};
ghost use Rattle.stun_auth.specs.Reasons.{ServerUnlessMemory};
ghost use Rattle.stun_auth.specs.ServerSigning.{after_signing, server_additions};
ghost use Rattle.stun_auth.specs.ServerSigning.{server_growth, server_signed};
ghost use Rattle.stun_auth.specs.Signed.{IsSignableAtServer};
ghost use Rattle.stun_auth.specs.Validation.{ChangesNothing, ValidatesAccepted};
ghost use Rattle.stun_auth.specs.Validation.{after_validation, answer, draws, sight};

use crate::server::LongTermServerAuth;
use crate::server::reason::{LongTermServerAuthError, LongTermServerValidation};
use rand_core::Rng;
use std::net::SocketAddr;
use stun_base::instant::Instant;
use stun_base::memory::Memory;
use stun_judging::named_user::NamedUser;
use stun_judging::read_message::ReadMessage;
use stun_judging::user::LongTermServerUser;
use stun_types::message::{Message, StunWriteError};
use stun_types::prelude::*;

impl<A: Memory> LongTermServerAuth<A> {
    /// Returns the user whose key a message will be verified with, so that you can look that user
    /// up before the message is judged.
    ///
    /// - For a request or an indication, this is the user whom `Realm::named_in` returns.
    /// - For a response, it is the client of the address.
    ///
    /// `None` means that the verdict does not depend on the users. Call `validate_incoming_message`
    /// in that case.
    ///
    /// The call does not check the signature, the nonce, or whether the user is registered. Anybody
    /// can send any name, so limit how often you look up a name. It does not allocate.
    pub fn named_user<'a>(
        &'a self,
        message: &Message<'a>,
        from: SocketAddr,
    ) -> Option<NamedUser<'a>>
        ensures { option_map named_seen result ≡ judged_by (sight self.now from)
            (reading_of message.now) }
    {
        let read = ReadMessage::of(message);
        if !read.is_response() {
            return self.realm.named_in(&read);
        }
        match self.client(from) {
            Some((name, _)) => Some(NamedUser::ByName(name)),
            None => None,
        }
    }

    /// Judges a message like `validate_incoming_message` does on a server whose only user is
    /// `user`. It returns the same verdict, stores the same record, and makes the same nonce from
    /// the same random numbers. The server's own users are ignored, and they and `user` are
    /// unchanged.
    ///
    /// Pass the user whom `named_user` returned: the verdict is then the same as at a server that
    /// has all users (law `the_named_user_is_enough`). If your database has no such user, call
    /// `validate_incoming_message` on a server without users, which returns that verdict.
    ///
    /// On `Validated` this user is the client of the address. Pass the same user when you sign the
    /// response.
    ///
    /// Fails like `validate_incoming_message`, `OutOfMemory` included.
    pub fn validate_incoming_message_of<R: Rng>(
        &mut self,
        message: &Message<'_>,
        from: SocketAddr,
        now: Instant,
        rng: &mut R,
        user: &mut LongTermServerUser<A>,
    ) -> Result<LongTermServerValidation, LongTermServerAuthError>
        ensures answer { ServerUnlessMemory result
            (result ≡ answer (sight (with_users self.old user.old) from) now
            (next_words 16 (R.stream rng.old)) (reading_of message.now)) ⊤ }
        ensures accepted { ServerUnlessMemory result
            (ValidatesAccepted (sight (with_users self.old user.old) from) now
            (next_words 16 (R.stream rng.old)) (reading_of message.now) result) ⊤ }
        ensures state { ServerUnlessMemory result
            (self.new ≡ with_users (after_validation (with_users self.old user.old) from now
            (next_words 16 (R.stream rng.old)) (reading_of message.now)) self.old.registered)
            (self.new ≡ self.old) }
        ensures user { user.new ≡ user.old }
        ensures source { ServerUnlessMemory result
            (R.stream rng.new ≡ (if draws (sight (with_users self.old user.old) from) now
            (reading_of message.now) then after_words 16
            (R.stream rng.old) else R.stream rng.old)) ⊤ }

        // If the message changes nothing, no allocation fails.
        ensures unchanged { ChangesNothing (sight (with_users self.old user.old) from) now
            (next_words 16 (R.stream rng.old)) (reading_of message.now) →
            result ≡ answer (sight (with_users self.old user.old) from) now
            (next_words 16 (R.stream rng.old)) (reading_of message.now) }
        ensures granted { A.grants → ServerUnlessMemory result ⊤ ⊥ }
    {
        self.exchange_users(user);
        let answer = self.validate_incoming_message(message, from, now, rng);
        self.exchange_users(user);
        answer
    }

    /// Signs a message like `sign_outgoing_message` does on a server whose only user is `user`. The
    /// server's own users are ignored, and they and `user` are unchanged.
    ///
    /// If the address has a client, the message is signed with the key of `user`. If `user` is not
    /// that client, or has no key for its algorithm, the call fails with `IntegrityFailed`. It
    /// fails otherwise like `sign_outgoing_message`. `message_signature_bytes` returns how many
    /// bytes are added, which does not depend on the users.
    pub fn sign_outgoing_message_of<W: MessageWrite>(
        &mut self,
        writer: W,
        to: SocketAddr,
        user: &mut LongTermServerUser<A>,
    ) -> Result<W, StunWriteError>
        requires { BeginsWithHeader (W.bytes writer) }
        ensures answer { let response = is_response_class
            (class_in (W.bytes writer)) in
            UnlessMemory result (written_page W.bytes W.room result
            ≡ server_signed (sight (with_users self.old user.old) to) response
            (page_in W.bytes W.room writer))
            (WantsMemory (server_additions (sight (with_users self.old user.old) to) response)
            (page_in W.bytes W.room writer) (W.reserved writer)) }
        ensures granted { W.grants → UnlessMemory result ⊤ ⊥ }
        ensures grows { IfOk result (λ signed. length (W.bytes signed)
            ≡ length (W.bytes writer) + server_growth (sight (with_users self.old user.old) to)
            (is_response_class (class_in (W.bytes writer)))) }

        // Nothing is allocated for bytes that are reserved already.
        ensures succeeds { let response = is_response_class
            (class_in (W.bytes writer)) in
            IsSignableAtServer (sight (with_users self.old user.old) to) response
            (W.bytes writer) (W.room writer)
            → server_growth (sight (with_users self.old user.old) to) response
            ≤ W.reserved writer → IsOk result }
        ensures signed { OnOk result (self.new
            ≡ with_users (after_signing (with_users self.old user.old) to (is_response_class
            (class_in (W.bytes writer)))) self.old.registered) }
        ensures refused { OnErr result (self.new ≡ self.old) }
        ensures user { user.new ≡ user.old }
    {
        self.exchange_users(user);
        let signed = self.sign_outgoing_message(writer, to);
        self.exchange_users(user);
        signed
    }

    /// Exchanges the server's users for `user`. A second call undoes the first.
    fn exchange_users(&mut self, user: &mut LongTermServerUser<A>)
        ensures server { self.new ≡ with_users self.old user.old }
        ensures user { user.new ≡ self.old.registered }
    {
        self.realm.exchange_users(user);
    }
}
