//! The users whose signatures a server accepts: those of a table, one user, or nobody.

ghost use Rattle.std.specs.Option.{option_copied, option_map};
ghost use Rattle.std.specs.Prelude.{◌≡◌, IfOk};
ghost use Rattle.stun_judging.specs.Judged.{HasVerifyingKey, client_judged};
ghost use Rattle.stun_judging.specs.Reading.{reading_of};
ghost use Rattle.stun_endpoint.specs.Judged.{has_other_realm, verdict_under};
ghost use Rattle.stun_endpoint.specs.code.Judges.{realm_of, users_of};

use crate::server::Server;
use std::alloc::Allocator;
use stun_base::memory::Memory;
use stun_judging::accepted::Accepted;
use stun_judging::read_message::ReadMessage;
use stun_judging::realm::Realm;
use stun_judging::refusal::VerdictRefusal;
use stun_judging::user::LongTermServerUser;

/// The users whose signatures a server accepts.
#[derive(Drop)]
pub(crate) enum Judges<'a, A: Allocator> {
    /// A table of users.
    Table(&'a Realm<A>),
    /// One user.
    User(&'a LongTermServerUser<A>),
    /// No user.
    Nobody,
}

impl<'a, A: Memory> Judges<'a, A> {
    /// Returns one user, or nobody if `user` is `None`.
    pub(crate) fn from_user(user: Option<&'a LongTermServerUser<A>>) -> Self
        ensures { users_of result ≡ option_copied user.entry }
    {
        match user {
            Some(user) => Judges::User(user),
            None => Judges::Nobody,
        }
    }

    /// Returns the name of the realm that the users are of, or `None` if there is no user.
    fn realm(&self) -> Option<&str>
        ensures { option_copied result ≡ option_map (λ users. users.realm) (users_of self.now) }
    {
        match self {
            Judges::Table(table) => Some(table.name()),
            Judges::User(user) => Some(user.realm()),
            Judges::Nobody => None,
        }
    }
}

impl<A: Memory> Server<A> {
    /// Returns whether these users are of a realm with another name than the server's.
    pub(super) fn has_other_realm(&self, judges: &Judges<'_, A>) -> bool
        ensures { result ≡ has_other_realm self.now (users_of judges.now) }
    {
        match judges.realm() {
            Some(realm) => realm != self.realm.name(),
            None => false,
        }
    }

    /// Judges a request under a nonce, by these users and the server's settings.
    pub(super) fn judge_under<'a>(
        &self,
        judges: &Judges<'a, A>,
        read: &ReadMessage<'a, '_>,
        nonce: &str,
    ) -> Result<Accepted<'a, A>, VerdictRefusal>
        ensures verdict { client_judged result
            ≡ verdict_under (realm_of self.now judges.now) nonce.now (reading_of read.now) }
        ensures key { IfOk result
            (HasVerifyingKey (realm_of self.now judges.now).users (reading_of read.now)) }
    {
        match judges {
            Judges::Table(table) => self.realm.judge_among(read, nonce, table),
            Judges::User(user) => self.realm.judge_of(read, nonce, user),
            Judges::Nobody => self.realm.judge_by_nobody(read, nonce),
        }
    }
}
