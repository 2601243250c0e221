//! The users of a table at a realm.

ghost use Rattle.std.specs.Option.{option_copied};
ghost use Rattle.std.specs.Prelude.{◌≡◌};
ghost use Rattle.stun_judging.specs.Registered.{at_realm, key_at, name_with_hash, without_users};

use crate::registry::Registry;
use std::alloc::Allocator;
use std::marker::Model;
use stun_base::algorithm::IntegrityAlgorithm;
use stun_base::memory::Memory;
use stun_base::prepared_key::PreparedKey;

/// The users of a table at a realm. The realm decides which algorithms they may use.
#[derive(Drop)]
pub(crate) struct UsersAt<'a, 'r, A: Allocator> {
    realm: &'r Registry<A>,
    /// `None` if the realm has no users.
    users: Option<&'a Registry<A>>,
}

impl<'a, 'r, A: Allocator> Model for UsersAt<'a, 'r, A> {
    ghost use Rattle.std.specs.FinMap as map;
    ghost use Rattle.std.specs.Option.{ForSome, option_map_or};
    ghost use Rattle.std.specs.Prelude.{◌≡◌};
    ghost use Rattle.stun_judging.specs.Registered.{Registered};
    ghost use Rattle.stun_judging.specs.code.Registered.{coded_registered};

    ghost Value = { Registered };

    ghost coded = { coded_registered };

    ghost view = { λ at. record at.realm.now {
      secrets = option_map_or (λ users. users.now.secrets) at.users map.empty;
    } };

    ghost invariant = { λ at. ForSome at.users (λ users. users.now.realm ≡ at.realm.now.realm) };
}

impl<'a, 'r, A: Memory> UsersAt<'a, 'r, A> {
    /// Returns the users that a realm has itself.
    pub(crate) fn own(realm: &'a Registry<A>) -> UsersAt<'a, 'a, A>
        ensures { result ≡ realm.entry.now }
    {
        UsersAt {
            realm,
            users: Some(realm),
        }
    }

    /// Returns the users of a table at a realm, or nobody if the table is of another realm, because
    /// keys depend on the name of the realm.
    pub(crate) fn of(realm: &'r Registry<A>, table: &'a Registry<A>) -> Self
        ensures { result ≡ at_realm realm.entry.now table.entry.now }
    {
        if table.realm() == realm.realm() {
            UsersAt {
                realm,
                users: Some(table),
            }
        } else {
            UsersAt { realm, users: None }
        }
    }

    /// Returns the users of a realm that has none.
    pub(crate) fn nobody(realm: &'r Registry<A>) -> Self
        ensures { result ≡ without_users realm.entry.now }
    {
        UsersAt { realm, users: None }
    }

    /// Returns the key of a user for an algorithm. Returns `None` if there is no such user, if the
    /// user has no key for the algorithm, or if the realm does not support it.
    #[tactic(auto, using(crate::proofs::TableUsers::key_of_table, crate::proofs::TableUsers::key_of_nobody))]
    pub(crate) fn find_key(
        &self,
        name: &str,
        algorithm: IntegrityAlgorithm,
    ) -> Option<&'a PreparedKey<A>>
        ensures { option_copied result ≡ key_at self.now name.now algorithm }
    {
        match self.users {
            Some(users) => users.find_key_among(self.realm.supported(), name, algorithm),
            None => None,
        }
    }

    /// Returns the name of the user whose name has this hash at the realm, or `None` if there is no
    /// such user. If several names have the hash, returns the first of them in byte order.
    #[tactic(auto, using(crate::proofs::TableUsers::name_of_table, crate::proofs::TableUsers::name_of_nobody))]
    pub(crate) fn find_name_by_hash(&self, hash: &[u8; 32]) -> Option<&'a str>
        ensures { option_copied result ≡ name_with_hash self.now hash.now }
    {
        match self.users {
            Some(users) => users.find_name_by_hash(hash),
            None => None,
        }
    }
}
