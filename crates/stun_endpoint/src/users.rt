//! The users of a realm.

ghost use Rattle.std.specs.Prelude.{◌≡◌, IsOk, Some, OnOk, OnErr, codes};
ghost use Rattle.std.specs.Fmt.{WritesOnOk, WritesStyledOnOk};
ghost use Rattle.std.specs.String.{string_bytes};
ghost use Rattle.stun_judging.specs.Registered.{with_user, with_user_by_keys, without_user};

use std::alloc::{AllocError, Allocator, Global};
use std::fmt;
use std::marker::Model;
use stun_base::credentials::LongTermCredentials;
use stun_base::memory::Memory;
use stun_judging::realm::Realm;
use stun_judging::stored_keys::StoredKeys;

/// The users of a realm, found by name and by hash. `Server::users` makes an empty table, for every
/// server of the same realm: a table has each user's keys for both algorithms, and each server
/// judges by its own algorithms and `user_hashes`. A server of another realm drops every datagram
/// that it is passed with the table, with `DropReason::OtherRealm`.
///
/// The calls of a server that judge a request only read the table, so you can share it in an `Arc`.
/// To change the users, replace the `Arc` by one with a new table.
///
/// Contracts: a table has its realm, and the password or the keys of each user. It also has the
/// algorithms and the `user_hashes` of the server that made it, which do not count. `Debug` shows
/// none of them.
#[derive(Drop)]
pub struct Users<A: Allocator = Global> {
    pub(crate) realm: Realm<A>,
}

impl<A: Allocator> Model for Users<A> {
    ghost use Rattle.stun_judging.specs.Realm.{RealmSeen};
    ghost use Rattle.stun_judging.specs.code.Realm.{coded_realm};

    ghost Value = { RealmSeen };

    ghost coded = { coded_realm };

    ghost view = { λ users. users.realm };
}

impl<A: Allocator> fmt::Debug for Users<A> {
    ghost debug_output = { λ _. Some (codes "Users { .. }") };

    fn fmt<W: fmt::Write>(&self, f: &mut fmt::Formatter<W>) -> fmt::Result
        ensures writes { WritesOnOk W.write_str_gives f.old result
            (codes "Users { .. }") f.new }

        // The text does not depend on the width, the precision or any other option.
        ensures styled { WritesStyledOnOk W.write_str_gives f.old result
            (codes "Users { .. }") f.new }
    {
        f.write_str("Users { .. }")
    }
}

impl<A: Memory> Users<A> {
    /// Adds a user with a password, and derives a key for each algorithm. If the table already has
    /// a user of that name, this password replaces the user's password or keys.
    ///
    /// Fails if an allocation fails. The table is then unchanged.
    pub fn add(&mut self, credentials: LongTermCredentials<A>) -> Result<(), AllocError>
        ensures ok { OnOk result (self.new ≡ record self.old {
          registered = with_user self.old.registered credentials;
        }) }
        ensures err { OnErr result (self.new ≡ self.old) }
        ensures granted { A.grants → IsOk result }
    {
        self.realm.add_user(credentials)
    }

    /// Adds a user with keys that are stored in place of a password (RFC 8489, section 9.2.2). The
    /// keys must have been made for the realm of this table. If the table already has a user of
    /// that name, these keys replace the user's password or keys.
    ///
    /// Fails if an allocation fails. The table is then unchanged.
    pub fn add_with_keys(&mut self, name: String<A>, keys: StoredKeys) -> Result<(), AllocError>
        ensures ok { OnOk result (self.new ≡ record self.old {
          registered = with_user_by_keys self.old.registered (string_bytes name) keys;
        }) }
        ensures err { OnErr result (self.new ≡ self.old) }
        ensures granted { A.grants → IsOk result }
    {
        self.realm.add_user_with_keys(name, keys)
    }

    /// Removes the user of this name, so that requests that name this user are refused from now on.
    pub fn remove(&mut self, name: &str)
        ensures { self.new ≡ record self.old {
          registered = without_user self.old.registered name.now;
        } }
    {
        self.realm.remove_user(name);
    }
}
