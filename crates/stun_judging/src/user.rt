//! A user who is passed along with a message, for a server that looks up its users elsewhere.

ghost use Rattle.std.specs.Prelude.{◌≡◌, ◌↔◌, IsTrue, Some, codes};
ghost use Rattle.std.specs.Fmt.{WritesOnOk, WritesStyledOnOk};

use crate::realm::Realm;
use crate::registry::Registry;
use std::alloc::{Allocator, Global};
use std::fmt;
use std::marker::Model;

/// A user who is passed along with a message (`Realm::judge_of`), with keys for both algorithms.
/// `Realm::prepare_user` makes such a user from a password, and `Realm::prepare_user_with_keys` from
/// stored keys.
///
/// `Debug` shows nothing of the contents.
///
/// Contracts: the value is a record of this user, and of the name and the algorithms that the realm
/// had when the user was prepared.
#[derive(Drop)]
pub struct LongTermServerUser<A: Allocator = Global> {
    pub(crate) registry: Registry<A>,
}

impl<A: Allocator> Model for LongTermServerUser<A> {
    ghost use Rattle.stun_judging.specs.Registered.{Registered};
    ghost use Rattle.stun_judging.specs.code.Registered.{coded_registered};

    ghost Value = { Registered };

    ghost coded = { coded_registered };

    ghost view = { λ user. user.registry };
}

impl<A: Allocator + Copy> LongTermServerUser<A> {
    /// Returns the name of the realm that this user was prepared for.
    pub fn realm(&self) -> &str
        ensures { result.now ≡ self.now.realm }
    {
        self.registry.realm()
    }

    /// Returns whether this user was prepared for a realm with this name, and for the algorithms
    /// that this realm supports now.
    ///
    /// If so, preparing the user again from the same name and secret would give the same result. If
    /// not, prepare the user again before you call `Realm::exchange_users`, because the realm then
    /// gets the name and the algorithms that the user was prepared for. `Realm::judge_of` needs
    /// only that the name is the same. The call does not allocate.
    pub fn belongs_to(&self, realm: &Realm<A>) -> bool
        ensures { IsTrue result ↔ ((self.now.realm ≡ realm.now.registered.realm)
            × (self.now.algorithms ≡ realm.now.registered.algorithms)) }
    {
        self.registry.has_realm_of(&realm.registry)
    }
}

impl<A: Allocator> fmt::Debug for LongTermServerUser<A> {
    ghost debug_output = { λ _. Some (codes "LongTermServerUser { .. }") };

    fn fmt<W: fmt::Write>(&self, f: &mut fmt::Formatter<W>) -> fmt::Result
        ensures writes { WritesOnOk W.write_str_gives f.old result
            (codes "LongTermServerUser { .. }") f.new }

        // The options of the formatter, such as the width, do not change the text.
        ensures styled { WritesStyledOnOk W.write_str_gives f.old result
            (codes "LongTermServerUser { .. }") f.new }
    {
        f.write_str("LongTermServerUser { .. }")
    }
}
