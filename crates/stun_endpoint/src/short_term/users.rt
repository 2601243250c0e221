//! The users of a server with short-term credentials.

ghost use Rattle.std.specs.Fmt.{WritesOnOk, WritesStyledOnOk};
ghost use Rattle.std.specs.FinMap as map;
ghost use Rattle.std.specs.Option.{option_copied};
ghost use Rattle.std.specs.Prelude.{◌≡◌, IsOk, OnErr, OnOk, Some, codes};
ghost use Rattle.std.specs.String.{string_bytes};

use std::alloc::{AllocError, Allocator, Global};
use std::collections::BTreeMap;
use std::fmt;
use std::marker::Model;
use stun_base::credentials::ShortTermCredentials;
use stun_base::memory::Memory;
use stun_base::prepared_key::PreparedKey;
use stun_types::message::IntegrityAlgorithm;

/// The users of a server with short-term credentials: the key of each user, by name. A look-up
/// takes logarithmic time.
///
/// The calls of a server only read the table, so you can share it in an `Arc`. To reload the users,
/// replace the `Arc` by one with a new table.
///
/// Contracts: a table is a map from the name of each user to the key, which is the password (RFC
/// 8489, section 9.1.1). `Debug` shows none of it.
#[derive(Drop)]
pub struct ShortTermUsers<A: Allocator = Global> {
    keys: BTreeMap<String<A>, PreparedKey<A>, A>,
}

impl<A: Allocator> Model for ShortTermUsers<A> {
    ghost use Rattle.stun_endpoint.specs.ShortTerm.{Keys};
    ghost use Rattle.stun_endpoint.specs.code.Keys.{coded_keys, keys_seen};

    ghost Value = { Keys };

    ghost coded = { coded_keys };

    ghost view = { λ users. keys_seen users.keys.entries };
}

impl<A: Allocator> fmt::Debug for ShortTermUsers<A> {
    ghost debug_output = { λ _. Some (codes "ShortTermUsers { .. }") };

    fn fmt<W: fmt::Write>(&self, f: &mut fmt::Formatter<W>) -> fmt::Result
        ensures writes { WritesOnOk W.write_str_gives f.old result
            (codes "ShortTermUsers { .. }") f.new }

        // The text does not depend on the width, the precision or any other option.
        ensures styled { WritesStyledOnOk W.write_str_gives f.old result
            (codes "ShortTermUsers { .. }") f.new }
    {
        f.write_str("ShortTermUsers { .. }")
    }
}

impl<A: Memory> ShortTermUsers<A> {
    /// Returns an empty table.
    pub fn new(alloc: A) -> Self
        ensures { result ≡ map.empty }
    {
        ShortTermUsers {
            keys: BTreeMap::new(alloc),
        }
    }

    /// Adds a user with a password. If the table already has a user of that name, this password
    /// replaces the old one.
    ///
    /// Fails if an allocation fails. The table is then unchanged.
    pub fn add(
        &mut self,
        name: String<A>,
        credentials: ShortTermCredentials<A>,
    ) -> Result<(), AllocError>
        ensures ok { OnOk result (self.new
            ≡ map.insert self.old (string_bytes name) credentials) }
        ensures err { OnErr result (self.new ≡ self.old) }
        ensures granted { A.grants → IsOk result }
    {
        let key = PreparedKey::new(credentials.make_key()?, IntegrityAlgorithm::Sha1);
        match A::insert(&mut self.keys, name, key) {
            Ok(_) => Ok(()),
            Err(_) => Err(AllocError),
        }
    }

    /// Removes the user of this name, so that messages that name this user are refused from now on.
    pub fn remove(&mut self, name: &str)
        ensures { self.new ≡ map.remove self.old name.now }
    {
        self.keys.remove(name);
    }

    /// Returns the key of a user, or `None` if the table has no user of this name.
    pub(super) fn find_key(&self, name: &str) -> Option<&PreparedKey<A>>
        ensures { option_copied result ≡ map.get self.now name.now }
    {
        self.keys.get(name)
    }
}
