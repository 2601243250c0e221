//! An index of user names by their hash, so that the name for a USERHASH is found without computing
//! a hash.

ghost use Rattle.std.specs.Prelude.{◌≡◌, IsOk, OnOk, OnErr};
ghost use Rattle.std.specs.Option.{option_copied};
ghost use Rattle.std.specs.FinSet as set;
ghost use Rattle.std.specs.String.{string_bytes};
ghost use Rattle.stun_judging.specs.code.NameIndex.{IsLeastNamed};

use std::alloc::{AllocError, Allocator};
use std::collections::BTreeSet;
use std::marker::Model;
use stun_base::memory::Memory;

/// Names, each with its hash, in the order of the hashes and then of the names.
#[derive(Drop)]
pub(crate) struct NameIndex<A: Allocator> {
    alloc: A,
    hashed: BTreeSet<([u8; 32], String<A>), A>,
}

impl<A: Allocator> Model for NameIndex<A> {
    ghost use Rattle.std.specs.FinSet as set;
    ghost use Rattle.stun_judging.specs.code.NameIndex.{hashed_cmp, coded_hashed, names_hashed};

    ghost Value = { set.FinSet hashed_cmp };

    ghost coded = { set.code coded_hashed };

    ghost view = { λ index. names_hashed index.hashed.keys };
}

impl<A: Memory> NameIndex<A> {
    /// Creates an empty index.
    pub(crate) fn new(alloc: A) -> Self
        ensures { result ≡ set.empty }
    {
        NameIndex {
            alloc,
            hashed: BTreeSet::new(alloc),
        }
    }

    /// Adds a name with its hash. Fails if an allocation fails, and then leaves the index
    /// unchanged.
    pub(crate) fn insert(&mut self, hash: [u8; 32], name: String<A>) -> Result<(), AllocError>
        ensures ok { OnOk result (self.new ≡ set.insert self.old (hash, string_bytes name)) }
        ensures err { OnErr result (self.new ≡ self.old) }
        ensures granted { A.grants → IsOk result }
    {
        A::add(&mut self.hashed, (hash, name))?;
        Ok(())
    }

    /// Removes a name with its hash. It does not allocate.
    pub(crate) fn remove(&mut self, hash: [u8; 32], name: String<A>)
        ensures { self.new ≡ set.remove self.old (hash, string_bytes name) }
    {
        let pair = (hash, name);
        self.hashed.remove(&pair);
    }

    /// Returns the first name in byte order that has this hash, or `None` if no name has it.
    pub(crate) fn find_first(&self, hash: &[u8; 32]) -> Option<&str>
        ensures { IsLeastNamed self.now hash.now (option_copied result) }
    {
        let from = (*hash, String::new(self.alloc));
        let (found, name) = self.hashed.range(from..).next()?;
        if *found == *hash {
            Some(name.as_str())
        } else {
            None
        }
    }
}
