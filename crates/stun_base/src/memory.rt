//! The calls to the standard library that can run out of memory. This library allocates memory only
//! through these calls.
//!
//! Contracts: for this reason, the contract of a call can state that the call runs out of memory
//! only if one of these calls does.

ghost use Rattle.std.specs.BTreeMap.{IsUnchanged, Updates, get, insert_entry};
ghost use Rattle.std.specs.BTreeSet as sets;
ghost use Rattle.std.specs.BinaryHeap.{heap_capacity, heap_items, heap_len};
ghost use Rattle.std.specs.Prelude.{◌≡◌, ◌+◌, ◌++◌, ◌<◌, ◌^◌, ◌≤◌, ◌∷◌, [], IfErr, IfOk, IsOk, OnErr, OnOk};
ghost use Rattle.std.specs.Prelude.{None, Some, false, length, not, string_bytes, true};
ghost use Rattle.std.specs.Vec.{vec_capacity, vec_len};

use std::alloc::{AllocError, AllocFailed, Allocator};
use std::collections::{BTreeMap, BTreeSet, BinaryHeap};

/// An allocator, with the calls that allocate from it.
///
/// Contracts: `grants` is a statement under which no allocation fails. Generic code is proved for
/// every choice of `grants`, and can use only what the clauses `granted` state about it.
pub trait Memory: Allocator + Copy {
    ghost grants: { Type 0 };

    /// Copies a slice into a new vector.
    fn copied<T: Copy>(alloc: Self, items: &[T]) -> Result<Vec<T, Self>, AllocError>
        ensures items { IfOk result (λ copy. copy.items ≡ items.now) }
        ensures granted { grants → IsOk result };

    /// Copies a text into a new string.
    fn text(alloc: Self, text: &str) -> Result<String<Self>, AllocError>
        ensures bytes { IfOk result (λ copy. string_bytes copy ≡ text.now) }
        ensures granted { grants → IsOk result };

    /// Reserves room for `additional` more items.
    ///
    /// Contracts: the clause `granted` holds only for up to 2^17 additional items. Without this
    /// limit, code could make the call fail on purpose, by reserving more memory than there is.
    fn reserve<T>(items: &mut Vec<T, Self>, additional: usize) -> Result<(), AllocError>
        ensures items { items.new.items ≡ items.old.items }
        ensures len { vec_len items.new ≡ vec_len items.old }
        ensures ok { OnOk result (vec_len items.new + additional ≤ vec_capacity items.new) }
        ensures capacity { vec_capacity items.old ≤ vec_capacity items.new }
        ensures succeeds { vec_len items.old + additional ≤ vec_capacity items.old
            → IsOk result }
        ensures granted { grants → additional ≤ 2 ^ 17 → IsOk result };

    /// Appends an item. If the allocation fails, the error contains the item, and the vector is
    /// unchanged.
    fn push<T>(items: &mut Vec<T, Self>, item: T) -> Result<(), AllocFailed<T>>
        ensures ok { OnOk result (items.new.items ≡ items.old.items ++ item ∷ []) }
        ensures err { OnErr result (items.new.items ≡ items.old.items) }
        ensures returned { IfErr result (λ refused. refused.value ≡ item) }
        ensures granted { grants → IsOk result };

    /// Appends a copy of a slice.
    ///
    /// Contracts: `granted` has no limit here, because the slice itself is in memory already.
    fn extend<T: Copy>(items: &mut Vec<T, Self>, more: &[T]) -> Result<(), AllocError>
        ensures ok { OnOk result (items.new.items ≡ items.old.items ++ more.now) }
        ensures err { OnErr result (items.new.items ≡ items.old.items) }
        ensures granted { grants → IsOk result };

    /// Stores a value under a key, and returns the value that was stored under it before. If an
    /// allocation fails, the error contains the key and the value, and the map is unchanged.
    fn insert<K: Ord + Drop, V>(
        map: &mut BTreeMap<K, V, Self>,
        key: K,
        value: V,
    ) -> Result<Option<V>, AllocFailed<(K, V)>>
        ensures old { IfOk result (λ old. old ≡ get K.cmp map.old key) }
        ensures entries { OnOk result (map.new.entries
            ≡ insert_entry K.cmp map.old.entries key value) }
        ensures updates { OnOk result (Updates K.cmp map.old map.new key (Some value)) }
        ensures returned { IfErr result (λ refused. refused.value ≡ (key, value)) }
        ensures absent { OnErr result (get K.cmp map.old key ≡ None) }
        ensures err { OnErr result (IsUnchanged map.old map.new) }
        ensures granted { grants → IsOk result };

    /// Adds a key to a set, and returns `true` if the set did not contain it. If an allocation
    /// fails, the error contains the key, and the set is unchanged.
    fn add<K: Ord + Drop>(set: &mut BTreeSet<K, Self>, key: K) -> Result<bool, AllocFailed<K>>
        ensures added { IfOk result (λ added. added ≡ not (sets.contains K.cmp set.old key)) }
        ensures updates { OnOk result (sets.Updates K.cmp set.old set.new key true) }
        ensures keys { OnOk result (set.new.keys ≡ sets.insert_key K.cmp set.old.keys key) }
        ensures returned { IfErr result (λ refused. refused.value ≡ key) }
        ensures absent { OnErr result (sets.contains K.cmp set.old key ≡ false) }
        ensures err { OnErr result (sets.IsUnchanged set.old set.new) }
        ensures granted { grants → IsOk result };

    /// Reserves room for `additional` more items of a binary heap.
    ///
    /// Contracts: in contrast to `reserve`, `granted` has no limit here, because a heap may have an
    /// item for each request, and the number of requests is not limited.
    fn room<T: Ord>(items: &mut BinaryHeap<T, Self>, additional: usize) -> Result<(), AllocError>
        ensures items { heap_items items.new ≡ heap_items items.old }
        ensures len { heap_len items.new ≡ heap_len items.old }
        ensures capacity { heap_capacity items.old ≤ heap_capacity items.new }
        ensures ok { OnOk result (heap_len items.new + additional ≤ heap_capacity items.new) }
        ensures full { OnErr result (heap_capacity items.old < heap_len items.old + additional) }
        ensures granted { grants → IsOk result };

    /// Moves a value to the heap. If the allocation fails, the error contains the value.
    fn boxed<T>(alloc: Self, value: T) -> Result<Box<T, Self>, AllocFailed<T>>
        ensures value { IfOk result (λ stored. stored.value ≡ value) }
        ensures granted { grants → IsOk result };
}

/// Any allocator. Because it may fail at any time, `grants` is false.
impl<A: Allocator + Copy> Memory for A {
    ghost grants = { ⊥ };

    fn copied<T: Copy>(alloc: Self, items: &[T]) -> Result<Vec<T, Self>, AllocError> {
        Vec::from_slice(alloc, items)
    }

    fn text(alloc: Self, text: &str) -> Result<String<Self>, AllocError> {
        String::from_str(alloc, text)
    }

    fn reserve<T>(items: &mut Vec<T, Self>, additional: usize) -> Result<(), AllocError> {
        items.reserve(additional)
    }

    fn push<T>(items: &mut Vec<T, Self>, item: T) -> Result<(), AllocFailed<T>> {
        items.push(item)
    }

    fn extend<T: Copy>(items: &mut Vec<T, Self>, more: &[T]) -> Result<(), AllocError> {
        items.extend_from_slice(more)
    }

    fn insert<K: Ord + Drop, V>(
        map: &mut BTreeMap<K, V, Self>,
        key: K,
        value: V,
    ) -> Result<Option<V>, AllocFailed<(K, V)>> {
        map.insert(key, value)
    }

    fn add<K: Ord + Drop>(set: &mut BTreeSet<K, Self>, key: K) -> Result<bool, AllocFailed<K>> {
        set.insert(key)
    }

    fn room<T: Ord>(items: &mut BinaryHeap<T, Self>, additional: usize) -> Result<(), AllocError> {
        items.reserve(additional)
    }

    fn boxed<T>(alloc: Self, value: T) -> Result<Box<T, Self>, AllocFailed<T>> {
        Box::new(alloc, value)
    }
}
