//! Values that contain bytes: the trait [`OwnedBytes`], and bytes that are borrowed or owned.

ghost use Rattle.std.specs.Prelude.{◌≡◌, ℕ, List, IfOk, IsOk, Ok};

use crate::memory::Memory;
use std::alloc::{AllocError, Allocator, Global};

/// A value that contains bytes, which it owns or borrows.
///
/// Two calls of `bytes` on the same value return the same bytes.
pub trait OwnedBytes {
    // The bytes of the value.
    ghost contents: { Self → List ℕ };

    /// Returns the bytes.
    fn bytes(&self) -> &[u8]
        ensures { result.now ≡ contents self.now };
}

impl OwnedBytes for &[u8] {
    ghost contents = { λ slice. slice.now };

    fn bytes(&self) -> &[u8] {
        *self
    }
}

impl<const N: usize> OwnedBytes for [u8; N] {
    ghost contents = { λ array. array };

    fn bytes(&self) -> &[u8] {
        self
    }
}

impl<A: Allocator> OwnedBytes for Vec<u8, A> {
    ghost contents = { λ vec. vec.items };

    fn bytes(&self) -> &[u8] {
        self.as_slice()
    }
}

/// Bytes that are borrowed for `'a`, or owned in the memory of an allocator.
#[derive(Drop)]
#[derive_where(Debug)]
pub enum Data<'a, A: Allocator = Global> {
    /// Borrowed bytes.
    Borrowed(&'a [u8]),
    /// Owned bytes.
    Owned(Vec<u8, A>),
}

impl<'a, A: Allocator> OwnedBytes for Data<'a, A> {
    ghost use Rattle.stun_base.specs.Data.{data_bytes};

    ghost contents = { data_bytes };

    fn bytes(&self) -> &[u8] {
        match self {
            Data::Borrowed(bytes) => bytes,
            Data::Owned(bytes) => bytes.as_slice(),
        }
    }
}

impl<'a, A: Memory> Data<'a, A> {
    ghost use Rattle.stun_base.specs.Data.{data_bytes, IsOwned};

    /// Converts the value into owned bytes, which can outlive `'a`.
    ///
    /// Owned bytes are moved, without an allocation, and keep their own allocator. Borrowed bytes
    /// are copied into memory of `alloc`.
    ///
    /// # Errors
    ///
    /// `AllocError`: the bytes were borrowed, and the allocation failed.
    pub fn into_owned<'b>(self, alloc: A) -> Result<Data<'b, A>, AllocError>
        ensures bytes { IfOk result (λ owned. data_bytes owned ≡ data_bytes self.entry) }
        ensures owned { IfOk result (λ owned. IsOwned owned) }
        ensures moves { IsOwned self.entry → IsOk result }
        ensures itself { IsOwned self.entry → result ≡ Ok self.entry }
        ensures granted { A.grants → IsOk result }
    {
        match self {
            Data::Borrowed(bytes) => Ok(Data::Owned(A::copied(alloc, bytes)?)),
            Data::Owned(bytes) => Ok(Data::Owned(bytes)),
        }
    }
}
