//! The handle through which a program in C uses a value on the heap.
//!
//! A handle is a flag and a pointer. It has no `Drop`, so an assignment to a handle does not free
//! its value.
ghost use Rattle.std.specs.Prelude.{◌≡◌, Some, None, Option, IfSome, IfNone};
ghost use Rattle.std.specs.Coded.{coded_option};
ghost use Rattle.stun_handles.specs.code.Handle.{handle_owns};

pub(crate) mod parts;

use parts::Parts;
use std::alloc::Global;
use std::marker::Model;

/// A box or nothing, as a flag and a pointer.
pub struct Loose<T> {
    pub is_full: bool,
    pub at: *mut T,
    pub ghost state: { Option T } by { coded_option T.code },
}

impl<T> Model for Loose<T> {
    ghost also_owns = { λ h. handle_owns T.row h.is_full h.at h.state };
}

impl<T> Loose<T> {
    /// Creates an empty handle.
    pub fn none() -> Loose<T>
        ensures { result.state ≡ None }
    {
        Loose {
            is_full: false,
            at: std::ptr::null_mut(),
        }
    }

    fn of_parts(parts: Parts<T, Global>) -> Loose<T>
        ensures { result.state ≡ Some parts.value }
    {
        let Parts { at, alloc: _ } = parts;
        Loose { is_full: true, at }
    }

    fn into_parts(self, alloc: Global) -> Option<Parts<T, Global>>
        ensures some { IfSome result (λ parts. self.state ≡ Some parts.value) }
        ensures none { IfNone result (self.state ≡ None) }
    {
        let Loose { is_full, at } = self;
        if is_full {
            return Some(Parts { at, alloc });
        }
        None
    }

    /// Converts a box to a handle.
    pub fn of(state: Box<T, Global>) -> Loose<T>
    where
        T: Drop,
        ensures { result.state ≡ Some state.value }
    {
        Loose::of_parts(Parts::of(state))
    }

    /// Returns the box in the handle, or `None` if the handle is empty.
    pub fn into_box(self, alloc: Global) -> Option<Box<T, Global>>
        ensures some { IfSome result (λ state. self.state ≡ Some state.value) }
        ensures none { IfNone result (self.state ≡ None) }
    {
        match self.into_parts(alloc) {
            Some(parts) => Some(parts.into_box()),
            None => None,
        }
    }

    /// Discards an empty handle.
    pub fn discard(self, alloc: Global)
    where
        T: Drop,
        requires { self.state ≡ None }
    {
        let _none = self.into_box(alloc);
    }
}
