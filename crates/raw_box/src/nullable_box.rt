//! A box or nothing, by a pointer that may be null.

ghost use Rattle.std.specs.Prelude.{◌≡◌, None, Option, Some};
ghost use Rattle.std.specs.Option.{MatchOption};

use crate::RawBox;
use std::alloc::Global;
use std::marker::Model;
use std::ptr::null_mut;

/// What a box in the C library's heap owns, held by its pointer. Null owns nothing.
pub struct NullableBox<T> {
    pub at: *mut T,
    pub ghost value: { Option T },
}

impl<T> Model for NullableBox<T> {
    ghost use Rattle.raw_box.specs.Nullable.{nullable_owns};

    ghost also_owns = { λ n. nullable_owns T.row n.at n.value };
}

impl<T: Drop> NullableBox<T> {
    /// Nothing.
    pub fn empty() -> NullableBox<T>
        ensures { result.value ≡ None }
    {
        NullableBox { at: null_mut() }
    }

    /// A box.
    pub fn of(raw: RawBox<T, Global>) -> NullableBox<T>
        ensures { result.value ≡ Some raw.value }
    {
        let RawBox { at, alloc: _ } = raw;
        NullableBox { at }
    }

    /// Gives the box back, where there is one.
    #[inline(always)]
    pub fn into_raw_box(self, alloc: Global) -> Option<RawBox<T, Global>>
        ensures { MatchOption result (self.value ≡ None) (λ l. self.value ≡ Some l.value) }
    {
        let NullableBox { at } = self;
        if at.is_null() {
            None
        } else {
            Some(RawBox { at, alloc })
        }
    }

    /// Makes the box again, where there is one.
    #[inline(always)]
    pub fn into_box(self, alloc: Global) -> Option<Box<T>>
        ensures { MatchOption result (self.value ≡ None) (λ l. self.value ≡ Some l.value) }
    {
        match self.into_raw_box(alloc) {
            Some(raw) => Some(raw.into_box()),
            None => None,
        }
    }

    /// Frees the box, where there is one. No clause can say that: `tests/library_memory` looks for leaks.
    #[inline(always)]
    pub fn free(self, alloc: Global) {
        if let Some(raw) = self.into_raw_box(alloc) {
            free_box(raw);
        }
    }

    /// Consumes a null, which owns nothing: there is nothing that a clause could say.
    #[inline(always)]
    pub fn discard(self)
        requires { self.value ≡ None }
    {
        let NullableBox { at: _ } = self;
    }
}

/// Frees a box. No clause can say that: `tests/library_memory` looks for leaks.
#[cold]
#[inline(never)]
fn free_box<T: Drop>(raw: RawBox<T, Global>) {
    drop(raw.into_box());
}
