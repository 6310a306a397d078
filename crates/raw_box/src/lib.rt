//! Takes a box apart into its pointer, and makes the box from it again.
//!
//! - `holds_box`: handles for C, each of which holds a box or nothing
//! - `nullable_box`: a box or nothing, by a pointer that may be null
#![tactic(auto)]

ghost use Rattle.std.specs.Prelude.{◌≡◌};
ghost use Rattle.std_alloc.specs.Box.Ownership.{box_owns};

mod holds_box;
mod nullable_box;

pub use holds_box::HoldsBox;
pub use nullable_box::NullableBox;
use std::alloc::Allocator;
use std::marker::Model;

/// What a box owns, held by its pointer.
pub struct RawBox<T, A: Allocator> {
    pub at: *mut T,
    pub alloc: A,
    pub ghost value: { T },
}

impl<T, A: Allocator> Model for RawBox<T, A> {
    ghost also_owns = { λ l. box_owns (A.dealloc_token l.alloc) T.row l.at l.value };
}

impl<T: Drop, A: Allocator> RawBox<T, A> {
    /// Takes a box apart into its pointer and its allocator.
    pub fn of(value: Box<T, A>) -> RawBox<T, A>
        ensures { result.value ≡ value.value }
    {
        let (at, alloc) = Box::into_raw_with_allocator(value);
        RawBox { at, alloc }
    }

    /// Makes the box again.
    pub fn into_box(self) -> Box<T, A>
        ensures { result.value ≡ self.value }
    {
        let RawBox { at, alloc } = self;
        unsafe { Box::from_raw(alloc, at) }
    }
}
