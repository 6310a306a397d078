//! Handles for C.

ghost use Rattle.std.specs.Prelude.{◌≡◌, None, Option, Some};
ghost use Rattle.std.specs.Option.{MatchOption};

use crate::{NullableBox, RawBox};
use std::alloc::Global;
use std::mem::replace;

/// A handle for C. One of zeros is closed, and any other holds a box.
pub trait HoldsBox {
    type Held: Drop;

    ghost held: { Self → Option Self.Held };

    /// The handle of a box, or a closed one.
    fn of(boxed: NullableBox<Self::Held>) -> Self
        ensures { held result ≡ boxed.value };

    /// What the handle holds.
    fn into_nullable_box(self) -> NullableBox<Self::Held>
        ensures { result.value ≡ held self };

    /// Puts a box or nothing into the handle, and gives back what it held.
    #[inline(always)]
    final fn exchange(&mut self, boxed: NullableBox<Self::Held>) -> NullableBox<Self::Held>
        ensures given_back { result.value ≡ held self.old }
        ensures put { held self.new ≡ boxed.value }
    {
        replace(self, Self::of(boxed)).into_nullable_box()
    }

    /// Takes the box out, where the handle is open, and closes it.
    #[inline(always)]
    final fn lift(&mut self, alloc: Global) -> Option<Box<Self::Held>>
        ensures lifted { MatchOption result (held self.old ≡ None) (λ boxed. held self.old ≡ Some boxed.value) }
        ensures closed { held self.new ≡ None }
    {
        self.exchange(NullableBox::empty()).into_box(alloc)
    }

    /// Puts a box in. One that was there is freed.
    #[inline(always)]
    final fn put(&mut self, alloc: Global, boxed: Box<Self::Held>)
        ensures { held self.new ≡ Some boxed.value }
    {
        self.exchange(NullableBox::of(RawBox::of(boxed)))
            .free(alloc);
    }

    /// Puts a box into a closed handle.
    #[inline(always)]
    final fn put_back(&mut self, boxed: Box<Self::Held>)
        requires { held self.old ≡ None }
        ensures { held self.new ≡ Some boxed.value }
    {
        self.exchange(NullableBox::of(RawBox::of(boxed))).discard();
    }

    /// Frees what the handle holds, and closes it.
    final fn close(&mut self, alloc: Global)
        ensures { held self.new ≡ None }
    {
        self.exchange(NullableBox::empty()).free(alloc);
    }
}
