//! A handle for C: the pointer of a box with a decoder of keys, or null.

ghost use Rattle.std.specs.Prelude.{◌≡◌, Option};
ghost use Rattle.capi.specs.KeyHandles.{Delayed, Fed, KeysOpened, Waits, restarted};
ghost use Rattle.capi.specs.Keys.{IsNoEvent};
ghost use Rattle.keys.specs.Readings.{State};

use crate::taken::{CFed, CTaken, asked_of};
use keys::Decoder;
use raw_box::{HoldsBox, NullableBox};
use std::alloc::Global;
use std::marker::Model;

/// What C holds. A handle of zeros is closed.
#[repr(C)]
pub struct KeyHandle {
    at: *mut u8,
    pub ghost value: { Option State },
}

impl Model for KeyHandle {
    ghost use Rattle.raw_box.specs.Nullable.{nullable_owns};
    ghost use Rattle.keys.specs.contracts.decoder.Decoder.{the_row};

    ghost also_owns = { λ h. nullable_owns the_row h.at h.value };
}

impl HoldsBox for KeyHandle {
    type Held = Decoder;

    ghost held = { λ h. h.value };

    fn of(boxed: NullableBox<Decoder>) -> KeyHandle
        ensures { result.value ≡ boxed.value }
    {
        let NullableBox { at } = boxed;
        KeyHandle { at: at as *mut u8 }
    }

    fn into_nullable_box(self) -> NullableBox<Decoder>
        ensures { result.value ≡ self.value }
    {
        let KeyHandle { at } = self;
        NullableBox {
            at: at as *mut Decoder,
        }
    }
}

impl KeyHandle {
    /// Puts a new decoder into the handle, in place of one that was there.
    pub fn open(&mut self, alloc: Global, asked: u32) -> u32
        ensures { KeysOpened asked self.old.value result self.new.value }
    {
        if asked > 7 {
            return 13;
        }
        match Box::new(alloc, Decoder::new(asked_of(asked))) {
            Ok(decoder) => {
                self.put(alloc, decoder);
                0
            }
            Err(failed) => {
                drop(failed.value);
                18
            }
        }
    }

    /// Gives bytes to the decoder, up to one that answers a key.
    pub fn bytes(&mut self, alloc: Global, piece: &[u8]) -> CFed
        ensures fed { Fed self.old.value piece.now result self.new.value }
        ensures first { IsNoEvent result.first }
        ensures second { IsNoEvent result.second }
    {
        let closed = CFed {
            used: 0,
            first: CTaken::NONE,
            second: CTaken::NONE,
        };
        with_held!(
            self,
            alloc,
            |decoder| CFed::of(decoder.bytes(piece)),
            closed
        )
    }

    /// Says that nothing came until the delay was over.
    pub fn delay(&mut self, alloc: Global) -> CTaken
        ensures delayed { Delayed self.old.value result self.new.value }
        ensures no_event { IsNoEvent result }
    {
        with_held!(
            self,
            alloc,
            |decoder| CTaken::of(decoder.delay()),
            CTaken::NONE
        )
    }

    /// Whether the end of the delay would answer a key.
    pub fn waits(&mut self, alloc: Global) -> u32
        ensures waits { Waits self.old.value result }
        ensures same { self.new.value ≡ self.old.value }
    {
        with_held!(self, alloc, |decoder| u32::from(decoder.waits()), 0)
    }

    /// Forgets what was read.
    pub fn restart(&mut self, alloc: Global)
        ensures { self.new.value ≡ restarted self.old.value }
    {
        with_held!(self, alloc, |decoder| decoder.restart(), ())
    }
}
