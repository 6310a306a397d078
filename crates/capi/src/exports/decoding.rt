//! The keys that a terminal sends. Only Curspan's own C calls these.

ghost use Rattle.std.specs.Prelude.{◌≡◌, None};
ghost use Rattle.capi.specs.KeyHandles.{Delayed, Fed, KeysOpened, Waits, restarted};
ghost use Rattle.capi.specs.Keys.{IsNoEvent};

use crate::key_handle::KeyHandle;
use crate::taken::{CFed, CTaken};
use raw_box::HoldsBox;
use std::alloc::Global;

/// Puts a decoder that has read nothing into a handle, in place of one that was there. It is told what was asked for.
#[unsafe(no_mangle)]
pub extern "C" fn curspan_keys_open(alloc: Global, keys: &mut KeyHandle, asked: u32) -> u32
    ensures { KeysOpened asked keys.old.value result keys.new.value }
{
    keys.open(alloc, asked)
}

/// Frees the decoder of a handle and closes it. A closed one stays closed.
#[unsafe(no_mangle)]
pub extern "C" fn curspan_keys_close(alloc: Global, keys: &mut KeyHandle)
    ensures { keys.new.value ≡ None }
{
    keys.close(alloc);
}

/// Reads bytes, up to the first that answers a key.
#[unsafe(no_mangle)]
pub extern "C" fn curspan_keys_bytes(alloc: Global, keys: &mut KeyHandle, bytes: &[u8]) -> CFed
    ensures fed { Fed keys.old.value bytes.now result keys.new.value }
    ensures no_event { IsNoEvent result.first × IsNoEvent result.second }
{
    keys.bytes(alloc, bytes)
}

/// Reads that nothing came until the delay was over.
#[unsafe(no_mangle)]
pub extern "C" fn curspan_keys_delay(alloc: Global, keys: &mut KeyHandle) -> CTaken
    ensures delayed { Delayed keys.old.value result keys.new.value }
    ensures no_event { IsNoEvent result }
{
    keys.delay(alloc)
}

/// Whether that would answer a key: then the caller measures the delay.
#[unsafe(no_mangle)]
pub extern "C" fn curspan_keys_waits(alloc: Global, keys: &mut KeyHandle) -> u32
    ensures waits { Waits keys.old.value result }
    ensures same { keys.new.value ≡ keys.old.value }
{
    keys.waits(alloc)
}

/// Forgets all that was read. This can't fail.
#[unsafe(no_mangle)]
pub extern "C" fn curspan_keys_restart(alloc: Global, keys: &mut KeyHandle)
    ensures { keys.new.value ≡ restarted keys.old.value }
{
    keys.restart(alloc);
}
