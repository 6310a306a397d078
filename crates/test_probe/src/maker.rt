//! What takes memory where it is made, by its name: for tests that refuse allocations.

use cell::Refusal;
use compose::Desk;
use desk::Screen;
use ecma::Terminal;
use grids::Grids;
use paint::Painter;
use std::alloc::Global;
use std::io::{self, Write};
use streams::Discard;
use windows::Windows;

/// Why a thing of 4 lines and 10 columns isn't made, and none where it is, or where there is no such thing.
fn refusal(alloc: Global, name: &str) -> Option<Refusal> {
    match name {
        "grids" => Grids::new(alloc, 4, 10).err(),
        "windows" => Windows::new(alloc, 4, 10).err(),
        "desk" => Desk::new(alloc, 4, 10).err(),
        "painter" => Painter::new(alloc, 4, 10).err(),
        "screen" => Screen::new(alloc, 4, 10, Discard::new()).err(),
        "terminal" => Terminal::new(alloc, 4, 10).err(),
        _ => None,
    }
}

/// Makes what a word names, and prints how this ended.
pub(crate) fn run(rt: &HostRuntime, name: &str) -> io::Result<()> {
    let text = match refusal(rt.alloc(), name) {
        Some(refusal) => refusal.text(),
        None => "made",
    };
    rt.stdout().write_all(text.as_bytes())
}
