//! Curspan for C, its interface for C programs: a screen in a `Handle`, and a function for each call.
//!
//! - `answer`: what C gets for an answer
//! - `exports`: an export for each call, a file for each group, `life`, which opens, takes and closes, `questions`,
//!   what is asked beside the calls, `given`, cells that are given, and `decoding`, the keys that a terminal sends
//! - `handle`: what C holds of a screen, and how that is taken out and put back
//! - `key_handle`: the same of a decoder of keys
//! - `line`: the cells of a line, as C gets them
//! - `number`: numbers as C passes them
//! - `question`: what C asks beside the calls
//! - `screen`: a screen whose bytes are kept
//! - `taken`: keys, as C gets them
//! - `written_numbers`: the numbers of refusals, written by a tool
#![tactic(auto)]

/// Takes the box out of a handle, does something with what it has and puts it back. Where the handle is closed, the
/// answer is the last one here.
macro_rules! with_held {
    ($handle:expr, $alloc:expr, |$held:ident| $done:expr, $closed:expr) => {
        match $handle.lift($alloc) {
            Some(mut $held) => {
                let answer = $done;
                $handle.put_back($held);
                answer
            }
            None => $closed,
        }
    };
}

mod answer;
mod c_screen;
mod exports;
mod handle;
mod key_handle;
mod line;
mod number;
mod question;
mod taken;
mod written_numbers;
