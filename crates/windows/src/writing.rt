//! The calls that write in a window, or set how it is written in.

mod characters;
mod editing;
mod options;
mod scrolling;
