//! What `check` says of a script: of each faulty line where its fault is and what is wrong, and which calls every screen refuses.
//!
//! - `arguments`, `column`: the arguments of a faulty line, and where its fault is
//! - `everywhere`: the calls that every screen refuses
//! - `findings`, `report`: the line about a fault, and about such a call, and the lines about a script
//! - `said`: the text of such a line, as it is gathered
//! - `suggest`: the calls to see in place of a word that is none
//! - `written_curses`, `written_missing`, `written_names`: what `tools/calls` writes
#![tactic(auto)]

mod arguments;
mod column;
mod everywhere;
mod findings;
mod report;
mod said;
mod suggest;
mod written_curses;
mod written_missing;
mod written_names;

pub use report::check_script;
