//! What the commands of `curspan` do without a screen of windows: they read the command line, show a stream and print a
//! picture. What `check` does is in `checks`.
//! This is a library of its own, so that it is proved beside those that a screen wants.
//!
//! - `closing`: outputs of which it is known whether somebody reads them
//! - `command`: the command line
//! - `escapes`: a usage fault's text
//! - `laws`: the numerals in the help are the limits
//! - `opening`: files that can't be opened
//! - `printing`: the printed picture
//! - `refused_words`: what is shown of words that are refused
//! - `requests`: what the words ask for
//! - `show`: `show`
//! - `sizes`: the size of a screen, by an option or a variable
//! - `status`: the exit statuses
//! - `subcommands`: the definition of the command line
//! - `writing`: what is written, and flushed

#![tactic(auto)]

mod closing;
mod command;
mod escapes;
mod laws;
mod opening;
mod printing;
mod refused_words;
mod requests;
mod show;
mod sizes;
mod status;
mod subcommands;
mod writing;

pub use closing::{Closable, Output};
pub use command::job;
pub use laws::limits_in_help;
pub use opening::{OpenFault, log_unopened};
pub use printing::print;
pub use refused_words::usage;
pub use requests::{Invocation, Job, Kind, Request, Variables};
pub use show::show_stream;
pub use status::{
    ACCEPTED, BAD_TEXT, Need, complain, log_failure, log_fault, no_memory, status_of,
};
pub use writing::{put, write_log, write_out};
