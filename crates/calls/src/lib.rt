//! The trait `Calls` of what makes calls, the types of their answers, and `Methods`: a method for each call, under its name
//! in X/Open Curses or in panel(3). It is a library of its own, since it needs no windows: it is proved beside them.
//!
//! - `answer`: what a call answers, as a type
//! - `laws`: what holds of the definitions alone
//! - `making`: what makes calls
//! - `queries`: which calls only ask
//! - `written_methods`: the methods, written by a tool
#![tactic(auto)]

mod answer;
mod laws;
mod making;
mod queries;
mod written_methods;

pub use answer::Answer;
pub use laws::{queries_only_ask, refusals_are_named};
pub use making::Calls;
pub use queries::is_query;
pub use written_methods::Methods;
