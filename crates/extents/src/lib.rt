//! `Extents`: of each line of a screen some columns, from a first to a last, or none. What is damaged of a screen is
//! kept so, and what changed on it.
//!
//! - `extents`: them, with a set of the lines that have some
#![tactic(auto)]

mod extents;

pub use extents::Extents;
