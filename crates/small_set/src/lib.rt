//! `SmallSet`: a set of numbers below 1,024, with a bit for each.
//!
//! - `bits`: the bits of one word
//! - `set`: the set
#![tactic(auto)]

mod bits;
mod set;

pub use set::{CAPACITY, SmallSet};
