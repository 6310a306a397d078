//! The tests of `keys`, by public calls alone: bytes of real terminals and of the standards, and their keys.
//! `docs/DECISIONS.md` says why tests have crates of their own.
#![tactic(auto)]

#[cfg(test)]
mod of_cuts;
#[cfg(test)]
mod of_streams;
#[cfg(test)]
mod reading;
