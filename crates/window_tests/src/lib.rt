//! The tests of `extents`, `grids`, `stack`, `picture`, `compose` and `desk`, by public calls alone, and of screens over writers
//! that fail, by runs and histories of calls. What a call does is proved, and tried by `cases`.
//! `docs/DECISIONS.md` says why tests have crates of their own.
#![tactic(auto)]

#[cfg(test)]
mod of_compose;
#[cfg(test)]
mod of_extents;
#[cfg(test)]
mod of_grids;
#[cfg(test)]
mod of_histories;
#[cfg(test)]
mod of_picture;
#[cfg(test)]
mod of_runs;
#[cfg(test)]
mod of_scripts;
#[cfg(test)]
mod of_stack;
#[cfg(test)]
mod screens;
#[cfg(test)]
mod scripts;
