//! The tests of what knows no windows, by public calls alone: `cell`, `small_set`, `streams`, `script`, `ecma`
//! and `paint`.
//! `docs/DECISIONS.md` says why tests have crates of their own.
#![tactic(auto)]

#[cfg(test)]
mod of_cell;
#[cfg(test)]
mod of_ecma;
#[cfg(test)]
mod of_faulty_streams;
#[cfg(test)]
mod of_paint;
#[cfg(test)]
mod of_script;
#[cfg(test)]
mod of_small_set;
#[cfg(test)]
mod of_streams;
