//! The size of a screen: by an option, or else by a variable of the environment.

ghost use Rattle.commands.specs.{ℕ, MatchOption, MatchResult, option_or, found_of, rows_of, GivesSize, SaysSize, size_text, text_of, HasNoSize};

use cell::{LARGEST_SCREEN, is_no_size};
use clap::ArgMatches;

/// Why there is no number of lines or columns.
#[derive(Clone, Copy)]
pub enum NoSize {
    /// Neither the option nor the variable is there.
    Missing,
    /// The text is no such number.
    Bad,
}

/// The size of a screen that a text says.
fn size_in(text: &str) -> Option<u16>
    ensures { MatchOption result ((n : ℕ) → SaysSize text.now n → ⊥) (λ n. SaysSize text.now n) }
{
    match text.parse::<u16>() {
        Ok(n) if !is_no_size(LARGEST_SCREEN, n) => Some(n),
        Ok(_) | Err(_) => None,
    }
}

/// The size that the text of an option says, or where there is none that of a variable.
fn size_by(option: Option<&str>, variable: Option<&str>) -> Result<u16, NoSize>
    ensures { MatchResult result (GivesSize (option_or (text_of option.entry) (text_of variable.entry)))
        (HasNoSize (option_or (text_of option.entry) (text_of variable.entry))) }
{
    match (option, variable) {
        (Some(text), _) | (None, Some(text)) => size_in(text).ok_or(NoSize::Bad),
        (None, None) => Err(NoSize::Missing),
    }
}

/// The size that an option of the matches says, or where it is left out a variable.
pub fn size_of(found: &ArgMatches<'_>, option: &str, variable: Option<&str>) -> Result<u16, NoSize>
    ensures { MatchResult result (GivesSize (size_text (text_of variable.entry) option.now (rows_of (found_of found.now))))
        (HasNoSize (size_text (text_of variable.entry) option.now (rows_of (found_of found.now)))) }
{
    size_by(found.get_str(option), variable)
}
