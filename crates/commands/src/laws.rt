//! What holds of constants alone. The function does nothing, and its contract is the law.

ghost use Rattle.std.specs.Prelude.{◌≡◌, ◌++◌};
ghost use Rattle.commands.specs.{codes, decimal, LARGEST_SCREEN};
ghost use Rattle.commands.specs.declared.subcommands.TheConstants.{COLS_HELP, LINES_HELP};

/// The numerals in the help of the options are the limits of a screen.
pub fn limits_in_help()
    ensures lines { LINES_HELP.now ≡ codes "Lines of the screen, 1 to " ++ decimal LARGEST_SCREEN ++ codes " [env: LINES]" }
    ensures columns { COLS_HELP.now ≡ codes "Columns of the screen, 1 to " ++ decimal LARGEST_SCREEN ++ codes " [env: COLUMNS]" }
{}
