//! What a command line asks for.

/// The subcommand.
#[derive(Clone, Copy)]
pub enum Kind {
    /// Runs a script.
    Run,
    /// Prints the picture that a script leaves.
    Paint,
    /// Prints the picture that a stream leaves on a terminal.
    Show,
}

/// What is asked for.
#[derive(Clone, Copy)]
pub enum Request {
    /// A job on a screen.
    Job(Job),
    /// What is wrong with a script.
    Check,
}

/// What is asked for, on a screen of that many lines and columns.
#[derive(Clone, Copy)]
pub struct Job {
    pub kind: Kind,
    pub lines: u16,
    pub cols: u16,
}

/// What is asked for, and where it is read and logged.
#[derive(Clone, Copy)]
pub struct Invocation<'a> {
    pub request: Request,
    /// The file that is read in place of standard input.
    pub script: Option<&'a str>,
    /// The file that gets the log in place of standard error.
    pub log: Option<&'a str>,
    /// Whether the log gets faults alone, and no answer of a call.
    pub is_quiet: bool,
}

/// The texts of the variables of the environment that give a size where no option does, of those that are set.
#[derive(Clone, Copy)]
pub struct Variables<'a> {
    /// That of `LINES`.
    pub lines: Option<&'a str>,
    /// That of `COLUMNS`.
    pub columns: Option<&'a str>,
}
