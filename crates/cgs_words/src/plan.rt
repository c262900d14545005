//! What the words ask for, and what may be wrong with them.

/// What is to be done with a problem.
#[derive(Clone, Copy, Debug, PartialEq, Eq)]
pub enum Command {
    /// Its canonical text is printed.
    Check,
    /// The reduced Gröbner basis of its polynomials and of those that have to vanish is printed.
    Basis,
    /// Its comprehensive Gröbner system is printed.
    Solve,
    /// For each of its points the entry of that system is printed in which it lies, and the basis there.
    Locate,
    /// The comprehensive Gröbner systems that tell where its thesis follows are printed.
    Discover,
    /// The problem that a number generates is solved, and the sums of its system are printed.
    Stress(u32),
}

/// A command and the limits that it is run within.
#[derive(Clone, Copy, Debug, PartialEq, Eq)]
pub struct Plan {
    pub command: Command,
    /// The number of threads.
    pub workers: u32,
    /// The units of work that each branch may use.
    pub budget: u64,
    /// The greatest depth of a branch.
    pub depth: u32,
    /// Whether the history of the run is printed.
    pub history: bool,
}

/// What is wrong with the words: the first fault from the left.
#[derive(Clone, Copy, Debug, PartialEq, Eq)]
pub enum WordFault {
    /// There is no word.
    NoWord,
    /// The first word is no command.
    Command,
    /// A word is no option where one is expected.
    Option,
    /// An option was given before. This is tested before its value.
    Repeat,
    /// The value of an option or the number of `stress` is missing, is no number or is out of range.
    Value,
}
