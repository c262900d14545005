//! How a run ends.

ghost use Rattle.std.specs.Prelude.{◌≡◌};
ghost use Rattle.cgs_program.specs.Due.{code_of};

/// The end of a run.
#[derive(Clone, Copy, Debug, PartialEq, Eq)]
pub enum Status {
    /// The text due was written.
    Done,
    /// The words are not in the grammar; one fault line was written.
    Words,
    /// The text due was written, and a part of it is a refusal.
    Partial,
    /// The text that was read is at fault; one fault line was written.
    Text,
    /// The source failed; nothing was written.
    Source,
    /// The sink failed; a front of what was due was written.
    Sink,
    /// Memory was short; nothing was written.
    Memory,
}

impl Status {
    /// The exit code of the program.
    pub fn code(self) -> u8
        ensures { result ≡ code_of self }
    {
        match self {
            Status::Done => 0,
            Status::Words => 2,
            Status::Partial => 3,
            Status::Text => 4,
            Status::Source => 5,
            Status::Sink => 6,
            Status::Memory => 7,
        }
    }
}
