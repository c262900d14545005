//! The lines that tell faults of the words, of the length of a text, and of what a problem lacks.

ghost use Rattle.std.specs.Prelude.{◌≡◌};
ghost use Rattle.cgs_program.specs.Due.{word_fault_text};

use cgs_words::WordFault;

/// The text has too many bytes.
pub(crate) const LONG: &[u8] = b"fault line 0 long\n";

/// The problem has no point to locate.
pub(crate) const NO_POINT: &[u8] = b"fault line 0 no-point\n";

/// The problem has no thesis.
pub(crate) const NO_THESIS: &[u8] = b"fault line 0 no-thesis\n";

/// The line of a fault of the words.
pub(crate) fn fault_line(fault: WordFault) -> &'static [u8]
    ensures { result.now ≡ word_fault_text fault }
{
    match fault {
        WordFault::NoWord => b"fault words none\n",
        WordFault::Command => b"fault words command\n",
        WordFault::Option => b"fault words option\n",
        WordFault::Repeat => b"fault words repeat\n",
        WordFault::Value => b"fault words value\n",
    }
}
