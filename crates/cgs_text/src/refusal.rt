//! Why nothing was read.

ghost use Rattle.std.specs.Prelude.{◌≡◌};
ghost use Rattle.cgs_text.specs.Refusals.{refused_at};

use cgs_problem::{TextFault, TextKind};
use cgs_tokens::TokenFault;
use std::alloc::{AllocError, AllocFailed};

/// Why there is no problem.
#[derive(Clone, Copy, Debug, PartialEq, Eq)]
pub enum TextRefused {
    /// The text spells none.
    Fault(TextFault),
    /// Memory was short.
    OutOfMemory,
}

/// Why a line was not taken.
#[derive(Clone, Copy, Debug, PartialEq, Eq)]
pub(crate) enum LineRefused {
    /// The line has this fault.
    Kind(TextKind),
    /// Memory was short.
    OutOfMemory,
}

impl LineRefused {
    /// The refusal of the text, by its line with this number.
    pub(crate) fn at_line(self, line: u32) -> TextRefused
        ensures { result ≡ refused_at line self }
    {
        match self {
            LineRefused::Kind(kind) => TextRefused::Fault(TextFault { line, kind }),
            LineRefused::OutOfMemory => TextRefused::OutOfMemory,
        }
    }
}

impl From<TokenFault> for LineRefused {
    ghost use Rattle.cgs_text.specs.Refusals.{refused_by};

    ghost from_gives = { λ fault e. e ≡ refused_by fault };

    fn from(fault: TokenFault) -> Self {
        match fault {
            TokenFault::Byte(_) => LineRefused::Kind(TextKind::Byte),
            TokenFault::Literal(_) => LineRefused::Kind(TextKind::Literal),
            TokenFault::LongName(_) => LineRefused::Kind(TextKind::Name),
            TokenFault::OutOfMemory => LineRefused::OutOfMemory,
        }
    }
}

impl From<AllocError> for LineRefused {
    ghost use Rattle.cgs_text.specs.declared.refusal.LineRefused.TheVariants.{OutOfMemory};

    ghost from_gives = { λ _ e. e ≡ OutOfMemory };

    fn from(_: AllocError) -> Self {
        LineRefused::OutOfMemory
    }
}

impl<T: Drop> From<AllocFailed<T>> for LineRefused {
    ghost use Rattle.cgs_text.specs.declared.refusal.LineRefused.TheVariants.{OutOfMemory};

    ghost from_gives = { λ _ e. e ≡ OutOfMemory };

    fn from(_: AllocFailed<T>) -> Self {
        LineRefused::OutOfMemory
    }
}
