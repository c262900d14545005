//! Where bytes go.

ghost use Rattle.std.specs.Prelude.{◌≤◌, ◌<◌, length, IfOk};
ghost use Rattle.std.specs.Io.KnownBytes.{WriteAppends};
ghost use Rattle.cgs_io.specs.Causes.{HasCause};
ghost use Rattle.cgs_io.specs.Seen.{Seen};

use crate::source::Failed;

/// Takes bytes, and puts them after those that it has.
pub trait Sink {
    /// The bytes written, where it tells them, and how often it failed.
    ghost seen: { Self → Seen };

    /// Appends bytes from the front of the piece, and says how many. A failed call appends nothing.
    fn write(&mut self, piece: &[u8]) -> Result<usize, Failed>
        ensures count { IfOk result (λ n. n ≤ length piece.now) }
        ensures some { IfOk result (λ n. 0 < length piece.now → 0 < n) }
        ensures bytes { WriteAppends (seen self.old).bytes (seen self.new).bytes result piece.now }
        ensures cause { HasCause (seen self.old).faults (seen self.new).faults result };
}
