//! Where bytes come from.

ghost use Rattle.std.specs.Prelude.{◌≤◌, length, IfOk};
ghost use Rattle.std.specs.Io.KnownBytes.{ReadConsumes};
ghost use Rattle.cgs_io.specs.Causes.{HasCause};
ghost use Rattle.cgs_io.specs.Seen.{Seen};

/// The answer of a failed call.
#[derive(Clone, Copy, Debug, PartialEq, Eq)]
pub struct Failed;

/// Gives bytes from the front of what it has left.
pub trait Source {
    /// The bytes that are left, where it tells them, and how often it failed.
    ghost seen: { Self → Seen };

    /// Moves the next bytes into the front of `into`, and says how many. Of no bytes it says so only at the end of
    /// input or where `into` has no room. A failed call takes nothing, and leaves any bytes in `into`.
    fn read(&mut self, into: &mut [u8]) -> Result<usize, Failed>
        ensures count { IfOk result (λ n. n ≤ length into.new) }
        ensures bytes { ReadConsumes (seen self.old).bytes (seen self.new).bytes result into.new }
        ensures cause { HasCause (seen self.old).faults (seen self.new).faults result };
}
