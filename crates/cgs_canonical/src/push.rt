//! Pieces of a text, one after the other.

ghost use Rattle.std.specs.List.{flat_map};
ghost use Rattle.cgs_canonical.specs.Printing.{Prints};

use cgs_problem::Text;
use std::alloc::AllocError;

/// Appends the pieces, one after the other. For want of memory a front of them is appended.
pub fn push_all(out: &mut Text, pieces: &[&[u8]]) -> Result<(), AllocError>
    ensures { Prints result out.old out.new (flat_map (λ piece. piece.now) pieces.now) }
{
    for piece in pieces {
        out.extend_from_slice(piece)?;
    }
    Ok(())
}
