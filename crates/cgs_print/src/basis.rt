//! The printed lines of a basis, or why there is none.

ghost use Rattle.std.specs.Prelude.{◌≡◌};
ghost use Rattle.cgs_poly.specs.Polynomial.{ArePolys};
ghost use Rattle.cgs_problem.specs.Problems.{IsProblem};
ghost use Rattle.cgs_canonical.specs.Printing.{Prints};
ghost use Rattle.cgs_print.specs.Printing.{basis_text, members_line, refusal_text, cause_word};

use cgs_canonical::{polynomial_lines, push_all};
use cgs_entry::Cause;
use cgs_poly::PolyList;
use cgs_problem::{Problem, Text};
use itoa::Buffer;
use std::alloc::AllocError;

/// Appends the lines of a basis in the ring of the problem, and the number of its members. For want of memory a front of
/// the text is appended.
#[tactic(auto, using(cgs_canonical::proofs::PrintLemmas::parts))]
pub fn basis_text(problem: &Problem, basis: &PolyList, out: &mut Text) -> Result<(), AllocError>
    requires problem { IsProblem problem.now }
    requires basis { ArePolys problem.now.ring basis.now }
    ensures { Prints result out.old out.new (basis_text problem.now basis.now) }
{
    polynomial_lines(
        b"basis",
        &problem.ring,
        problem.names.as_slice(),
        basis.as_slice(),
        out,
    )?;
    members_line(basis.len(), out)
}

/// The line of the number of members.
fn members_line(count: usize, out: &mut Text) -> Result<(), AllocError>
    ensures { Prints result out.old out.new (members_line count) }
{
    let mut buffer = Buffer::new();
    push_all(out, &[b"members ", buffer.format(count).as_bytes(), b"\n"])
}

/// Appends the line that tells why there is no basis. For want of memory a front of it is appended.
pub fn refusal_text(cause: Cause, out: &mut Text) -> Result<(), AllocError>
    ensures { Prints result out.old out.new (refusal_text cause) }
{
    push_all(out, &[b"refused ", cause_word(cause), b"\n"])
}

/// The word of a cause.
pub(crate) fn cause_word(cause: Cause) -> &'static [u8]
    ensures { result.now ≡ cause_word cause }
{
    match cause {
        Cause::Budget => b"budget",
        Cause::Degree => b"degree",
        Cause::Depth => b"depth",
    }
}
