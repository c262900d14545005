//! The printed lines of what is told of a basis.

ghost use Rattle.cgs_canonical.specs.Printing.{Prints};
ghost use Rattle.cgs_print.specs.Printing.{answer_line, standard_line, findings_text};

use cgs_canonical::push_all;
use cgs_problem::Text;
use cgs_report::{Findings, Standard};
use itoa::Buffer;
use std::alloc::AllocError;

/// The lines of what is told of a basis.
pub(crate) fn findings_text(findings: Findings, out: &mut Text) -> Result<(), AllocError>
    ensures { Prints result out.old out.new (findings_text findings) }
{
    answer_line(b"solvable", findings.solvable, out)?;
    answer_line(b"finite", findings.finite, out)?;
    standard_line(findings.standard, out)
}

/// The line of a keyword and a yes or a no.
fn answer_line(keyword: &[u8], answer: bool, out: &mut Text) -> Result<(), AllocError>
    ensures { Prints result out.old out.new (answer_line keyword.now answer) }
{
    if answer {
        push_all(out, &[keyword, b" yes\n"])
    } else {
        push_all(out, &[keyword, b" no\n"])
    }
}

/// The line of the number of standard monomials.
fn standard_line(standard: Standard, out: &mut Text) -> Result<(), AllocError>
    ensures { Prints result out.old out.new (standard_line standard) }
{
    match standard {
        Standard::NotFinite => out.extend_from_slice(b"standard none\n"),
        Standard::Many => out.extend_from_slice(b"standard many\n"),
        Standard::Count(count) => {
            let mut buffer = Buffer::new();
            push_all(out, &[b"standard ", buffer.format(count).as_bytes(), b"\n"])
        }
    }
}
