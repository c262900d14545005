//! The line of a fault.

ghost use Rattle.cgs_canonical.specs.Printing.{Prints};
ghost use Rattle.cgs_print.specs.Printing.{fault_text};

use cgs_canonical::push_all;
use cgs_problem::{Text, TextFault};
use itoa::Buffer;
use std::alloc::AllocError;

/// Appends the line that tells a fault. For want of memory a front of it is appended.
pub fn fault_text(fault: TextFault, out: &mut Text) -> Result<(), AllocError>
    ensures { Prints result out.old out.new (fault_text fault) }
{
    let word = fault.kind.word();
    let mut buffer = Buffer::new();
    push_all(
        out,
        &[
            b"fault line ",
            buffer.format(fault.line).as_bytes(),
            b" ",
            word,
            b"\n",
        ],
    )
}
