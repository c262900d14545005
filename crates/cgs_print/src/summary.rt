//! The printed summary of a list of entries.

ghost use Rattle.std.specs.Prelude.{◌≡◌};
ghost use Rattle.std.specs.List.{AllByRecursion};
ghost use Rattle.cgs_entry.specs.Entries.{IsEntry};
ghost use Rattle.cgs_problem.specs.Problems.{IsProblem};
ghost use Rattle.cgs_canonical.specs.Printing.{Prints};
ghost use Rattle.cgs_print.specs.Summary.{byte_sum, summary_lines, summary_text};

use crate::list::{count_refused, list_text};
use cgs_canonical::push_all;
use cgs_entry::{Entry, EntryList};
use cgs_problem::{Problem, Text};
use itoa::Buffer;
use std::alloc::{AllocError, Global};

/// The sum of bytes is told modulo this number.
const MODULUS: u32 = 65521;

/// Appends the number, the numbers of entries with a basis and without, and the sum of the bytes of the list's text, each in a
/// line. For want of memory a front of the text is appended.
pub fn summary_text(
    alloc: Global,
    number: u32,
    problem: &Problem,
    entries: &EntryList,
    out: &mut Text,
) -> Result<(), AllocError>
    requires problem { IsProblem problem.now }
    requires entries { AllByRecursion (IsEntry problem.now.ring) entries.now }
    ensures { Prints result out.old out.new (summary_text number problem.now entries.now) }
{
    let mut list = Text::new(alloc);
    list_text(problem, entries, &mut list)?;
    let total = byte_sum(list.as_slice());
    summary_lines(number, entries.as_slice(), total, out)
}

/// The sum of bytes.
fn byte_sum(bytes: &[u8]) -> u32
    ensures { result ≡ byte_sum bytes.now }
{
    let mut total = 0;
    for byte in bytes {
        total = (total + u32::from(*byte)) % MODULUS;
    }
    total
}

/// The lines of a number, of the numbers of entries with a basis and without, and of a sum.
fn summary_lines(
    number: u32,
    entries: &[Entry],
    total: u32,
    out: &mut Text,
) -> Result<(), AllocError>
    ensures { Prints result out.old out.new (summary_lines number entries.now total) }
{
    let refused = count_refused(entries);
    let mut first = Buffer::new();
    let mut second = Buffer::new();
    let mut third = Buffer::new();
    let mut fourth = Buffer::new();
    push_all(
        out,
        &[
            b"stress ",
            first.format(number).as_bytes(),
            b"\nsegments ",
            second.format(entries.len() - refused).as_bytes(),
            b"\nrefused ",
            third.format(refused).as_bytes(),
            b"\nsum ",
            fourth.format(total).as_bytes(),
            b"\n",
        ],
    )
}
