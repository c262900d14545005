//! The printed lines of what is discovered of a thesis.

ghost use Rattle.std.specs.List.{AllByRecursion};
ghost use Rattle.cgs_entry.specs.Entries.{IsEntry};
ghost use Rattle.cgs_problem.specs.Problems.{IsProblem};
ghost use Rattle.cgs_canonical.specs.Printing.{Prints};
ghost use Rattle.cgs_print.specs.Discovery.{headed_text, discovered_text};

use crate::list::list_text;
use cgs_entry::EntryList;
use cgs_problem::{Problem, Text};
use std::alloc::AllocError;

/// Appends the list of a refutation and that of the problem with its thesis, each under a line of its own. For want of memory a
/// front of the text is appended.
pub fn discovered_text(
    refutation: &Problem,
    refuted: &EntryList,
    extension: &Problem,
    extended: &EntryList,
    out: &mut Text,
) -> Result<(), AllocError>
    requires refutation { IsProblem refutation.now }
    requires refuted { AllByRecursion (IsEntry refutation.now.ring) refuted.now }
    requires extension { IsProblem extension.now }
    requires extended { AllByRecursion (IsEntry extension.now.ring) extended.now }
    ensures { Prints result out.old out.new (discovered_text refutation.now refuted.now extension.now extended.now) }
{
    headed_text(b"refutation\n", refutation, refuted, out)?;
    headed_text(b"with thesis\n", extension, extended, out)
}

/// A list under a line of its own.
#[tactic(auto, using(cgs_canonical::proofs::PrintLemmas::parts))]
fn headed_text(
    head: &[u8],
    problem: &Problem,
    entries: &EntryList,
    out: &mut Text,
) -> Result<(), AllocError>
    requires problem { IsProblem problem.now }
    requires entries { AllByRecursion (IsEntry problem.now.ring) entries.now }
    ensures { Prints result out.old out.new (headed_text head.now problem.now entries.now) }
{
    out.extend_from_slice(head)?;
    list_text(problem, entries, out)
}
