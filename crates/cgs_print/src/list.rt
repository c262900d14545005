//! The printed lines of the entries of a system.

ghost use Rattle.std.specs.Prelude.{◌≡◌, ◌≤◌, ◌++◌, length, flat_map, count_by, codes, decimal};
ghost use Rattle.std.specs.List.{AllByRecursion};
ghost use Rattle.cgs_poly.specs.Polynomial.{IsRing, places, ArePolys};
ghost use Rattle.cgs_poly.specs.Parameters.{IsCondition};
ghost use Rattle.cgs_entry.specs.Entries.{IsEntry, IsFound, is_refused};
ghost use Rattle.cgs_problem.specs.Problems.{IsProblem};
ghost use Rattle.cgs_canonical.specs.Printing.{Prints};
ghost use Rattle.cgs_print.specs.Printing.{path_text, head_line, conditions_text, found_text, solved_text, untested_line, entry_text, count_line, list_text};

use crate::basis::cause_word;
use crate::findings::findings_text;
use cgs_canonical::{polynomial_lines, push_all};
use cgs_entry::{Conditions, Entry, EntryKind, EntryList};
use cgs_path::Path;
use cgs_poly::{PolyList, Ring};
use cgs_problem::{Problem, Text};
use cgs_report::report;
use itoa::Buffer;
use std::alloc::AllocError;

/// Appends the lines of all entries in order, and the numbers of those with a basis and without. The polynomials are of
/// the ring of the problem. For want of memory a front of the text is appended.
pub fn list_text(problem: &Problem, entries: &EntryList, out: &mut Text) -> Result<(), AllocError>
    requires problem { IsProblem problem.now }
    requires entries { AllByRecursion (IsEntry problem.now.ring) entries.now }
    ensures { Prints result out.old out.new (list_text problem.now entries.now) }
{
    entry_lines(
        &problem.ring,
        problem.names.as_slice(),
        entries.as_slice(),
        out,
    )?;
    count_line(entries.as_slice(), out)
}

/// The lines of all entries.
fn entry_lines(
    ring: &Ring,
    names: &[Text],
    entries: &[Entry],
    out: &mut Text,
) -> Result<(), AllocError>
    requires ring { IsRing ring.now }
    requires named { length names.now ≡ places ring.now }
    requires entries { AllByRecursion (IsEntry ring.now) entries.now }
    ensures { Prints result out.old out.new (flat_map (entry_text ring.now names.now) entries.now) }
{
    for entry in entries {
        entry_text(ring, names, entry, out)?;
    }
    Ok(())
}

/// The lines of an entry.
fn entry_text(ring: &Ring, names: &[Text], entry: &Entry, out: &mut Text) -> Result<(), AllocError>
    requires ring { IsRing ring.now }
    requires named { length names.now ≡ places ring.now }
    requires entry { IsEntry ring.now entry.now }
    ensures { Prints result out.old out.new (entry_text ring.now names.now entry.now) }
{
    head_line(entry, out)?;
    conditions_text(ring, names, &entry.conditions, out)?;
    found_text(ring, names, entry, out)
}

/// The first line of an entry.
pub(crate) fn head_line(entry: &Entry, out: &mut Text) -> Result<(), AllocError>
    ensures { Prints result out.old out.new (head_line entry.now) }
{
    match entry.kind {
        EntryKind::Solved { .. } => path_line(b"segment ", &entry.path, &[b"\n"], out),
        EntryKind::Refused(cause) => path_line(
            b"refused ",
            &entry.path,
            &[b" ", cause_word(cause), b"\n"],
            out,
        ),
    }
}

/// A path between what stands before it and after it.
fn path_line(before: &[u8], path: &Path, after: &[&[u8]], out: &mut Text) -> Result<(), AllocError>
    ensures { Prints result out.old out.new (before.now ++ path_text path.now ++ flat_map (λ piece. piece.now) after.now) }
{
    out.extend_from_slice(before)?;
    path_text(path, out)?;
    push_all(out, after)
}

/// Appends the numbers of a path, joined by full stops, or a minus sign for the root's. For want of memory a front of the
/// text is appended.
pub fn path_text(path: &Path, out: &mut Text) -> Result<(), AllocError>
    ensures { Prints result out.old out.new (path_text path.now) }
{
    let numbers = path.as_slice();
    if numbers.is_empty() {
        return out.extend_from_slice(b"-");
    }
    number_text(b"", numbers[0], out)?;
    following_numbers(&numbers[1..], out)
}

/// Numbers, a full stop before each.
fn following_numbers(numbers: &[usize], out: &mut Text) -> Result<(), AllocError>
    ensures { Prints result out.old out.new (flat_map (λ number. codes "." ++ decimal number) numbers.now) }
{
    for number in numbers {
        number_text(b".", *number, out)?;
    }
    Ok(())
}

/// A number after a separator.
fn number_text(separator: &[u8], number: usize, out: &mut Text) -> Result<(), AllocError>
    ensures { Prints result out.old out.new (separator.now ++ decimal number) }
{
    let mut buffer = Buffer::new();
    push_all(out, &[separator, buffer.format(number).as_bytes()])
}

/// The lines of conditions.
#[tactic(auto, using(cgs_canonical::proofs::ConditionLemmas::conditions_polys, cgs_canonical::proofs::PrintLemmas::parts))]
fn conditions_text(
    ring: &Ring,
    names: &[Text],
    conditions: &Conditions,
    out: &mut Text,
) -> Result<(), AllocError>
    requires ring { IsRing ring.now }
    requires named { length names.now ≡ places ring.now }
    requires zero { AllByRecursion (IsCondition ring.now) conditions.now.zero }
    requires nonzero { AllByRecursion (IsCondition ring.now) conditions.now.nonzero }
    ensures { Prints result out.old out.new (conditions_text ring.now names.now conditions.now) }
{
    polynomial_lines(b"zero", ring, names, conditions.zero.as_slice(), out)?;
    polynomial_lines(b"nonzero", ring, names, conditions.nonzero.as_slice(), out)
}

/// The lines of what was found.
fn found_text(ring: &Ring, names: &[Text], entry: &Entry, out: &mut Text) -> Result<(), AllocError>
    requires ring { IsRing ring.now }
    requires named { length names.now ≡ places ring.now }
    requires found { IsFound ring.now entry.now.kind }
    ensures { Prints result out.old out.new (found_text ring.now names.now entry.now.kind) }
{
    match &entry.kind {
        EntryKind::Solved { basis, tested } => {
            solved_text(ring, names, basis, *tested, out)?;
            findings_text(report(ring, entry), out)
        }
        EntryKind::Refused(_) => Ok(()),
    }
}

/// The lines of a basis under conditions that were tested to the end or not.
#[tactic(auto, using(cgs_canonical::proofs::PrintLemmas::parts))]
fn solved_text(
    ring: &Ring,
    names: &[Text],
    basis: &PolyList,
    tested: bool,
    out: &mut Text,
) -> Result<(), AllocError>
    requires ring { IsRing ring.now }
    requires named { length names.now ≡ places ring.now }
    requires basis { ArePolys ring.now basis.now }
    ensures { Prints result out.old out.new (solved_text ring.now names.now basis.now tested) }
{
    untested_line(tested, out)?;
    polynomial_lines(b"basis", ring, names, basis.as_slice(), out)
}

/// The line that tells that the conditions were not tested to the end.
fn untested_line(tested: bool, out: &mut Text) -> Result<(), AllocError>
    ensures { Prints result out.old out.new (untested_line tested) }
{
    if tested {
        Ok(())
    } else {
        out.extend_from_slice(b"untested\n")
    }
}

/// The numbers of the entries with a basis and of those without.
fn count_line(entries: &[Entry], out: &mut Text) -> Result<(), AllocError>
    ensures { Prints result out.old out.new (count_line entries.now) }
{
    let refused = count_refused(entries);
    let mut first = Buffer::new();
    let mut second = Buffer::new();
    push_all(
        out,
        &[
            b"segments ",
            first.format(entries.len() - refused).as_bytes(),
            b" refused ",
            second.format(refused).as_bytes(),
            b"\n",
        ],
    )
}

/// The number of entries without a basis.
pub(crate) fn count_refused(entries: &[Entry]) -> usize
    ensures count { result ≡ count_by is_refused entries.now }
    ensures most { result ≤ length entries.now }
{
    let mut count = 0;
    for entry in entries {
        if entry.is_refused() {
            count += 1;
        }
    }
    count
}
