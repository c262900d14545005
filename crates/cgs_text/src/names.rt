//! The names of a line.

ghost use Rattle.std.specs.Prelude.{◌≡◌, ◌++◌, [], IfOk, bytes_eq};
ghost use Rattle.std.specs.List.{list_any};
ghost use Rattle.cgs_list.specs.Results.{Answers, and_then};
ghost use Rattle.cgs_problem.specs.Drafts.{names_said, counted};
ghost use Rattle.cgs_text.specs.Refusals.{kind_told};

use crate::refusal::LineRefused;
use crate::scope::is_same;
use cgs_list::ItemList;
use cgs_problem::{NameList, Text, TextKind};
use cgs_tokens::{Lexeme, Line};
use std::alloc::{AllocError, Global};
use std::collections::BTreeSet;

/// The most parameters, and the most variables.
const MOST_NAMES: usize = 8;

/// The names that the line has, so many at least. Each is new, and is none of the others.
pub(crate) fn read_names(
    alloc: Global,
    others: &[Text],
    least: usize,
    line: Line,
) -> Result<NameList, LineRefused>
    ensures { Answers (λ names. names) kind_told result (and_then (names_said others.now [] line.entry) (counted least 8)) }
{
    let names = new_names(alloc, others, line)?;
    if names.len() < least || names.len() > MOST_NAMES {
        return Err(LineRefused::Kind(TextKind::Count));
    }
    Ok(names)
}

/// The names that the line has. There may be many of them.
fn new_names(alloc: Global, others: &[Text], line: Line) -> Result<NameList, LineRefused>
    ensures { Answers (λ names. names) kind_told result (names_said others.now [] line.entry) }
{
    let mut names = ItemList::new(alloc);
    let mut seen: BTreeSet<&[u8]> = BTreeSet::new(alloc);
    let mut rest = line;
    while let Some((lexeme, after)) = rest.split_first() {
        let Lexeme::Name(name) = lexeme else {
            return Err(LineRefused::Kind(TextKind::Syntax));
        };
        if is_among(name, others) {
            return Err(LineRefused::Kind(TextKind::Name));
        }
        if !seen.insert(name)? {
            return Err(LineRefused::Kind(TextKind::Name));
        }
        names.push(ItemList::from_slice(alloc, name)?)?;
        rest = after;
    }
    Ok(names)
}

fn is_among(name: &[u8], names: &[Text]) -> bool
    ensures { result ≡ list_any (bytes_eq name.now) names.now }
{
    names.iter().any(|other| is_same(name, other))
}

/// The names, and then copies of the others.
pub(crate) fn with_copies(
    alloc: Global,
    mut names: NameList,
    others: &[Text],
) -> Result<NameList, AllocError>
    ensures { IfOk result (λ all. all ≡ names ++ others.now) }
{
    for other in others {
        names.push(ItemList::from_slice(alloc, other.as_slice())?)?;
    }
    Ok(names)
}
