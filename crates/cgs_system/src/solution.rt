//! What is found of a problem.

ghost use Rattle.std.specs.Prelude.{◌≡◌, [], map, IfOk};
ghost use Rattle.cgs_board.specs.History.{IsFinished};
ghost use Rattle.cgs_board.specs.Tree.{entries_of};
ghost use Rattle.cgs_split.specs.NodeRun.{node_of, height_of};

use cgs_board::{Board, EventList};
use cgs_entry::{Entry, EntryList};
use cgs_path::Path;
use cgs_split::Branch;
use std::alloc::{AllocError, Global};

/// The entries of a problem, and in which order the branches of its tree were claimed and given back.
#[derive(Drop)]
pub struct Solution {
    pub entries: EntryList,
    pub history: EventList,
}

/// The entries of a finished board in path order, whatever the order in which they came back, and its history.
pub(crate) fn solution_of(alloc: Global, board: Board<Branch>) -> Result<Solution, AllocError>
    requires { IsFinished board.history }
    ensures list { IfOk result (λ solution. solution.entries ≡ map (λ pair. pair.1) (entries_of node_of height_of board.root [])) }
    ensures history { IfOk result (λ solution. solution.history ≡ board.history) }
{
    let history = board.history()?;
    let found = board.into_entries()?;
    let entries = without_paths(alloc, found)?;
    Ok(Solution { entries, history })
}

// The entries of a list of paths and entries.
fn without_paths(alloc: Global, found: Vec<(Path, Entry)>) -> Result<EntryList, AllocError>
    ensures { IfOk result (λ entries. entries ≡ map (λ pair. pair.1) found.items) }
{
    let mut entries = EntryList::new(alloc);
    for (_, entry) in found {
        entries.push(entry)?;
    }
    Ok(entries)
}
