//! The entries of a tree, by plain recursion.

ghost use Rattle.std.specs.Prelude.{◌≡◌, ◌++◌, [], IfOk, OnOk};
ghost use Rattle.cgs_board.specs.Tree.{entries_of as entries, entry_of};

use crate::job::{Job, Outcome};
use cgs_path::Path;
use std::alloc::{AllocError, Global};

/// All entries of the tree of a root, in path order.
pub fn entries_of<J: Job>(alloc: Global, root: &J) -> Result<Vec<(Path, J::Entry)>, AllocError>
    ensures { IfOk result (λ found. found.items ≡ entries J.node J.height root.now []) }
{
    let mut found = Vec::new(alloc);
    let path = Path::root(alloc);
    add_below(alloc, root, &path, &mut found)?;
    Ok(found)
}

// Adds the entries of the tree of a branch. A level of the tree keeps on the stack its list of children and one path, and no node.
fn add_below<J: Job>(
    alloc: Global,
    branch: &J,
    path: &Path,
    found: &mut Vec<(Path, J::Entry)>,
) -> Result<(), AllocError>
    ensures { OnOk result (found.new.items ≡ found.old.items ++ entries J.node J.height branch.now path.now) }
{
    let children = add_own(alloc, branch, path, found)?;
    for (number, child) in children.iter().enumerate() {
        let below = path.child(number)?;
        add_below(alloc, child, &below, found)?;
    }
    Ok(())
}

// Adds the entry of a branch, if it has one, and gives the children.
fn add_own<J: Job>(
    alloc: Global,
    branch: &J,
    path: &Path,
    found: &mut Vec<(Path, J::Entry)>,
) -> Result<Vec<J>, AllocError>
    ensures found { OnOk result (found.new.items ≡ found.old.items ++ entry_of J.node branch.now path.now) }
    ensures children { IfOk result (λ children. children.items ≡ (J.node branch.now path.now).1) }
{
    let Outcome { entry, children } = branch.node(alloc, path)?;
    if let Some(entry) = entry {
        found.push((path.copy()?, entry))?;
    }
    Ok(children)
}
