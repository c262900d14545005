//! One worker that never waits.

ghost use Rattle.std.specs.Prelude.{◌≡◌, ◌<◌, ℕ, [], length, IfOk};
ghost use Rattle.cgs_board.specs.History.{IsFinished, IsComplete, gives_of};
ghost use Rattle.cgs_board.specs.Tree.{branches_of};

use cgs_board::{Board, Claimed, Given, Job, finish};
use std::alloc::{AllocError, Global};

/// Takes all branches of the tree of a root by worker 0, one after another. Their history is complete for one worker, and so for more.
/// A branch whose node or whose return finds no memory ends it.
pub fn run_board_alone<J: Job>(alloc: Global, root: J) -> Result<Board<J>, AllocError>
    ensures root { IfOk result (λ board. board.root ≡ root) }
    ensures workers { IfOk result (λ board. board.workers ≡ 1) }
    ensures finished { IfOk result (λ board. IsFinished board.history) }
    ensures complete { IfOk result (λ board. IsComplete J.node root 1 board.history) }
    ensures for_more { (workers : ℕ) → 0 < workers → IfOk result (λ board. IsComplete J.node root workers board.history) }
    ensures gives { IfOk result (λ board. gives_of board.history ≡ length (branches_of J.node J.height root [])) }
{
    let mut board = Board::new(alloc, root, 1)?;
    while let Claimed::Branch(piece) = board.claim(0) {
        let done = finish(alloc, piece)?;
        let Given::Kept = board.give(0, done) else {
            return Err(AllocError);
        };
    }
    if !board.finished() {
        return Err(AllocError);
    }
    Ok(board)
}
