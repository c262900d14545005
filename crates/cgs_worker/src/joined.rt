//! The tests after the joins: what stands behind a lock is known by its type alone.

ghost use Rattle.std.specs.Prelude.{◌≡◌, ◌<◌, ◌↔◌, [], IfOk, IsErr, IsOkAnd, length, sum_by, vec_len};
ghost use Rattle.cgs_board.specs.History.{HasQuit, IsComplete, IsFinished, gives_of};
ghost use Rattle.cgs_board.specs.Tree.{branches_of};
ghost use Rattle.cgs_worker.specs.Joined.{IsBoardOf};
ghost use Rattle.cgs_worker.specs.declared.joined.Finding.TheVariants.{Stopped, Whole};

use crate::alone::run_board_alone;
use crate::seat::Seat;
use crate::shared::{Shared, settle};
use cgs_board::{Board, Claimed, Job};
use std::alloc::{AllocError, Global};
use std::sync::ledger::Ledger;

/// What the tests find.
#[derive(Drop)]
enum Finding {
    /// A worker gave up.
    Stopped,
    /// The board is a finished one of the root and of the number of workers.
    Whole,
    /// It is another.
    Other,
}

/// The board that the joins leave, if it is a finished one of this root and number of workers. Where a worker gave up, there is no memory.
/// Else the work is done again by one worker.
pub fn board_of<J: Job, L: Ledger>(
    alloc: Global,
    shared: Shared<J, L>,
    seats: Vec<Seat<L>>,
    root: J,
    workers: u32,
) -> Result<Board<J>, AllocError>
    requires some_worker { 0 < workers }
    requires some_seat { 0 < vec_len seats }
    requires whole { sum_by (λ seat. seat.parts) seats.items ≡ L.parts }
    ensures stopped { HasQuit shared.board.history → IsErr result }
    ensures same { IsBoardOf root workers shared.board → IsOkAnd result (λ board. board ≡ shared.board) }
    ensures sum { IsBoardOf root workers shared.board → IfOk result (λ board. sum_by (λ seat. seat.amount) seats.items ≡ gives_of board.history) }
    ensures root { IfOk result (λ board. board.root ≡ root) }
    ensures finished { IfOk result (λ board. IsFinished board.history) }
    ensures complete { IfOk result (λ board. IsComplete J.node root workers board.history) }
    ensures gives { IfOk result (λ board. gives_of board.history ≡ length (branches_of J.node J.height root [])) }
{
    let mut board = settle(shared, seats);
    match found(&mut board, &root, workers) {
        Finding::Stopped => Err(AllocError),
        Finding::Whole => Ok(board),
        Finding::Other => run_board_alone(alloc, root),
    }
}

// Whether a worker gave up, and else whether the board is a finished one of this root and number of workers. It takes no memory.
fn found<J: Job>(board: &mut Board<J>, root: &J, workers: u32) -> Finding
    requires { 0 < board.old.workers }
    ensures stopped { (result ≡ Stopped) ↔ HasQuit board.old.history }
    ensures whole { (result ≡ Whole) ↔ IsBoardOf root.now workers board.old }
    ensures same { result ≡ Whole → board.new ≡ board.old }
    ensures complete { result ≡ Whole → IsComplete J.node root.now workers board.old.history }
    ensures gives { result ≡ Whole → gives_of board.old.history ≡ length (branches_of J.node J.height root.now []) }
{
    match board.claim(0) {
        Claimed::Stopped => Finding::Stopped,
        Claimed::Finished => {
            if board.finished() && board.root().same(root) && board.workers() == workers {
                Finding::Whole
            } else {
                Finding::Other
            }
        }
        _ => Finding::Other,
    }
}
