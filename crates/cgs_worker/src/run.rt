//! The threads and their joins.

ghost use Rattle.std.specs.Prelude.{◌≡◌, ◌<◌, [], IfOk, length};
ghost use Rattle.cgs_board.specs.History.{IsComplete, IsFinished, gives_of};
ghost use Rattle.cgs_board.specs.Tree.{branches_of};

use crate::gate::Gate;
use crate::joined::board_of;
use crate::seat::{Seat, seats_of};
use crate::shared::Shared;
use crate::worker::work;
use cgs_board::{Board, Job};
use std::alloc::{AllocError, Global};
use std::marker::Brand;
use std::sync::ledger::{Blank, Ledger};
use std::sync::{Condvar, Mutex, Wait};
use std::thread;
use std::thread::Threads;

/// Takes all branches of the tree of a root by so many workers, each in a thread. It may wait.
pub fn run_board<R: Threads + Wait + Sync, J: Job + Send, G: Gate + Sync>(
    rt: &R,
    alloc: Global,
    root: J,
    workers: u32,
    gate: &G,
) -> Result<Board<J>, AllocError>
where
    J::Entry: Send,
    requires { 0 < workers }
    ensures root { IfOk result (λ board. board.root ≡ root) }
    ensures finished { IfOk result (λ board. IsFinished board.history) }
    ensures complete { IfOk result (λ board. IsComplete J.node root workers board.history) }
    ensures gives { IfOk result (λ board. gives_of board.history ≡ length (branches_of J.node J.height root [])) }
{
    let blank = Blank::new(u64::from(workers));
    run_in::<Brand, R, J, G>(rt, alloc, blank, root, workers, gate)
}

// The same, where the ledger has a name.
fn run_in<L: Ledger + Send + Sync, R: Threads + Wait + Sync, J: Job + Send, G: Gate + Sync>(
    rt: &R,
    alloc: Global,
    blank: Blank,
    root: J,
    workers: u32,
    gate: &G,
) -> Result<Board<J>, AllocError>
where
    J::Entry: Send,
    requires name { blank.name ≡ L.name }
    requires parts { blank.parts ≡ L.parts }
    requires one_each { blank.parts ≡ workers }
    requires some { 0 < workers }
    ensures root { IfOk result (λ board. board.root ≡ root) }
    ensures finished { IfOk result (λ board. IsFinished board.history) }
    ensures complete { IfOk result (λ board. IsComplete J.node root workers board.history) }
    ensures gives { IfOk result (λ board. gives_of board.history ≡ length (branches_of J.node J.height root [])) }
{
    let (book, share) = blank.open::<L>();
    let board = Board::new(alloc, root.copy(alloc)?, workers)?;
    let seats = seats_of(alloc, share, workers)?;
    let shared = Mutex::new(Shared::new(board, book));
    let bell = Condvar::new();
    let seats = thread::map_vec(
        rt,
        seats,
        &|mut seat: Seat<L>| -> Seat<L>
            ensures { result.parts ≡ seat.parts }
        {
            work(rt, alloc, &shared, &bell, &mut seat, gate);
            seat
        },
    )?;
    board_of(alloc, shared.into_inner(), seats, root, workers)
}
