//! What each worker does. Each time it takes the lock, it compares its number with the board's workers first.

ghost use Rattle.std.specs.Prelude.{◌≡◌, ◌≤◌};

use crate::gate::Gate;
use crate::seat::Seat;
use crate::shared::Shared;
use cgs_board::{Claimed, Done, Given, Job, Piece, finish};
use std::alloc::Global;
use std::sync::ledger::Ledger;
use std::sync::{Condvar, Mutex, Wait};

/// Claims a branch, enters the gate, makes the node outside the lock and gives it back, until all is finished or a worker gave up.
pub fn work<R: Wait, J: Job + Send, L: Ledger, G: Gate>(
    rt: &R,
    alloc: Global,
    board: &Mutex<Shared<J, L>>,
    bell: &Condvar,
    seat: &mut Seat<L>,
    gate: &G,
)
where
    J::Entry: Send,
    ensures worker { seat.new.worker ≡ seat.old.worker }
    ensures parts { seat.new.parts ≡ seat.old.parts }
    ensures amount { seat.old.amount ≤ seat.new.amount }
{
    for _ in rt.forever() {
        let Some(piece) = next_piece(rt, board, bell, seat.worker) else {
            return;
        };
        gate.enter(seat.worker, piece.path.as_slice());
        let Ok(done) = finish(alloc, piece) else {
            give_up(rt, board, bell, seat.worker);
            return;
        };
        if !hand_in(rt, board, bell, seat, done) {
            return;
        }
    }
}

// Claims a branch, and waits while others have them all.
fn next_piece<R: Wait, J: Job + Send, L: Ledger>(
    rt: &R,
    board: &Mutex<Shared<J, L>>,
    bell: &Condvar,
    worker: u32,
) -> Option<Piece<J>>
where
    J::Entry: Send,
{
    let mut guard = board.lock(rt);
    for _ in rt.forever() {
        if worker >= guard.board.workers() {
            return None;
        }
        match guard.claim(worker) {
            Claimed::Stopped | Claimed::Finished => return None,
            Claimed::Branch(piece) => return Some(piece),
            Claimed::NotYet => {
                guard = bell.wait(rt, guard);
            }
        }
    }
    None
}

// Gives a branch back and rings for all, and says whether to go on. What is stray is dropped.
fn hand_in<R: Wait, J: Job + Send, L: Ledger>(
    rt: &R,
    board: &Mutex<Shared<J, L>>,
    bell: &Condvar,
    seat: &mut Seat<L>,
    done: Done<J>,
) -> bool
where
    J::Entry: Send,
    ensures worker { seat.new.worker ≡ seat.old.worker }
    ensures parts { seat.new.parts ≡ seat.old.parts }
    ensures amount { seat.old.amount ≤ seat.new.amount }
{
    let mut guard = board.lock(rt);
    if seat.worker >= guard.board.workers() {
        return false;
    }
    match guard.give(seat, done) {
        Given::Kept => {
            drop(guard);
            bell.notify_all();
            true
        }
        Given::Stray(_) => true,
        Given::NoMemory(_) => {
            guard.quit(seat.worker);
            drop(guard);
            bell.notify_all();
            false
        }
    }
}

// Gives up for want of memory, and rings for all.
fn give_up<R: Wait, J: Job + Send, L: Ledger>(
    rt: &R,
    board: &Mutex<Shared<J, L>>,
    bell: &Condvar,
    worker: u32,
)
where
    J::Entry: Send,
{
    let mut guard = board.lock(rt);
    if worker >= guard.board.workers() {
        return;
    }
    guard.quit(worker);
    drop(guard);
    bell.notify_all();
}
