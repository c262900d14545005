//! What stands behind the lock.

ghost use Rattle.std.specs.Prelude.{◌≡◌, ◌<◌, Contains, sum_by, vec_len};
ghost use Rattle.cgs_board.specs.History.{gives_of};

use crate::seat::Seat;
use cgs_board::{Board, Claimed, Done, Given, Job};
use std::marker::Model;
use std::sync::ledger::{Book, Ledger};

/// A board, and the book of the ledger, which holds the number of gives in the board's history.
#[derive(Drop)]
pub struct Shared<J: Job, L: Ledger> {
    pub board: Board<J>,
    book: Book<L>,
}

impl<J: Job, L: Ledger> Model for Shared<J, L> {
    ghost use Rattle.std.specs.Prelude.{◌≡◌, ◌<◌};
    ghost use Rattle.cgs_board.specs.History.{gives_of};
    ghost use Rattle.cgs_worker.specs.SharedState.{SharedState};

    ghost Value = { SharedState J };

    ghost view = { λ s. record { board = s.board; total = s.book.total } };

    ghost invariant = { λ s. record {
      counted : gives_of s.board.history ≡ s.book.total;
      some_worker : 0 < s.board.workers;
    } };
}

impl<J: Job, L: Ledger> Shared<J, L> {
    ghost use Rattle.cgs_board.specs.BoardState.{with_event};
    ghost use Rattle.cgs_board.specs.Boards.{AnswersClaim, AnswersGive};
    ghost use Rattle.cgs_board.specs.declared.event.Event.TheVariants.{Quit};
    ghost use Rattle.cgs_worker.specs.SharedState.{IsCounted};

    /// A board that was not claimed from, with a new book.
    pub(crate) fn new(board: Board<J>, book: Book<L>) -> Shared<J, L>
        requires counted { gives_of board.history ≡ book.total }
        requires some_worker { 0 < board.workers }
        ensures { result.board ≡ board }
    {
        Shared { board, book }
    }

    /// Claims from the board.
    pub(crate) fn claim(&mut self, worker: u32) -> Claimed<J>
        requires { worker < self.old.board.workers }
        ensures board { AnswersClaim J.node worker self.old.board self.new.board result }
        ensures book { self.new.total ≡ self.old.total }
    {
        self.board.claim(worker)
    }

    /// Notes that a worker gave up, once.
    pub(crate) fn quit(&mut self, worker: u32)
        requires { worker < self.old.board.workers }
        ensures again { Contains self.old.board.history (Quit worker) → self.new.board ≡ self.old.board }
        ensures first { (Contains self.old.board.history (Quit worker) → ⊥) → self.new.board ≡ with_event self.old.board (Quit worker) }
        ensures book { self.new.total ≡ self.old.total }
    {
        self.board.quit(worker)
    }

    /// Gives to the board. What the board keeps is counted in the book and in the share of the seat.
    pub fn give(&mut self, seat: &mut Seat<L>, done: Done<J>) -> Given<J>
        requires { seat.old.worker < self.old.board.workers }
        ensures board { AnswersGive J.node seat.old.worker done self.old.board self.new.board result }
        ensures book { IsCounted result self.old.total self.new.total }
        ensures worker { seat.new.worker ≡ seat.old.worker }
        ensures parts { seat.new.parts ≡ seat.old.parts }
        ensures amount { IsCounted result seat.old.amount seat.new.amount }
    {
        let Shared { board, book } = self;
        let given = board.give(seat.worker, done);
        if let Given::Kept = &given {
            book.add(&mut seat.share, 1);
        }
        given
    }
}

/// The board. The shares of all seats are put together again, and the book is compared with the whole: they add up to the number of gives.
pub fn settle<J: Job, L: Ledger>(shared: Shared<J, L>, mut seats: Vec<Seat<L>>) -> Board<J>
    requires some_seat { 0 < vec_len seats }
    requires whole { sum_by (λ seat. seat.parts) seats.items ≡ L.parts }
    ensures board { result ≡ shared.board }
    ensures some_worker { 0 < result.workers }
    ensures sum { sum_by (λ seat. seat.amount) seats.items ≡ gives_of result.history }
{
    let Shared { board, mut book } = shared;
    let Some(first) = seats.pop() else {
        unreachable!();
    };
    let mut whole = first.share;
    while let Some(seat) = seats.pop() {
        whole.merge(seat.share);
    }
    book.audit(&mut whole);
    board
}
