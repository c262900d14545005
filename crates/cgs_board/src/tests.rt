//! A tree of numbers: the node of n has n children n - 1, and the node of 0 the entry 0.

ghost use Rattle.std.specs.Prelude.{ℕ};
ghost use Rattle.cgs_board.specs.Examples.{countdown, level, countdown_falls};

use crate::{Board, Claimed, Event, Given, Job, Outcome, Piece, entries_of, finish};
use cgs_path::Path;
use std::alloc::{AllocError, Global};
use std::marker::Model;
use std::process::Abort;

#[derive(Drop)]
pub(crate) struct Countdown {
    pub(crate) n: u32,
}

impl Model for Countdown {
    ghost use Rattle.std.specs.Prelude.{ℕ};

    ghost Value = { ℕ };

    ghost view = { λ c. c.n };
}

impl Job for Countdown {
    type Entry = u32;

    ghost node = { countdown };

    ghost height = { level };

    fn node(&self, alloc: Global, _path: &Path) -> Result<Outcome<u32, Countdown>, AllocError> {
        if self.n == 0 {
            return Ok(Outcome {
                entry: Some(0),
                children: Vec::new(alloc),
            });
        }
        let mut children = Vec::new(alloc);
        for _ in 0..self.n {
            children.push(Countdown { n: self.n - 1 })?;
        }
        Ok(Outcome {
            entry: None,
            children,
        })
    }

    fn copy(&self, _alloc: Global) -> Result<Countdown, AllocError> {
        Ok(Countdown { n: self.n })
    }

    fn same(&self, other: &Countdown) -> bool {
        self.n == other.n
    }

    ghost falls = { countdown_falls };
}

// The piece of a claim that hands out the branch at this path.
fn handed(rt: &impl Abort, claimed: Claimed<Countdown>, path: &[usize]) -> Piece<Countdown> {
    let Claimed::Branch(piece) = claimed else {
        panic!(rt; "no branch");
    };
    assert_eq!(rt; piece.path.as_slice(), path);
    piece
}

#[test]
fn two_workers(rt: HostRuntime) {
    let alloc = rt.alloc();
    let mut board = Board::new(alloc, Countdown { n: 1 }, 2).expect(&rt, "memory");
    let root = handed(&rt, board.claim(0), &[]);
    assert!(rt; matches!(board.claim(1), Claimed::NotYet));
    let done = finish(alloc, root).expect(&rt, "memory");
    let Given::Stray(done) = board.give(1, done) else {
        panic!(rt; "not stray");
    };
    assert!(rt; matches!(board.give(0, done), Given::Kept));
    let child = handed(&rt, board.claim(1), &[0]);
    assert!(rt; !board.finished());
    let done = finish(alloc, child).expect(&rt, "memory");
    assert!(rt; matches!(board.give(1, done), Given::Kept));
    assert!(rt; matches!(board.claim(0), Claimed::Finished));
    assert_eq!(rt; board.gives(), 2);
    let history = board.history().expect(&rt, "memory");
    assert!(rt;
        matches!(
            history.as_slice(),
            [
                Event::Claim { worker: 0, .. },
                Event::Give { worker: 0, .. },
                Event::Claim { worker: 1, .. },
                Event::Give { worker: 1, .. },
            ]
        )
    );
    assert!(rt; board.finished());
    let entries = board.into_entries().expect(&rt, "memory");
    assert_eq!(rt; entries.len(), 1);
    for (path, entry) in entries.iter() {
        assert_eq!(rt; path.as_slice(), [0].as_slice());
        assert_eq!(rt; *entry, 0);
    }
}

// Claims the branch at this path, which is next, and gives it back.
fn take(rt: &impl Abort, alloc: Global, board: &mut Board<Countdown>, path: &[usize]) {
    assert!(rt; 0 < board.workers());
    let piece = handed(rt, board.claim(0), path);
    let done = finish(alloc, piece).expect(rt, "memory");
    assert!(rt; 0 < board.workers());
    assert!(rt; matches!(board.give(0, done), Given::Kept));
}

#[test]
fn deepest_first(rt: HostRuntime) {
    let alloc = rt.alloc();
    let mut board = Board::new(alloc, Countdown { n: 2 }, 1).expect(&rt, "memory");
    take(&rt, alloc, &mut board, &[]);
    take(&rt, alloc, &mut board, &[0]);
    take(&rt, alloc, &mut board, &[0, 0]);
    take(&rt, alloc, &mut board, &[1]);
    take(&rt, alloc, &mut board, &[1, 0]);
    assert!(rt; board.finished());
}

// Claims a branch for a worker, who has it from then on. Tells whether there was one.
fn claim_next(
    rt: &impl Abort,
    board: &mut Board<Countdown>,
    worker: u32,
    out: &mut Vec<(u32, Piece<Countdown>)>,
) -> bool {
    assert!(rt; worker < board.workers());
    let Claimed::Branch(piece) = board.claim(worker) else {
        return false;
    };
    out.push((worker, piece)).expect(rt, "memory");
    true
}

// Gives the node of a piece back, which is kept.
fn give_back(
    rt: &impl Abort,
    alloc: Global,
    board: &mut Board<Countdown>,
    (worker, piece): (u32, Piece<Countdown>),
) {
    let done = finish(alloc, piece).expect(rt, "memory");
    assert!(rt; worker < board.workers());
    assert!(rt; matches!(board.give(worker, done), Given::Kept));
}

// Makes so many claims, by both workers in turn, and so many gives on a new board of the tree of 3. Gives nothing where no calls come to
// these numbers, else the board and what is out. What was claimed first is given back first, and only where nothing can be claimed, so as
// many branches as possible are offered by so many gives.
fn board_after(
    rt: &impl Abort,
    alloc: Global,
    claims: u32,
    gives: u32,
) -> Option<(Board<Countdown>, Vec<(u32, Piece<Countdown>)>)> {
    let mut board = Board::new(alloc, Countdown { n: 3 }, 2).expect(rt, "memory");
    let mut out = Vec::new(alloc);
    let mut claimed = 0;
    let mut given = 0;
    for _ in 0..u64::from(claims) + u64::from(gives) {
        if claimed < claims && claim_next(rt, &mut board, claimed % 2, &mut out) {
            claimed += 1;
        } else if given < gives && !out.is_empty() {
            give_back(rt, alloc, &mut board, out.remove(0));
            given += 1;
        } else {
            return None;
        }
    }
    Some((board, out))
}

// Fails unless each claim is answered by `Stopped`.
fn is_stopped(rt: &impl Abort, board: &mut Board<Countdown>) {
    for worker in 0..2 {
        assert!(rt; worker < board.workers());
        assert!(rt; matches!(board.claim(worker), Claimed::Stopped));
    }
}

#[test]
fn a_worker_quits(rt: HostRuntime) {
    let alloc = rt.alloc();
    let mut boards = 0u32;
    for claims in 0..17 {
        for gives in 0..claims + 1 {
            let Some((mut board, out)) = board_after(&rt, alloc, claims, gives) else {
                continue;
            };
            assert!(rt; 0 < board.workers());
            board.quit(0);
            is_stopped(&rt, &mut board);
            for piece in out {
                give_back(&rt, alloc, &mut board, piece);
                is_stopped(&rt, &mut board);
            }
            assert_eq!(rt; board.gives(), u64::from(claims));
            boards = boards.saturating_add(1);
        }
    }
    assert_eq!(rt; boards, 87);
}

#[test]
fn the_whole_tree(rt: HostRuntime) {
    let entries = entries_of(rt.alloc(), &Countdown { n: 3 }).expect(&rt, "memory");
    assert_eq!(rt; entries.len(), 6);
}
