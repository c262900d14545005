//! Workers on a tree of numbers: the node of n has n children n - 1, and the node of 0 the entry 0.

ghost use Rattle.std.specs.Prelude.{◌<◌, ℕ};
ghost use Rattle.cgs_board.specs.Examples.{countdown, level, countdown_falls};

use crate::{Gate, OpenGate, run_board, run_board_alone};
use cgs_board::{Event, Job, Outcome};
use cgs_path::Path;
use std::alloc::{AllocError, Global};
use std::marker::Model;
use std::process::Abort;
use std::sync::Wait;
use std::sync::atomic::{AtomicU64, Ordering};
use std::thread::Threads;

// A number, with the code of its path. Memory is refused to the node of the branch with one code, and to copies of the branch with another.
#[derive(Drop)]
struct Countdown {
    n: u32,
    code: u64,
    no_node: u64,
    no_copy: u64,
}

impl Model for Countdown {
    ghost use Rattle.std.specs.Prelude.{ℕ};

    ghost Value = { ℕ };

    ghost view = { λ c. c.n };
}

impl Job for Countdown {
    type Entry = u32;

    ghost node = { countdown };

    ghost height = { level };

    fn node(&self, alloc: Global, _path: &Path) -> Result<Outcome<u32, Countdown>, AllocError> {
        if self.code == self.no_node {
            return Err(AllocError);
        }
        if self.n == 0 {
            return Ok(Outcome {
                entry: Some(0),
                children: Vec::new(alloc),
            });
        }
        let mut children = Vec::new(alloc);
        for number in 0..self.n {
            children.push(Countdown {
                n: self.n - 1,
                code: code_below(self.code, u64::from(number)),
                no_node: self.no_node,
                no_copy: self.no_copy,
            })?;
        }
        Ok(Outcome {
            entry: None,
            children,
        })
    }

    fn copy(&self, _alloc: Global) -> Result<Countdown, AllocError> {
        if self.code == self.no_copy {
            return Err(AllocError);
        }
        Ok(Countdown {
            n: self.n,
            code: self.code,
            no_node: self.no_node,
            no_copy: self.no_copy,
        })
    }

    fn same(&self, other: &Countdown) -> bool {
        self.n == other.n
    }

    ghost falls = { countdown_falls };
}

const ROOT: u64 = 1;

// No path has this code.
const NOWHERE: u64 = 0;

// The codes of all paths of the tree of 3.
const CODES: &[u64] = &[
    ROOT, 4, 5, 6, 16, 17, 20, 21, 24, 25, 64, 68, 80, 84, 96, 100,
];

// The code of a child is four times that of its parent, plus its own number.
fn code_below(code: u64, number: u64) -> u64 {
    code.saturating_mul(4).saturating_add(number)
}

fn code_of(path: &[usize]) -> u64 {
    let mut code = ROOT;
    for number in path.iter() {
        code = code_below(code, *number as u64);
    }
    code
}

// The tree of 3 has 16 branches and 6 entries.
fn tree(no_node: u64, no_copy: u64) -> Countdown {
    Countdown {
        n: 3,
        code: ROOT,
        no_node,
        no_copy,
    }
}

#[test]
fn one_worker_alone(rt: HostRuntime) {
    let board = run_board_alone(rt.alloc(), tree(NOWHERE, NOWHERE)).expect(&rt, "memory");
    assert_eq!(rt; board.workers(), 1);
    assert_eq!(rt; board.gives(), 16);
    let history = board.history().expect(&rt, "memory");
    assert_eq!(rt; history.len(), 32);
}

// Fails unless as many workers finish the tree of 3.
fn finish_tree<R: Threads + Wait + Abort + Sync>(rt: &R, alloc: Global, workers: u32) {
    assert!(rt; 0 < workers);
    let root = tree(NOWHERE, NOWHERE);
    let board = run_board(rt, alloc, root, workers, &OpenGate).expect(rt, "memory");
    assert_eq!(rt; board.workers(), workers);
    assert_eq!(rt; board.gives(), 16);
    let entries = board.into_entries().expect(rt, "memory");
    assert_eq!(rt; entries.len(), 6);
}

#[test]
fn many_workers(rt: HostRuntime) {
    for _ in 0..50 {
        for workers in 1..9 {
            finish_tree(&rt, rt.alloc(), workers);
        }
    }
}

// Holds the first worker that enters with a path of one number until another does, and notes who entered with each path.
#[derive(Drop)]
struct Meeting {
    entered: AtomicU64,
    missed: AtomicU64,
    notes: Vec<AtomicU64>,
}

// What an entry by worker 0 adds to the note of a path. A worker adds its number to that.
const ENTRY: u64 = 256;

impl Gate for Meeting {
    fn enter(&self, worker: u32, path: &[usize]) {
        if let Some(note) = self.notes.get(code_of(path) as usize) {
            note.fetch_add(ENTRY + u64::from(worker), Ordering::SeqCst);
        }
        if path.len() == 1 && self.entered.fetch_add(1, Ordering::SeqCst) == 0 {
            self.hold();
        }
    }
}

impl Meeting {
    fn new(alloc: Global) -> Result<Meeting, AllocError> {
        let mut notes = Vec::new(alloc);
        for _ in 0..64 {
            notes.push(AtomicU64::new(0))?;
        }
        Ok(Meeting {
            entered: AtomicU64::new(0),
            missed: AtomicU64::new(0),
            notes,
        })
    }

    // Waits until another entered, for so many turns at most.
    fn hold(&self) {
        for _ in 0..1_000_000_000u64 {
            if self.entered.load(Ordering::SeqCst) >= 2 {
                return;
            }
        }
        self.missed.store(1, Ordering::SeqCst);
    }

    // Whether the gate was entered just once with this path, by this worker.
    fn saw(&self, worker: u32, path: &[usize]) -> bool {
        let Some(note) = self.notes.get(code_of(path) as usize) else {
            return false;
        };
        note.load(Ordering::SeqCst) == ENTRY + u64::from(worker)
    }
}

// Whether both claims of a path of one number stand before both gives.
fn both_out(events: &[Event]) -> bool {
    let mut claims = 0u32;
    for event in events.iter() {
        match event {
            Event::Claim { path, .. } if path.depth() == 1 => claims = claims.saturating_add(1),
            Event::Give { path, .. } if path.depth() == 1 => return claims == 2,
            _ => {}
        }
    }
    false
}

#[test]
fn two_workers_meet(rt: HostRuntime) {
    for _ in 0..20 {
        let gate = Meeting::new(rt.alloc()).expect(&rt, "memory");
        let root = Countdown {
            n: 2,
            ..tree(NOWHERE, NOWHERE)
        };
        let board = run_board(&rt, rt.alloc(), root, 2, &gate).expect(&rt, "memory");
        assert_eq!(rt; gate.missed.load(Ordering::SeqCst), 0);
        let history = board.history().expect(&rt, "memory");
        assert_eq!(rt; history.len(), 10);
        assert!(rt; both_out(history.as_slice()));
        for event in history.as_slice().iter() {
            if let Event::Claim { worker, path } = event {
                assert!(rt; gate.saw(*worker, path.as_slice()));
            }
        }
    }
}

// Fails unless there is no memory, with each number of workers up to 8.
fn refuse<R: Threads + Wait + Abort + Sync>(rt: &R, alloc: Global, no_node: u64, no_copy: u64) {
    for workers in 1..9 {
        let answer = run_board(rt, alloc, tree(no_node, no_copy), workers, &OpenGate);
        assert!(rt; answer.is_err(), "{no_node} {no_copy}, {workers} workers");
    }
}

#[test]
fn a_node_refuses_memory(rt: HostRuntime) {
    for code in CODES {
        refuse(&rt, rt.alloc(), *code, NOWHERE);
    }
}

// The board copies the children of what is given back.
#[test]
fn a_give_refuses_memory(rt: HostRuntime) {
    for code in CODES {
        refuse(&rt, rt.alloc(), NOWHERE, *code);
    }
}
