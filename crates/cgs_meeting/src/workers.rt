//! Two workers that meet at a gate, and the history that they print.

use cgs_io::{MemorySink, MemorySource, Word, WordList};
use cgs_program::{Status, run};
use cgs_worker::Gate;
use std::alloc::{AllocError, Global};
use std::sync::atomic::{AtomicU64, Ordering};
use std::test::Fail;

const INPUT: &[u8] = b"field 32003
parameters a b c
variables x
order lex
poly a*x^2+b*x+c
end
";

const WORDS: &[&[u8]] = &[b"solve", b"--workers", b"2", b"--history"];

/// The list, and the first line of the history.
const FRONT: &str = "segment 0
nonzero a
basis a*x^2+b*x+c
solvable yes
finite yes
standard 2
segment 1.1
zero a
nonzero b
basis b*x+c
solvable yes
finite yes
standard 1
segment 1.2.0
zero a
zero b
nonzero c
basis 1
solvable no
finite yes
standard 0
segment 1.2.3
zero c
zero b
zero a
solvable yes
finite no
standard none
segments 4 refused 0
history 20
";

/// A branch of the tree: its path, that of its parent, and the numbers of children and entries of its node.
struct Branch<'a> {
    path: &'a [usize],
    printed: &'a str,
    parent: &'a str,
    node: &'a str,
}

const BRANCHES: &[Branch<'static>] = &[
    Branch {
        path: &[],
        printed: "-",
        parent: "",
        node: "2 0",
    },
    Branch {
        path: &[0],
        printed: "0",
        parent: "-",
        node: "0 1",
    },
    Branch {
        path: &[1],
        printed: "1",
        parent: "-",
        node: "3 0",
    },
    Branch {
        path: &[1, 0],
        printed: "1.0",
        parent: "1",
        node: "0 0",
    },
    Branch {
        path: &[1, 1],
        printed: "1.1",
        parent: "1",
        node: "0 1",
    },
    Branch {
        path: &[1, 2],
        printed: "1.2",
        parent: "1",
        node: "4 0",
    },
    Branch {
        path: &[1, 2, 0],
        printed: "1.2.0",
        parent: "1.2",
        node: "0 1",
    },
    Branch {
        path: &[1, 2, 1],
        printed: "1.2.1",
        parent: "1.2",
        node: "0 0",
    },
    Branch {
        path: &[1, 2, 2],
        printed: "1.2.2",
        parent: "1.2",
        node: "0 0",
    },
    Branch {
        path: &[1, 2, 3],
        printed: "1.2.3",
        parent: "1.2",
        node: "0 1",
    },
];

/// Holds the first that enters with a path of one number until another such enters, and notes who entered with each path.
#[derive(Drop)]
struct Meeting {
    entries: AtomicU64,
    arrived: AtomicU64,
    missed: AtomicU64,
    notes: Vec<AtomicU64>,
}

impl Gate for Meeting {
    fn enter(&self, worker: u32, path: &[usize]) {
        self.entries.fetch_add(1, Ordering::SeqCst);
        if let Some(note) = self.notes.get(code(path)) {
            note.fetch_add(ENTERED + u64::from(worker), Ordering::SeqCst);
        }
        if path.len() == 1 && self.arrived.fetch_add(1, Ordering::SeqCst) == 0 {
            self.hold();
        }
    }
}

/// What an entry adds to the note of its path, beside the number of the worker.
const ENTERED: u64 = 256;

/// A number for each path of up to three numbers below 4: that of a child is 4 times its parent's, plus its own, plus 1.
fn code(path: &[usize]) -> usize {
    let mut code = 0usize;
    for number in path.iter() {
        code = code
            .saturating_mul(4)
            .saturating_add(*number)
            .saturating_add(1);
    }
    code
}

impl Meeting {
    fn new(alloc: Global) -> Result<Meeting, AllocError> {
        let mut notes = Vec::new(alloc);
        for _ in 0..64 {
            notes.push(AtomicU64::new(0))?;
        }
        Ok(Meeting {
            entries: AtomicU64::new(0),
            arrived: AtomicU64::new(0),
            missed: AtomicU64::new(0),
            notes,
        })
    }

    // Waits until another arrives, for so many turns.
    fn hold(&self) {
        for _ in 0..1_000_000_000u64 {
            if self.arrived.load(Ordering::SeqCst) >= 2 {
                return;
            }
        }
        self.missed.store(1, Ordering::SeqCst);
    }

    // Whether it was entered just once with the path, by that worker.
    fn saw(&self, path: &[usize], worker: &str) -> bool {
        match (self.notes.get(code(path)), worker.parse::<u32>()) {
            (Some(note), Ok(worker)) => note.load(Ordering::SeqCst) == ENTERED + u64::from(worker),
            _ => false,
        }
    }
}

/// A line of a history: what was done, by which worker, with which path, and what follows.
#[derive(Drop)]
struct Line<'a> {
    kind: &'a str,
    worker: &'a str,
    path: &'a str,
    node: &'a str,
}

fn line_of(text: &str) -> Option<Line<'_>> {
    let (kind, rest) = text.split_once(' ')?;
    let (worker, rest) = rest.split_once(' ')?;
    let (path, node) = rest.split_once(' ').unwrap_or((rest, ""));
    Some(Line {
        kind,
        worker,
        path,
        node,
    })
}

/// The lines of a history, each with its line feed.
fn lines_of(alloc: Global, text: &str) -> Result<Vec<Line<'_>>, Fail> {
    let mut lines = Vec::new(alloc);
    let mut rest = text;
    for _ in 0..text.len() {
        let Some((first, after)) = rest.split_once('\n') else {
            break;
        };
        lines.push(line_of(first).ok_or("a line of one word")?)?;
        rest = after;
    }
    if !rest.is_empty() {
        return Err("no line feed at the end".into());
    }
    Ok(lines)
}

// The place of the only line of its kind for a path.
fn place_of(lines: &[Line<'_>], kind: &str, path: &str) -> Option<usize> {
    let mut places = lines
        .iter()
        .enumerate()
        .filter(|(_, line)| line.kind == kind && line.path == path);
    let (place, _) = places.next()?;
    if places.next().is_some() {
        return None;
    }
    Some(place)
}

// Whether a branch was claimed once, after its parent was given back, and then given back once by the same worker, who alone entered the
// gate with its path.
fn is_done(lines: &[Line<'_>], gate: &Meeting, branch: &Branch<'_>) -> bool {
    let (Some(claim), Some(give)) = (
        place_of(lines, "claim", branch.printed),
        place_of(lines, "give", branch.printed),
    ) else {
        return false;
    };
    let offered = match place_of(lines, "give", branch.parent) {
        Some(parent) => parent < claim,
        None => branch.path.is_empty(),
    };
    match (lines.get(claim), lines.get(give)) {
        (Some(claimed), Some(given)) => {
            offered
                && claim < give
                && claimed.node == ""
                && given.node == branch.node
                && claimed.worker == given.worker
                && gate.saw(branch.path, claimed.worker)
        }
        _ => false,
    }
}

// Whether the branches 0 and 1 were both claimed before either was given back.
fn met(lines: &[Line<'_>]) -> bool {
    let places = (
        place_of(lines, "claim", "0"),
        place_of(lines, "claim", "1"),
        place_of(lines, "give", "0"),
        place_of(lines, "give", "1"),
    );
    match places {
        (Some(a), Some(b), Some(c), Some(d)) => a.max(b) < c.min(d),
        _ => false,
    }
}

pub(crate) fn word_list(alloc: Global, texts: &[&[u8]]) -> Result<WordList, AllocError> {
    let mut words = WordList::new(alloc);
    for text in texts {
        let mut word = Word::new(alloc);
        word.extend_from_slice(text)?;
        words.push(word)?;
    }
    Ok(words)
}

#[test]
fn two_workers_meet(rt: HostRuntime) -> Result<(), Fail> {
    let alloc = rt.alloc();
    let gate = Meeting::new(alloc)?;
    let words = word_list(alloc, WORDS)?;
    let mut source = MemorySource::new(Vec::from_slice(alloc, INPUT)?, 4096, Vec::new(alloc));
    let mut sink = MemorySink::new(alloc, 65536, 4096, Vec::new(alloc))?;
    let status = run(&rt, alloc, &words, &mut source, &mut sink, &gate);
    assert_eq!(rt; status, Status::Done);
    assert_eq!(rt; gate.missed.load(Ordering::SeqCst), 0, "nobody came");
    assert_eq!(rt; gate.entries.load(Ordering::SeqCst), 10);
    let text = std::str::from_utf8(sink.written()).map_err(|_| "not UTF-8")?;
    let history = text.strip_prefix(FRONT).ok_or("another list")?;
    let lines = lines_of(alloc, history)?;
    assert_eq!(rt; lines.len(), 20);
    for branch in BRANCHES {
        let path = branch.printed;
        assert!(rt; is_done(&lines, &gate, branch), "{path} in {history}");
    }
    assert!(rt; met(&lines), "both at work in {history}");
    Ok(())
}
