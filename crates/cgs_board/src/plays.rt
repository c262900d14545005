//! All orders of the calls of two workers at the board of the tree of 2, which has five branches. Beside each play stands what the rules
//! of a board say of the same calls, and each answer is compared with it.

use crate::tests::Countdown;
use crate::{Board, Claimed, Done, Event, Given, Piece, finish};
use cgs_path::Path;
use std::alloc::Global;
use std::process::Abort;

// The calls that may change a board are 0 to 3: worker 0 or 1 gives back what it has or else claims; worker 0 or 1 quits.
const LAST_CALL: u32 = 3;

// What happened, and to the branch of which code: that of the root is 1, and that of the child i of c is 10 * c + i.
#[derive(Drop)]
enum Note {
    Claim(u32, usize),
    Give(u32, usize),
    Quit(u32),
}

// A board, who has what, which branches are open, and what happened.
#[derive(Drop)]
struct Play {
    board: Board<Countdown>,
    held: Vec<(u32, Done<Countdown>)>,
    open: Vec<usize>,
    notes: Vec<Note>,
}

fn code(path: &Path) -> usize {
    let mut code = 1usize;
    for number in path.as_slice() {
        code = code.saturating_mul(10).saturating_add(*number);
    }
    code
}

// The number that the branch with this code is, and so the number of its children.
fn number(code: usize) -> u32 {
    match code {
        1 => 2,
        10 | 11 => 1,
        _ => 0,
    }
}

fn new_play(rt: &impl Abort, alloc: Global) -> Play {
    let mut open = Vec::new(alloc);
    open.push(1).expect(rt, "memory");
    Play {
        board: Board::new(alloc, Countdown { n: 2 }, 2).expect(rt, "memory"),
        held: Vec::new(alloc),
        open,
        notes: Vec::new(alloc),
    }
}

fn is_held(play: &Play, worker: u32) -> bool {
    play.held.iter().any(|held| held.0 == worker)
}

fn has_quit(play: &Play) -> bool {
    play.notes.iter().any(|note| matches!(note, Note::Quit(_)))
}

fn has_quit_by(play: &Play, worker: u32) -> bool {
    play.notes
        .iter()
        .any(|note| matches!(note, Note::Quit(by) if *by == worker))
}

// A claim, and whether it changed the board.
fn claim(rt: &impl Abort, alloc: Global, play: &mut Play, worker: u32) -> bool {
    assert!(rt; worker < play.board.workers());
    let stopped = has_quit(play);
    match play.board.claim(worker) {
        Claimed::Stopped => assert!(rt; stopped),
        Claimed::NotYet => {
            assert!(rt; !stopped && play.open.is_empty() && !play.held.is_empty())
        }
        Claimed::Finished => {
            assert!(rt; !stopped && play.open.is_empty() && play.held.is_empty())
        }
        Claimed::Branch(piece) => {
            assert!(rt; !stopped);
            hold(rt, alloc, play, worker, piece);
            return true;
        }
    }
    false
}

// A worker has what was open.
fn hold(rt: &impl Abort, alloc: Global, play: &mut Play, worker: u32, piece: Piece<Countdown>) {
    let of = code(&piece.path);
    assert!(rt; play.open.contains(&of));
    assert_eq!(rt; piece.branch.n, number(of));
    play.open.retain(|other| *other != of);
    play.notes
        .push(Note::Claim(worker, of))
        .expect(rt, "memory");
    let done = finish(alloc, piece).expect(rt, "memory");
    play.held.push((worker, done)).expect(rt, "memory");
}

// A worker gives back what a holder has, and whether that changed the board.
fn give(rt: &impl Abort, play: &mut Play, worker: u32, holder: u32) -> bool {
    let Some(at) = play.held.iter().position(|held| held.0 == holder) else {
        return false;
    };
    let (_, done) = play.held.swap_remove(at);
    let of = code(&done.path);
    assert!(rt; worker < play.board.workers());
    match play.board.give(worker, done) {
        Given::Kept => {
            assert_eq!(rt; worker, holder);
            offer(rt, play, worker, of);
            true
        }
        Given::Stray(done) => {
            assert!(rt; worker != holder && code(&done.path) == of);
            play.held.push((holder, done)).expect(rt, "memory");
            false
        }
        Given::NoMemory(_) => panic!(rt; "memory"),
    }
}

// The children of what came back are open.
fn offer(rt: &impl Abort, play: &mut Play, worker: u32, of: usize) {
    play.notes.push(Note::Give(worker, of)).expect(rt, "memory");
    for i in 0..number(of) {
        let child = of.saturating_mul(10).saturating_add(i as usize);
        play.open.push(child).expect(rt, "memory");
    }
}

// A worker gives back another branch in the place of the one that it has, which is stray.
fn give_changed(rt: &impl Abort, alloc: Global, play: &mut Play, worker: u32) {
    let Some((_, own)) = play.held.iter().find(|held| held.0 == worker) else {
        return;
    };
    let path = own.path.copy().expect(rt, "memory");
    let branch = Countdown { n: 3 };
    let done = finish(alloc, Piece { path, branch }).expect(rt, "memory");
    assert!(rt; worker < play.board.workers());
    assert!(rt; matches!(play.board.give(worker, done), Given::Stray(_)));
}

// A quit, and whether it changed the board.
fn quit(rt: &impl Abort, play: &mut Play, worker: u32) -> bool {
    assert!(rt; worker < play.board.workers());
    play.board.quit(worker);
    if has_quit_by(play, worker) {
        return false;
    }
    play.notes.push(Note::Quit(worker)).expect(rt, "memory");
    true
}

// One call by one of the two workers, and whether it changed the board.
fn act(rt: &impl Abort, alloc: Global, play: &mut Play, choice: u32) -> bool {
    let worker = choice % 2;
    if choice >= 2 {
        quit(rt, play, worker)
    } else if is_held(play, worker) {
        give(rt, play, worker, worker)
    } else {
        claim(rt, alloc, play, worker)
    }
}

// Each give that is stray.
fn give_strays(rt: &impl Abort, alloc: Global, play: &mut Play) {
    for worker in 0..2 {
        assert!(rt; !give(rt, play, worker, 1 - worker));
        give_changed(rt, alloc, play, worker);
    }
}

// Whether an event is the one that was noted.
fn is_noted(event: &Event, note: &Note) -> bool {
    match (event, note) {
        (Event::Claim { worker, path }, Note::Claim(by, of)) => worker == by && code(path) == *of,
        (
            Event::Give {
                worker,
                path,
                children,
                entries,
            },
            Note::Give(by, of),
        ) => {
            let leaf = number(*of) == 0;
            worker == by
                && code(path) == *of
                && *children == number(*of) as usize
                && (*entries == 1) == leaf
                && (*entries == 0) != leaf
        }
        (Event::Quit { worker }, Note::Quit(by)) => worker == by,
        _ => false,
    }
}

// Fails unless the board is as the rules say.
fn compare(rt: &impl Abort, play: Play) {
    let history = play.board.history().expect(rt, "memory");
    assert_eq!(rt; history.len(), play.notes.len());
    for (event, note) in history.as_slice().iter().zip(play.notes.iter()) {
        assert!(rt; is_noted(event, note));
    }
    let gives = play
        .notes
        .iter()
        .filter(|note| matches!(note, Note::Give(_, _)));
    assert_eq!(rt; play.board.gives(), gives.count() as u64);
    let finished = play.board.finished();
    assert_eq!(rt; finished, play.open.is_empty() && play.held.is_empty());
    if finished {
        compare_entries(rt, play.board.into_entries().expect(rt, "memory"));
    }
}

// Fails unless these are the entries of the tree of 2.
fn compare_entries(rt: &impl Abort, entries: Vec<(Path, u32)>) {
    assert_eq!(rt; entries.len(), 2);
    for ((path, entry), of) in entries.iter().zip([100usize, 110]) {
        assert_eq!(rt; code(path), of);
        assert_eq!(rt; *entry, 0);
    }
}

// Makes these calls, and then more of the first kind, up to one that changes nothing.
fn make_play(rt: &impl Abort, alloc: Global, choices: &mut Vec<u32>) {
    let mut play = new_play(rt, alloc);
    for at in 0..13 {
        if at == choices.len() {
            give_strays(rt, alloc, &mut play);
            choices.push(0).expect(rt, "memory");
        }
        let choice = *choices.get(at).expect(rt, "a call");
        if !act(rt, alloc, &mut play, choice) {
            break;
        }
    }
    compare(rt, play);
}

// The next list of calls, with the last call changed, or one before where it was the last kind of all. Whether there is one.
fn next(rt: &impl Abort, choices: &mut Vec<u32>) -> bool {
    for _ in 0..choices.len() {
        let last = choices.pop().expect(rt, "a call");
        if last < LAST_CALL {
            choices.push(last + 1).expect(rt, "memory");
            return true;
        }
    }
    false
}

#[test]
fn all_orders(rt: HostRuntime) {
    let alloc = rt.alloc();
    let mut choices = Vec::new(alloc);
    for plays in 0..1_000_000 {
        make_play(&rt, alloc, &mut choices);
        if !next(&rt, &mut choices) {
            assert!(rt; plays > 10_000, "{plays}");
            return;
        }
    }
    panic!(rt; "too many plays");
}
