//! Plans and faults of some command lines.

use crate::{Command, Plan, WordFault, read_words};
use cgs_io::{Word, WordList};
use std::alloc::{AllocError, Global};
use std::test::Fail;

// The words of a line, which blanks separate.
fn words_of(alloc: Global, line: &str) -> Result<WordList, AllocError> {
    let mut words = WordList::new(alloc);
    for text in line.split_ascii_whitespace() {
        let mut word = Word::new(alloc);
        word.extend_from_slice(text.as_bytes())?;
        words.push(word)?;
    }
    Ok(words)
}

// A plan with one worker and no history.
fn plan(command: Command, budget: u64, depth: u32) -> Plan {
    Plan {
        command,
        workers: 1,
        budget,
        depth,
        history: false,
    }
}

// A plan to solve within the usual limits.
fn solve(workers: u32, history: bool) -> Plan {
    Plan {
        command: Command::Solve,
        workers,
        budget: 10000000,
        depth: 64,
        history,
    }
}

#[test]
fn plans(rt: HostRuntime) -> Result<(), Fail> {
    let rows = [
        ("", Err(WordFault::NoWord)),
        ("solv", Err(WordFault::Command)),
        ("--help", Err(WordFault::Command)),
        ("check", Ok(plan(Command::Check, 10000000, 64))),
        (
            "check --depth 255 --budget 7",
            Ok(plan(Command::Check, 7, 255)),
        ),
        (
            "basis --budget 1000000000000 --depth 1",
            Ok(plan(Command::Basis, 1000000000000, 1)),
        ),
        ("solve --depth 2", Ok(plan(Command::Solve, 10000000, 2))),
        ("locate --depth 2", Ok(plan(Command::Locate, 10000000, 2))),
        ("locates", Err(WordFault::Command)),
        ("discover", Ok(plan(Command::Discover, 10000000, 64))),
        (
            "discover --budget 7 --depth 2",
            Ok(plan(Command::Discover, 7, 2)),
        ),
        ("discover 7", Err(WordFault::Option)),
        ("stress 0", Ok(plan(Command::Stress(0), 10000000, 64))),
        (
            "stress 999999 --depth 2 --budget 7",
            Ok(plan(Command::Stress(999999), 7, 2)),
        ),
        ("stress", Err(WordFault::Value)),
        ("stress 1000000", Err(WordFault::Value)),
        ("stress 07", Err(WordFault::Value)),
        ("stress --depth 2", Err(WordFault::Value)),
        ("stress 7 8", Err(WordFault::Option)),
        ("stress 7 --depth", Err(WordFault::Value)),
        ("stresses 7", Err(WordFault::Command)),
        ("solve --budget 1000000000001", Err(WordFault::Value)),
        ("solves", Err(WordFault::Command)),
        ("check --budget 0", Err(WordFault::Value)),
        ("check --budget 1000000000001", Err(WordFault::Value)),
        (
            "check --budget 99999999999999999999999",
            Err(WordFault::Value),
        ),
        ("check --depth 0", Err(WordFault::Value)),
        ("check --depth 07", Err(WordFault::Value)),
        ("check --budget +7", Err(WordFault::Value)),
        ("check --depth 256", Err(WordFault::Value)),
        ("check --depth", Err(WordFault::Value)),
        ("check --depth --budget", Err(WordFault::Value)),
        ("check --depth 1 --depth 1", Err(WordFault::Repeat)),
        ("check --depth 2 --depth 3", Err(WordFault::Repeat)),
        ("check --depth 1 --depth", Err(WordFault::Repeat)),
        ("check --depth 1 --depth x", Err(WordFault::Repeat)),
        ("solve --workers 1", Ok(solve(1, false))),
        ("solve --workers 64", Ok(solve(64, false))),
        ("solve --history", Ok(solve(1, true))),
        ("solve --workers 2 --history", Ok(solve(2, true))),
        ("solve --history --workers 2", Ok(solve(2, true))),
        ("solve --workers 0", Err(WordFault::Value)),
        ("solve --workers 65", Err(WordFault::Value)),
        ("solve --workers 08", Err(WordFault::Value)),
        ("solve --workers", Err(WordFault::Value)),
        ("solve --workers --history", Err(WordFault::Value)),
        ("solve --workers 2 --workers 3", Err(WordFault::Repeat)),
        ("solve --workers 2 --workers 65", Err(WordFault::Repeat)),
        ("solve --history --history", Err(WordFault::Repeat)),
        ("solve --history 3", Err(WordFault::Option)),
        ("solve 3", Err(WordFault::Option)),
        ("check check", Err(WordFault::Option)),
        ("check --fast", Err(WordFault::Option)),
    ];
    for (line, want) in rows {
        let words = words_of(rt.alloc(), line)?;
        assert_eq!(rt; read_words(&words), want, "at {line}");
    }
    Ok(())
}
