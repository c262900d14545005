//! Runs whose source or sink fails at each of its calls in turn, by one worker and by two.

use crate::workers::word_list;
use cgs_io::{MemorySink, MemorySource};
use cgs_program::{Status, run, run_alone};
use cgs_worker::OpenGate;
use std::alloc::{AllocError, Global};
use std::sync::Wait;
use std::test::Fail;
use std::thread::Threads;

/// A line whose slope is the parameter, in 58 bytes: six reads of ten bytes give them all, and the seventh none.
const LINE: &[u8] = b"field 7
parameters a
variables x
order lex
poly a*x-1
end
";

/// The system of the line, in 147 bytes: fifteen writes of ten bytes take them all.
const SYSTEM: &[u8] = b"segment 0
nonzero a
basis a*x+6
solvable yes
finite yes
standard 1
segment 1
zero a
basis 1
solvable no
finite yes
standard 0
segments 2 refused 0
";

const READS: u64 = 7;

const WRITES: u64 = 15;

const NEVER: &[u64] = &[];

const SOLVE: &[&[u8]] = &[b"solve"];

const SOLVE_BY_TWO: &[&[u8]] = &[b"solve", b"--workers", b"2"];

// Solves the line by two workers, or by one that never waits. Each read and write moves ten bytes at most, and the listed ones fail.
fn solve<R: Threads + Wait + Sync>(
    rt: &R,
    alloc: Global,
    workers: u32,
    read_fails: &[u64],
    write_fails: &[u64],
) -> Result<(Status, MemorySink), AllocError> {
    let input = Vec::from_slice(alloc, LINE)?;
    let mut source = MemorySource::new(input, 10, Vec::from_slice(alloc, read_fails)?);
    let mut sink = MemorySink::new(alloc, 65536, 10, Vec::from_slice(alloc, write_fails)?)?;
    let status = if workers == 2 {
        let words = word_list(alloc, SOLVE_BY_TWO)?;
        run(rt, alloc, &words, &mut source, &mut sink, &OpenGate)
    } else {
        let words = word_list(alloc, SOLVE)?;
        run_alone(alloc, &words, &mut source, &mut sink)
    };
    Ok((status, sink))
}

#[test]
fn each_read_fails(rt: HostRuntime) -> Result<(), Fail> {
    let alloc = rt.alloc();
    for workers in 1..3 {
        for read in 0..READS {
            let (status, sink) = solve(&rt, alloc, workers, &[read], NEVER)?;
            assert_eq!(rt; status, Status::Source, "read {read}, {workers} workers");
            assert_eq!(rt; sink.written(), b"".as_slice());
        }
    }
    Ok(())
}

#[test]
fn each_write_fails(rt: HostRuntime) -> Result<(), Fail> {
    let alloc = rt.alloc();
    for workers in 1..3 {
        for write in 0..WRITES {
            let (status, sink) = solve(&rt, alloc, workers, NEVER, &[write])?;
            assert_eq!(rt; status, Status::Sink, "write {write}, {workers} workers");
            assert_eq!(rt;
                Some(sink.written()),
                SYSTEM.get(..10 * write as usize),
                "write {write}"
            );
        }
    }
    Ok(())
}

#[test]
fn no_call_is_left(rt: HostRuntime) -> Result<(), Fail> {
    let alloc = rt.alloc();
    for workers in 1..3 {
        let (status, sink) = solve(&rt, alloc, workers, &[READS], &[WRITES])?;
        assert_eq!(rt; status, Status::Done, "{workers} workers");
        assert_eq!(rt; sink.written(), SYSTEM);
    }
    Ok(())
}
