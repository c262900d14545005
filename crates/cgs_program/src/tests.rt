use crate::{Status, run_alone};
use cgs_io::{MemorySink, MemorySource, Word, WordList};
use std::alloc::{AllocError, Global};
use std::test::Fail;

/// A file with a sum of repeated monomials.
const SUM: &[u8] = b"field 7
parameters a
variables x y
order lex
poly 3*x+2*a*x*y+9*x+x*y
end
";

/// A line whose slope is the parameter.
const LINE: &[u8] = b"field 7
parameters a
variables x
order lex
poly a*x-1
end
";

/// The line where its slope is not 0, at two points.
const LINE_AT_POINTS: &[u8] = b"field 7
parameters a
variables x
order lex
nonzero a
poly a*x-1
point 0
point 3
end
";

/// The system of the line, and the history of one worker, whatever the number asked.
const LINE_WITH_HISTORY: &[u8] = b"segment 0
nonzero a
basis a*x+6
solvable yes
finite yes
standard 1
segment 1
zero a
basis 1
solvable no
finite yes
standard 0
segments 2 refused 0
history 6
claim 0 -
give 0 - 2 0
claim 0 0
give 0 0 0 1
claim 0 1
give 0 1 0 1
";

/// Two polynomials whose basis takes some steps.
const PAIR: &[u8] = b"field 7
parameters a
variables x y
order lex
poly x^2+a
poly x*y+1
end
";

const NO_WORDS: &[&[u8]] = &[];

const CHECK: &[&[u8]] = &[b"check"];

const BASIS: &[&[u8]] = &[b"basis"];

const BASIS_OF_ONE_UNIT: &[&[u8]] = &[b"basis", b"--budget", b"1"];

const SOLVE: &[&[u8]] = &[b"solve"];

const SOLVE_WITHIN_SIX: &[&[u8]] = &[b"solve", b"--budget", b"6"];

const SOLVE_WITH_HISTORY: &[&[u8]] = &[b"solve", b"--history", b"--workers", b"64"];

const LOCATE: &[&[u8]] = &[b"locate"];

const DISCOVER: &[&[u8]] = &[b"discover"];

const STRESS_OF_ONE_UNIT: &[&[u8]] = &[b"stress", b"0", b"--budget", b"1"];

const SOLV: &[&[u8]] = &[b"solv"];

const CHECK_X: &[&[u8]] = &[b"check", b"x"];

const NEVER: &[u64] = &[];

const FIRST: &[u64] = &[0];

const SECOND: &[u64] = &[1];

fn word_list(alloc: Global, texts: &[&[u8]]) -> Result<WordList, AllocError> {
    let mut words = WordList::new(alloc);
    for text in texts {
        let mut word = Word::new(alloc);
        word.extend_from_slice(text)?;
        words.push(word)?;
    }
    Ok(words)
}

/// Runs the words on the input in memory, where the listed calls fail.
fn run(
    alloc: Global,
    words: &[&[u8]],
    input: Vec<u8>,
    read_fails: &[u64],
    write_fails: &[u64],
) -> Result<(Status, MemorySink), AllocError> {
    let words = word_list(alloc, words)?;
    let mut source = MemorySource::new(input, 4096, Vec::from_slice(alloc, read_fails)?);
    let mut sink = MemorySink::new(alloc, 65536, 10, Vec::from_slice(alloc, write_fails)?)?;
    let status = run_alone(alloc, &words, &mut source, &mut sink);
    Ok((status, sink))
}

#[test]
fn answers(rt: HostRuntime) -> Result<(), Fail> {
    let alloc = rt.alloc();
    let rows = [
        (
            CHECK,
            SUM,
            b"field 7\nparameters a\nvariables x y\norder lex\npoly 2*a*x*y+x*y+5*x\nend\n".as_slice(),
            Status::Done,
        ),
        (CHECK, b"", b"fault line 1 end\n", Status::Text),
        (
            BASIS,
            PAIR,
            b"basis a*y^2+1\nbasis x+6*a*y\nmembers 2\n",
            Status::Done,
        ),
        (
            BASIS_OF_ONE_UNIT,
            PAIR,
            b"refused budget\n",
            Status::Partial,
        ),
        (
            SOLVE,
            LINE,
            b"segment 0\nnonzero a\nbasis a*x+6\nsolvable yes\nfinite yes\nstandard 1\nsegment 1\nzero a\nbasis 1\nsolvable no\nfinite yes\nstandard 0\nsegments 2 refused 0\n",
            Status::Done,
        ),
        (
            SOLVE_WITHIN_SIX,
            LINE,
            b"segment 0\nnonzero a\nbasis a*x+6\nsolvable yes\nfinite yes\nstandard 1\nrefused 1 budget\nzero a\nsegments 1 refused 1\n",
            Status::Partial,
        ),
        (SOLVE_WITH_HISTORY, LINE, LINE_WITH_HISTORY, Status::Done),
        (
            LOCATE,
            LINE_AT_POINTS,
            b"point 0\nnowhere\npoint 3\nsegment 0\nbasis x+2\npoints 2\n",
            Status::Done,
        ),
        (LOCATE, LINE, b"fault line 0 no-point\n", Status::Text),
        (DISCOVER, LINE, b"fault line 0 no-thesis\n", Status::Text),
    ];
    for (words, input, written, wanted) in rows {
        let input = Vec::from_slice(alloc, input)?;
        let (status, sink) = run(alloc, words, input, NEVER, NEVER)?;
        assert_eq!(rt; sink.written(), written);
        assert_eq!(rt; status, wanted);
    }
    Ok(())
}

#[test]
fn refuses_words_and_tells_what_failed(rt: HostRuntime) -> Result<(), Fail> {
    let alloc = rt.alloc();
    let rows = [
        (
            NO_WORDS,
            NEVER,
            NEVER,
            b"fault words none\n".as_slice(),
            Status::Words,
        ),
        (SOLV, NEVER, NEVER, b"fault words command\n", Status::Words),
        (
            CHECK_X,
            NEVER,
            NEVER,
            b"fault words option\n",
            Status::Words,
        ),
        (SOLVE, SECOND, NEVER, b"", Status::Source),
        (SOLVE, NEVER, SECOND, b"segment 0\n", Status::Sink),
    ];
    for (words, read_fails, write_fails, written, wanted) in rows {
        let input = Vec::from_slice(alloc, LINE)?;
        let (status, sink) = run(alloc, words, input, read_fails, write_fails)?;
        assert_eq!(rt; sink.written(), written);
        assert_eq!(rt; status, wanted);
    }
    Ok(())
}

#[test]
fn reads_up_to_the_limit(rt: HostRuntime) -> Result<(), Fail> {
    let alloc = rt.alloc();
    let rows = [
        (CHECK, 1048576, b"fault line 2 end\n".as_slice()),
        (CHECK, 1048577, b"fault line 0 long\n"),
        (LOCATE, 1048576, b"fault line 2 end\n"),
        (LOCATE, 1048577, b"fault line 0 long\n"),
        (DISCOVER, 1048576, b"fault line 2 end\n"),
        (DISCOVER, 1048577, b"fault line 0 long\n"),
    ];
    for (words, bytes, written) in rows {
        let mut input = Vec::from_elem(alloc, b'#', bytes - 1)?;
        input.push(b'\n')?;
        let (status, sink) = run(alloc, words, input, NEVER, NEVER)?;
        assert_eq!(rt; sink.written(), written);
        assert_eq!(rt; status, Status::Text);
    }
    Ok(())
}

#[test]
fn stress_reads_nothing(rt: HostRuntime) -> Result<(), Fail> {
    let alloc = rt.alloc();
    let input = Vec::from_slice(alloc, LINE)?;
    let (status, sink) = run(alloc, STRESS_OF_ONE_UNIT, input, FIRST, NEVER)?;
    assert_eq!(rt;
        sink.written(),
        b"stress 0\nsegments 0\nrefused 1\nsum 3327\n".as_slice()
    );
    assert_eq!(rt; status, Status::Partial);
    Ok(())
}
