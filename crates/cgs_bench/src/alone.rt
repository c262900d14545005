//! The command `solve` by the top call of one worker, which `cgs` itself does not call.

use cgs_io::{StdSink, StdSource, Word, WordList};
use cgs_program::{Status, run_alone};
use std::alloc::{AllocError, Global};
use std::io::{Read, Write};

/// Solves the problem that the input gives, and writes its list.
pub(crate) fn solve_alone(
    alloc: Global,
    input: impl Read + Drop,
    output: impl Write + Drop,
) -> Option<()> {
    let words = solve_word(alloc).ok()?;
    let mut source = StdSource::new(input);
    let mut sink = StdSink::new(output);
    match run_alone(alloc, &words, &mut source, &mut sink) {
        Status::Done | Status::Partial => sink.into_inner().flush().ok(),
        _ => None,
    }
}

/// The words of the command, which has no options.
fn solve_word(alloc: Global) -> Result<WordList, AllocError> {
    let mut word = Word::new(alloc);
    word.extend_from_slice(b"solve")?;
    let mut words = WordList::new(alloc);
    words.push(word)?;
    Ok(words)
}
