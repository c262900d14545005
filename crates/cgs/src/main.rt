//! `cgs`: the words of the command line, standard input and standard output are handed to the top call.
//!
//! What the program does is promised there (`cgs_program`). Here only the words are made, the end is told, and what was
//! written is flushed.
#![tactic(auto)]

ghost use Rattle.std.specs.Prelude.{◌≡◌, drop, map, string_bytes, All, IfOk, IsUtf8};
ghost use Rattle.std.specs.IoError.{error_kind};
ghost use Rattle.cgs.specs.Ending.{code_without_words, IsFlushed};

mod progress;
#[cfg(test)]
mod tests;

use crate::progress::{Output, Progress};
use cgs_io::{Sink, StdSink, StdSource, Word, WordList};
use cgs_program::{Status, run};
use std::alloc::{AllocError, Global};
use std::io::{IsTerminal, Write};
use std::process::ExitCode;
use std::rt::Env;
use std::{env, io};

fn main(rt: HostRuntime) -> ExitCode {
    let alloc = rt.alloc();
    let words = match words_of(&rt, alloc) {
        Ok(words) => words,
        Err(e) => return ExitCode::from(code_without_words(&e)),
    };
    let mut source = StdSource::new(rt.stdin());
    let progress = Progress::new(&rt, rt.stderr().is_terminal());
    let mut sink = StdSink::new(Output {
        progress: &progress,
        stream: rt.stdout(),
    });
    let status = run(&rt, alloc, &words, &mut source, &mut sink, &progress);
    progress.clear();
    ExitCode::from(flushed(status, &mut sink).code())
}

/// The words that the program was given, each a text. What the environment gives no contract can name, so no clause says which they are.
fn words_of(rt: &(impl Env + AllocGlobal), alloc: Global) -> io::Result<WordList>
    ensures { IfOk result (λ words. All IsUtf8 words) }
{
    let arguments: Vec<String> = env::args(rt)?.collect(alloc)?;
    Ok(words_after_name(alloc, &arguments)?)
}

/// The arguments after the first, which is the program's own name.
fn words_after_name(alloc: Global, arguments: &[String]) -> Result<WordList, AllocError>
    ensures { IfOk result (λ words. words ≡ drop 1 (map string_bytes arguments.now)) }
{
    let mut words = WordList::new(alloc);
    if let Some((_, rest)) = arguments.split_first() {
        for argument in rest {
            words.push(word_of(alloc, argument)?)?;
        }
    }
    Ok(words)
}

fn word_of(alloc: Global, argument: &String) -> Result<Word, AllocError>
    ensures { IfOk result (λ word. word ≡ string_bytes argument.now) }
{
    let mut word = Word::new(alloc);
    word.extend_from_slice(argument.as_bytes())?;
    Ok(word)
}

/// The exit code where the runtime refuses the words.
fn code_without_words(e: &io::Error) -> u8
    ensures { result ≡ code_without_words (error_kind e.now) }
{
    match e.kind() {
        io::ErrorKind::OutOfMemory => Status::Memory.code(),
        _ => 8,
    }
}

/// The status after a flush of what was written.
fn flushed<W: Write>(status: Status, sink: &mut StdSink<W>) -> Status
    ensures { let seen = ⟦<StdSink<W> as Sink>⟧.seen in IsFlushed (seen sink.old).faults (seen sink.new).faults status result }
{
    match status {
        Status::Source | Status::Sink | Status::Memory => status,
        Status::Done | Status::Words | Status::Partial | Status::Text => match sink.flush() {
            Ok(()) => status,
            Err(_) => Status::Sink,
        },
    }
}
