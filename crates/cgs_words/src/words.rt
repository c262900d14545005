//! A plan is read from the words.

ghost use Rattle.std.specs.Prelude.{◌≡◌, ◌<◌, ◌≤◌, IfOk};
ghost use Rattle.cgs_words.specs.Words.{plan_of, command_of, stress_of, optioned, plan_with, most_workers};

use crate::number::read_number;
use crate::options::{Options, read_options};
use crate::plan::{Command, Plan, WordFault};
use cgs_io::{Word, WordList};

const MOST_STRESS: u64 = 999_999;

const WORKERS: u32 = 1;

const BUDGET: u64 = 10_000_000;

const DEPTH: u32 = 64;

/// The plan that the words after the program's name ask for, or their first fault.
pub fn read_words(words: &WordList) -> Result<Plan, WordFault>
    ensures plan { result ≡ plan_of words.now }
    ensures some_worker { IfOk result (λ plan. 0 < plan.workers) }
    ensures few_workers { IfOk result (λ plan. plan.workers ≤ most_workers) }
{
    let Some((word, rest)) = words.as_slice().split_first() else {
        return Err(WordFault::NoWord);
    };
    if word.as_slice() == b"stress".as_slice() {
        return read_stress(rest);
    }
    read_optioned(read_command(word.as_slice())?, rest)
}

// A command that no number follows.
fn read_command(word: &[u8]) -> Result<Command, WordFault>
    ensures { result ≡ command_of word.now }
{
    if word == b"check".as_slice() {
        Ok(Command::Check)
    } else if word == b"basis".as_slice() {
        Ok(Command::Basis)
    } else if word == b"solve".as_slice() {
        Ok(Command::Solve)
    } else if word == b"locate".as_slice() {
        Ok(Command::Locate)
    } else if word == b"discover".as_slice() {
        Ok(Command::Discover)
    } else {
        Err(WordFault::Command)
    }
}

// The number of `stress`, and then options.
fn read_stress(words: &[Word]) -> Result<Plan, WordFault>
    ensures { result ≡ stress_of words.now }
{
    let Some((word, rest)) = words.split_first() else {
        return Err(WordFault::Value);
    };
    let number = read_number(word.as_slice(), 0, MOST_STRESS)?;
    read_optioned(Command::Stress(number as u32), rest)
}

// A command whose options are these words.
fn read_optioned(command: Command, words: &[Word]) -> Result<Plan, WordFault>
    ensures { result ≡ optioned command words.now }
{
    let options = read_options(words)?;
    Ok(plan(command, options))
}

// The plan with these options, and with the usual values of those that were not given.
fn plan(command: Command, options: Options) -> Plan
    ensures { result ≡ plan_with command options }
{
    Plan {
        command,
        workers: options.workers.unwrap_or(WORKERS),
        budget: options.budget.unwrap_or(BUDGET),
        depth: options.depth.unwrap_or(DEPTH),
        history: options.history,
    }
}
