//! The options of a command.

ghost use Rattle.std.specs.Prelude.{◌≡◌};
ghost use Rattle.cgs_words.specs.Words.{options_of, no_options, option_of, new_option, is_given, with_value};

use crate::number::read_number;
use crate::plan::WordFault;
use cgs_io::Word;

const MOST_WORKERS: u64 = 64;

const MOST_BUDGET: u64 = 1_000_000_000_000;

const MOST_DEPTH: u64 = 255;

/// An option that takes a value.
#[derive(Clone, Copy, Debug, PartialEq, Eq)]
pub(crate) enum Limit {
    Workers,
    Budget,
    Depth,
}

/// An option by its name.
#[derive(Clone, Copy, Debug, PartialEq, Eq)]
pub(crate) enum Name {
    Valued(Limit),
    History,
}

/// The options that were given so far, with their values.
#[derive(Clone, Copy, Debug, PartialEq, Eq)]
pub(crate) struct Options {
    pub workers: Option<u32>,
    pub budget: Option<u64>,
    pub depth: Option<u32>,
    pub history: bool,
}

/// The options that these words give, from the left.
#[tactic(auto, unfolding(crate::specs::Words::options_of, crate::specs::Words::value_of))]
pub(crate) fn read_options(words: &[Word]) -> Result<Options, WordFault>
    ensures { result ≡ options_of no_options words.now }
{
    let mut options = Options {
        workers: None,
        budget: None,
        depth: None,
        history: false,
    };
    let mut rest = words;
    while let Some((word, after)) = rest.split_first() {
        match new_option(&options, word.as_slice())? {
            Name::Valued(limit) => {
                let Some((value, after)) = after.split_first() else {
                    return Err(WordFault::Value);
                };
                options = with_value(&options, limit, value.as_slice())?;
                rest = after;
            }
            Name::History => {
                options.history = true;
                rest = after;
            }
        }
    }
    Ok(options)
}

// The option of that name, which must not have been given before.
fn new_option(options: &Options, word: &[u8]) -> Result<Name, WordFault>
    ensures { result ≡ new_option options.now word.now }
{
    let name = read_option(word)?;
    if is_given(options, name) {
        Err(WordFault::Repeat)
    } else {
        Ok(name)
    }
}

fn read_option(word: &[u8]) -> Result<Name, WordFault>
    ensures { result ≡ option_of word.now }
{
    if word == b"--workers".as_slice() {
        Ok(Name::Valued(Limit::Workers))
    } else if word == b"--budget".as_slice() {
        Ok(Name::Valued(Limit::Budget))
    } else if word == b"--depth".as_slice() {
        Ok(Name::Valued(Limit::Depth))
    } else if word == b"--history".as_slice() {
        Ok(Name::History)
    } else {
        Err(WordFault::Option)
    }
}

fn is_given(options: &Options, name: Name) -> bool
    ensures { result ≡ is_given options.now name }
{
    match name {
        Name::Valued(Limit::Workers) => options.workers.is_some(),
        Name::Valued(Limit::Budget) => options.budget.is_some(),
        Name::Valued(Limit::Depth) => options.depth.is_some(),
        Name::History => options.history,
    }
}

// The options with the value of one more.
fn with_value(options: &Options, limit: Limit, word: &[u8]) -> Result<Options, WordFault>
    ensures { result ≡ with_value options.now limit word.now }
{
    match limit {
        Limit::Workers => Ok(Options {
            workers: Some(read_number(word, 1, MOST_WORKERS)? as u32),
            ..*options
        }),
        Limit::Budget => Ok(Options {
            budget: Some(read_number(word, 1, MOST_BUDGET)?),
            ..*options
        }),
        Limit::Depth => Ok(Options {
            depth: Some(read_number(word, 1, MOST_DEPTH)? as u32),
            ..*options
        }),
    }
}
