//! A number that a word writes.

ghost use Rattle.std.specs.Prelude.{◌≡◌, ◌≤◌, ◌^◌, true, MatchOption};
ghost use Rattle.std.specs.Char.{is_ascii_digit};
ghost use Rattle.std.specs.List.{list_all};
ghost use Rattle.std.specs.Str.Parse.{digits_value};
ghost use Rattle.cgs_words.specs.Words.{number_in, is_numeral};

use crate::plan::WordFault;

/// The number, from the least to the most, that the word writes with digits alone and without a leading zero.
pub(crate) fn read_number(word: &[u8], least: u64, most: u64) -> Result<u64, WordFault>
    ensures { result ≡ number_in least most word.now }
{
    if !is_numeral(word) {
        return Err(WordFault::Value);
    }
    match parse(word) {
        Some(n) if least <= n && n <= most => Ok(n),
        _ => Err(WordFault::Value),
    }
}

// The number that digits write, if it has room.
fn parse(digits: &[u8]) -> Option<u64>
    requires { is_numeral digits.now ≡ true }
    ensures { MatchOption result (2 ^ 64 ≤ digits_value 10 digits.now) (λ n. n ≡ digits_value 10 digits.now) }
{
    match std::str::from_utf8(digits) {
        Ok(text) => text.parse().ok(),
        Err(_) => None,
    }
}

// Digits alone, and 0 first only in `0` itself.
fn is_numeral(word: &[u8]) -> bool
    ensures { result ≡ is_numeral word.now }
{
    match word {
        [] => false,
        [b'0', _, ..] => false,
        _ => are_digits(word),
    }
}

fn are_digits(word: &[u8]) -> bool
    ensures { result ≡ list_all is_ascii_digit word.now }
{
    word.iter().all(|byte| byte.is_ascii_digit())
}
