//! A line of some words and what follows them. To compare it nothing is read, so no memory is taken.
ghost use Rattle.std.specs.Prelude.{◌≡◌, ◌++◌};
ghost use Rattle.std.specs.Bool.{Decides};
ghost use Rattle.std.specs.Fmt.{decimal};
ghost use Rattle.th_traces.specs.Spellings.{spelled};

use crate::fields::behind;
use th_lines::fields::number;
use th_model::Value;

/// A line, without its line end.
#[derive(Drop)]
pub enum Spelling<'a> {
    /// These words alone.
    Words(&'static [u8]),
    /// These words, and a number.
    Number(&'static [u8], u64),
    /// These words, and a value.
    OfValue(&'static [u8], &'a Value),
}

// Whether the line is these words, and these bytes behind them.
#[inline(always)]
fn is_words(line: &[u8], words: &[u8], bytes: &[u8]) -> bool
    ensures { Decides result (line.now ≡ words.now ++ bytes.now) }
{
    match behind(line, words) {
        Some(rest) => rest == bytes,
        None => false,
    }
}

// Whether the line is these words, and this number behind them.
#[inline(always)]
fn is_number(line: &[u8], words: &[u8], n: u64) -> bool
    ensures { Decides result (line.now ≡ words.now ++ decimal n) }
{
    let Some(digits) = behind(line, words) else {
        return false;
    };
    match number(digits) {
        Some(told) => told == n,
        None => false,
    }
}

// Whether the line is these words, and this value behind them.
#[inline(always)]
fn is_value(line: &[u8], words: &[u8], value: &Value) -> bool
    ensures { Decides result (line.now ≡ words.now ++ value.now) }
{
    is_words(line, words, value.as_bytes())
}

// Whether the line is this one.
#[inline(always)]
pub(crate) fn is_spelled(line: &[u8], spelling: Spelling<'_>) -> bool
    ensures { Decides result (line.now ≡ spelled spelling.entry) }
{
    match spelling {
        Spelling::Words(words) => is_words(line, words, b""),
        Spelling::Number(words, n) => is_number(line, words, n),
        Spelling::OfValue(words, value) => is_value(line, words, value),
    }
}
