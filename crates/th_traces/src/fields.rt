//! The words at the front of a line, and its last fields.
ghost use Rattle.std.specs.Prelude.{◌≡◌, ◌≢◌, ◌++◌, ◌∷◌, [], ℕ, List, MatchOption, is_some};
ghost use Rattle.th_lines.specs.Fields.{number_last, number_then, value_last};
ghost use Rattle.th_lines.specs.Reads.{Reads, each_value, rest_of};
ghost use Rattle.th_traces.specs.Tables.{each_pair, number_value_last};

use std::alloc::Global;
use th_lines::LineFault;
use th_lines::fields::{number, number_and_rest, value};
use th_model::{Value, is_value};

// What stands behind these words, if the line begins with them.
#[inline(always)]
pub fn behind<'a>(line: &'a [u8], words: &[u8]) -> Option<&'a [u8]>
    ensures { MatchOption result ((rest : List ℕ) → line.now ≢ words.now ++ rest)
        (λ rest. line.now ≡ words.now ++ rest.now) }
{
    line.strip_prefix(words)
}

// What stands behind this letter and a space, if the line begins with them.
#[inline(always)]
pub fn behind_letter(line: &[u8], letter: u8) -> Option<&[u8]>
    ensures { MatchOption result ((rest : List ℕ) → line.now ≢ (letter ∷ 32 ∷ []) ++ rest)
        (λ rest. line.now ≡ (letter ∷ 32 ∷ []) ++ rest.now) }
{
    match line {
        [first, b' ', rest @ ..] if *first == letter => Some(rest),
        _ => None,
    }
}

// A number as the last field.
pub fn last_number(rest: Option<&[u8]>) -> Option<u64>
    ensures { result ≡ number_last (λ n. n) (rest_of rest.entry) }
{
    number(rest?)
}

// Whether a number is the last field.
pub fn is_last_number(rest: Option<&[u8]>) -> bool
    ensures { result ≡ is_some (number_last (λ n. n) (rest_of rest.entry)) }
{
    last_number(rest).is_some()
}

// Two numbers as the last fields.
pub fn last_numbers(rest: Option<&[u8]>) -> Option<(u64, u64)>
    ensures { result ≡ number_then (λ n. number_last (λ m. (n, m))) (rest_of rest.entry) }
{
    let (n, rest) = number_and_rest(rest?)?;
    Some((n, last_number(rest)?))
}

// A value as the last field.
pub fn last_value(alloc: Global, rest: Option<&[u8]>) -> Result<Value, LineFault>
    ensures { Reads each_value result (value_last (λ value. value) (rest_of rest.entry)) }
{
    match rest {
        Some(bytes) => value(alloc, bytes),
        None => Err(LineFault::BadLine),
    }
}

// Whether a value is the last field.
pub fn is_last_value(rest: Option<&[u8]>) -> bool
    ensures { result ≡ is_some (value_last (λ value. value) (rest_of rest.entry)) }
{
    match rest {
        Some(bytes) => is_value(bytes),
        None => false,
    }
}

// A number and a value as the last fields.
pub fn number_and_value(alloc: Global, rest: Option<&[u8]>) -> Result<(u64, Value), LineFault>
    ensures { Reads each_pair result
        (number_value_last (λ n value. (n, value)) (rest_of rest.entry)) }
{
    let Some(bytes) = rest else {
        return Err(LineFault::BadLine);
    };
    let Some((n, rest)) = number_and_rest(bytes) else {
        return Err(LineFault::BadLine);
    };
    match last_value(alloc, rest) {
        Ok(value) => Ok((n, value)),
        Err(fault) => Err(fault),
    }
}
