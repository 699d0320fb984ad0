//! A run of the program on the streams of its process.
ghost use Rattle.std.specs.Prelude.{◌≡◌, IfOk, map, string_bytes};

use crate::advising::Advising;
use crate::end::status;
use crate::files::check_by_words;
use crate::program::{greet, run_for, run_not_text, run_short};
use std::alloc::{AllocError, Global};
use std::env;
use std::io::{ErrorKind, IsTerminal};
use std::process::ExitCode;
use std::rt::Env;
use th_lines::Counted;

/// Why the words of the command line are not known.
#[derive(Clone, Copy, Drop)]
pub enum WordsFault {
    /// There was no memory for them.
    Short,
    /// One of them is not UTF-8.
    NotText,
}

/// The words of the command line, the program's name first.
///
/// # Errors
///
/// `NotText` where one of them is not UTF-8, `Short` where memory was refused.
pub fn given_words<R: Env + AllocGlobal>(rt: &R) -> Result<Vec<String>, WordsFault> {
    match env::args(rt) {
        Ok(words) => match words.collect(rt.alloc()) {
            Ok(words) => Ok(words),
            Err(_) => Err(WordsFault::Short),
        },
        Err(error) if error.kind() == ErrorKind::InvalidData => Err(WordsFault::NotText),
        Err(_) => Err(WordsFault::Short),
    }
}

/// The texts of the words.
///
/// # Errors
///
/// [`AllocError`] where memory was refused.
pub fn texts<'a>(alloc: Global, words: &'a [String]) -> Result<Vec<&'a str>, AllocError>
    ensures { IfOk result (λ texts. map (λ t. t.now) texts.items ≡ map string_bytes words.now) }
{
    let mut texts = Vec::with_capacity(alloc, words.len())?;
    for word in words {
        texts.push(word.as_str())?;
    }
    Ok(texts)
}

// The words are those of a replay.
fn is_replay(words: &[&str]) -> bool {
    words.len() == 2 && words[1] == "replay"
}

/// Does what these words of the command line ask for, as [`run_for`] and [`check_by_words`] do, on the standard streams, and
/// answers the exit status; it ends as `no memory` or as wrong words where there are none. The streams are
/// used as they are: what goes through them goes in large pieces already.
pub fn run_on_streams(rt: &HostRuntime, given: Result<&[String], WordsFault>) -> ExitCode {
    let alloc = rt.alloc();
    let words = match given {
        Ok(given) => texts(alloc, given).map_err(|_| WordsFault::Short),
        Err(why) => Err(why),
    };
    let mut stdin = rt.stdin();
    let at_terminal = stdin.is_terminal();
    let stderr = rt.stderr();
    let people = stderr.is_terminal();
    let replays = match &words {
        Ok(words) => is_replay(words.as_slice()),
        Err(_) => false,
    };
    let replies = Advising::new(rt.stdout(), rt.stderr(), people && replays);
    let mut output = Counted::new(replies);
    let mut errors = Counted::new(stderr);
    let end = match &words {
        Ok(words) => {
            let words = words.as_slice();
            greet(&mut errors, at_terminal && replays);
            match check_by_words(
                alloc,
                rt,
                words,
                &mut stdin,
                &mut output,
                &mut errors,
                people,
            ) {
                Some(end) => end,
                None => {
                    let mut input = Counted::new(stdin);
                    run_for(alloc, words, &mut input, &mut output, &mut errors, people)
                }
            }
        }
        Err(WordsFault::Short) => run_short(&mut errors),
        Err(WordsFault::NotText) => run_not_text(&mut errors),
    };
    ExitCode::from(status(&end))
}
