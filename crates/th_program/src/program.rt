//! What the program does with its words, over any reader and writers.
ghost use Rattle.std.specs.Prelude.{◌≡◌, IsTrue, Some, codes, true, false, map, [], ◌∷◌, ◌++◌};
ghost use Rattle.std.specs.Fmt.{decimal};
ghost use Rattle.std.specs.Io.KnownBytes.{Appends};
ghost use Rattle.th_lines.specs.Device.{one_more};
ghost use Rattle.th_replay.specs.Outcome.{devices};
ghost use Rattle.th_program.specs.Run.{Ends, EndsCheck, EndsReplay, IsHelpOf, IsExplained, IsSaid, errors_of, line_of, number_of, verdict_line, word_of};
ghost use Rattle.th_program.specs.Status.{explanation_of};

use crate::end::{End, explanation};
use crate::modes::{Mode, ModeFault};
use crate::words::{hint, mode};
use itoa::Buffer;
use std::alloc::Global;
use std::io::{Read, Write};
use std::mem;
use th_lines::{Counted, MOST_LINES, MOST_READS, Moved};
use th_replay::{CheckFault, ReplayFault, Verdict, check_explained, replay_kept};

// How many interrupted writes of a text are made again.
const RETRIES: u32 = 1000;

// Writes the whole text; `false` where the writer failed.
pub(crate) fn write_text<W: Write>(writer: &mut Counted<W>, text: &[u8]) -> bool
    ensures whole { result ≡ true
        → Appends (W.contents writer.old.device) (W.contents writer.new.device) text.now }
    ensures taken { result ≡ true → writer.new.failures ≡ writer.old.failures }
    ensures failed { result ≡ false → writer.new.failures ≡ one_more writer.old.failures }
{
    let mut retries = RETRIES;
    let mut at = 0;
    while at < text.len() {
        match writer.write_some(&text[at..], retries > 0) {
            Moved::Bytes(count) => at += count,
            Moved::Again => retries = retries.saturating_sub(1),
            Moved::Failed => return false,
        }
    }
    true
}

// Says the text as an error. Where that fails too, the exit status alone tells of it.
pub(crate) fn say<E: Write>(errors: &mut Counted<E>, text: &[u8])
    ensures said { IsSaid
        (errors_of E.contents errors.old)
        (errors_of E.contents errors.new)
        text.now }
    ensures still { errors.new.failures ≡ 0 → errors.old.failures ≡ 0 }
{
    let _ = write_text(errors, text);
}

// Says what stopped the run, where anything did.
pub(crate) fn explain<E: Write>(errors: &mut Counted<E>, end: &End)
    ensures { IsSaid
        (errors_of E.contents errors.old)
        (errors_of E.contents errors.new)
        (line_of (explanation_of end.now)) }
{
    if let Some(line) = explanation(end) {
        say(errors, line.as_bytes());
        say(errors, b"\n");
    }
}

// Says a line as an error.
fn say_line<E: Write>(errors: &mut Counted<E>, text: &str)
    ensures { IsSaid
        (errors_of E.contents errors.old)
        (errors_of E.contents errors.new)
        (line_of (Some text.now)) }
{
    say(errors, text.as_bytes());
    say(errors, b"\n");
}

// Writes the text of help.
fn write_help<W: Write>(output: &mut Counted<W>, text: &[u8]) -> End
    ensures { IsHelpOf text.now
        (W.contents output.old.device) (W.contents output.new.device) result }
{
    if write_text(output, text) {
        End::Help
    } else {
        End::Write
    }
}

// Carries out the schedule of the reader. What is left of the run is not freed event by event: the process ends soon.
fn carry_out<R: Read, W: Write>(
    alloc: Global,
    input: &mut Counted<R>,
    output: &mut Counted<W>,
) -> End
    ensures { EndsReplay
        (devices R.remaining input.old W.contents output.old)
        (devices R.remaining input.new W.contents output.new)
        result }
{
    let (end, left) = replay_kept(alloc, input, output, MOST_LINES, MOST_READS);
    mem::forget(left);
    match end {
        Ok(_) => End::Done,
        Err(ReplayFault::Read) => End::Read,
        Err(ReplayFault::Write) => End::Write,
        Err(ReplayFault::TooLong) => End::TooLong,
        Err(ReplayFault::Short) => End::Short,
    }
}

// The word of a verdict, and its number.
fn told(verdict: Verdict) -> (&'static [u8], u64)
    ensures word { result.0.now ≡ word_of verdict }
    ensures number { result.1 ≡ number_of verdict }
{
    match verdict {
        Verdict::Legal(count) => (b"legal ", count),
        Verdict::Illegal(number) => (b"illegal ", number),
        Verdict::BadTrace(number) => (b"bad ", number),
    }
}

// Writes a word and a number behind it; `false` where the writer failed. It takes no memory.
pub(crate) fn write_number<W: Write>(output: &mut Counted<W>, word: &[u8], number: u64) -> bool
    ensures { result ≡ true → Appends
        (W.contents output.old.device) (W.contents output.new.device)
        (word.now ++ decimal number) }
{
    let mut digits = Buffer::new();
    if !write_text(output, word) {
        return false;
    }
    write_text(output, digits.format(number).as_bytes())
}

// Writes the line of a verdict; `false` where the writer failed.
pub(crate) fn write_verdict<W: Write>(output: &mut Counted<W>, verdict: Verdict) -> bool
    ensures { result ≡ true → Appends
        (W.contents output.old.device) (W.contents output.new.device) (verdict_line verdict) }
{
    let (word, number) = told(verdict);
    if !write_number(output, word, number) {
        return false;
    }
    write_text(output, b"\n")
}

// Checks the trace of the reader, and tells the verdict. What is wrong with the trace is put into the text.
fn carry_out_check<R: Read, W: Write>(
    alloc: Global,
    input: &mut Counted<R>,
    output: &mut Counted<W>,
    text: &mut Vec<u8>,
) -> End
    ensures { EndsCheck
        (devices R.remaining input.old W.contents output.old)
        (devices R.remaining input.new W.contents output.new)
        result }
{
    let verdict = match check_explained(alloc, input, text) {
        Ok(verdict) => verdict,
        Err(CheckFault::Read) => return End::Read,
        Err(CheckFault::TooLong) => return End::TooLong,
        Err(CheckFault::Short) => return End::Short,
    };
    if !write_verdict(output, verdict) {
        return End::Write;
    }
    match verdict {
        Verdict::Legal(_) => End::Done,
        Verdict::Illegal(_) => End::Illegal,
        Verdict::BadTrace(_) => End::Bad,
    }
}

/// The end of a run for whose words there was no memory.
pub fn run_short<E: Write>(errors: &mut Counted<E>) -> End
    ensures end { result ≡ End.Short }
    ensures explained { IsExplained
        (errors_of E.contents errors.old)
        (errors_of E.contents errors.new)
        result }
{
    explain(errors, &End::Short);
    End::Short
}

/// The end of a run of whose words one is no text.
pub fn run_not_text<E: Write>(errors: &mut Counted<E>) -> End
    ensures end { result ≡ End.Usage }
    ensures said { IsSaid
        (errors_of E.contents errors.old)
        (errors_of E.contents errors.new)
        (line_of (Some (codes "error: a word of the command line is not UTF-8"))) }
{
    say_line(errors, "error: a word of the command line is not UTF-8");
    End::Usage
}

/// Says at a terminal, as an error, what a replay waits for. Elsewhere nothing is said.
pub fn greet<E: Write>(errors: &mut Counted<E>, at_terminal: bool)
    ensures said { IsTrue at_terminal → IsSaid
        (errors_of E.contents errors.old)
        (errors_of E.contents errors.new)
        (line_of (Some (codes "topichub: reading a schedule, line by line; Ctrl-D ends it"))) }
    ensures silent { at_terminal ≡ false → errors.new ≡ errors.old }
{
    if at_terminal {
        say_line(
            errors,
            "topichub: reading a schedule, line by line; Ctrl-D ends it",
        );
    }
}

// Says what is wrong with a trace, or what stopped the check of it.
fn explain_check<E: Write>(errors: &mut Counted<E>, end: &End, text: &[u8], to_people: bool)
    ensures { to_people ≡ false → IsSaid
        (errors_of E.contents errors.old)
        (errors_of E.contents errors.new)
        (line_of (explanation_of end.now)) }
{
    if to_people {
        say(errors, text);
    }
    explain(errors, end);
}

/// Does what the words ask for, the program's name first. `replay` carries out the schedule of
/// `input`, whose hub keeps its memory until the process ends, and `check` says whether its trace is legal. What wants more
/// than streams ends with a fault here: `serve` with a socket fault, and a check of files with a read fault
/// ([`check_by_words`](crate::check_by_words) does it).
/// A text of help, or the version, goes to `output`; what is wrong with the words goes to `errors`, and so does a line that
/// says what stopped the run.
pub fn run<R: Read, W: Write, E: Write>(
    alloc: Global,
    words: &[&str],
    input: &mut Counted<R>,
    output: &mut Counted<W>,
    errors: &mut Counted<E>,
) -> End
    ensures ends { Ends (map (λ w. w.now) words.now)
        (devices R.remaining input.old W.contents output.old)
        (devices R.remaining input.new W.contents output.new)
        result }
    ensures explained { IsExplained
        (errors_of E.contents errors.old)
        (errors_of E.contents errors.new)
        result }
{
    run_for(alloc, words, input, output, errors, false)
}

/// Does what [`run`] does. For people at a terminal it also says as an error, below the verdict of a check, what is wrong
/// with the trace: the line, and for a reply that the channel would not give, the one that it gives.
pub fn run_for<R: Read, W: Write, E: Write>(
    alloc: Global,
    words: &[&str],
    input: &mut Counted<R>,
    output: &mut Counted<W>,
    errors: &mut Counted<E>,
    people: bool,
) -> End
    ensures ends { Ends (map (λ w. w.now) words.now)
        (devices R.remaining input.old W.contents output.old)
        (devices R.remaining input.new W.contents output.new)
        result }
    ensures explained { people ≡ false → IsExplained
        (errors_of E.contents errors.old)
        (errors_of E.contents errors.new)
        result }
{
    match mode(alloc, words) {
        Ok(Mode::Replay) => {
            let end = carry_out(alloc, input, output);
            explain(errors, &end);
            end
        }
        Ok(Mode::Serve { .. }) => {
            explain(errors, &End::Socket);
            End::Socket
        }
        Ok(Mode::CheckFiles { .. }) => {
            explain(errors, &End::Read);
            End::Read
        }
        Ok(Mode::Check) => {
            let mut text = Vec::new(alloc);
            let end = carry_out_check(alloc, input, output, &mut text);
            explain_check(errors, &end, text.as_slice(), people);
            end
        }
        Err(ModeFault::Help(text)) => {
            let end = write_help(output, text.as_bytes());
            explain(errors, &end);
            end
        }
        Err(ModeFault::Usage(text)) => {
            say(errors, text.as_bytes());
            say(errors, hint(words).as_bytes());
            End::Usage
        }
        Err(ModeFault::Short) => run_short(errors),
    }
}
