//! A writer of replies that says what to do about refusals.
ghost use Rattle.std.specs.Prelude.{◌≡◌, IfOk, IsTrue, OnErr, false, take};
ghost use Rattle.std.specs.Io.{WritesAtMost};
ghost use Rattle.std.specs.Io.KnownBytes.{Keeps, WriteAppends};
ghost use Rattle.th_program.specs.Advice.{Hears, IsSilent, after, news, text_of, unheard};
ghost use Rattle.th_program.specs.Run.{IsSaid, errors_of};

use crate::advice::Heard;
use crate::program::say;
use std::io;
use std::io::Write;
use std::marker::Model;
use th_lines::Counted;

/// A writer of replies. What is written goes to `output` as it is. For people it also says, as an error, what to do about
/// a refusal among the replies, the first time that it is told. It takes no memory.
#[derive(Drop)]
pub struct Advising<W, E> {
    // Where the replies go.
    output: W,
    // Where the advice goes. What cannot be written there is lost.
    errors: Counted<E>,
    // The replies so far, as far as they matter.
    heard: Heard,
    // Whether anything is said.
    to_people: bool,
}

impl<W, E> Model for Advising<W, E> {
    ghost use Rattle.th_program.specs.Advice.{Advised};

    ghost Value = { Advised W E };

    ghost view = { λ a. record {
      output = a.output;
      errors = a.errors;
      heard = a.heard;
      to_people = a.to_people;
    } };
}

impl<W, E> Advising<W, E> {
    /// A writer to `output` from here on, with advice to `errors` if it is for people.
    pub fn new(output: W, errors: E, to_people: bool) -> Advising<W, E>
        ensures { result ≡ unheard output errors to_people }
    {
        Advising {
            output,
            errors: Counted::new(errors),
            heard: Heard::new(),
            to_people,
        }
    }
}

impl<W, E: Write> Advising<W, E> {
    // Says what to do about the refusals that these bytes are the first to tell of.
    fn advise(&mut self, replies: &[u8])
        ensures output { self.new.output ≡ self.old.output }
        ensures heard { Hears E.contents self.old self.new replies.now }
    {
        for byte in replies {
            self.hear(*byte);
        }
    }

    // The same of one byte.
    fn hear(&mut self, byte: u8)
        ensures output { self.new.output ≡ self.old.output }
        ensures people { self.new.to_people ≡ self.old.to_people }
        ensures heard { self.new.heard ≡ after self.old.heard byte }
        ensures said { IsSaid
            (errors_of E.contents self.old.errors)
            (errors_of E.contents self.new.errors)
            (text_of (news self.old.heard byte)) }
        ensures still { self.new.errors.failures ≡ 0 → self.old.errors.failures ≡ 0 }
    {
        if let Some(text) = self.heard.hear(byte) {
            say(&mut self.errors, text.as_bytes());
        }
    }
}

impl<W: Write, E: Write> Write for Advising<W, E> {
    ghost contents = { λ a. W.contents a.output };

    fn write(&mut self, buf: &[u8]) -> io::Result<usize>
        ensures bound { WritesAtMost result buf.now }
        ensures bytes { WriteAppends (W.contents self.old.output) (W.contents self.new.output)
            result buf.now }
        ensures advised { IsTrue self.old.to_people →
            IfOk result (λ n. Hears E.contents self.old self.new (take n buf.now)) }
        ensures elsewhere { self.old.to_people ≡ false → IsSilent self.old self.new }
        ensures failed { OnErr result (IsSilent self.old self.new) }
    {
        let count = self.output.write(buf)?;
        if self.to_people {
            self.advise(&buf[..count]);
        }
        Ok(count)
    }

    fn flush(&mut self) -> io::Result<()>
        ensures bytes { Keeps (W.contents self.old.output) (W.contents self.new.output) }
        ensures silent { IsSilent self.old self.new }
    {
        self.output.flush()
    }
}
