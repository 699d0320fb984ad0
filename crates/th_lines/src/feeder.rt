//! Lines that are read and fed to a taker, one after another.
ghost use Rattle.std.specs.Prelude.{◌≡◌, ℕ, ◌<◌, ◌≤◌, ◌+◌, ◌-◌, [], List, Option, None, not, true, false, length, IfOk};
ghost use Rattle.std.specs.Io.KnownBytes.{IsAtEnd};
ghost use Rattle.th_lines.specs.Device.{failures_after, one_more};
ghost use Rattle.th_lines.specs.Feeding.{Feeds, GoesOn, HandsOut, IsFull, Settles, Stands, Takes, TakesOn, TakesRow, Underway, beginning, failures_by, failures_so_far, reading};
ghost use Rattle.th_lines.specs.Intake.{Ends, Fills, Passes, lines_after, line_given, most_read, nothing_came};
ghost use Rattle.th_lines.specs.Lines.{Line, line_of};

use crate::counted::{Counted, Moved};
use crate::intake::Intake;
use std::alloc::{AllocError, Global};
use std::io::Read;
use std::marker::Model;

/// How many lines a taker took together, and whether it has stopped with the last of them.
#[derive(Drop)]
pub struct Row<E> {
    pub count: usize,
    pub end: Result<(), E>,
}

/// What takes lines, one by one or several together, and works on a desk and a writer beside, or on whatever it has in their
/// place.
pub trait TakesLines<D, W> {
    /// Why it takes no further line.
    type Stop;

    /// From there it took these lines, and stands here.
    ghost took: { Self × D × W → List Line → Self × D × W → Type 0 };

    /// From there it was handed these lines, has stopped, and stands here.
    ghost halts: { Self × D × W → List Line → Self.Stop → Self × D × W → Type 0 };

    /// Nothing of what it took is held back.
    ghost is_settled: { Self × D × W → Type 0 };

    /// Holds nothing back of what it took, so many lines: the next read may wait.
    fn settle(&mut self, desk: &mut D, writer: &mut W, taken: u64) -> Result<(), Self::Stop>
        ensures { Settles took halts is_settled
            (self.old, desk.old, writer.old) result (self.new, desk.new, writer.new) };

    /// Takes a line, which is given without its end, or as `None` where it has more than 4,096 bytes. It took so many
    /// before.
    fn take(
        &mut self,
        alloc: Global,
        desk: &mut D,
        writer: &mut W,
        taken: u64,
        line: Option<&[u8]>,
    ) -> Result<(), Self::Stop>
        ensures { Takes took halts taken (line_given line.entry)
            (self.old, desk.old, writer.old) result (self.new, desk.new, writer.new) };

    /// Takes the line that the intake hands out, which has an LF, together with those that stand whole behind it: as many of
    /// them as it takes so, at most so many, or none. It took so many before.
    fn take_row(
        &mut self,
        _alloc: Global,
        _desk: &mut D,
        _writer: &mut W,
        _taken: u64,
        _most: u64,
        _intake: &Intake,
    ) -> Row<Self::Stop>
        ensures { TakesRow took halts _taken _most _intake.now
            (self.old, _desk.old, _writer.old) result.count result.end
            (self.new, _desk.new, _writer.new) }
    {
        Row {
            count: 0,
            end: Ok(()),
        }
    }
}

/// Why no further line is fed.
#[derive(Drop)]
pub enum Fed<E> {
    /// The input has ended, and all its lines were taken.
    Ended,
    /// The taker has stopped.
    Stopped(E),
    /// A line beyond the bound has begun.
    Full,
    /// The reader failed. All lines that came whole were taken.
    Failed,
    /// All reads were made, and the input has not ended. All lines that came whole were taken.
    Spent,
}

/// What was read of an input, and how many of its lines were fed to a taker.
#[derive(Drop)]
pub struct Feeder {
    // What was read and is not taken yet.
    intake: Intake,
    // How many lines were handed out: one more with each.
    taken: u64,
    // How many lines may be handed out. It never changes.
    limit: u64,
    // Whether the input has ended.
    ended: bool,
}

impl Model for Feeder {
    ghost use Rattle.th_lines.specs.Feeding.{Feeding, IsBounded};

    ghost Value = { Feeding };

    ghost view = { λ f. record {
      line = f.intake.line;
      came = f.intake.came;
      taken = f.taken;
      limit = f.limit;
      ended = f.ended;
    } };

    ghost invariant = { λ f. IsBounded f.intake.came f.taken f.limit };
}

impl Feeder {
    /// Nothing was read yet, and so many lines may be handed out. It makes the buffer.
    pub fn new(alloc: Global, limit: u64) -> Result<Feeder, AllocError>
        ensures { IfOk result (λ f. f ≡ beginning limit) }
    {
        let intake = Intake::new(alloc)?;
        Ok(Feeder {
            intake,
            taken: 0,
            limit,
            ended: false,
        })
    }

    /// How many lines were handed out: never more than may be.
    pub fn taken(&self) -> u64
        ensures taken { result ≡ self.now.taken }
        ensures within { result ≤ self.now.limit }
    {
        self.taken
    }

    /// The line that was handed out last, without its end; `None` where it is too long.
    pub fn line(&self) -> Option<&[u8]>
        ensures { line_given result ≡ line_of (not self.now.ended) self.now.line }
    {
        self.intake.line(!self.ended)
    }

    /// Reads to the end of the input by at most so many reads, of which an interrupted one is made again and counts,
    /// and feeds the lines as they come. Before each read the taker settles.
    pub fn feed<D, W, T: TakesLines<D, W>, R: Read>(
        &mut self,
        taker: &mut T,
        alloc: Global,
        desk: &mut D,
        writer: &mut W,
        reader: &mut Counted<R>,
        reads: u64,
    ) -> Fed<T::Stop>
        requires { self.old ≡ beginning self.old.limit }
        ensures fed { Feeds T.took T.halts T.is_settled
            (R.remaining reader.old.device) (R.remaining reader.new.device)
            reader.old.calls reader.new.calls reads
            (taker.old, desk.old, writer.old) result self.new (taker.new, desk.new, writer.new) }
        ensures limit { self.new.limit ≡ self.old.limit }
        ensures calls { reader.new.calls ≤ reader.old.calls + reads }
        ensures failures { reader.new.failures ≡ failures_by reader.old.failures result }
    {
        for made in 0..reads {
            match self.read_on(taker, alloc, desk, writer, reader) {
                None => {}
                Some(fed) => return fed,
            }
        }
        Fed::Spent
    }

    // Has the taker settle, makes one read, and feeds the lines that came whole; at the end of the input, what is left.
    fn read_on<D, W, T: TakesLines<D, W>, R: Read>(
        &mut self,
        taker: &mut T,
        alloc: Global,
        desk: &mut D,
        writer: &mut W,
        reader: &mut Counted<R>,
    ) -> Option<Fed<T::Stop>>
        requires { self.old.came.ahead ≡ [] }
        ensures read { (first : Option (List ℕ)) (reads : ℕ) (from : T × D × W)
            → Underway T.took T.halts first (R.remaining reader.old.device) from reads
            self.old (taker.old, desk.old, writer.old)
            → GoesOn T.took T.halts first (R.remaining reader.new.device) from
            T.is_settled (reads + 1) result self.new (taker.new, desk.new, writer.new) }
        ensures looked_at { result ≡ None → self.new.came.ahead ≡ [] }
        ensures limit { self.new.limit ≡ self.old.limit }
        ensures calls { reader.new.calls ≤ reader.old.calls + 1 }
        ensures call { result ≡ None → reader.new.calls ≡ one_more reader.old.calls }
        ensures failures { reader.new.failures ≡ failures_so_far reader.old.failures result }
    {
        match taker.settle(desk, writer, self.taken) {
            Ok(()) => {}
            Err(why) => return Some(Fed::Stopped(why)),
        }
        match self.fill(reader) {
            Moved::Bytes(0) => Some(self.finish(taker, alloc, desk, writer)),
            Moved::Bytes(_) => self.take_all(taker, alloc, desk, writer),
            Moved::Again => None,
            Moved::Failed => Some(Fed::Failed),
        }
    }

    // Makes one read.
    fn fill<R: Read>(&mut self, reader: &mut Counted<R>) -> Moved
        requires { self.old.came.ahead ≡ [] }
        ensures same { self.new ≡ record self.old { line = self.new.line; came = self.new.came } }
        ensures filled { Fills
            (R.remaining reader.old.device) (R.remaining reader.new.device) result
            self.old.came self.new.came }
        ensures most { length self.new.came.ahead ≤ most_read }
        ensures calls { reader.new.calls ≡ one_more reader.old.calls }
        ensures failures { reader.new.failures ≡ failures_after reader.old.failures result }
    {
        self.intake.fill(reader)
    }

    // Feeds all lines that came whole.
    fn take_all<D, W, T: TakesLines<D, W>>(
        &mut self,
        taker: &mut T,
        alloc: Global,
        desk: &mut D,
        writer: &mut W,
    ) -> Option<Fed<T::Stop>>
        ensures all { (reader reader' : Option (List ℕ)) (reads : ℕ) (from : T × D × W)
            → Underway T.took T.halts reader reader' from reads
            self.old (taker.old, desk.old, writer.old)
            → GoesOn T.took T.halts reader reader' from
            T.is_settled reads result self.new (taker.new, desk.new, writer.new) }
        ensures looked_at { result ≡ None → self.new.came.ahead ≡ [] }
        ensures limit { self.new.limit ≡ self.old.limit }
        ensures failures { (n : ℕ) → failures_so_far n result ≡ n }
    {
        loop {
            if !self.hand_out() {
                if self.is_full() {
                    return Some(Fed::Full);
                }
                return None;
            }
            match self.take_lines(taker, alloc, desk, writer) {
                Ok(()) => {}
                Err(why) => return Some(Fed::Stopped(why)),
            }
        }
    }

    // Hands out the next line, if it came whole and may be taken.
    #[inline(always)]
    fn hand_out(&mut self) -> bool
        ensures { HandsOut self.old result self.new }
    {
        if self.taken >= self.limit {
            return false;
        }
        self.intake.next_line()
    }

    // Whether a line beyond the bound has begun.
    fn is_full(&self) -> bool
        ensures full { result ≡ true → IsFull self.now }
        ensures room { result ≡ false → self.now.taken ≡ self.now.limit
            → self.now.came ≡ nothing_came }
    {
        self.taken >= self.limit && !self.intake.is_empty()
    }

    // Feeds what stands after the last LF, at the end of the input.
    #[inline(never)]
    fn finish<D, W, T: TakesLines<D, W>>(
        &mut self,
        taker: &mut T,
        alloc: Global,
        desk: &mut D,
        writer: &mut W,
    ) -> Fed<T::Stop>
        requires { self.old.came.ahead ≡ [] }
        ensures finished { (reader reader' : Option (List ℕ)) (reads : ℕ) (from : T × D × W)
            → IsAtEnd reader' → Underway T.took T.halts reader reader' from reads
            self.old (taker.old, desk.old, writer.old)
            → Stands T.took T.halts reader reader' from
            T.is_settled ⊥ reads result self.new (taker.new, desk.new, writer.new) }
        ensures limit { self.new.limit ≡ self.old.limit }
        ensures failures { (n : ℕ) → failures_by n result ≡ n }
    {
        if !self.end() {
            return Fed::Ended;
        }
        match self.take_line(taker, alloc, desk, writer, false) {
            Ok(()) => Fed::Ended,
            Err(why) => Fed::Stopped(why),
        }
    }

    // Hands out what stands after the last LF at the end of the input, and answers whether anything does.
    fn end(&mut self) -> bool
        requires { self.old.came.ahead ≡ [] }
        ensures ends { Ends self.old.came result (reading self.new) }
        ensures same { self.new ≡ record self.old {
          line = self.new.line;
          came = self.new.came;
          ended = true;
        } }
        ensures room { result ≡ true → self.old.taken < self.old.limit }
        ensures within { self.old.taken ≤ self.old.limit }
    {
        self.ended = true;
        self.intake.last_line()
    }

    // Feeds the line that was handed out.
    #[inline(always)]
    fn take_line<D, W, T: TakesLines<D, W>>(
        &mut self,
        taker: &mut T,
        alloc: Global,
        desk: &mut D,
        writer: &mut W,
        before_lf: bool,
    ) -> Result<(), T::Stop>
        requires room { self.old.taken < self.old.limit }
        requires line { self.old.came.begun ≡ [] }
        ensures took { Takes T.took T.halts self.old.taken (line_of before_lf self.old.line)
            (taker.old, desk.old, writer.old) result (taker.new, desk.new, writer.new) }
        ensures same { self.new ≡ record self.old { taken = self.old.taken + 1 } }
    {
        let line = self.intake.line(before_lf);
        let taken = self.taken;
        self.taken += 1;
        taker.take(alloc, desk, writer, taken, line)
    }

    // Has the taker take those lines together, from the one that was handed out on, that it takes so.
    #[inline(always)]
    fn row<D, W, T: TakesLines<D, W>>(
        &self,
        taker: &mut T,
        alloc: Global,
        desk: &mut D,
        writer: &mut W,
    ) -> Row<T::Stop>
        ensures { TakesRow T.took T.halts self.now.taken (self.now.limit - self.now.taken)
            (reading self.now) (taker.old, desk.old, writer.old) result.count result.end
            (taker.new, desk.new, writer.new) }
    {
        let most = self.limit - self.taken;
        taker.take_row(alloc, desk, writer, self.taken, most, &self.intake)
    }

    // Feeds the line that was handed out, and those behind it that the taker takes together with it.
    #[inline(always)]
    fn take_lines<D, W, T: TakesLines<D, W>>(
        &mut self,
        taker: &mut T,
        alloc: Global,
        desk: &mut D,
        writer: &mut W,
    ) -> Result<(), T::Stop>
        requires room { self.old.taken < self.old.limit }
        requires line { self.old.came.begun ≡ [] }
        ensures { TakesOn T.took T.halts self.old (taker.old, desk.old, writer.old)
            result self.new (taker.new, desk.new, writer.new) }
    {
        let Row { count, end } = self.row(taker, alloc, desk, writer);
        if count > 0 {
            self.pass(count);
            return end;
        }
        match end {
            Ok(()) => self.take_line(taker, alloc, desk, writer, true),
            Err(why) => Err(why),
        }
    }

    // So many lines were taken, from the one that was handed out on: the last of them is the one that was handed out now.
    #[inline(always)]
    fn pass(&mut self, count: usize)
        requires some { 0 < count }
        requires room { self.old.taken + count ≤ self.old.limit }
        requires line { self.old.came.begun ≡ [] }
        requires there { count ≤ 1 + length (lines_after false self.old.came []) }
        ensures passes { Passes (count - 1) self.old.came self.new.came }
        ensures same { self.new ≡ record self.old {
          line = self.new.line;
          came = self.new.came;
          taken = self.old.taken + count;
        } }
    {
        self.intake.pass(count - 1);
        self.taken += count as u64;
    }
}
