//! The whole trace of a segment, of either kind, printed.
ghost use Rattle.std.specs.Prelude.{◌≡◌, ◌+◌, ◌≤◌, length, map, IsOk, Some, vec_len, vec_capacity};
ghost use Rattle.std.specs.List.{concat};
ghost use Rattle.th_traces.specs.Grammars.{fields};
ghost use Rattle.th_traces.specs.Pieces.{PrintsPiece, broadcast_pieces, pieces, watch_pieces};
ghost use Rattle.th_traces.specs.Traces.{broadcast_lines, broadcast_trace, watch_lines, watch_trace};
ghost use Rattle.th_traces.specs.Versions.{version_of};

use crate::broadcast_lines::BroadcastLines;
use crate::end::print_end;
use crate::entry::{EntryLines, print_entry};
use crate::head::Version;
use crate::picture_lines::{PictureLines, Standing};
use crate::watch_lines::WatchLines;
use std::alloc::AllocError;
use std::marker::Model;
use th_bcast::Broadcast;
use th_log::Segment;
use th_model::{BCall, BReply, Value, WCall};
use th_shelf::Shelf;
use th_watch::Watch;

/// The whole trace of a segment of a channel's history, to be printed piece by piece: a piece is a line
/// of the picture, the two lines of an entry, or the end line. None of them costs more where there are
/// many.
#[derive(Drop)]
pub struct Trace<'a, X: Standing, C: EntryLines> {
    // What is left of the picture's lines.
    picture: PictureLines<'a, X>,
    // What is left of the entries.
    entries: &'a [(C, C::Reply)],
    // The number of all entries, where the end line is left.
    end: Option<u64>,
}

/// That of a broadcast channel.
pub type BroadcastTrace<'a> = Trace<'a, u64, BCall<Value>>;

/// That of a watch channel.
pub type WatchTrace<'a> = Trace<'a, bool, WCall<Value>>;

impl<'a, X: Standing, C: EntryLines> Model for Trace<'a, X, C> {
    ghost use Rattle.std.specs.Prelude.{List, ℕ};
    ghost use Rattle.th_traces.specs.Grammars.{fields};
    ghost use Rattle.th_traces.specs.Pieces.{pieces};

    ghost Value = { List (List ℕ) };

    ghost view = { λ t. pieces t.picture (fields C.grammar t.entries.now) t.end };
}

impl<'a, X: Standing, C: EntryLines> Trace<'a, X, C> {
    // That of these lines of a picture, and these entries.
    fn of(picture: PictureLines<'a, X>, entries: &'a [(C, C::Reply)]) -> Trace<'a, X, C>
        ensures { let all = fields C.grammar entries.entry.now in
            result ≡ pieces picture.entry all (Some (length all)) }
    {
        Trace {
            picture,
            entries,
            end: Some(entries.len() as u64),
        }
    }

    /// Appends the next piece, and says whether there was one. Where there is no memory for it, the
    /// text is left as it was, and so are the pieces to come. There is, where 4,096 bytes are free:
    /// no piece has more.
    pub fn print_next(&mut self, out: &mut Vec<u8>) -> Result<bool, AllocError>
        ensures printed { PrintsPiece self.old self.new out.old.items out.new.items result }
        ensures most { vec_len out.new ≤ vec_len out.old + 4096 }
        ensures fits { vec_len out.old + 4096 ≤ vec_capacity out.old → IsOk result }
        ensures room { vec_capacity out.old ≤ vec_capacity out.new }
    {
        if self.picture.print_next(out)? {
            return Ok(true);
        }
        if let Some((entry, rest)) = self.entries.split_first() {
            print_entry(&entry.0, &entry.1, out)?;
            self.entries = rest;
            return Ok(true);
        }
        let Some(count) = self.end else {
            return Ok(false);
        };
        print_end(count, out)?;
        self.end = None;
        Ok(true)
    }
}

// The version of a trace with these entries.
fn version_of(entries: &[(BCall<Value>, BReply<Value>)]) -> Version
    ensures { result ≡ version_of (map (λ e. e.0) entries.now) }
{
    let mut version = Version::One;
    for (call, _) in entries {
        version = version.with_call(call);
    }
    version
}

impl<'a> BroadcastTrace<'a> {
    /// The trace of the segment: its start picture and its entries, of the version that they ask
    /// for. Linear in the entries, for their version.
    pub fn new<S: Shelf<Value> + Drop>(
        segment: &'a Segment<Broadcast<Value, S>>,
    ) -> BroadcastTrace<'a>
        ensures pieces { let s = segment.entry.now in result ≡ broadcast_pieces s.start s.entries }
        ensures text { let s = segment.entry.now in
            concat result ≡ broadcast_trace s.start s.entries }
    {
        let entries = segment.entries();
        Trace::of(
            BroadcastLines::new(version_of(entries), segment.start()),
            entries,
        )
    }

    /// How many lines the trace of the segment has. It costs no walk over the entries.
    pub fn line_count<S: Shelf<Value> + Drop>(segment: &Segment<Broadcast<Value, S>>) -> u64
        ensures { let s = segment.now in
            result ≡ length (broadcast_lines s.start s.entries) }
    {
        let entries = segment.entries().len() as u64;
        BroadcastLines::count(segment.start()) + 2 * entries + 1
    }
}

impl<'a> WatchTrace<'a> {
    /// The trace of the segment: its start picture and its entries. The cost is constant.
    pub fn new(segment: &'a Segment<Watch<Value>>) -> WatchTrace<'a>
        ensures pieces { let s = segment.entry.now in result ≡ watch_pieces s.start s.entries }
        ensures text { let s = segment.entry.now in
            concat result ≡ watch_trace s.start s.entries }
    {
        Trace::of(WatchLines::new(segment.start()), segment.entries())
    }

    /// How many lines the trace of the segment has. It costs no walk over the entries.
    pub fn line_count(segment: &Segment<Watch<Value>>) -> u64
        ensures { let s = segment.now in
            result ≡ length (watch_lines s.start s.entries) }
    {
        let entries = segment.entries().len() as u64;
        WatchLines::count(segment.start()) + 2 * entries + 1
    }
}
