//! The lines of a picture of either kind, printed.
ghost use Rattle.std.specs.Prelude.{◌≡◌, ◌+◌, ◌≤◌, ◌++◌, IsOk, map, vec_len, vec_capacity};
ghost use Rattle.th_lines.specs.Replies.{ended};
ghost use Rattle.th_traces.specs.Openings.{told_of};
ghost use Rattle.th_traces.specs.Spelled.{Bytes, picture_lines, receiver_line};
ghost use Rattle.th_traces.specs.ToCome.{PrintsNext};

use crate::opening::Opening;
use crate::put::{put_number, put_value, put_words};
use crate::stage::Stage;
use std::alloc::AllocError;
use std::collections::{BTreeMap, BTreeSet, btree_map, btree_set};
use std::marker::Model;

// How a receiver stands.
pub(crate) trait Standing {
    // How that is spelled.
    ghost spelled: { Self → Bytes };

    // Appends the line of a receiver that stands so, where there is room for it.
    fn put_receiver(&self, rx: u64, out: &mut Vec<u8>)
        requires { vec_len out.old + 4000 ≤ vec_capacity out.old }
        ensures text { out.new.items
            ≡ out.old.items ++ ended (receiver_line (rx, spelled self.now)) }
        ensures most { vec_len out.new ≤ vec_len out.old + 4000 }
        ensures room { vec_capacity out.old ≤ vec_capacity out.new };
}

/// The lines of a channel's picture, to be printed one after the other. None of them costs more where
/// there are many.
#[derive(Drop)]
pub struct PictureLines<'a, X: Standing> {
    // Which line is the next.
    stage: Stage,
    // What is told in front of the live handles, with what is left of the values.
    opening: Opening<'a>,
    // The next handle number.
    next: u64,
    // What is left of the live senders.
    senders: btree_set::Iter<'a, u64>,
    // What is left of the live receivers, and how each stands.
    receivers: btree_map::Iter<'a, u64, X>,
}

impl<'a, X: Standing> Model for PictureLines<'a, X> {
    ghost use Rattle.std.specs.Prelude.{List, map};
    ghost use Rattle.th_traces.specs.Openings.{told_of};
    ghost use Rattle.th_traces.specs.Spelled.{Bytes};
    ghost use Rattle.th_traces.specs.ToCome.{to_come};

    ghost Value = { List Bytes };

    ghost view = { λ l. to_come l.stage (told_of
        l.opening l.next l.senders (map (λ rx. (rx.0, X.spelled rx.1)) l.receivers)) };
}

impl<'a, X: Standing> PictureLines<'a, X> {
    // Those of a picture with these handles.
    pub(crate) fn of(
        opening: Opening<'a>,
        next: u64,
        senders: &'a BTreeSet<u64>,
        receivers: &'a BTreeMap<u64, X>,
    ) -> PictureLines<'a, X>
        ensures { let standing = map (λ rx. (rx.0, X.spelled rx.1)) receivers.entry.now.entries in
            result ≡ picture_lines (told_of opening.entry next senders.entry.now.keys standing) }
    {
        PictureLines {
            stage: Stage::Head,
            opening,
            next,
            senders: senders.iter(),
            receivers: receivers.iter(),
        }
    }

    /// Appends the next line, and says whether there was one. Where there is no memory for it, the
    /// text is left as it was, and so are the lines to come. There is, where 4,096 bytes are free: no
    /// line has more.
    pub fn print_next(&mut self, out: &mut Vec<u8>) -> Result<bool, AllocError>
        ensures printed { PrintsNext self.old self.new out.old.items out.new.items result }
        ensures most { vec_len out.new ≤ vec_len out.old + 4096 }
        ensures fits { vec_len out.old + 4096 ≤ vec_capacity out.old → IsOk result }
        ensures room { vec_capacity out.old ≤ vec_capacity out.new }
    {
        out.reserve(4096)?;
        match self.stage {
            Stage::Head => {
                self.stage = Stage::Start;
                self.opening.put_head(out);
                return Ok(true);
            }
            Stage::Start => {
                self.stage = Stage::Body;
                self.opening.put_start(self.next, out);
                return Ok(true);
            }
            Stage::Body => {}
            Stage::Begun => return Ok(false),
        }
        if let Some(value) = self.opening.next_value() {
            put_value(b"KEEP ", value, out);
            return Ok(true);
        }
        if let Some(tx) = self.senders.next() {
            put_number(b"TX ", *tx, out);
            return Ok(true);
        }
        if let Some((rx, standing)) = self.receivers.next() {
            standing.put_receiver(*rx, out);
            return Ok(true);
        }
        self.stage = Stage::Begun;
        put_words(b"BEGIN", b"", out);
        Ok(true)
    }
}
