//! A watch channel's picture, of which some lines were read.
ghost use Rattle.std.specs.Prelude.{◌≡◌, Some, true};
ghost use Rattle.th_lines.specs.Fields.{field_then};
ghost use Rattle.th_lines.specs.Reads.{rest_of};
ghost use Rattle.th_watch.specs.Held.{shown_picture};
ghost use Rattle.th_traces.specs.Drafts.{TakesLine};
ghost use Rattle.th_traces.specs.Tables.{by_table};
ghost use Rattle.th_traces.specs.WatchDrafts.{body, has_value, reader_last, seen_or_unseen, start, value_field};

use crate::fields::last_value;
use crate::live_handles::{LiveHandles, last_next};
use std::alloc::Global;
use std::marker::Model;
use th_lines::LineFault;
use th_lines::fields::{cut, number_and_rest};
use th_model::Value;
use th_watch::PictureParts;

// A picture of which the line of the start was read, and maybe some below it.
#[derive(Drop)]
pub struct WatchDraft {
    // The number of the newest version.
    version: u64,
    // The newest value, once it was told.
    last: Option<Value>,
    // The live handles so far, and whether the newest value is unseen by each reader.
    handles: LiveHandles<bool>,
}

impl Model for WatchDraft {
    ghost use Rattle.th_traces.specs.WatchDrafts.{IsDraft, Sketch, sketch};

    ghost Value = { Sketch };

    ghost view = { λ d. sketch d.version d.last d.handles };

    ghost invariant = { λ d. IsDraft (sketch d.version d.last d.handles) };
}

// `seen` or `unseen`, as the last field.
fn last_state(rest: Option<&[u8]>) -> Option<bool>
    ensures { result ≡ field_then seen_or_unseen (rest_of rest.entry) }
{
    let (word, rest) = cut(rest?);
    if rest.is_some() {
        return None;
    }
    if word == b"seen".as_slice() {
        return Some(false);
    }
    if word == b"unseen".as_slice() {
        return Some(true);
    }
    None
}

// The number of a reader and how it stands, as the last fields.
fn last_reader(rest: Option<&[u8]>) -> Option<(u64, bool)>
    ensures { result ≡ reader_last (rest_of rest.entry) }
{
    let (rx, rest) = number_and_rest(rest?)?;
    Some((rx, last_state(rest)?))
}

impl WatchDraft {
    // What the fields of `AT` tell.
    pub fn start(alloc: Global, rest: Option<&[u8]>) -> Option<WatchDraft>
        ensures { result ≡ start (rest_of rest.entry) }
    {
        let (version, rest) = number_and_rest(rest?)?;
        let next = last_next(rest)?;
        if version == 0 || next == 0 {
            return None;
        }
        Some(WatchDraft {
            version,
            last: None,
            handles: LiveHandles::new(alloc, next),
        })
    }

    // What a line below that of the start tells: false where it is more of the picture, true where it
    // is that the picture is whole.
    #[tactic(auto, unfolding(crate::specs::WatchDrafts::body))]
    pub fn take_line(&mut self, alloc: Global, line: &[u8]) -> Result<bool, LineFault>
        ensures { TakesLine result self.old self.new (by_table (body self.old) line.now) }
    {
        let (word, rest) = cut(line);
        if word == b"KEEP".as_slice() {
            return self.take_value(alloc, rest);
        }
        let has_value = self.last.is_some();
        if word == b"TX".as_slice() {
            return self.handles.take_sender(has_value, rest);
        }
        if word == b"RX".as_slice() {
            return self.handles.take_receiver(has_value, last_reader(rest));
        }
        if word == b"BEGIN".as_slice() && rest.is_none() && has_value {
            return Ok(true);
        }
        Err(LineFault::BadLine)
    }

    // The picture, of which all was told.
    pub fn into_parts(self) -> PictureParts<Value>
        requires { has_value self ≡ true }
        ensures { self ≡ shown_picture
            result.version (Some result.last) result.readers result.senders result.next }
    {
        let WatchDraft {
            version,
            last,
            handles,
        } = self;
        let Some(last) = last else {
            unreachable!();
        };
        let (senders, readers, next) = handles.into_parts();
        PictureParts::new(version, last, readers, senders, next)
    }

    // The field of `KEEP`.
    fn take_value(&mut self, alloc: Global, rest: Option<&[u8]>) -> Result<bool, LineFault>
        ensures { TakesLine result self.old self.new (value_field self.old (rest_of rest.entry)) }
    {
        if self.last.is_some() {
            return Err(LineFault::BadLine);
        }
        match last_value(alloc, rest) {
            Ok(value) => {
                self.last = Some(value);
                Ok(false)
            }
            Err(fault) => Err(fault),
        }
    }
}
