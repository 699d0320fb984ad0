//! The lines of a watch channel's picture, printed.
ghost use Rattle.std.specs.Prelude.{◌≡◌, ◌≤◌, length};
ghost use Rattle.th_traces.specs.Watch.{seen_or_unseen, told};
ghost use Rattle.th_traces.specs.Spelled.{picture_lines};

use crate::opening::Opening;
use crate::picture_lines::{PictureLines, Standing};
use crate::put::put_number_and;
use th_model::Value;
use th_watch::PictureParts;

/// The lines of a watch channel's picture, to be printed one after the other.
pub type WatchLines<'a> = PictureLines<'a, bool>;

impl Standing for bool {
    ghost use Rattle.th_traces.specs.Watch.{seen_or_unseen as seen_word};

    ghost spelled = { seen_word };

    fn put_receiver(&self, rx: u64, out: &mut Vec<u8>) {
        put_number_and(b"RX ", rx, seen_or_unseen(*self), out);
    }
}

impl<'a> WatchLines<'a> {
    /// The lines of the picture: the first one, `AT`, that of the value, a line for each sender and
    /// reader, and `BEGIN`.
    pub fn new(picture: &'a PictureParts<Value>) -> WatchLines<'a>
        ensures { result ≡ picture_lines (told picture.entry.now) }
    {
        let opening = Opening::Watch(picture.version(), Some(picture.value()));
        let senders = picture.senders();
        PictureLines::of(opening, picture.next_number(), senders, picture.readers())
    }

    /// How many lines the picture has: at most 131,074.
    pub fn count(picture: &PictureParts<Value>) -> u64
        ensures count { result ≡ length (picture_lines (told picture.now)) }
        ensures most { result ≤ 131074 }
    {
        // Its contract says that the picture is sound: few handles are live.
        let _next = picture.next_number();
        let handles = picture.senders().len() + picture.readers().len();
        handles as u64 + 4
    }
}

// How a reader stands to whom the newest value is unseen, or not.
fn seen_or_unseen(unseen: bool) -> &'static [u8]
    ensures text { result.now ≡ seen_or_unseen unseen }
    ensures short { length result.now ≤ 6 }
{
    if unseen { b"unseen" } else { b"seen" }
}
