//! The lines of a broadcast channel's picture, printed.
ghost use Rattle.std.specs.Prelude.{◌≡◌, ◌≤◌, length};
ghost use Rattle.th_traces.specs.Broadcast.{told};
ghost use Rattle.th_traces.specs.Spelled.{picture_lines};
ghost use Rattle.th_traces.specs.declared.head.Version.{Version};

use crate::head::Version;
use crate::opening::Opening;
use crate::picture_lines::{PictureLines, Standing};
use crate::put::put_numbers;
use th_bcast::PictureParts;
use th_model::Value;

/// The lines of a broadcast channel's picture, to be printed one after the other.
pub type BroadcastLines<'a> = PictureLines<'a, u64>;

impl Standing for u64 {
    ghost use Rattle.std.specs.Fmt.{decimal};

    ghost spelled = { decimal };

    fn put_receiver(&self, rx: u64, out: &mut Vec<u8>) {
        put_numbers(b"RX ", rx, b" ", *self, out);
    }
}

impl<'a> BroadcastLines<'a> {
    /// The lines of the picture, in a trace of this version: the first one, `AT`, a line for each
    /// kept value, sender and receiver, and `BEGIN`.
    pub fn new(version: Version, picture: &'a PictureParts<Value>) -> BroadcastLines<'a>
        ensures { result ≡ picture_lines (told version picture.entry.now) }
    {
        let window = picture.window();
        let kept = window.kept();
        let low = window.tail() - kept.len() as u64;
        let opening = Opening::Broadcast(
            version,
            window.capacity(),
            low,
            window.tail(),
            kept.iter(),
        );
        let senders = picture.senders();
        PictureLines::of(opening, picture.next_number(), senders, window.places())
    }

    /// How many lines the picture has, in a trace of whichever version: at most 196,609.
    pub fn count(picture: &PictureParts<Value>) -> u64
        ensures count { (version : Version) →
            result ≡ length (picture_lines (told version picture.now)) }
        ensures most { result ≤ 196609 }
    {
        let window = picture.window();
        // Its contract says that the picture is sound: few handles are live.
        let _next = picture.next_number();
        let handles = picture.senders().len() + window.places().len();
        handles as u64 + window.kept().len() as u64 + 3
    }
}
