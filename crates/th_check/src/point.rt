//! A trace that is judged line by line.
ghost use Rattle.std.specs.Prelude.{◌≡◌};
ghost use Rattle.th_lines.specs.Intake.{line_given};
ghost use Rattle.th_lines.specs.Lines.{Good};
ghost use Rattle.th_check.specs.Judging.{Begins, Holds, Takes, drawn, taken};
ghost use Rattle.th_check.specs.Points.{InPicture, Point, ended_with};

use crate::course::{self, Course, Due, RingBroadcast, ValueWatch};
use crate::fault::Stop;
use std::alloc::Global;
use th_lines::LineFault;
use th_log::Object;
use th_model::{BCall, Value, WCall};
use th_traces::{Draft, Head, Picture, Version, read_picture};

/// How far a trace was judged.
#[derive(Drop)]
pub enum Spot {
    /// Some lines of its picture.
    InPicture(Draft),
    /// The picture of a broadcast channel, which is kept, and maybe some lines below it.
    InBroadcast(Version, th_bcast::PictureParts<Value>, Course<RingBroadcast, BCall<Value>>),
    /// The same of a watch channel.
    InWatch(th_watch::PictureParts<Value>, Course<ValueWatch, WCall<Value>>),
}

/// Judges one more line, given without its end, or as `None` where it is too long. The spot goes on in place.
#[inline(always)]
pub fn take_line(alloc: Global, spot: &mut Spot, line: Option<&[u8]>) -> Result<(), Stop>
    ensures { (here : Point) → Holds here spot.old
        → Takes here (line_given line.entry) (taken result spot.new) }
{
    let Some(line) = line else {
        return Err(Stop::Bad);
    };
    let begun = match spot {
        Spot::InBroadcast(version, _from, course) => {
            return course::take_line(alloc, *version, course, line);
        }
        Spot::InWatch(_from, course) => return course::take_line(alloc, (), course, line),
        Spot::InPicture(draft) => take_of_picture(alloc, draft, line),
    };
    match begun {
        Ok(None) => Ok(()),
        Ok(Some(begun)) => {
            *spot = begun;
            Ok(())
        }
        Err(why) => Err(why),
    }
}

// Judges one more line of a picture. Where it is the last one, answers what begins below it. Such lines are few: they
// stand apart from the entries' way, which is short without them.
#[inline(never)]
fn take_of_picture(alloc: Global, draft: &mut Draft, line: &[u8]) -> Result<Option<Spot>, Stop>
    ensures { Takes (InPicture draft.old) (Good line.now) (drawn result draft.new) }
{
    match read_picture(alloc, draft, line) {
        Ok(None) => Ok(None),
        Ok(Some((head, picture))) => match begin(alloc, head, picture) {
            Ok(begun) => Ok(Some(begun)),
            Err(why) => Err(why),
        },
        Err(LineFault::BadLine) => Err(Stop::Bad),
        Err(LineFault::Short) => Err(Stop::Short),
    }
}

// Begins the entries below a picture.
fn begin(alloc: Global, head: Head, picture: Picture) -> Result<Spot, Stop>
    ensures { Begins head picture result }
{
    match (head, picture) {
        (Head::Broadcast(version), Picture::Broadcast(parts)) => {
            match course::begin::<BCall<Value>, RingBroadcast>(alloc, parts) {
                Ok((from, course)) => Ok(Spot::InBroadcast(version, from, course)),
                Err(why) => Err(why),
            }
        }
        (Head::Watch, Picture::Watch(parts)) => {
            match course::begin::<WCall<Value>, ValueWatch>(alloc, parts) {
                Ok((from, course)) => Ok(Spot::InWatch(from, course)),
                Err(why) => Err(why),
            }
        }
        _ => Err(Stop::Bad),
    }
}

/// The number of entries, where the trace has ended.
pub fn ended_with(spot: &Spot) -> Option<u64>
    ensures { (here : Point) → Holds here spot.now → result ≡ ended_with here }
{
    match spot {
        Spot::InPicture(_) => None,
        Spot::InBroadcast(_, _, course) => match course.due {
            Due::Nothing => Some(course.count),
            _ => None,
        },
        Spot::InWatch(_, course) => match course.due {
            Due::Nothing => Some(course.count),
            _ => None,
        },
    }
}
