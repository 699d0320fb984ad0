//! Laws of the definitions. The contract of each function is the law: what the body does is of no use but to its proof.
ghost use Rattle.std.specs.Prelude.{◌≡◌, ◌↔◌, ◌≤◌, ◌⊎◌, ℕ, IsTrue, List, ◌∷◌, length, Option, None};
ghost use Rattle.th_lines.specs.Lines.{Line, lines_of};
ghost use Rattle.th_traces.specs.Traces.{broadcast_trace, watch_trace};
ghost use Rattle.th_traces.specs.declared.picture.Picture.{Picture};
ghost use Rattle.th_check.specs.declared.parts.Joined.{Joined};
ghost use Rattle.th_check.specs.Histories.{IsTrace};
ghost use Rattle.th_check.specs.Joined.{AreAdded, IsBroadcastHistory, IsOpening, IsSoundPicture, IsWatchHistory, Reach, SaysNext, is_opening};
ghost use Rattle.th_check.specs.Stages.{most_entries};
ghost use Rattle.th_check.specs.Verdicts.{IsLegalText, IsSo};

use crate::course::{RingBroadcast, ValueWatch};
use crate::printed::{are_entries, are_kept_values, is_value};
use crate::verdict::Verdict;
use th_bcast::Broadcast;
use th_log::{Compared, Segment};
use th_model::Value;
use th_shelf::Shelf;
use th_watch::Watch;

/// Of every text exactly one verdict is so.
pub fn one_verdict()
    ensures { (text : List ℕ) → (verdict : Verdict) × IsSo (lines_of text) verdict
        × ((other : Verdict) → IsSo (lines_of text) other → other ≡ verdict) }
{
    RingBroadcast::are_exact();
    ValueWatch::are_exact();
}

/// Lines are a legal text with so many entries exactly where they are the spelling of a picture, and
/// below it that of a history that is legal from it, with as many entries and no more than 1,000,000.
pub fn legal_texts()
    ensures { (lines : List Line) (count : ℕ) → IsLegalText lines count ↔ IsTrace lines count }
{}

/// Of a text that comes next in a history one thing is said, and the history has come to one place then.
pub fn one_next()
    ensures { (here : Option Reach) (lines : List Line)
        → (said other : Joined) (there elsewhere : Option Reach)
        → SaysNext here lines said there → SaysNext here lines other elsewhere
        → (said ≡ other) × (there ≡ elsewhere) }
{}

/// Texts are added one after the other, the first of them to a history without a part yet, exactly where they tell one
/// legal history: each is a legal text, and begins with the picture to which the entries before it lead.
pub fn joined_texts()
    ensures { (text : List Line) (later : List (List Line))
        → (count : ℕ) (there : Option Reach)
        → AreAdded None (text ∷ later) count there
        ↔ (IsBroadcastHistory (text ∷ later) count there
        ⊎ IsWatchHistory (text ∷ later) count there) }
{}

/// Of the pictures that some channel looks like, those of a channel that was just opened are known by their handles, and of
/// a watch channel by its version.
pub fn openings()
    ensures { (shown : Picture) → IsSoundPicture shown
        → IsTrue (is_opening shown) ↔ IsOpening shown }
{}

/// What a segment of a broadcast channel's history is printed as is a legal text, with as many entries:
/// whatever calls were made and replies given, they are read again, and judged legal. A segment that was
/// joined of others can have more entries than a text may. Linear in the entries and the kept values.
pub fn printed_broadcast_traces_are_legal<S: Shelf<Value> + Drop>(
    segment: &Segment<Broadcast<Value, S>>,
)
    ensures { let s = segment.now in length s.entries ≤ most_entries
        → IsLegalText (lines_of (broadcast_trace s.start s.entries)) (length s.entries) }
{
    let _ = segment.len();
    are_kept_values(segment.start());
    are_entries(segment.entries());
}

/// The same of a watch channel's. Linear in the entries.
pub fn printed_watch_traces_are_legal(segment: &Segment<Watch<Value>>)
    ensures { let s = segment.now in length s.entries ≤ most_entries
        → IsLegalText (lines_of (watch_trace s.start s.entries)) (length s.entries) }
{
    let _ = segment.len();
    is_value(segment.start().value());
    are_entries(segment.entries());
}
