//! What a receive is told.
ghost use Rattle.std.specs.Prelude.{◌≡◌, ◌↔◌, ℕ, List, length, IsTrue};
ghost use Rattle.th_bcast.specs.Telling.{reply_to};

use th_model::BReply;
use th_shelf::Received;

// The reply to a receive that finds this, on a channel that is closed or not.
#[inline(always)]
pub fn told<T>(found: Received<T>, closed: bool) -> BReply<T>
    ensures { (senders : List ℕ) → (IsTrue closed ↔ (length senders ≡ 0)) →
        result ≡ reply_to senders found }
{
    match found {
        Received::Nobody => BReply::NoHandle(None),
        Received::Nothing => {
            if closed {
                BReply::Closed
            } else {
                BReply::Empty
            }
        }
        Received::Missed(count) => BReply::Lagged(count),
        Received::Value(value) => BReply::Value(value),
    }
}
