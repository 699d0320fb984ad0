//! Whether the shares that came back account for every event of a channel.
ghost use Rattle.std.specs.Prelude.{◌≡◌, ◌↔◌, IsOk, IfOk, IfErr, IsTrue};
ghost use Rattle.th_seats.specs.Tally.{Settles};

use crate::book::{Book, Share};

/// The shares account for every event.
#[derive(Clone, Copy, Debug, Drop, PartialEq, Eq)]
pub struct Settled {
    /// The events of the channel.
    pub total: u64,
}

// Whether these shares are all that are out, and account for every event.
fn is_settled(book: &Book, shares: &[Share]) -> bool
    ensures { IsTrue result ↔ Settles book.now shares.now }
{
    let mut left = book.total();
    for share in shares {
        if share.key() != book.key() || share.count() > left {
            return false;
        }
        left -= share.count();
    }
    shares.len() as u64 == book.shares_out() && left == 0
}

/// Closes a book with the shares that came back: `Ok` exactly where they are as many as are out,
/// all with the book's key, and their events add up to the total. Else all of them come back.
/// Linear in the shares.
pub fn settle(book: Book, shares: Vec<Share>) -> Result<Settled, (Book, Vec<Share>)>
    ensures settles { IsOk result ↔ Settles book shares.items }
    ensures total { IfOk result (λ settled. settled.total ≡ book.total) }
    ensures back { IfErr result (λ r. (r.0 ≡ book) × (r.1 ≡ shares)) }
{
    if is_settled(&book, shares.as_slice()) {
        Ok(Settled {
            total: book.total(),
        })
    } else {
        Err((book, shares))
    }
}
