//! A channel's book and the shares of its handles. They are plain numbers, and no call takes
//! memory.
ghost use Rattle.std.specs.Prelude.{◌≡◌, ◌+◌, ◌-◌, ◌^◌, ◌<◌, ◌≤◌, min};

use std::marker::Model;

/// The events of a channel, and how many shares of it are out.
#[derive(Debug, Drop)]
pub struct Book {
    // Tells this channel's shares and receipts from those of others.
    key: u64,
    // One more with each event, by `tick` alone.
    total: u64,
    // The shares that were handed out and not joined since. It stops at 2^64 - 1 and at 0.
    shares_out: u64,
}

impl Model for Book {
    ghost use Rattle.th_seats.specs.Tally.{Tally, coded_tally};

    ghost Value = { Tally };

    ghost coded = { coded_tally };

    ghost view = { λ b. record { key = b.key; total = b.total; shares_out = b.shares_out } };
}

/// The events that were made through one handle. There is no copy.
#[derive(Debug, Drop)]
pub struct Share {
    // The key of the book.
    key: u64,
    // One more with each event of the handle, by `tick` alone.
    count: u64,
}

impl Model for Share {
    ghost use Rattle.th_seats.specs.Tally.{Part, coded_part};

    ghost Value = { Part };

    ghost coded = { coded_part };

    ghost view = { λ s. record { key = s.key; count = s.count } };
}

/// A book with no event, and its first share. Each channel has a key of its own.
pub fn open_book(key: u64) -> (Book, Share)
    ensures book { result.0 ≡ record { key = key; total = 0; shares_out = 1 } }
    ensures share { result.1 ≡ record { key = key; count = 0 } }
{
    let book = Book {
        key,
        total: 0,
        shares_out: 1,
    };
    (book, Share { key, count: 0 })
}

impl Book {
    /// The channel's key.
    pub fn key(&self) -> u64
        ensures { result ≡ self.now.key }
    {
        self.key
    }

    /// The events so far.
    pub fn total(&self) -> u64
        ensures { result ≡ self.now.total }
    {
        self.total
    }

    /// How many shares are out.
    pub fn shares_out(&self) -> u64
        ensures { result ≡ self.now.shares_out }
    {
        self.shares_out
    }
}

impl Share {
    /// The channel's key.
    pub fn key(&self) -> u64
        ensures { result ≡ self.now.key }
    {
        self.key
    }

    /// The events that were made through this share.
    pub fn count(&self) -> u64
        ensures { result ≡ self.now.count }
    {
        self.count
    }
}

/// One more share, with no event. More than 2^64 - 1 are not counted.
pub fn split(book: &mut Book) -> Share
    ensures book { book.new ≡
        record book.old { shares_out = min (book.old.shares_out + 1) (2 ^ 64 - 1) } }
    ensures share { result ≡ record { key = book.old.key; count = 0 } }
{
    book.shares_out = book.shares_out.saturating_add(1);
    Share {
        key: book.key,
        count: 0,
    }
}

/// Two shares of this book as one, with the events of both. One less is out.
pub fn join(book: &mut Book, one: Share, other: Share) -> Share
    requires one { one.key ≡ book.old.key }
    requires other { other.key ≡ book.old.key }
    requires counts { one.count + other.count ≤ book.old.total }
    ensures book { book.new ≡ record book.old { shares_out = book.old.shares_out - 1 } }
    ensures share { result ≡ record { key = book.old.key; count = one.count + other.count } }
{
    // The two counts are at most the total, and so is their sum.
    let _total = book.total;
    book.shares_out = book.shares_out.saturating_sub(1);
    Share {
        key: one.key,
        count: one.count + other.count,
    }
}

/// One event more, in the book and in the share through which it was made.
pub fn tick(book: &mut Book, share: &mut Share)
    requires key { share.old.key ≡ book.old.key }
    requires count { share.old.count ≤ book.old.total }
    requires room { book.old.total < 2 ^ 64 - 1 }
    ensures book { book.new ≡ record book.old { total = book.old.total + 1 } }
    ensures share { share.new ≡ record share.old { count = share.old.count + 1 } }
{
    book.total += 1;
    share.count += 1;
}
