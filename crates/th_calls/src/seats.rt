//! Calls of th_seats.
use th_seats::{Book, Share, join, open_book, settle, split, tick};

// What is read of a book and of a share.
pub fn read(book: &Book, share: &Share) -> [u64; 5] {
    [
        book.key(),
        book.total(),
        book.shares_out(),
        share.key(),
        share.count(),
    ]
}

// A book, one event, and the two shares as one.
pub fn keep(key: u64) -> (Book, Share) {
    let (mut book, mut first) = open_book(key);
    let second = split(&mut book);
    tick(&mut book, &mut first);
    let both = join(&mut book, first, second);
    (book, both)
}

pub fn close(book: Book, shares: Vec<Share>) {
    let _ = settle(book, shares);
}
