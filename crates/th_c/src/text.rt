//! A text that is handed out piece by piece.
ghost use Rattle.std.specs.Prelude.{◌≡◌, ◌++◌, drop, length, min, take};

use std::marker::Model;

/// A text, and how much of it was handed out. It is seen as what is still to come.
#[derive(Drop)]
pub struct Text {
    // All of it.
    bytes: Vec<u8>,
    // How many of its bytes were handed out.
    at: usize,
}

impl Model for Text {
    ghost use Rattle.std.specs.Prelude.{List, ℕ, ◌≤◌, drop, length};

    ghost Value = { List ℕ };

    ghost view = { λ t. drop t.at t.bytes.items };

    ghost invariant = { λ t. t.at ≤ length t.bytes.items };
}

/// Copies as many bytes as there are, or as there is room for, and says how many.
pub(crate) fn copied(source: &[u8], buffer: &mut [u8]) -> usize
    ensures count { result ≡ min (length buffer.old) (length source.now) }
    ensures bytes { buffer.new ≡ take result source.now ++ drop result buffer.old }
{
    let count = if source.len() < buffer.len() {
        source.len()
    } else {
        buffer.len()
    };
    buffer[..count].copy_from_slice(&source[..count]);
    count
}

impl Text {
    /// The text, of which nothing was handed out.
    pub fn new(bytes: Vec<u8>) -> Text
        ensures { result ≡ bytes.items }
    {
        Text { bytes, at: 0 }
    }

    /// Hands out as many bytes as there is room for, and says how many.
    pub fn read(&mut self, buffer: &mut [u8]) -> usize
        ensures count { result ≡ min (length buffer.old) (length self.old) }
        ensures bytes { buffer.new ≡ take result self.old ++ drop result buffer.old }
        ensures rest { self.new ≡ drop result self.old }
    {
        let count = copied(&self.bytes[self.at..], buffer);
        self.at += count;
        count
    }
}
