//! Lines put into room that is there.
ghost use Rattle.std.specs.Prelude.{◌≡◌, ◌+◌, ◌≤◌, ◌++◌, ◌∷◌, length, vec_len, vec_capacity};
ghost use Rattle.std.specs.Fmt.{decimal};
ghost use Rattle.th_lines.specs.Replies.{ended};
ghost use Rattle.th_traces.specs.Spellings.{IsShort, spelled};

use crate::spelling::Spelling;
use itoa::Buffer;
use th_model::Value;

// Appends some words and what follows them, as a line.
pub fn put_words(words: &[u8], bytes: &[u8], out: &mut Vec<u8>)
    requires short { (length words.now ≤ 100) × (length bytes.now ≤ 1500) }
    requires free { vec_len out.old + 2000 ≤ vec_capacity out.old }
    ensures text { out.new.items ≡ out.old.items ++ ended (words.now ++ bytes.now) }
    ensures most { vec_len out.new ≤ vec_len out.old + 2000 }
    ensures room { vec_capacity out.old ≤ vec_capacity out.new }
{
    let _ = out.extend_from_slice(words);
    let _ = out.extend_from_slice(bytes);
    out.push_reserved(b'\n');
}

// Appends some words and a number, as a line.
pub fn put_number(words: &[u8], n: u64, out: &mut Vec<u8>)
    requires short { length words.now ≤ 100 }
    requires free { vec_len out.old + 2000 ≤ vec_capacity out.old }
    ensures text { out.new.items ≡ out.old.items ++ ended (words.now ++ decimal n) }
    ensures most { vec_len out.new ≤ vec_len out.old + 2000 }
    ensures room { vec_capacity out.old ≤ vec_capacity out.new }
{
    let mut buffer = Buffer::new();
    put_words(words, buffer.format(n).as_bytes(), out);
}

// Appends some words and a value, as a line.
pub fn put_value(words: &[u8], value: &Value, out: &mut Vec<u8>)
    requires short { length words.now ≤ 100 }
    requires free { vec_len out.old + 2000 ≤ vec_capacity out.old }
    ensures text { out.new.items ≡ out.old.items ++ ended (words.now ++ value.now) }
    ensures most { vec_len out.new ≤ vec_len out.old + 2000 }
    ensures room { vec_capacity out.old ≤ vec_capacity out.new }
{
    let bytes = value.as_bytes();
    prove!(bytes.len() <= 1024);
    put_words(words, bytes, out);
}

// Appends some words, a number, and a value or another last field, as a line.
pub fn put_number_and(words: &[u8], n: u64, last: &[u8], out: &mut Vec<u8>)
    requires short { (length words.now ≤ 100) × (length last.now ≤ 1100) }
    requires free { vec_len out.old + 2000 ≤ vec_capacity out.old }
    ensures text { out.new.items
        ≡ out.old.items ++ ended (words.now ++ (decimal n ++ 32 ∷ last.now)) }
    ensures most { vec_len out.new ≤ vec_len out.old + 2000 }
    ensures room { vec_capacity out.old ≤ vec_capacity out.new }
{
    let mut buffer = Buffer::new();
    let _ = out.extend_from_slice(words);
    let _ = out.extend_from_slice(buffer.format(n).as_bytes());
    out.push_reserved(b' ');
    let _ = out.extend_from_slice(last);
    out.push_reserved(b'\n');
}

// Appends some words, a number and a value, as a line.
pub fn put_number_and_value(words: &[u8], n: u64, value: &Value, out: &mut Vec<u8>)
    requires short { length words.now ≤ 100 }
    requires free { vec_len out.old + 2000 ≤ vec_capacity out.old }
    ensures text { out.new.items
        ≡ out.old.items ++ ended (words.now ++ (decimal n ++ 32 ∷ value.now)) }
    ensures most { vec_len out.new ≤ vec_len out.old + 2000 }
    ensures room { vec_capacity out.old ≤ vec_capacity out.new }
{
    let bytes = value.as_bytes();
    prove!(bytes.len() <= 1024);
    put_number_and(words, n, bytes, out);
}

// Appends some words, a number, a few more words, and a number, as a line.
pub fn put_numbers(words: &[u8], n: u64, more: &[u8], m: u64, out: &mut Vec<u8>)
    requires short { (length words.now ≤ 100) × (length more.now ≤ 100) }
    requires free { vec_len out.old + 2000 ≤ vec_capacity out.old }
    ensures text { out.new.items
        ≡ out.old.items ++ ended (words.now ++ (decimal n ++ (more.now ++ decimal m))) }
    ensures most { vec_len out.new ≤ vec_len out.old + 2000 }
    ensures room { vec_capacity out.old ≤ vec_capacity out.new }
{
    let mut first = Buffer::new();
    let mut second = Buffer::new();
    let _ = out.extend_from_slice(words);
    let _ = out.extend_from_slice(first.format(n).as_bytes());
    let _ = out.extend_from_slice(more);
    let _ = out.extend_from_slice(second.format(m).as_bytes());
    out.push_reserved(b'\n');
}

// Appends a line.
#[inline(always)]
pub fn put_spelling(spelling: Spelling<'_>, out: &mut Vec<u8>)
    requires short { IsShort spelling }
    requires free { vec_len out.old + 2000 ≤ vec_capacity out.old }
    ensures text { out.new.items ≡ out.old.items ++ ended (spelled spelling.entry) }
    ensures most { vec_len out.new ≤ vec_len out.old + 2000 }
    ensures room { vec_capacity out.old ≤ vec_capacity out.new }
{
    match spelling {
        Spelling::Words(words) => put_words(words, b"", out),
        Spelling::Number(words, n) => put_number(words, n, out),
        Spelling::OfValue(words, value) => put_value(words, value, out),
    }
}
