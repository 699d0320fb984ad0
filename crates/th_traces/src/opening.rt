//! What a picture's lines tell in front of the live handles.
ghost use Rattle.std.specs.Prelude.{◌≡◌, ◌+◌, ◌≤◌, ◌∷◌, [], ◌++◌, MatchOption, vec_len, vec_capacity};
ghost use Rattle.th_lines.specs.Replies.{ended};
ghost use Rattle.th_traces.specs.Openings.{head, kept, start};
ghost use Rattle.th_traces.specs.Spelled.{line, start_of};

use crate::head::Version;
use crate::put::{put_number, put_numbers, put_words};
use itoa::Buffer;
use std::collections::vec_deque;
use th_model::Value;

// What a picture begins with, and what is left of its values.
#[derive(Drop)]
pub(crate) enum Opening<'a> {
    // Of a broadcast channel: the version of the trace, the capacity in force, the least kept
    // position, the position of the next value, and what is left of the kept ones.
    Broadcast(Version, u64, u64, u64, vec_deque::Iter<'a, Value>),
    // Of a watch channel: the number of the newest version, and its value where it is left.
    Watch(u64, Option<&'a Value>),
}

impl<'a> Opening<'a> {
    // Appends the first line, where there is room for it.
    pub(crate) fn put_head(&self, out: &mut Vec<u8>)
        requires { vec_len out.old + 4000 ≤ vec_capacity out.old }
        ensures text { out.new.items ≡ out.old.items ++ ended (line (head self.now)) }
        ensures most { vec_len out.new ≤ vec_len out.old + 4000 }
        ensures room { vec_capacity out.old ≤ vec_capacity out.new }
    {
        match self {
            Opening::Broadcast(version, capacity, _, _, _) => match version {
                Version::One => put_number(b"TRACE 1 B ", *capacity, out),
                Version::Two => put_number(b"TRACE 2 B ", *capacity, out),
            },
            Opening::Watch(_, _) => put_words(b"TRACE 1 W", b"", out),
        }
    }

    // Appends the line of the start, where there is room for it.
    pub(crate) fn put_start(&self, next: u64, out: &mut Vec<u8>)
        requires { vec_len out.old + 4000 ≤ vec_capacity out.old }
        ensures text { out.new.items ≡ out.old.items ++ ended (start_of (start self.now) next) }
        ensures most { vec_len out.new ≤ vec_len out.old + 4000 }
        ensures room { vec_capacity out.old ≤ vec_capacity out.new }
    {
        match self {
            Opening::Broadcast(_, _, low, tail, _) => {
                let mut buffer = Buffer::new();
                let _ = out.extend_from_slice(b"AT ");
                let _ = out.extend_from_slice(buffer.format(*low).as_bytes());
                put_numbers(b" ", *tail, b" NEXT ", next, out);
            }
            Opening::Watch(version, _) => put_numbers(b"AT ", *version, b" NEXT ", next, out),
        }
    }

    // The next of the values that are left.
    pub(crate) fn next_value(&mut self) -> Option<&'a Value>
        ensures { MatchOption result ((kept self.old ≡ []) × (kept self.new ≡ []))
            (λ value. kept self.old ≡ value.now ∷ kept self.new) }
    {
        match self {
            Opening::Broadcast(_, _, _, _, values) => values.next(),
            Opening::Watch(_, value) => value.take(),
        }
    }
}
